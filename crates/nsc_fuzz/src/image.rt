// The reader of images.
ghost use Rattle.std.specs.Prelude.{◌≡◌, ℕ, ◌++◌, List, IfNone, IfOk, IfSome, OnOk, flat_map};
ghost use Rattle.nsc_image.specs.Faults.{IsFault};
ghost use Rattle.nsc_image.specs.declared.fault.ImageFault.{ImageFault};
ghost use Rattle.nsc_model.specs.Image.{ImageBytes, Saved};
ghost use Rattle.nsc_model.specs.Kinds.{db_numbered};
ghost use Rattle.nsc_fuzz.specs.Told.{IsNotTold, IsTold, image_told, saved_told};

use crate::put::{hand_over, put_flag, put_kind, put_number, put_text};
use nsc_base::NoMemory;
use nsc_image::{Image, ImageFault, Saved, verify};
use nsc_model::Db;
use std::alloc::Global;

/// The image of a database, where `db` is 0 for passwd, 1 for group, 2 for hosts and 3 for services: 0, with 1 and an entry for each
/// entry, and 0 behind the last one; 1 for bytes that are no image; 2 for another version, with it; 3 for another digest, with the one
/// in the image and the right one as texts; 4 for a fault of the layout, with its place.
///
/// An entry is its number, its type, its key and its reply as texts, the flag of a not-found reply, its count of reloads and its timeout.
/// The count is 0 in an image of version 2.
#[unsafe(no_mangle)]
pub extern "C" fn nsc_verify(alloc: Global, db: u8, bytes: &[u8], room: &mut [u8]) -> usize
    ensures images { IfSome (db_numbered db) (λ d. (version : ℕ) (entries : List Saved) → ImageBytes d version entries bytes.now
        → IsTold (image_told (Ok entries)) room.old room.new result) }
    ensures faults { IfSome (db_numbered db) (λ d. (fault : ImageFault) → IsFault d bytes.now fault
        → IsTold (image_told (Err fault)) room.old room.new result) }
    ensures none { IfNone (db_numbered db) (IsNotTold room.old room.new result) }
{
    match Db::numbered(db) {
        Some(db) => hand_over(told(alloc, &verify(bytes, db)), room),
        None => 0,
    }
}

// What the answer about an image is told as.
fn told(alloc: Global, answer: &Result<Image<'_>, ImageFault>) -> Result<Vec<u8>, NoMemory>
    ensures { IfOk result (λ told. told.items ≡ image_told answer.now) }
{
    let mut out = Vec::new(alloc);
    match answer {
        Ok(image) => {
            put_number(&mut out, 0)?;
            put_entries(&mut out, image)?;
            put_number(&mut out, 0)?;
        }
        Err(ImageFault::NotImage) => put_number(&mut out, 1)?,
        Err(ImageFault::ImageVersion(version)) => {
            put_number(&mut out, 2)?;
            put_number(&mut out, u64::from(*version))?;
        }
        Err(ImageFault::Digest { kept, found }) => {
            put_number(&mut out, 3)?;
            put_text(&mut out, kept)?;
            put_text(&mut out, found)?;
        }
        Err(ImageFault::Layout { at }) => {
            put_number(&mut out, 4)?;
            put_number(&mut out, *at as u64)?;
        }
    }
    Ok(out)
}

// Puts the entries of an image.
fn put_entries(out: &mut Vec<u8>, image: &Image<'_>) -> Result<(), NoMemory>
    ensures { OnOk result (out.new.items ≡ out.old.items ++ flat_map saved_told image.now) }
{
    'entries: for saved in image.entries() {
        put_saved(out, &saved)?;
    }
    Ok(())
}

// Puts an entry of an image.
#[tactic(auto, unfolding(crate::specs::Told::saved_told))]
fn put_saved(out: &mut Vec<u8>, saved: &Saved<'_>) -> Result<(), NoMemory>
    ensures { OnOk result (out.new.items ≡ out.old.items ++ saved_told saved.now) }
{
    put_number(out, 1)?;
    put_number(out, saved.number())?;
    put_kind(out, saved.kind())?;
    put_text(out, saved.key())?;
    put_text(out, saved.reply())?;
    put_flag(out, saved.is_not_found())?;
    put_number(out, u64::from(saved.reloads()))?;
    put_number(out, saved.timeout())
}
