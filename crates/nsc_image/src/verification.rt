// The checks of an image.
ghost use Rattle.std.specs.Prelude.{◌≡◌, ℕ, List, length, IfOk, IfErr};
ghost use Rattle.nsc_image.specs.Faults.{IsFault, IsOpened};
ghost use Rattle.nsc_image.specs.Versions.{number_of};
ghost use Rattle.nsc_model.specs.Image.{ImageBytes, Saved};

use crate::fault::ImageFault;
use crate::image::Image;
use crate::layout::{
    COUNT_FIELD, DATABASE_FIELD, DIGEST, ENTRIES, MAGIC, VERSION_FIELD, db_number, entries_fault,
};
use crate::version::Version;
use nsc_base::{equal, u32_at};
use nsc_model::Db;
use sha2::{Digest, Sha256};

/// Checks that the bytes are an image of a database, of version 2 or 3. In version 2 each entry has the count of reloads 0.
///
/// Each byte is read for the digest, and the fields once more. No memory is taken: the bytes lend the image's keys and replies.
///
/// # Errors
///
/// The first check that fails, in the order of `ImageFault`.
pub fn verify(bytes: &[u8], db: Db) -> Result<Image, ImageFault>
    // What is accepted is the image of these entries in some version, and each image is accepted.
    ensures image { IfOk result (λ entries. (version : ℕ) × ImageBytes db version entries bytes.now) }
    ensures only { (version : ℕ) (entries : List Saved) → ImageBytes db version entries bytes.now → result ≡ Ok entries }
    // A fault that is told is one of the bytes, and bytes have no other one.
    ensures fault { IfErr result (IsFault db bytes.now) }
    ensures first { (fault : ImageFault) → IsFault db bytes.now fault → result ≡ Err fault }
{
    checked(bytes, db)
}

// Checks the bytes as `verify` does, with its first and its third clause alone.
fn checked(bytes: &[u8], db: Db) -> Result<Image, ImageFault>
    ensures image { IfOk result (λ entries. (version : ℕ) × ImageBytes db version entries bytes.now) }
    ensures fault { IfErr result (IsFault db bytes.now) }
{
    let (version, count, entries) = opened(bytes, db)?;
    match entries_fault(db, version, count, entries) {
        Some(place) => Err(ImageFault::Layout {
            at: ENTRIES + place,
        }),
        None => Ok(Image::new(version, count, entries)),
    }
}

// Gives the version, the count of the entries and their bytes, if each check up to those of the entries passes.
fn opened(bytes: &[u8], db: Db) -> Result<(Version, u32, &[u8]), ImageFault>
    ensures ok { IfOk result (λ opened. IsOpened db bytes.now (number_of opened.0) opened.1 opened.2.now) }
    ensures fault { IfErr result (IsFault db bytes.now) }
{
    if bytes.len() < ENTRIES + DIGEST {
        return Err(ImageFault::NotImage);
    }
    if !equal(&bytes[..VERSION_FIELD], &MAGIC) {
        return Err(ImageFault::NotImage);
    }
    let number = u32_at(bytes, VERSION_FIELD);
    let Some(version) = Version::numbered(number) else {
        return Err(ImageFault::ImageVersion(number));
    };
    let (front, kept) = bytes.split_at(bytes.len() - DIGEST);
    let found = Sha256::digest(front);
    if !equal(kept, &found) {
        return Err(ImageFault::Digest {
            kept: digest_in(kept),
            found,
        });
    }
    if u32_at(bytes, DATABASE_FIELD) != db_number(db) {
        return Err(ImageFault::Layout { at: DATABASE_FIELD });
    }
    let (_, entries) = front.split_at(ENTRIES);
    Ok((version, u32_at(bytes, COUNT_FIELD), entries))
}

// Copies the bytes of a digest.
fn digest_in(bytes: &[u8]) -> [u8; 32]
    requires { length bytes.now ≡ 32 }
    ensures { result ≡ bytes.now }
{
    let mut digest = [0; DIGEST];
    digest.copy_from_slice(bytes);
    digest
}
