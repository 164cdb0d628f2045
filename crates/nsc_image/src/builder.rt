// An image in the making.
ghost use Rattle.std.specs.Prelude.{◌≡◌, ◌≤◌, ◌++◌, IfOk, vec_len};
ghost use Rattle.sha2.specs.Sha256.{sha256};
ghost use Rattle.nsc_image.specs.Draft.{counted};
ghost use Rattle.nsc_model.specs.Image.{image_head, image_version};

use crate::layout::{COUNT_FIELD, ENTRIES, MAGIC, db_number};
use crate::room::{put, put_field, put_saved};
use crate::saved::Saved;
use crate::version::Version;
use byteorder::{ByteOrder, LittleEndian};
use nsc_base::{Bytes, NoMemory};
use nsc_model::Db;
use sha2::{Digest, Sha256};
use std::alloc::Global;
use std::marker::Model;

/// An image of version 3 in the making. Contracts see it as its database and the entries that were added so far.
#[derive(Debug, Drop)]
pub struct ImageBuilder {
    db: Db,
    count: u32,
    bytes: Vec<u8>,
}

impl Model for ImageBuilder {
    ghost use Rattle.nsc_image.specs.Draft.{Draft, IsDraft, draft_of};

    ghost Value = { Draft };

    ghost view = { λ b. draft_of b.db b.count b.bytes.items };

    ghost invariant = { λ b. IsDraft b.db b.count b.bytes.items };
}

impl ImageBuilder {
    ghost use Rattle.std.specs.Prelude.{◌≡◌, ◌+◌, ◌<◌, ◌^◌, ◌++◌, ◌∷◌, [], None, IsTrue, length, IfOk, OnOk, OnErr};
    ghost use Rattle.nsc_image.specs.Draft.{Draft, IsDraft, draft_of};
    ghost use Rattle.nsc_model.specs.Image.{ImageBytes, IsSaved, image_version, is_above, last_number};

    /// Begins an image of a database, without entries.
    ///
    /// # Errors
    ///
    /// `NoMemory`, if memory is short.
    pub fn new(alloc: Global, db: Db) -> Result<ImageBuilder, NoMemory>
        ensures { IfOk result (λ draft. draft ≡ record { db = db; entries = [] }) }
    {
        Ok(ImageBuilder {
            db,
            count: 0,
            bytes: head(alloc, db)?,
        })
    }

    /// Adds an entry of the database.
    ///
    /// - Its number is above those of the entries before it.
    /// - Its timeout is below 2^63.
    /// - With it there are fewer than 2^32 entries.
    ///
    /// # Errors
    ///
    /// `NoMemory`, if memory is short: then nothing changes.
    pub fn push(&mut self, saved: &Saved) -> Result<(), NoMemory>
        requires is { IsSaved self.old.db image_version saved.now }
        requires above { IsTrue (is_above (last_number None self.old.entries) saved.now.number) }
        requires count { length self.old.entries + 1 < 2 ^ 32 }
        ensures ok { OnOk result (self.new ≡ record self.old { entries = self.old.entries ++ saved.now ∷ [] }) }
        ensures err { OnErr result (self.new ≡ self.old) }
    {
        put_saved(&mut self.bytes, saved)?;
        self.count += 1;
        Ok(())
    }

    /// Ends the image, and gives its bytes, with its count and its digest.
    ///
    /// # Errors
    ///
    /// `NoMemory`, if memory is short.
    pub fn seal(self) -> Result<Bytes, NoMemory>
        ensures { IfOk result (ImageBytes self.db image_version self.entries) }
    {
        let count = self.count;
        Ok(Bytes::from_vec(sealed(self.bytes, count)?))
    }
}

// Makes the head of an image without its count.
fn head(alloc: Global, db: Db) -> Result<Vec<u8>, NoMemory>
    ensures { IfOk result (λ bytes. bytes.items ≡ image_head db image_version 0) }
{
    let mut bytes = Vec::with_capacity(alloc, ENTRIES)?;
    put(&mut bytes, &MAGIC);
    put_field(&mut bytes, Version::Three.number());
    put_field(&mut bytes, db_number(db));
    put_field(&mut bytes, 0);
    Ok(bytes)
}

// Makes the image of which these are the bytes before the digest, but for the count.
fn sealed(bytes: Vec<u8>, count: u32) -> Result<Vec<u8>, NoMemory>
    requires { 20 ≤ vec_len bytes }
    ensures { IfOk result (λ image. image.items ≡ counted count bytes.items ++ sha256 (counted count bytes.items)) }
{
    let mut bytes = bytes;
    write_count(&mut bytes, count);
    let digest = Sha256::digest(bytes.as_slice());
    bytes.extend_from_slice(&digest)?;
    Ok(bytes)
}

// Writes the count of entries into the head.
fn write_count(bytes: &mut Vec<u8>, count: u32)
    requires { 20 ≤ vec_len bytes.old }
    ensures { bytes.new.items ≡ counted count bytes.old.items }
{
    LittleEndian::write_u32(&mut bytes[COUNT_FIELD..], count);
}
