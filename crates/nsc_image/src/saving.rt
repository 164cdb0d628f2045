// The image of the entries that a writer has.
ghost use Rattle.std.specs.Prelude.{◌≡◌, All, None, IfOk};
ghost use Rattle.nsc_model.specs.Image.{ImageBytes, image_version, saved_count};
ghost use Rattle.nsc_image.specs.Saving.{IsEntryOf, saved_entries};

use crate::builder::ImageBuilder;
use crate::saved::Saved;
use nsc_base::{Buf, Bytes, NoMemory};
use nsc_model::{Db, KEPT_LIMIT, KEY_LIMIT};
use nsc_writer::Writer;
use std::alloc::Global;

/// Makes the image of the live entries of a database, in version 3 and in the order of their numbers.
///
/// No compaction is under way. Each entry is of the database `db`, with a timeout below 2^63. A count of reloads above `u32::MAX` is
/// saved as `u32::MAX`. The writer stays as it is.
///
/// # Errors
///
/// `NoMemory`, if memory is short.
pub fn save(alloc: Global, db: Db, writer: &mut Writer) -> Result<Bytes, NoMemory>
    requires still { writer.old.slide ≡ None }
    requires entries { All (λ k. IsEntryOf db k.entry) writer.old.cache.entries }
    ensures image { IfOk result (ImageBytes db image_version (saved_entries writer.old.cache.entries)) }
    ensures same { writer.new ≡ writer.old }
{
    writer.learn();
    let mut builder = ImageBuilder::new(alloc, db)?;
    let mut key = Buf::new(alloc, KEY_LIMIT)?;
    let mut reply = Buf::new(alloc, KEPT_LIMIT)?;
    let mut from = 0;
    'entries: while let Some(entry) = writer.entry(from, &mut key, &mut reply) {
        let saved = Saved::new(
            entry.number,
            entry.kind,
            key.bytes(),
            reply.bytes(),
            entry.not_found,
            saved_count(entry.reloads),
            entry.timeout,
        );
        builder.push(&saved)?;
        from = entry.next;
    }
    builder.seal()
}

// Gives the count of reloads that an image has, which is at most `u32::MAX`.
fn saved_count(reloads: u64) -> u32
    ensures { result ≡ saved_count reloads }
{
    u32::try_from(reloads).unwrap_or(u32::MAX)
}
