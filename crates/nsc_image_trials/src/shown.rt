// What comes of an image.
ghost use Rattle.std.specs.Prelude.{◌≡◌, IfOk, None};

use crate::files::users;
use nsc_answer::Plain;
use nsc_base::{Buf, NoMemory};
use nsc_image::{Image, Kept, restore, verify};
use nsc_model::{Answerer, Conf, Db, KEPT_LIMIT, KEY_LIMIT};
use nsc_words::Layout;
use nsc_writer::Writer;
use std::alloc::Global;
use std::io;
use std::io::Print;
use std::sync::Arc;

// The table into which entries come back.
const LAYOUT: Layout = Layout {
    buckets: 4,
    arena: 128,
};

// The moment at which they do, in seconds.
const NOW: u64 = 20;

/// Tells what came of an image of users: its fault, or what it brought back.
pub fn show<R: Print>(rt: &R, alloc: Global, bytes: &[u8]) -> io::Result<()> {
    match verify(bytes, Db::Passwd) {
        Ok(image) => {
            let (kept, writer) = restored(alloc, &image).map_err(wanting)?;
            println!(rt; "kept {} dropped {}", kept.kept, kept.dropped)?;
            show_entries(rt, alloc, writer, kept.kept)
        }
        Err(fault) => println!(rt; "{fault}"),
    }
}

// Brings the entries of an image back.
fn restored(alloc: Global, image: &Image) -> Result<(Kept, Writer), NoMemory>
    ensures { IfOk result (λ r. r.1.slide ≡ None) }
{
    let content = Arc::new(alloc, users(alloc)?)?;
    let (mut writer, _pass) = Writer::new(alloc, LAYOUT, content.clone()?)?;
    let ready = Plain.prepare(alloc, content)?;
    let settings = Conf::defaults().passwd;
    let kept = restore(alloc, image, &ready, &Plain, &settings, NOW, &mut writer)?;
    Ok((kept, writer))
}

// Tells each of `count` entries in a line: its number, its kind, its key and its reply by digits, its mark, its count of reloads and its
// timeout.
fn show_entries<R: Print>(rt: &R, alloc: Global, mut writer: Writer, count: u64) -> io::Result<()>
    requires { writer.slide ≡ None }
{
    let mut key = Buf::new(alloc, KEY_LIMIT).map_err(wanting)?;
    let mut reply = Buf::new(alloc, KEPT_LIMIT).map_err(wanting)?;
    let mut from = 0;
    'entries: for _ in 0..count {
        let Some(entry) = writer.entry(from, &mut key, &mut reply) else {
            break;
        };
        let asked = hex::encode(alloc, key.bytes())?;
        let said = hex::encode(alloc, reply.bytes())?;
        println!(rt;
            "{} {:?} {} {} {} {} {}",
            entry.number,
            entry.kind,
            asked.as_str(),
            said.as_str(),
            entry.not_found,
            entry.reloads,
            entry.timeout
        )?;
        from = entry.next;
    }
    Ok(())
}

// Want of memory, as an error of output.
fn wanting(_e: NoMemory) -> io::Error {
    io::Error::from(io::ErrorKind::OutOfMemory)
}
