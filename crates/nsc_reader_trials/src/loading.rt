// Polls and insertions by a writer, for a user or for a key.
ghost use Rattle.std.specs.Prelude.{◌≡◌, ◌≤◌, None, length};
ghost use Rattle.nsc_model.specs.Entry.{key_limit};

// Insertions by a writer.
use crate::files::name_of;
use nsc_answer::Plain;
use nsc_base::NoMemory;
use nsc_model::{Answerer, Conf, Content, Kind};
use nsc_turns::{Answering, insert, load};
use nsc_writer::{Inserted, Writer};
use std::alloc::Global;
use std::sync::Arc;

/// Polls the files, answers for a user over them, and inserts the answer: its number, or `None` where that is refused. Fails only for
/// want of memory.
pub fn insert_user(
    alloc: Global,
    writer: &mut Writer,
    files: &Arc<Content>,
    user: u32,
) -> Result<Option<u64>, NoMemory>
    requires { writer.old.slide ≡ None }
    ensures { writer.new.slide ≡ None }
{
    let said = insert_key(alloc, writer, files, &name_of(user))?;
    Ok(number_in(said))
}

/// Polls the files, answers for a name over them, and tries to insert the answer: what became of it, or `None` where the poll cannot be
/// counted. Fails only for want of memory.
pub fn insert_key(
    alloc: Global,
    writer: &mut Writer,
    files: &Arc<Content>,
    name: &[u8],
) -> Result<Option<Inserted>, NoMemory>
    requires name { length name.now ≤ key_limit }
    requires still { writer.old.slide ≡ None }
    ensures still { writer.new.slide ≡ None }
    ensures table { writer.new.table ≡ writer.old.table }
{
    writer.learn();
    let epoch = writer.epoch();
    let Ok(stamp) = writer.record_poll(files.clone()?, epoch) else {
        return Ok(None);
    };
    let answering = Answering {
        settings: Conf::defaults().passwd,
        stamp,
        moment: 0,
    };
    let ready = Plain.prepare(alloc, files.clone()?)?;
    let loaded = load(alloc, &Plain, &ready, &answering, Kind::PwName, name, 0)?;
    writer.learn();
    let (said, _) = insert(writer, loaded);
    Ok(Some(said))
}

/// The number of what was inserted.
pub fn number_in(said: Option<Inserted>) -> Option<u64> {
    match said {
        Some(Inserted::Done { number }) => Some(number),
        _ => None,
    }
}
