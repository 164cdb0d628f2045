// The entries of an image, back into the cache of a new database.
ghost use Rattle.std.specs.Prelude.{◌≡◌, ℕ, ◌+◌, ◌<◌, ◌^◌, None, IfOk, IfSome, OnOk, OnErr, length};
ghost use Rattle.std.specs.Bool.{OnFalse, OnTrue};
ghost use Rattle.nsc_model.specs.Entry.{Entry};
ghost use Rattle.nsc_model.specs.History.{HasEnd, HasLoad, loads};
ghost use Rattle.nsc_writer.specs.Writer.{IsAnswered, IsNewest, passed_by};
ghost use Rattle.nsc_image.specs.Restoring.{RestoresFront, loaded_again, restored_by, same_answer, tried_again};

use crate::image::Image;
use crate::saved::Saved;
use nsc_base::{Bytes, NoMemory, equal};
use nsc_model::{Answer, Answerer, DbConf};
use nsc_writer::{Inserted, Loaded, Stamp, Writer};
use std::alloc::Global;

/// How many entries of an image were inserted, and how many were not.
#[derive(Clone, Copy, Debug, PartialEq, Eq)]
pub struct Kept {
    /// Those that were inserted.
    pub kept: u64,
    /// All others.
    pub dropped: u64,
}

/// Inserts the entries of an image into a new database, in their order, and counts them.
///
/// The newest version of `writer` is the content that `ready` was prepared from, and its number is 0. No entry was inserted before, and
/// no compaction is under way. The moment `now`, in seconds, is below 2^62.
///
/// - An entry is dropped if the answer to its request over that content has other bytes, or another not-found mark.
/// - Else the answer is inserted with the entry's count of reloads. Its timeout is the smaller of the entry's timeout, and `now` plus
///   the time-to-live of the answer.
/// - If `Writer::insert` refuses the answer, the entry is dropped too. So an entry is dropped if one of its request is there already,
///   and all are dropped if the database was invalidated before.
///
/// The table does not grow.
///
/// # Errors
///
/// `NoMemory`, if memory is short. The entries before some place in the image are then inserted or dropped as above, and the others
/// were not tried.
pub fn restore<A: Answerer>(
    alloc: Global,
    image: &Image<'_>,
    ready: &A::Ready,
    answers: &A,
    settings: &DbConf,
    now: u64,
    writer: &mut Writer,
) -> Result<Kept, NoMemory>
    requires newest { IsNewest (A.prepared_from ready.now) 0 writer.old.cache }
    requires none { loads writer.old.seen ≡ 0 }
    requires still { writer.old.slide ≡ None }
    requires moment { now < 2 ^ 62 }
    ensures restored { OnOk result (writer.new ≡ restored_by settings.now now (A.prepared_from ready.now) image.now writer.old) }
    ensures kept { IfOk result (λ counts. counts.kept ≡ loads writer.new.seen) }
    ensures dropped { IfOk result (λ counts. counts.kept + counts.dropped ≡ length image.now) }
    ensures front { OnErr result (RestoresFront settings.now now (A.prepared_from ready.now) image.now writer.old writer.new) }
    ensures newest { IsNewest (A.prepared_from ready.now) 0 writer.new.cache }
    // Each entry that was inserted is over version 0, and only what ended before has ended.
    ensures versions { (e : Entry) → HasLoad writer.new.seen e → e.version ≡ 0 }
    ensures none_ended { (number : ℕ) → HasEnd writer.new.seen number → HasEnd writer.old.seen number }
{
    writer.learn();
    let count = image.count();
    let mut kept = 0;
    'entries: for saved in image.entries() {
        let loaded = loaded_again(alloc, ready, answers, settings, now, &saved)?;
        if insert(writer, loaded) {
            kept += 1;
        }
    }
    let dropped = count - kept;
    Ok(Kept { kept, dropped })
}

// Makes what an entry brings back: nothing if the answer to its request is another one.
fn loaded_again<A: Answerer>(
    alloc: Global,
    ready: &A::Ready,
    answers: &A,
    settings: &DbConf,
    now: u64,
    saved: &Saved,
) -> Result<Option<Loaded>, NoMemory>
    requires { now < 2 ^ 62 }
    ensures { IfOk result (λ loaded. loaded ≡ loaded_again settings.now now (A.prepared_from ready.now) saved.now) }
{
    let answer = answers.answer(alloc, ready, saved.kind(), saved.key())?;
    if !has_answer(saved, &answer) {
        return Ok(None);
    }
    let key = Bytes::copy(alloc, saved.key())?;
    let timeout = saved.timeout().min(now + settings.life_of(&answer));
    let reloads = u64::from(saved.reloads());
    let stamp = Stamp {
        version: 0,
        epoch: 0,
    };
    let loaded = Loaded::new(saved.kind(), key, answer, stamp, timeout, reloads);
    Ok(Some(loaded))
}

// Tells whether an entry has the bytes and the mark of this answer.
fn has_answer(saved: &Saved, answer: &Answer) -> bool
    ensures { result ≡ same_answer saved.now.answer answer.now }
{
    equal(saved.reply(), answer.bytes()) && saved.is_not_found() == answer.is_not_found()
}

// Tries the insertion of what an entry brings back, if anything. True if it was inserted.
fn insert(writer: &mut Writer, loaded: Option<Loaded>) -> bool
    requires answered { IfSome loaded (IsAnswered writer.old.seen) }
    requires still { writer.old.slide ≡ None }
    ensures tried { writer.new ≡ passed_by (tried_again writer.old.layout.arena loaded writer.old.cache) writer.old }
    ensures inserted { OnTrue result (loads writer.new.seen ≡ loads writer.old.seen + 1) }
    ensures refused { OnFalse result (loads writer.new.seen ≡ loads writer.old.seen) }
{
    match loaded {
        Some(loaded) => matches!(writer.insert_lent(&loaded), Inserted::Done { number: _ }),
        None => false,
    }
}
