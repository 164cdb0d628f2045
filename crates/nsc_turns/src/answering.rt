// What is made to be inserted.
ghost use Rattle.std.specs.Prelude.{◌≡◌, ◌≤◌, ◌<◌, ◌^◌, length, map, IfOk};
ghost use Rattle.nsc_model.specs.Answers.{answer_of};
ghost use Rattle.nsc_model.specs.Entry.{key_limit};
ghost use Rattle.nsc_turns.specs.Loads.{anew_of, beside_of, loaded_of};

use nsc_base::{Bytes, NoMemory};
use nsc_model::{Answerer, DbConf, Kind};
use nsc_propagate::id_request;
use nsc_pruner::Due;
use nsc_writer::{Loaded, Stamp};
use std::alloc::Global;

/// What answers have in common that are made over one version to be inserted: the settings of their database, the stamp of the
/// version, and the moment, in seconds.
#[derive(Clone, Copy)]
pub struct Answering {
    pub settings: DbConf,
    pub stamp: Stamp,
    pub moment: u64,
}

/// The answer to the request of this kind and key over the version from which `ready` was made, as it is to be inserted with
/// `reloads` reloads without a use. Fails only for want of memory.
pub fn load<A: Answerer>(
    alloc: Global,
    answers: &A,
    ready: &A::Ready,
    answering: &Answering,
    kind: Kind,
    key: &[u8],
    reloads: u64,
) -> Result<Loaded, NoMemory>
    requires key { length key.now ≤ key_limit }
    requires moment { answering.now.moment < 2 ^ 62 }
    ensures { IfOk result (λ l. l ≡ loaded_of answering.now (A.prepared_from ready.now) (record { kind = kind; key = key.now }) reloads) }
{
    let answer = answers.answer(alloc, ready, kind, key)?;
    let key = Bytes::copy(alloc, key)?;
    let timeout = answering.moment + answering.settings.life_of(&answer);
    Ok(Loaded::new(kind, key, answer, answering.stamp, timeout, reloads))
}

/// Makes what is inserted beside the answer to a request by name: the answer to the request by id for the row that was found, over the
/// version from which `ready` was made. `None` if `auto-propagate` is off, or if there is no such request.
///
/// # Errors
///
/// `NoMemory` if memory is short.
pub fn load_beside<A: Answerer>(
    alloc: Global,
    answers: &A,
    ready: &A::Ready,
    answering: &Answering,
    loaded: &Loaded,
) -> Result<Option<Loaded>, NoMemory>
    requires answered { loaded.now.answer ≡ answer_of (A.prepared_from ready.now) loaded.now.request }
    requires moment { answering.now.moment < 2 ^ 62 }
    ensures { IfOk result (λ beside. beside ≡ beside_of answering.now (A.prepared_from ready.now) loaded.now.request) }
{
    if !answering.settings.propagate {
        return Ok(None);
    }
    let content = answers.content(ready);
    let Some(id) = id_request(alloc, content, loaded.kind(), loaded.answer())? else {
        return Ok(None);
    };
    let beside = load(
        alloc,
        answers,
        ready,
        answering,
        id.kind,
        id.key.as_slice(),
        0,
    )?;
    Ok(Some(beside))
}

/// What is to be loaded again for those that are due, one for each: nothing for one that is dropped. Fails only for want of memory.
pub fn loads<A: Answerer>(
    alloc: Global,
    answers: &A,
    ready: &A::Ready,
    answering: &Answering,
    due: &[Due],
) -> Result<Vec<Option<Loaded>>, NoMemory>
    requires { answering.now.moment < 2 ^ 62 }
    ensures { IfOk result (λ loads. loads.items ≡ map (anew_of answering.now (A.prepared_from ready.now)) due.now) }
{
    let mut loads = Vec::new(alloc);
    for one in due {
        loads.push(anew(alloc, answers, ready, answering, one)?)?;
    }
    Ok(loads)
}

// The same for one of them.
fn anew<A: Answerer>(
    alloc: Global,
    answers: &A,
    ready: &A::Ready,
    answering: &Answering,
    due: &Due,
) -> Result<Option<Loaded>, NoMemory>
    requires { answering.now.moment < 2 ^ 62 }
    ensures { IfOk result (λ load. load ≡ anew_of answering.now (A.prepared_from ready.now) due.now) }
{
    if due.is_dropped() {
        return Ok(None);
    }
    let reloads = due.next_reloads();
    let loaded = load(
        alloc,
        answers,
        ready,
        answering,
        due.kind(),
        due.key(),
        reloads,
    )?;
    Ok(Some(loaded))
}
