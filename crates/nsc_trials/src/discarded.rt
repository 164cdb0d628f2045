// The trial of a lookup during an invalidation: its answer is given, and not kept.
use crate::asked::Asked;
use crate::texts::{ROOT_BASH, ROOT_SH};
use crate::wanted::Wanted;
use nsc_base::NoMemory;
use nsc_caller::Caller;
use nsc_model::{FileId, Store};
use nsc_outside::{Hold, Release};
use std::alloc::Global;
use std::sync::Wait;
use std::thread;
use std::thread::Threads;
use std::time::Clock;

/// The flags of a read that waits.
#[derive(Drop)]
pub struct Gates {
    reached: Release,
    until: Release,
}

impl Gates {
    /// Flags that are not set.
    pub fn new(alloc: Global) -> Result<Gates, NoMemory> {
        Ok(Gates {
            reached: Release::new(alloc)?,
            until: Release::new(alloc)?,
        })
    }

    /// The reads of passwd that wait: all but the first, which is that of the opening.
    pub fn hold(&self) -> Result<Hold, NoMemory> {
        Ok(Hold {
            file: FileId::Passwd,
            from: 2,
            reached: self.reached.share()?,
            until: self.until.share()?,
        })
    }
}

/// A lookup reads the file while another caller invalidates the database: its answer is given, and not kept. The writer's lock is
/// free while the file is read, or the invalidation would wait until the read gives up.
pub fn discards<S: Store + Sync, R: Threads + Wait + Clock + Sync>(
    rt: &R,
    reader: &mut Caller<'_, '_, S, R>,
    gates: &mut Gates,
    changed: &mut Release,
) -> Result<bool, NoMemory>
where
    S::Pass: Send,
{
    let mut other = reader.another()?;
    let (is_discarded, is_invalidated) = thread::join(
        rt,
        || Wanted::Discarded(0, 1).is(&Asked::Root.find(reader, 0), ROOT_BASH),
        || invalidates_between(rt, &mut other, gates),
    );
    changed.set();
    let is_loaded = Wanted::Loaded(0).is(&Asked::Root.find(reader, 0), ROOT_SH);
    Ok(is_discarded && is_invalidated && is_loaded)
}

// Invalidates while the read waits, and then lets it pass.
fn invalidates_between<S: Store, R: Wait + Clock>(
    rt: &R,
    caller: &mut Caller<'_, '_, S, R>,
    gates: &mut Gates,
) -> bool {
    let is_reached = gates.reached.wait(rt);
    let is_first = caller.invalidate() == Ok(1);
    gates.until.set();
    is_reached && is_first
}
