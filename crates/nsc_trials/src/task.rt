// `Task`: what a trial does with a database of users.
ghost use Rattle.std.specs.Prelude.{◌≡◌};
ghost use Rattle.nsc_model.specs.declared.kind.Db.TheVariants as db;

use crate::discarded::{Gates, discards};
use crate::growing::grows;
use crate::kept::{Beginning, brings_back};
use crate::outcome::Outcome;
use crate::script::Script;
use crate::workers::interleaves;
use nsc_base::NoMemory;
use nsc_caller::Caller;
use nsc_model::Store;
use nsc_outside::Release;
use std::alloc::Global;
use std::sync::Wait;
use std::thread::Threads;
use std::time::Clock;

/// What is done with a database, with the flag by which its file changes.
#[derive(Drop)]
pub enum Task {
    /// The steps of a trial.
    Script(Script, Release),
    /// A lookup during which the database is invalidated.
    Discarded(Gates, Release),
    /// Lookups that fill a table, which becomes larger.
    Growing,
    /// A database that begins with this image.
    Kept(Beginning),
    /// An interleaving of this seed.
    Interleaving(u64, Release),
}

impl Task {
    /// The image with which its database begins, if there is one.
    pub fn image(&self) -> Option<&'static [u8]> {
        match self {
            Task::Kept(beginning) => Some(beginning.image),
            _ => None,
        }
    }

    /// Does it with this database of users, by a caller of this pass.
    pub fn run<S: Store + Sync, R: Threads + Wait + Clock + Sync>(
        self,
        rt: &R,
        alloc: Global,
        store: &S,
        pass: S::Pass,
    ) -> Result<Outcome, NoMemory>
    where
        S::Pass: Send,
        requires own { S.is_pass store.now pass }
        requires users { S.db store.now ≡ db.Passwd }
    {
        let mut caller = Caller::new(rt, alloc, store, pass);
        let is_right = match self {
            Task::Script(script, mut changed) => return Ok(script.run(&mut caller, &mut changed)),
            Task::Discarded(mut gates, mut changed) => {
                discards(rt, &mut caller, &mut gates, &mut changed)?
            }
            Task::Growing => grows(alloc, &mut caller)?,
            Task::Kept(beginning) => brings_back(alloc, &mut caller, beginning.wanted)?,
            Task::Interleaving(seed, mut changed) => {
                interleaves(rt, alloc, &mut caller, &mut changed, seed)?
            }
        };
        Ok(Outcome::of(is_right))
    }
}
