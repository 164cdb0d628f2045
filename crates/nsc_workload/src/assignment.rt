// `Assignment`: a workload to be done over one database, and the share of each thread.
ghost use Rattle.std.specs.Prelude.{◌≡◌, ◌≤◌, ◌<◌, Some};
ghost use Rattle.nsc_model.specs.declared.kind.Db.TheVariants as db;
ghost use Rattle.nsc_workload.specs.Runs.{first_of};
ghost use Rattle.nsc_workload.specs.Workload.{files_of};

use crate::fixed_files::{FixedFiles, OfContent};
use crate::replies::ReplyList;
use crate::workers::Work;
use nsc_base::NoMemory;
use nsc_database::{Database, Room};
use nsc_index::Indexed;
use nsc_model::Store;
use std::alloc::Global;
use std::sync::Wait;

// How often the database ticks while the workers look up, and how many seconds lie before each tick.
const TICKS: u64 = 20;

const SECONDS: u64 = 30;

/// A workload that is to be done: its number, how many workers do it, and the database of users that they ask.
#[derive(Drop)]
pub(crate) struct Assignment<'d, C: OfContent, B: Room> {
    pub(crate) database: &'d Database<FixedFiles<C>, Indexed, B>,
    pub(crate) number: u32,
    pub(crate) workers: u32,
    pub(crate) ghost number_fits: { (0 < number) × (number ≤ 1000) },
    pub(crate) ghost workers_fit: { (0 < workers) × (workers ≤ 64) },
    pub(crate) ghost held: { B.held ≡ Some (files_of number) },
    pub(crate) ghost users: { database.now.db ≡ db.Passwd },
}

impl<C: OfContent, B: Room> Work for Assignment<'_, C, B> {
    ghost number = { λ assignment. assignment.number };

    ghost workers = { λ assignment. assignment.workers };

    fn count(&self) -> u32 {
        self.workers
    }

    fn share<R: Wait>(&self, rt: &R, alloc: Global, worker: usize) -> Option<ReplyList> {
        let worker = worker as u32;
        let from = first(self.number, self.workers, worker);
        let to = first(self.number, self.workers, worker + 1);
        self.replies(rt, alloc, from, to - from).ok()
    }

    fn read<R: Wait>(&self, rt: &R, alloc: Global) -> Option<ReplyList> {
        self.answers(rt, alloc).ok()
    }

    /// Ticks as often, at moments that lie as far apart.
    fn tick<R: Wait>(&self, rt: &R, alloc: Global) -> Result<(), NoMemory> {
        let mut pass = self.database.attach(rt, alloc)?;
        for turn in 0..TICKS {
            let moment = SECONDS * (turn + 1);
            let ticked = self.database.tick(rt, alloc, &mut pass, moment);
            if ticked.is_err() {
                return Err(NoMemory);
            }
        }
        Ok(())
    }
}

// The place of the first request of a worker; for the number of workers itself, that of the end.
fn first(number: u32, workers: u32, worker: u32) -> u32
    requires number { number ≤ 1000 }
    requires workers { (0 < workers) × (workers ≤ 64) }
    requires worker { worker ≤ workers }
    ensures { result ≡ first_of number workers worker }
{
    64 * number * worker / workers
}
