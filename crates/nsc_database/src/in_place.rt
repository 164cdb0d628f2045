// Hits that threads counted without the lock, and the way to a larger table without waiting.
ghost use Rattle.std.specs.Prelude.{◌≡◌};
ghost use Rattle.std.specs.Bool.{OnTrue};
ghost use Rattle.nsc_model.specs.Steady.{IsSteady};
ghost use Rattle.nsc_database.specs.Frames.{Held};

use crate::base::Base;
use crate::pass::DbPass;
use crate::room::{OfDb, Room};
use nsc_model::Answerer;
use nsc_outside::FileSet;
use std::sync::Wait;

impl<D: OfDb, F: FileSet + Drop, A: Answerer + Drop, B: Room> Base<D, F, A, B> {
    /// Goes on to the table that is written, if the writer's lock is free. It adds no record, and waits for no one. `false` if the lock
    /// is held, which leaves the pass as it is, or if memory is short.
    pub fn catch_up(&self, pass: &mut DbPass<F, B>) -> bool
        requires { pass.old.db ≡ D.db }
        ensures frame { Held pass.old pass.new }
        ensures followed { OnTrue result (IsSteady B.held D.db pass.new.pass.seen) }
        ensures made { pass.new.made ≡ pass.old.made }
    {
        pass.learn();
        let Some(mut desk) = self.desk.try_lock() else {
            return false;
        };
        match desk.follow(pass) {
            Ok(()) => true,
            Err(_) => false,
        }
    }

    /// Counts lookups that live entries answered in place: of found and of not-found replies. Each number stays at 2^62.
    pub fn note_hits<R: Wait>(&self, rt: &R, found: u64, not_found: u64) {
        self.desk.lock(rt).note_hits(found, not_found);
    }
}
