// A helper: answers lookups in place beside the thread that accepts.
ghost use Rattle.std.specs.Prelude.{IfOk};
ghost use Rattle.std.specs.Arc.{arc_value};
ghost use Rattle.nsc_server.specs.Passes.{AreNamed, ArePasses};

use crate::fast_path::FastPath;
use crate::intake::{Waiting, Waitings, Way, moment};
use crate::moment::Moment;
use crate::tally::Tally;
use crate::worker::attach_all;
use nsc_base::NoMemory;
use nsc_model::{Databases, Store};
use nsc_outside::{Sink, Source};
use nsc_server::{Scopes, ServedInPlace};
use nsc_sockets::Helps;
use std::alloc::Global;
use std::marker::Model;
use std::sync::{Arc, Wait};
use std::time::Clock;

/// Shares what a helper and the thread that accepts tell each other.
#[derive(Drop)]
pub struct Shared {
    /// The hits of the helper.
    pub tally: Arc<Tally>,
    /// The present moment.
    pub moment: Arc<Moment>,
}

/// One helper, with passes of its own. What it cannot answer in place waits for a worker.
#[derive(Drop)]
pub struct Helping<S: Store + Drop, R: Drop, K: Drop, H: Drop> {
    stores: Arc<Databases<S>, Global>,
    scopes: Scopes,
    passes: Databases<S::Pass>,
    fast: FastPath,
    waitings: Waitings<R, K>,
    shared: Shared,
    helper: H,
}

impl<S: Store + Drop, R: Drop, K: Drop, H: Drop> Model for Helping<S, R, K, H> {
    ghost use Rattle.std.specs.Arc.{arc_value};
    ghost use Rattle.nsc_server.specs.Passes.{AreNamed, ArePasses};
    ghost use Rattle.nsc_daemon.specs.Workers.{Helping};

    ghost Value = { Helping };

    ghost view = { λ h. record {} };

    ghost invariant = { λ h. AreNamed S.Store (arc_value h.stores) × ArePasses S.Store (arc_value h.stores) h.passes };
}

impl<S: Store + Drop, R: Source + Drop, K: Sink + Drop, H: Helps<R, K> + Drop> Helping<S, R, K, H> {
    /// Makes a helper with passes of its own. It fails only without memory.
    pub fn new<RT: AllocGlobal + Wait>(
        rt: &RT,
        stores: &Arc<Databases<S>, Global>,
        scopes: Scopes,
        list: &Waitings<R, K>,
        shared: Shared,
        helper: H,
    ) -> Result<Helping<S, R, K, H>, NoMemory>
        requires { AreNamed S.Store (arc_value stores.now) }
    {
        let passes = attach_all(rt, stores)?;
        let fast = FastPath::new(rt.alloc())?;
        let waitings = Arc::try_clone(list)?;
        let stores = Arc::try_clone(stores)?;
        Ok(Helping {
            stores,
            scopes,
            passes,
            fast,
            waitings,
            shared,
            helper,
        })
    }

    /// Answers lookups until the listener is closed.
    pub fn run<RT: AllocGlobal + Wait + Clock>(mut self, rt: &RT) {
        for _ in rt.forever() {
            if !self.turn(rt) {
                return;
            }
        }
    }

    // Serves the next connection. `false` if the listener is closed.
    fn turn<RT: AllocGlobal + Wait + Clock>(&mut self, rt: &RT) -> bool {
        let Some((input, mut output)) = self.helper.next() else {
            return false;
        };
        match self.serve(&input, &mut output) {
            ServedInPlace::Found { .. } => self.shared.tally.add(&self.fast.take_hits()),
            ServedInPlace::Broken => {}
            ServedInPlace::Not { stale } => {
                self.pass_on(rt, input, output);
                if let Some(db) = stale {
                    self.fast.catch_up(rt, &self.stores, &mut self.passes, db);
                }
            }
        }
        true
    }

    // Answers a lookup in place, if that can be.
    fn serve(&mut self, input: &R, output: &mut K) -> ServedInPlace {
        self.fast
            .serve(&self.stores, self.scopes, &mut self.passes, input, output)
    }

    // Gives a connection to the workers.
    fn pass_on<RT: Wait + Clock>(&self, rt: &RT, input: R, output: K) {
        let waiting = Waiting {
            way: Way::Plain,
            input,
            output,
            now: self.shared.moment.get(),
            put: moment(rt),
        };
        // If there is no memory for it, it is closed.
        let _ = self.waitings.put(rt, waiting);
    }
}
