// The thread that accepts connections, answers lookups in place, and serves the admin socket.
ghost use Rattle.std.specs.Prelude.{◌≡◌, ◌<◌, ◌^◌, IfSome};
ghost use Rattle.std.specs.Bool.{OnFalse, OnTrue};
ghost use Rattle.nsc_model.specs.Exits.{IsExitOf, Serving};
ghost use Rattle.nsc_server.specs.Requests.{TakesRequests};
ghost use Rattle.nsc_daemon.specs.Ends.{IsToldEnd, StopsSo, TellsEnd};
ghost use Rattle.nsc_daemon.specs.Workers.{TicksSo};

use crate::fast_path::{FastPath, note_hits};
use crate::gate::{Gatekeeper, ServesGate};
use crate::intake::{Waiting, Waitings, Way, moment};
use crate::moment::Moment;
use crate::tally::Tally;
use crate::ticker::{Ticker, tick_all};
use nsc_model::{Databases, Db, Exit, Store};
use nsc_outside::{Sink, Source};
use nsc_server::{RequestBuffer, Scopes, Served, ServedInPlace, serve_one};
use nsc_sockets::{Accepted, Clock, Listener, Role};
use std::alloc::Global;
use std::marker::Model;
use std::sync::{Arc, Wait};
use std::time::Duration;
use std::{thread, time};

// How long a tick is waited for after the one before, in seconds.
const TICK: u64 = 15;

// How long the thread sleeps where no connection came, in milliseconds.
const REST: u64 = 10;

/// Accepts connections until one tells the daemon to end, or the listener fails.
pub fn accept_all<RT: AllocGlobal + Wait + time::Clock, S: Store + Drop, C: Clock, N: Listener>(
    rt: &RT,
    acceptor: &mut Acceptor<S, N::In, N::Out>,
    clock: &mut C,
    net: &mut N,
) -> Exit
    ensures exits { IsExitOf Serving result }
    ensures stops { StopsSo result (N.given net.old) (N.given net.new) (N.faults net.old) (N.faults net.new) }
    ensures bound { N.bound net.new ≡ N.bound net.old }
{
    for _ in rt.forever() {
        let Ok(accepted) = net.accept() else {
            return Exit::NetFault;
        };
        let now = clock.now();
        if acceptor.turn(rt, accepted, now) {
            return Exit::Ok;
        }
    }
    unreachable!()
}

/// Holds what the thread that accepts has. `ticked` is the moment at which a tick was last due, in seconds, or that of the start.
/// `waitings` has the connections that wait for workers, if there are workers. `ticker` is the thread that ticks, if there is one.
/// `gate` serves the gate, if there is one, without workers. `tallies` has the hits of each helper, and `moment` tells helpers the moment.
#[derive(Drop)]
pub struct Acceptor<S: Store + Drop, R: Source + Drop, K: Sink + Drop> {
    pub stores: Arc<Databases<S>, Global>,
    pub scopes: Scopes,
    pub passes: Databases<S::Pass>,
    pub buffer: RequestBuffer,
    pub gate: Option<Gatekeeper<S>>,
    pub fast: FastPath,
    pub ticker: Option<Ticker>,
    pub ticked: u64,
    pub waitings: Option<Waitings<R, K>>,
    pub tallies: Vec<Arc<Tally>>,
    pub moment: Arc<Moment>,
}

impl<S: Store + Drop, R: Source + Drop, K: Sink + Drop> Model for Acceptor<S, R, K> {
    ghost use Rattle.std.specs.Arc.{arc_value};
    ghost use Rattle.nsc_server.specs.Passes.{AreNamed, ArePasses};
    ghost use Rattle.nsc_daemon.specs.Workers.{Acceptor};

    ghost Value = { Acceptor };

    ghost view = { λ d. record { ticked = d.ticked } };

    ghost invariant = { λ d. AreNamed S.Store (arc_value d.stores) × ArePasses S.Store (arc_value d.stores) d.passes };
}

impl<S: Store + Drop, R: Source + Drop, K: Sink + Drop> Acceptor<S, R, K> {
    /// Does what one accepted connection wants, and a tick where one is due. Whether it was told to end.
    pub fn turn<RT: AllocGlobal + Wait + time::Clock>(
        &mut self,
        rt: &RT,
        accepted: Accepted<R, K>,
        now: u64,
    ) -> bool
        requires { now < 2 ^ 62 }
        ensures told { OnTrue result (IsToldEnd R.left accepted) }
        ensures ticked { OnFalse result (TicksSo self.old.ticked now self.new.ticked) }
    {
        self.moment.set(now);
        match accepted {
            Accepted::Quiet => {
                let _ = thread::sleep(rt, Duration::from_millis(REST));
            }
            Accepted::Conn {
                role,
                input,
                output,
            } => {
                if self.dispatch(rt, role, input, output, now) {
                    return true;
                }
            }
        }
        self.tick(rt, now);
        false
    }

    // Serves a connection of the admin socket, or a lookup in place, and leaves all else to the workers. Whether it told the daemon to
    // end.
    fn dispatch<RT: AllocGlobal + Wait + time::Clock>(
        &mut self,
        rt: &RT,
        role: Role,
        input: R,
        output: K,
        now: u64,
    ) -> bool
        requires { now < 2 ^ 62 }
        ensures told { OnTrue result (TellsEnd role (R.left input)) }
        ensures stays { self.new.ticked ≡ self.old.ticked }
    {
        match role {
            Role::Admin => {
                self.give_hits(rt);
                self.serve(rt, role, input, output, now)
            }
            Role::Plain => {
                self.serve_plain(rt, input, output, now);
                false
            }
            Role::Gate => {
                self.pass_on(rt, Way::Gate, input, output, now);
                false
            }
        }
    }

    // Answers a lookup in place, or gives the connection to the workers. A pass that is stale then tries to catch up.
    fn serve_plain<RT: AllocGlobal + Wait + time::Clock>(
        &mut self,
        rt: &RT,
        input: R,
        mut output: K,
        now: u64,
    )
        requires { now < 2 ^ 62 }
        ensures { self.new.ticked ≡ self.old.ticked }
    {
        match self.serve_fast(&input, &mut output) {
            ServedInPlace::Found { .. } | ServedInPlace::Broken => {}
            ServedInPlace::Not { stale } => {
                self.pass_on(rt, Way::Plain, input, output, now);
                self.catch_up(rt, stale);
            }
        }
    }

    // Tells the databases of the hits that they were not told of.
    fn give_hits<RT: Wait>(&mut self, rt: &RT)
        ensures { self.new.ticked ≡ self.old.ticked }
    {
        self.gather();
        let hits = self.fast.take_hits();
        note_hits(rt, &self.stores, &hits);
    }

    // Takes the hits of the helpers.
    fn gather(&mut self)
        ensures { self.new.ticked ≡ self.old.ticked }
    {
        gather(&mut self.fast, &self.tallies);
    }

    // Answers a lookup in place, if that can be.
    fn serve_fast(&mut self, input: &R, output: &mut K) -> ServedInPlace
        ensures { self.new.ticked ≡ self.old.ticked }
    {
        self.fast
            .serve(&self.stores, self.scopes, &mut self.passes, input, output)
    }

    // Has the pass of a stale database go on to its present table.
    fn catch_up<RT: time::Clock>(&mut self, rt: &RT, stale: Option<Db>)
        ensures { self.new.ticked ≡ self.old.ticked }
    {
        if let Some(db) = stale {
            self.fast.catch_up(rt, &self.stores, &mut self.passes, db);
        }
    }

    // Gives a connection to the workers, or serves it if there are none.
    fn pass_on<RT: AllocGlobal + Wait + time::Clock>(
        &mut self,
        rt: &RT,
        way: Way,
        input: R,
        output: K,
        now: u64,
    )
        requires { now < 2 ^ 62 }
        ensures { self.new.ticked ≡ self.old.ticked }
    {
        match &self.waitings {
            Some(waitings) => {
                let waiting = Waiting {
                    way,
                    input,
                    output,
                    now,
                    put: moment(rt),
                };
                // Where there is no memory for it, it is closed.
                let _ = waitings.put(rt, waiting);
            }
            None if way == Way::Plain => {
                // Whatever came of it, nobody is left to tell.
                let _ = self.serve(rt, Role::Plain, input, output, now);
            }
            None => self.serve_gate(rt, input, output, now),
        }
    }

    // Serves a connection to the gate.
    fn serve_gate<RT: AllocGlobal + Wait>(&mut self, rt: &RT, mut input: R, mut output: K, now: u64)
        requires { now < 2 ^ 62 }
        ensures { self.new.ticked ≡ self.old.ticked }
    {
        if let Some(gate) = &mut self.gate {
            gate.serve(rt, &mut input, &mut output, now);
        }
    }

    // Serves a connection, and says whether it told the daemon to end.
    fn serve<RT: AllocGlobal + Wait>(
        &mut self,
        rt: &RT,
        role: Role,
        mut input: R,
        mut output: K,
        now: u64,
    ) -> bool
        requires role { TakesRequests role }
        requires moment { now < 2 ^ 62 }
        ensures told { OnTrue result (TellsEnd role (R.left input)) }
        ensures stays { self.new.ticked ≡ self.old.ticked }
    {
        let served = serve_one(
            rt,
            &self.stores,
            self.scopes,
            &mut self.passes,
            &mut self.buffer,
            &mut input,
            &mut output,
            role,
            now,
        );
        matches!(served, Served::ShutDown)
    }

    // Ticks the databases if fifteen seconds have passed, or orders that of the thread that ticks.
    fn tick<RT: AllocGlobal + Wait>(&mut self, rt: &RT, now: u64)
        requires { now < 2 ^ 62 }
        ensures { TicksSo self.old.ticked now self.new.ticked }
    {
        if now < self.ticked.saturating_add(TICK) {
            return;
        }
        self.ticked = now;
        self.gather();
        match &self.ticker {
            Some(ticker) => ticker.order(rt, now, &mut self.fast),
            None => {
                self.give_hits(rt);
                tick_all(rt, &self.stores, &mut self.passes, now);
            }
        }
    }
}

// Adds the hits of helpers to those of the thread that accepts.
fn gather(fast: &mut FastPath, tallies: &[Arc<Tally>]) {
    for tally in tallies {
        fast.add_hits(&tally.take());
    }
}
