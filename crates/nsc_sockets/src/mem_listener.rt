// `MemListener`: a listener in memory, with arrivals and peers given beforehand.
ghost use Rattle.std.specs.Prelude.{◌≡◌, ◌∷◌, ◌<◌, ◌≤◌, [], drop, reverse, vec_len, slice_get, false, ◌+◌, is_err, is_none, option_map, None, Some, Ok, IfOk, IfErr, OnOk, OnErr, IfSome};
ghost use Rattle.std.specs.Vec.{vec_capacity};
ghost use Rattle.nsc_model.specs.Reads.{Rose};
ghost use Rattle.nsc_outside.specs.CallPlan.{risen};
ghost use Rattle.nsc_sockets.specs.Connections.{Connection, Gives, IsPeer};
ghost use Rattle.nsc_sockets.specs.MemListener.{MemListener, Wait, begun, given_after, FindsNext, Accepts};

use crate::arrival::{Arrival, Peer};
use crate::helper::NoHelper;
use crate::listener::{Accepted, Listener, Prepared};
use crate::no_departure::NoDeparture;
use crate::peer_source::PeerSource;
use crate::role::Role;
use crate::shared_sink::SharedSink;
use nsc_base::{Bytes, NoMemory};
use nsc_outside::{Failed, Release};
use std::alloc::Global;
use std::collections::VecDeque;
use std::marker::Model;
use std::snapshot::Snapshot;

// A connection that was given, for contracts alone.
#[derive(Drop)]
struct GivenConnection {
    role: Role,
    input: Snapshot<Bytes>,
}

impl Model for GivenConnection {
    ghost use Rattle.nsc_sockets.specs.Connections.{Connection};

    ghost Value = { Connection };

    ghost view = { λ g. record { role = g.role; bytes = g.input.value } };
}

impl GivenConnection {
    fn of(role: Role, input: &Bytes) -> GivenConnection
        ensures { result ≡ record { role = role; bytes = input.now } }
    {
        GivenConnection {
            role,
            input: Snapshot::of(input),
        }
    }
}

// Keeps that a connection was given, if it is one. The room for it was taken when the listener was made.
fn note(given: &mut Vec<GivenConnection>, arrival: &Arrival)
    requires { vec_len given.old < vec_capacity given.old }
    ensures items { reverse given.new.items ≡ given_after (Some arrival.now) (reverse given.old.items) }
    ensures len { vec_len given.new ≤ vec_len given.old + 1 }
    ensures capacity { vec_capacity given.old ≤ vec_capacity given.new }
{
    if let Arrival::Conn { role, input, .. } = arrival {
        given.push(GivenConnection::of(*role, input)).unwrap();
    }
}

// A wait that has begun.
#[derive(Drop)]
struct Wait {
    until: Release,
    turns: u32,
}

impl Model for Wait {
    ghost use Rattle.nsc_sockets.specs.MemListener.{Wait};

    ghost Value = { Wait };

    ghost view = { λ w. record { until = w.until; turns = w.turns } };
}

// How often a listener is quiet at most before it passes a wait.
const TURNS: u32 = 1000;

impl Wait {
    fn new(until: Release) -> Wait
        ensures { result ≡ begun until }
    {
        Wait {
            until,
            turns: TURNS,
        }
    }

    // The same wait with one turn less; `None` where it is over.
    fn go_on(mut self) -> Option<Wait>
        ensures unset { IfSome result (λ _. self.until.is_set ≡ false) }
        ensures turn { IfSome result (λ later. self.turns ≡ later.turns + 1) }
        ensures same { IfSome result (λ later. later.until ≡ self.until) }
    {
        if self.until.is_set() {
            return None;
        }
        self.turns = self.turns.checked_sub(1)?;
        Some(self)
    }
}

// A socket that was bound.
#[derive(Drop)]
struct BoundSocket {
    role: Role,
    path: Bytes,
}

impl Model for BoundSocket {
    ghost use Rattle.nsc_sockets.specs.Connections.{Socket};

    ghost Value = { Socket };

    ghost view = { λ s. record { role = s.role; path = s.path } };
}

/// A listener in memory: which connections come, and when none does, is told beforehand, and what the peers send to which it
/// connects. It fails where no more is to come, and keeps the lists of the connections that it gave and of the sockets that it bound.
#[derive(Drop)]
pub struct MemListener {
    alloc: Global,
    wait: Option<Wait>,
    arrivals: VecDeque<Arrival>,
    given: Vec<GivenConnection>,
    bound: Vec<BoundSocket>,
    peers: VecDeque<Peer>,
    faults: u64,
}

impl Model for MemListener {
    ghost use Rattle.std.specs.Prelude.{◌+◌, ◌≤◌, reverse, vec_len};
    ghost use Rattle.std.specs.Vec.{vec_capacity};
    ghost use Rattle.std.specs.VecDeque.{deque_len};
    ghost use Rattle.nsc_sockets.specs.MemListener.{MemListener};

    ghost Value = { MemListener };

    ghost view = { λ l. record { wait = l.wait; arrivals = l.arrivals.items; given = reverse l.given.items; bound = reverse l.bound.items; peers = l.peers.items; faults = l.faults } };

    ghost invariant = { λ l. vec_len l.given + deque_len l.arrivals ≤ vec_capacity l.given };
}

impl MemListener {
    /// A listener at which these come, in this order, and which reaches these peers, in this order. Fails only for want of
    /// memory.
    pub fn new(
        alloc: Global,
        arrivals: Vec<Arrival>,
        peers: Vec<Peer>,
    ) -> Result<MemListener, NoMemory>
        ensures { IfOk result (λ listener. listener ≡ record { wait = None; arrivals = arrivals.items; given = []; bound = []; peers = peers.items; faults = 0 }) }
    {
        let given = Vec::with_capacity(alloc, arrivals.len())?;
        Ok(MemListener {
            alloc,
            wait: None,
            arrivals: VecDeque::from(arrivals),
            given,
            bound: Vec::new(alloc),
            peers: VecDeque::from(peers),
            faults: 0,
        })
    }

    /// How many calls have failed; the count stops at the greatest `u64`.
    pub fn faults(&self) -> u64
        ensures { result ≡ self.now.faults }
    {
        self.faults
    }

    // Counts a fault.
    fn fault(&mut self) -> Failed
        ensures counted { self.new ≡ record self.old { faults = risen self.old.faults } }
        ensures rose { Rose self.old.faults self.new.faults }
    {
        self.faults = self.faults.saturating_add(1);
        Failed
    }

    // Keeps that a socket was bound.
    fn keep_bound(&mut self, role: Role, path: &str) -> Result<(), NoMemory>
        ensures kept { OnOk result (self.new ≡ record self.old { bound = record { role = role; path = path.now } ∷ self.old.bound }) }
        ensures lost { OnErr result (self.new ≡ self.old) }
    {
        let path = Bytes::copy(self.alloc, path.as_bytes())?;
        self.bound.push(BoundSocket { role, path })?;
        Ok(())
    }

    // The next arrival that is not a wait; `Quiet` while a wait goes on, and `None` where no more is to come.
    fn next(&mut self) -> Option<Arrival>
        ensures found { FindsNext self.old.wait self.old.arrivals result self.new.wait self.new.arrivals }
        ensures given { self.new.given ≡ given_after result self.old.given }
        ensures rest { self.new ≡ record self.old { wait = self.new.wait; arrivals = self.new.arrivals; given = self.new.given } }
    {
        if let Some(wait) = self.wait.take()
            && let Some(later) = wait.go_on()
        {
            self.wait = Some(later);
            return Some(Arrival::Quiet);
        }
        match self.arrivals.pop_front()? {
            Arrival::QuietUntil(flag) => {
                self.wait = Some(Wait::new(flag));
                self.next()
            }
            found => {
                note(&mut self.given, &found);
                Some(found)
            }
        }
    }
}

impl Listener for MemListener {
    ghost use Rattle.std.specs.Prelude.{Some, slice_get, option_map};

    type In = PeerSource;

    type Out = SharedSink;

    type Departure = NoDeparture;

    type Helper = NoHelper;

    ghost faults = { λ l. l.faults };

    ghost given = { λ l. Some l.given };

    ghost bound = { λ l. Some l.bound };

    ghost peer = { λ l. option_map (λ p. p.input) (slice_get l.peers 0) };

    /// Has room for any number of connections, and leaves nothing to closers.
    fn prepare(&mut self, _workers: u32) -> Result<Prepared<NoDeparture>, NoMemory>
        ensures { self.new ≡ self.old }
    {
        Ok(Prepared {
            most: usize::MAX,
            jobs: None,
            crew: None,
        })
    }

    /// Keeps the path. It fails only for want of memory.
    fn bind(&mut self, role: Role, path: &str) -> Result<(), Failed>
        ensures bound { OnOk result (self.new ≡ record self.old { bound = record { role = role; path = path.now } ∷ self.old.bound }) }
        ensures failed { OnErr result (Rose self.old.faults self.new.faults) }
        ensures counted { OnErr result (self.new ≡ record self.old { faults = risen self.old.faults }) }
    {
        match self.keep_bound(role, path) {
            Ok(()) => Ok(()),
            Err(_) => Err(self.fault()),
        }
    }

    /// Gives the next arrival, past the waits that are over, and fails where no more is to come.
    fn accept(&mut self) -> Result<Accepted<PeerSource, SharedSink>, Failed>
        ensures gives { IfOk result (λ accepted. Gives Some (Some self.old.given) (Some self.new.given) accepted) }
        ensures stays { OnErr result (self.new.given ≡ self.old.given) }
        ensures bound { Some self.new.bound ≡ Some self.old.bound }
        ensures calm { OnOk result (self.new.faults ≡ self.old.faults) }
        ensures failed { OnErr result (Rose self.old.faults self.new.faults) }

        ensures accepts { Accepts self.old self.new result }
        ensures counted { OnErr result (self.new.faults ≡ risen self.old.faults) }
    {
        match self.next() {
            Some(
                Arrival::Conn {
                    role,
                    input,
                    output,
                },
            ) => Ok(Accepted::Conn {
                role,
                input: PeerSource::new(input),
                output,
            }),
            Some(Arrival::Quiet | Arrival::QuietUntil(_)) => Ok(Accepted::Quiet),
            None => Err(self.fault()),
        }
    }

    /// Reaches the next peer, and fails where none is left.
    fn connect(&mut self, _path: &str) -> Result<(PeerSource, SharedSink), Failed>
        ensures peer { IfOk result (λ ends. IsPeer (option_map (λ p. p.input) (slice_get self.old.peers 0)) (Some ends.0)) }
        ensures failed { OnErr result (Rose self.old.faults self.new.faults) }

        ensures reached { IfOk result (λ ends. slice_get self.old.peers 0 ≡ Some (record { input = ends.0; output = ends.1 })) }
        ensures rest { OnOk result (self.new ≡ record self.old { peers = drop 1 self.old.peers }) }
        ensures none { is_err result ≡ is_none (slice_get self.old.peers 0) }
        ensures counted { OnErr result (self.new ≡ record self.old { faults = risen self.old.faults }) }
    {
        match self.peers.pop_front() {
            Some(peer) => Ok((PeerSource::new(peer.input), peer.output)),
            None => Err(self.fault()),
        }
    }
}
