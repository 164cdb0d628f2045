// `CalmListener`: a listener without arrivals, which connects to peers in memory.
ghost use Rattle.std.specs.Prelude.{◌≡◌, ◌≤◌, ◌<◌, drop, length, slice_get, is_err, is_none, Some, IfOk, IfErr, OnOk, OnErr};
ghost use Rattle.nsc_model.specs.Reads.{Rose};
ghost use Rattle.nsc_outside.specs.CallPlan.{risen};
ghost use Rattle.nsc_sockets.specs.Connections.{IsPeer};
ghost use Rattle.nsc_sockets.specs.CalmListener.{CalmListener};

use crate::attended::Attended;
use crate::helper::NoHelper;
use crate::listener::{Accepted, Listener, Prepared};
use crate::no_departure::NoDeparture;
use crate::peer_source::PeerSource;
use crate::role::Role;
use nsc_base::{Bytes, NoMemory};
use nsc_outside::{Failed, Sink};
use std::collections::VecDeque;
use std::marker::Model;

/// A sink that takes all bytes and keeps none. No call fails.
#[derive(Debug, Drop)]
pub struct CalmSink;

impl Sink for CalmSink {
    ghost use Rattle.std.specs.Prelude.{None};

    ghost taken = { λ _. None };

    ghost faults = { λ _. 0 };

    /// Takes all bytes.
    fn write(&mut self, bytes: &[u8]) -> Result<usize, Failed>
        ensures count { IfOk result (λ n. n ≤ length bytes.now) }
        ensures some { IfOk result (λ n. 0 < length bytes.now → 0 < n) }

        ensures amount { IfOk result (λ n. n ≡ length bytes.now) }
        ensures never { IfErr result (λ _. ⊥) }
    {
        Ok(bytes.len())
    }
}

impl Attended for CalmSink {
    fn has_gone(&self) -> bool {
        false
    }
}

/// A listener on which no connection comes, but which reaches the sockets of peers: what these send is told beforehand.
#[derive(Debug, Drop)]
pub struct CalmListener {
    peers: VecDeque<Bytes>,
    faults: u64,
}

impl Model for CalmListener {
    ghost use Rattle.nsc_sockets.specs.CalmListener.{CalmListener};

    ghost Value = { CalmListener };

    ghost view = { λ l. record { peers = l.peers.items; faults = l.faults } };
}

impl CalmListener {
    /// A listener that reaches a peer for each of these, in this order, and no more.
    pub fn new(peers: Vec<Bytes>) -> CalmListener
        ensures { result ≡ record { peers = peers.items; faults = 0 } }
    {
        CalmListener {
            peers: VecDeque::from(peers),
            faults: 0,
        }
    }

    /// How many calls have failed; the count stops at the greatest `u64`.
    pub fn faults(&self) -> u64
        ensures { result ≡ self.now.faults }
    {
        self.faults
    }

    // Counts a fault.
    fn fault(&mut self) -> Failed
        ensures counted { self.new ≡ record self.old { faults = risen self.old.faults } }
        ensures rose { Rose self.old.faults self.new.faults }
    {
        self.faults = self.faults.saturating_add(1);
        Failed
    }
}

impl Listener for CalmListener {
    ghost use Rattle.std.specs.Prelude.{Some, [], slice_get};

    type In = PeerSource;

    type Out = CalmSink;

    type Departure = NoDeparture;

    type Helper = NoHelper;

    ghost faults = { λ l. l.faults };

    ghost given = { λ _. Some [] };

    ghost bound = { λ _. Some [] };

    ghost peer = { λ l. slice_get l.peers 0 };

    /// Has room for any number of connections, and leaves nothing to closers.
    fn prepare(&mut self, _workers: u32) -> Result<Prepared<NoDeparture>, NoMemory>
        ensures { self.new ≡ self.old }
    {
        Ok(Prepared {
            most: usize::MAX,
            jobs: None,
            crew: None,
        })
    }

    /// Fails.
    fn bind(&mut self, _role: Role, _path: &str) -> Result<(), Failed>
        ensures always { IfOk result (λ _. ⊥) }
        ensures after { self.new ≡ record self.old { faults = risen self.old.faults } }
        ensures failed { OnErr result (Rose self.old.faults self.new.faults) }
    {
        Err(self.fault())
    }

    /// Fails.
    fn accept(&mut self) -> Result<Accepted<PeerSource, CalmSink>, Failed>
        ensures always { IfOk result (λ _. ⊥) }
        ensures after { self.new ≡ record self.old { faults = risen self.old.faults } }
        ensures failed { OnErr result (Rose self.old.faults self.new.faults) }
    {
        Err(self.fault())
    }

    /// Reaches the next peer, and fails where none is left.
    fn connect(&mut self, _path: &str) -> Result<(PeerSource, CalmSink), Failed>
        ensures peer { IfOk result (λ ends. IsPeer (slice_get self.old.peers 0) (Some ends.0)) }
        ensures failed { OnErr result (Rose self.old.faults self.new.faults) }

        ensures reached { IfOk result (λ ends. slice_get self.old.peers 0 ≡ Some ends.0) }
        ensures rest { OnOk result (self.new ≡ record self.old { peers = drop 1 self.old.peers }) }
        ensures none { is_err result ≡ is_none (slice_get self.old.peers 0) }
        ensures counted { OnErr result (self.new ≡ record self.old { faults = risen self.old.faults }) }
    {
        match self.peers.pop_front() {
            Some(bytes) => Ok((PeerSource::new(bytes), CalmSink)),
            None => Err(self.fault()),
        }
    }
}
