// `UnixOutput`: the bytes that a peer is sent over a socket, and the waits for a slow peer.
ghost use Rattle.std.specs.Prelude.{◌≡◌, ◌<◌, ◌≤◌, length, IfOk, OnOk, OnErr};
ghost use Rattle.nsc_model.specs.Reads.{Rose};

use crate::attended::Attended;
use crate::patience::{Patience, time_left};
use crate::peer::Peer;
use crate::stream::may_pass;
use nsc_outside::{Failed, Sink};
use std::io;
use std::io::ErrorKind;
use std::marker::Model;
use std::sync::{Arc, Wait};
use std::time::{Clock, Duration};

// How long one turn of a wait lasts at most, in milliseconds, and at least, and how many there are however short they are.
const TURN: u64 = 50;

const LEAST_TURN: u64 = 1;

const TURNS: u32 = 10_000;

// The bytes that are offered in a turn. More might take many turns' time while a slow peer makes room bit by bit.
const PART: usize = 32_768;

/// The bytes that may wait for a peer of the gate, and those that may once it is sent a longer text.
pub(crate) const NARROW: u32 = 16_384;

const WIDE: u32 = 262_144;

/// What a peer is sent over a socket. It tells nothing of the bytes; contracts see its count of faults.
#[derive(Drop)]
pub struct UnixOutput<T: Wait + Clock + Drop> {
    clock: T,
    peer: Peer<T>,
    // What patience there is for it, if it is to have some.
    patience: Option<Arc<Patience>>,
    // When it waited first.
    begun: Option<Duration>,
    // Whether few bytes may wait for the peer.
    is_narrow: bool,
    faults: u64,
}

impl<T: Wait + Clock + Drop> Model for UnixOutput<T> {
    ghost use Rattle.nsc_sockets.specs.Adapters.{UnixOutput};

    ghost Value = { UnixOutput };

    ghost view = { λ s. record { faults = s.faults } };
}

impl<T: Wait + Clock + Drop> UnixOutput<T> {
    /// What the peer of a connection that came is sent. All ends that are made with one patience share it; an administrator has none,
    /// and waits for the end of the connection. `is_narrow` tells that no more than `NARROW` bytes may wait for the peer.
    pub(crate) fn arrived(
        clock: T,
        peer: Peer<T>,
        patience: Option<Arc<Patience>>,
        is_narrow: bool,
    ) -> UnixOutput<T>
        ensures { result ≡ record { faults = 0 } }
    {
        UnixOutput {
            clock,
            peer,
            patience,
            begun: None,
            is_narrow,
            faults: 0,
        }
    }

    /// What the peer of a connection that was made at a moment is sent. Its time began then.
    pub(crate) fn reached(
        clock: T,
        peer: Peer<T>,
        patience: Arc<Patience>,
        begun: Duration,
    ) -> UnixOutput<T>
        ensures { result ≡ record { faults = 0 } }
    {
        UnixOutput {
            clock,
            peer,
            patience: Some(patience),
            begun: Some(begun),
            is_narrow: false,
            faults: 0,
        }
    }

    // Sends bytes at the front, and waits for room only where there is none.
    fn send(&mut self, bytes: &[u8]) -> io::Result<usize>
        ensures count { IfOk result (λ n. n ≤ length bytes.now) }
        ensures faults { self.new.faults ≡ self.old.faults }
    {
        self.widen(bytes.len());
        match self.peer.stream.write(bytes) {
            Err(error) if may_pass(&error) => self.send_slowly(bytes),
            outcome => outcome,
        }
    }

    // Lets more bytes wait for the peer, once it is sent a longer text.
    fn widen(&mut self, size: usize)
        ensures faults { self.new.faults ≡ self.old.faults }
    {
        if self.is_narrow && size > NARROW as usize {
            self.peer.stream.bound_unsent(WIDE);
            self.is_narrow = false;
        }
    }

    // Waits for room, with patience where there is some.
    fn send_slowly(&mut self, bytes: &[u8]) -> io::Result<usize>
        ensures count { IfOk result (λ n. n ≤ length bytes.now) }
        ensures faults { self.new.faults ≡ self.old.faults }
    {
        let part = &bytes[..bytes.len().min(PART)];
        let begun = self.begin()?;
        let Some(patience) = &self.patience else {
            return self.send_in_turns(part, begun, false);
        };
        let is_patient = patience.enter();
        let outcome = self.send_in_turns(part, begun, is_patient);
        patience.leave();
        outcome
    }

    // Tries again until the time of the whole write is over. Patience ends where nobody may have it any more.
    fn send_in_turns(&self, part: &[u8], begun: Duration, is_patient: bool) -> io::Result<usize>
        ensures count { IfOk result (λ n. n ≤ length part.now) }
    {
        for _ in 0..TURNS {
            let now = self.clock.monotonic()?;
            let Some(left) = time_left(is_patient && !self.is_over(), begun, now) else {
                break;
            };
            match self.peer.stream.write_within(part, turn_of(left)) {
                Err(error) if may_pass(&error) => {}
                outcome => return outcome,
            }
        }
        Err(io::Error::from(ErrorKind::TimedOut))
    }

    // Whether no writer may have patience any more.
    fn is_over(&self) -> bool {
        match &self.patience {
            Some(patience) => patience.is_over(),
            None => true,
        }
    }

    // The moment at which it waited first, which is now where it did not so far.
    fn begin(&mut self) -> io::Result<Duration>
        ensures { self.new.faults ≡ self.old.faults }
    {
        if let Some(begun) = self.begun {
            return Ok(begun);
        }
        let now = self.clock.monotonic()?;
        self.begun = Some(now);
        Ok(now)
    }
}

// How long the next turn lasts, where so much time is left.
fn turn_of(left: Duration) -> Duration {
    left.min(Duration::from_millis(TURN))
        .max(Duration::from_millis(LEAST_TURN))
}

impl<T: Wait + Clock + Drop> Attended for UnixOutput<T> {
    /// Asks poll(2) for POLLHUP: a peer that only sends no more has not gone.
    fn has_gone(&self) -> bool {
        self.peer.stream.has_gone()
    }
}

impl<T: Wait + Clock + Drop> Sink for UnixOutput<T> {
    ghost use Rattle.std.specs.Prelude.{None};

    ghost taken = { λ _. None };

    ghost faults = { λ s. s.faults };

    /// Sends bytes at the front. A peer that does not read is waited for: in all calls of one connection together up to five seconds
    /// where there is patience for it, else five milliseconds. That there is no room by then is a failure, as each error of the socket
    /// is.
    #[tactic(auto, using(crate::proofs::Counts::rose_risen))]
    fn write(&mut self, bytes: &[u8]) -> Result<usize, Failed>
        ensures count { IfOk result (λ n. n ≤ length bytes.now) }
        ensures some { IfOk result (λ n. 0 < length bytes.now → 0 < n) }
        ensures calm { OnOk result (self.new.faults ≡ self.old.faults) }
        ensures failed { OnErr result (Rose self.old.faults self.new.faults) }
    {
        match self.send(bytes) {
            Ok(count) if count > 0 || bytes.is_empty() => {
                if self.patience.is_some() {
                    self.peer.stream.note_answered();
                }
                Ok(count)
            }
            _ => {
                self.faults = self.faults.saturating_add(1);
                Err(Failed)
            }
        }
    }

    /// Sends bytes at the front, as far as there is room for them. Each error of the socket but that is a failure.
    #[tactic(auto, using(crate::proofs::Counts::rose_risen))]
    fn offer(&mut self, bytes: &[u8]) -> Result<usize, Failed>
        ensures count { IfOk result (λ n. n ≤ length bytes.now) }
        ensures calm { OnOk result (self.new.faults ≡ self.old.faults) }
        ensures failed { OnErr result (Rose self.old.faults self.new.faults) }
    {
        match self.peer.stream.write(bytes) {
            Ok(count) => {
                if count == bytes.len() && self.patience.is_some() {
                    self.peer.stream.note_answered();
                }
                Ok(count)
            }
            Err(error) if may_pass(&error) => Ok(0),
            Err(_) => {
                self.faults = self.faults.saturating_add(1);
                Err(Failed)
            }
        }
    }
}
