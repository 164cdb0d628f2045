// `UnixInput`: the bytes that a peer sends over a socket of the system.
ghost use Rattle.std.specs.Prelude.{◌≡◌, ◌≤◌, length, IfOk, OnOk, OnErr};
ghost use Rattle.nsc_model.specs.Reads.{Rose};

use crate::lease::Lease;
use crate::peer::Peer;
use crate::stream::may_pass;
use nsc_outside::{Failed, Source};
use std::io;
use std::io::ErrorKind;
use std::marker::Model;
use std::sync::Wait;
use std::time::{Clock, Duration};

// Where the bytes of a peer come from.
#[derive(Drop)]
enum From<R: Wait + Clock + Drop> {
    // A connection that came: all that is given was seen ahead. The bytes lie in the socket still, for a closer to take.
    Seen {
        ahead: Vec<u8>,
        next: usize,
    },
    // A connection that was made: bytes are taken as they come, up to a moment.
    Socket {
        clock: R,
        peer: Peer<R>,
        deadline: Duration,
    },
}

/// What a peer sends over a socket. It tells nothing of the bytes; contracts see its count of faults.
#[derive(Drop)]
pub struct UnixInput<R: Wait + Clock + Drop> {
    from: From<R>,
    // Of a connection that comes back for what its peer sends later.
    lease: Option<Lease<R>>,
    faults: u64,
}

impl<R: Wait + Clock + Drop> Model for UnixInput<R> {
    ghost use Rattle.nsc_sockets.specs.Adapters.{UnixInput};

    ghost Value = { UnixInput };

    ghost view = { λ s. record { faults = s.faults } };
}

impl<R: Wait + Clock + Drop> UnixInput<R> {
    /// What was seen of the bytes of a connection that came. Its end follows them.
    pub(crate) fn arrived(ahead: Vec<u8>, lease: Option<Lease<R>>) -> UnixInput<R>
        ensures { result ≡ record { faults = 0 } }
    {
        UnixInput {
            from: From::Seen { ahead, next: 0 },
            lease,
            faults: 0,
        }
    }

    /// What the peer of a connection that was made sends up to a moment.
    pub(crate) fn reached(clock: R, peer: Peer<R>, deadline: Duration) -> UnixInput<R>
        ensures { result ≡ record { faults = 0 } }
    {
        UnixInput {
            from: From::Socket {
                clock,
                peer,
                deadline,
            },
            lease: None,
            faults: 0,
        }
    }

    // The next bytes. None left of those that were seen is the end.
    fn next_bytes(&mut self, buf: &mut [u8]) -> io::Result<usize>
        ensures count { IfOk result (λ n. n ≤ length buf.old) }
        ensures faults { self.new.faults ≡ self.old.faults }
    {
        let count = self.from.read(buf)?;
        if count == 0 && !buf.is_empty() {
            if let Some(lease) = &mut self.lease {
                lease.note_served();
            }
        }
        Ok(count)
    }
}

impl<R: Wait + Clock + Drop> From<R> {
    // The bytes that were seen and not given yet.
    fn seen(&self) -> &[u8] {
        match self {
            From::Seen { ahead, next } => ahead.as_slice().get(*next..).unwrap_or_default(),
            From::Socket { .. } => &[],
        }
    }

    // The next bytes.
    fn read(&mut self, buf: &mut [u8]) -> io::Result<usize>
        ensures count { IfOk result (λ n. n ≤ length buf.old) }
    {
        match self {
            From::Seen { ahead, next } => {
                let seen = ahead.as_slice().get(*next..).unwrap_or_default();
                let count = seen.len().min(buf.len());
                buf[..count].copy_from_slice(&seen[..count]);
                *next = (*next).saturating_add(count);
                Ok(count)
            }
            From::Socket {
                clock,
                peer,
                deadline,
            } => read_until(&*clock, &*peer, *deadline, buf),
        }
    }
}

// Takes bytes as they come, and waits for some up to a moment.
fn read_until<R: Wait + Clock + Drop>(
    clock: &R,
    peer: &Peer<R>,
    deadline: Duration,
    buf: &mut [u8],
) -> io::Result<usize>
    ensures count { IfOk result (λ n. n ≤ length buf.old) }
{
    let left = deadline.saturating_sub(clock.monotonic()?);
    if left.is_zero() {
        return Err(io::Error::from(ErrorKind::TimedOut));
    }
    match peer.stream.read(buf) {
        Err(error) if may_pass(&error) => peer.stream.read_within(buf, left),
        outcome => outcome,
    }
}

impl<R: Wait + Clock + Drop> Source for UnixInput<R> {
    ghost use Rattle.std.specs.Prelude.{None};

    ghost left = { λ _. None };

    ghost faults = { λ s. s.faults };

    /// Gives those that were seen of a connection that came, and none of one that was made.
    fn ahead(&self) -> &[u8] {
        self.from.seen()
    }

    /// Gives bytes that have come. A connection that came gives those that were seen, and then its end. One that was made waits for
    /// bytes up to the end of its time; that no byte came by then is a failure, as each error of the socket is.
    #[tactic(auto, using(crate::proofs::Counts::rose_risen))]
    fn read(&mut self, buf: &mut [u8]) -> Result<usize, Failed>
        ensures count { IfOk result (λ n. n ≤ length buf.old) }
        ensures calm { OnOk result (self.new.faults ≡ self.old.faults) }
        ensures failed { OnErr result (Rose self.old.faults self.new.faults) }
    {
        let Ok(count) = self.next_bytes(buf) else {
            self.faults = self.faults.saturating_add(1);
            return Err(Failed);
        };
        Ok(count)
    }
}
