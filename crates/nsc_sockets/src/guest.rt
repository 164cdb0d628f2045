// `Guest`: a pending connection, and the peek at the bytes that its peer has sent.
ghost use Rattle.std.specs.Prelude.{◌≤◌, length, IfSome};

use crate::lease::Lease;
use crate::listener::Accepted;
use crate::patience::Patience;
use crate::peer::Peer;
use crate::role::Role;
use crate::stream::may_pass;
use crate::unix_input::UnixInput;
use crate::unix_output::UnixOutput;
use crate::whole_lines::{MOST_SEEN, turn_size};
use mio::Registry;
use nsc_base::{Bytes, NoMemory};
use nsc_wire::{LONGEST, is_settled};
use std::alloc::Global;
use std::os::fd::{AsRawFd, RawFd};
use std::sync::atomic::{AtomicU64, Ordering};
use std::sync::{Arc, Wait};
use std::time::{Clock, Duration};

/// A connection that was accepted and has not been given out yet.
#[derive(Drop)]
pub(crate) struct Guest<R: Wait + Clock + Drop> {
    role: Role,
    peer: Peer<R>,
    // The moment at which it was accepted, or given out last, in nanoseconds.
    since: AtomicU64,
    looks: u32,
}

/// What a look at a guest found.
#[derive(Drop)]
pub(crate) enum Glance {
    /// What becomes of the connection is settled, and these bytes were seen of what its peer sends.
    Settled(Vec<u8>),
    /// More has to come first.
    Pending,
    /// The connection is broken or over, or there is no memory for what was seen.
    Lost,
}

/// A guest whose look was settled, with the bytes that were seen. One of the gate has a seat, to which it comes back.
#[derive(Drop)]
pub(crate) struct ReadyGuest<R: Wait + Clock + Drop> {
    role: Role,
    peer: Peer<R>,
    ahead: Vec<u8>,
    token: Option<usize>,
}

impl<R: Wait + Clock + Drop> Guest<R> {
    /// A connection on a socket of this role, accepted at this moment.
    pub(crate) fn new(role: Role, peer: Peer<R>, since: Duration) -> Guest<R> {
        Guest {
            role,
            peer,
            since: AtomicU64::new(nanoseconds(since)),
            looks: 0,
        }
    }

    /// Notes one more look.
    pub(crate) fn note_look(&mut self) {
        self.looks = self.looks.saturating_add(1);
    }

    /// Looks, without waiting, whether this connection can be given out. Where its peer sends no more it can be, whatever came, but at
    /// the gate something has to have come. One that a worker has cannot.
    pub(crate) fn look(&self, alloc: Global, has_ended: bool) -> Glance {
        if self.peer.stream.is_over() {
            return Glance::Lost;
        }
        if self.peer.stream.is_lent() {
            return Glance::Pending;
        }
        let mut room = [0u8; MOST_SEEN];
        let most = self.most_seen();
        let count = match self.peer.stream.peek(&mut room[..most]) {
            Ok(count) => count,
            Err(error) if may_pass(&error) => return Glance::Pending,
            Err(_) => return Glance::Lost,
        };
        if count == 0 && self.role == Role::Gate {
            return Glance::Lost;
        }
        let seen = &room[..count];
        let Some(size) = self.settled_size(seen, has_ended) else {
            return Glance::Pending;
        };
        match Bytes::copy(alloc, &seen[..size]) {
            Ok(ahead) => Glance::Settled(ahead.into_vec()),
            Err(NoMemory) => Glance::Lost,
        }
    }

    // How many bytes are looked at.
    fn most_seen(&self) -> usize
        ensures { result ≤ 1101 }
    {
        match self.role {
            Role::Plain | Role::Admin => LONGEST,
            Role::Gate => MOST_SEEN,
        }
    }

    // How many of the bytes that were seen are given out, where that is settled: a request whole, of the gate whole lines.
    fn settled_size(&self, seen: &[u8], has_ended: bool) -> Option<usize>
        ensures { IfSome result (λ size. size ≤ length seen.now) }
    {
        match self.role {
            Role::Plain | Role::Admin if has_ended || seen.is_empty() || is_settled(seen) => {
                Some(seen.len())
            }
            Role::Plain | Role::Admin => None,
            Role::Gate => match turn_size(seen, has_ended) {
                0 => None,
                size => Some(size),
            },
        }
    }

    /// Whether it comes back after it was given out.
    pub(crate) fn comes_back(&self) -> bool {
        self.role == Role::Gate
    }

    /// How often it was looked at.
    pub(crate) fn looks(&self) -> u32 {
        self.looks
    }

    /// When it was accepted, or given out last, in nanoseconds.
    pub(crate) fn since(&self) -> u64 {
        self.since.load(Ordering::SeqCst)
    }

    /// This guest, with what was seen of its bytes.
    pub(crate) fn ready(self, ahead: Vec<u8>) -> ReadyGuest<R> {
        let Guest { role, peer, .. } = self;
        ReadyGuest {
            role,
            peer,
            ahead,
            token: None,
        }
    }

    /// The guest as it is given out at this moment, to come back under its token. `None` without memory.
    pub(crate) fn lend(&self, token: usize, ahead: Vec<u8>, now: u64) -> Option<ReadyGuest<R>> {
        let peer = self.peer.share().ok()?;
        peer.stream.lend();
        self.since.store(now, Ordering::SeqCst);
        Some(ReadyGuest {
            role: self.role,
            peer,
            ahead,
            token: Some(token),
        })
    }
}

/// A moment in nanoseconds; it stops at the greatest `u64`.
pub(crate) fn nanoseconds(moment: Duration) -> u64 {
    u64::try_from(moment.as_nanos()).unwrap_or(u64::MAX)
}

impl<R: Wait + Clock + Drop> AsRawFd for Guest<R> {
    fn as_raw_fd(&self) -> RawFd {
        self.peer.as_raw_fd()
    }
}

impl<R: Wait + Clock + Drop> ReadyGuest<R> {
    /// The two ends of the connection. Without memory for them it is closed.
    pub(crate) fn into_ends(
        self,
        clock: R,
        patience: &Arc<Patience>,
        registry: &Arc<Registry>,
    ) -> Result<Accepted<UnixInput<R>, UnixOutput<R>>, NoMemory> {
        let ReadyGuest {
            role,
            peer,
            ahead,
            token,
        } = self;
        let lease = match token {
            Some(token) => Some(Lease::new(
                peer.share()?,
                Arc::try_clone(registry)?,
                token,
                ahead.len(),
            )),
            None => None,
        };
        // The thread that accepts serves administrators itself, so it waits long for none of them.
        let patience = match role {
            Role::Admin => None,
            Role::Plain | Role::Gate => Some(Arc::try_clone(patience)?),
        };
        let input = UnixInput::arrived(ahead, lease);
        let output = UnixOutput::arrived(clock, peer, patience, role == Role::Gate);
        Ok(Accepted::Conn {
            role,
            input,
            output,
        })
    }

    /// Makes the two ends of a connection of the plain socket. If memory is short, it is closed.
    pub(crate) fn into_plain_ends(
        self,
        clock: R,
        patience: &Arc<Patience>,
    ) -> Result<(UnixInput<R>, UnixOutput<R>), NoMemory> {
        let patience = Some(Arc::try_clone(patience)?);
        let ReadyGuest { peer, ahead, .. } = self;
        let input = UnixInput::arrived(ahead, None);
        Ok((input, UnixOutput::arrived(clock, peer, patience, false)))
    }
}
