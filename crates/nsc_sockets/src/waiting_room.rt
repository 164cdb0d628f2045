// `WaitingRoom`: the pending set: connections that cannot be served yet, and their slots.
use crate::guest::{Glance, Guest, ReadyGuest, nanoseconds};
use crate::shares::Places;
use mio::unix::SourceFd;
use mio::{Interest, Registry, Token};
use nsc_tokens::Tokens;
use std::alloc::{AllocError, Global};
use std::collections::VecDeque;
use std::os::fd::AsRawFd;
use std::sync::Wait;
use std::time::{Clock, Duration};

// At most `STANDING` new connections are looked at again on each turn, `LOOKS` times each. Most requests come at once.
const STANDING: usize = 8;

const LOOKS: u32 = 50;

// The most connections that may wait for bytes that the system tells of.
const SLOTS: usize = 256;

// If the process has no descriptor left, `SPARE` connections leave, since files are to be read too.
const SPARE: usize = 8;

// How long a connection may sit without a whole request, in nanoseconds.
const STAY: u64 = 5_000_000_000;

/// Connections of which too little came to give them out. At first they stand and are looked at on each turn, then they sit
/// until the system tells of bytes; where no turn may be given to others between looks, they sit at once. The system tells of each
/// under a token that nobody had before, and of one that left it tells no more. A connection of the gate keeps its seat while a worker
/// has it, and waits there for its next lines.
#[derive(Drop)]
pub(crate) struct WaitingRoom<R: Wait + Clock + Drop> {
    alloc: Global,
    standing: VecDeque<Guest<R>>,
    seats: Tokens<Guest<R>>,
    // How many may sit.
    places: Places,
}

impl<R: Wait + Clock + Drop> WaitingRoom<R> {
    /// A room with nobody in it, for at most `most` connections, those that stand among them.
    pub(crate) fn new(alloc: Global, most: usize) -> Result<WaitingRoom<R>, AllocError> {
        Ok(WaitingRoom {
            alloc,
            standing: VecDeque::with_capacity(alloc, STANDING)?,
            seats: Tokens::with_capacity(alloc, SLOTS)?,
            places: Places::new(most.saturating_sub(STANDING).min(SLOTS).max(1)),
        })
    }

    /// Whether some stand, so that nobody may sleep.
    pub(crate) fn has_standing(&self) -> bool {
        !self.standing.is_empty()
    }

    /// Looks at a new connection, and takes it in where it cannot be given out yet.
    pub(crate) fn receive(
        &mut self,
        registry: &Registry,
        guest: Guest<R>,
        may_stand: bool,
    ) -> Option<ReadyGuest<R>> {
        self.look_at(registry, guest, may_stand)
    }

    // Looks at one that has no seat: it is given out, stands, sits down or leaves.
    fn look_at(
        &mut self,
        registry: &Registry,
        mut guest: Guest<R>,
        may_stand: bool,
    ) -> Option<ReadyGuest<R>> {
        guest.note_look();
        match guest.look(self.alloc, false) {
            Glance::Settled(ahead) => return self.give_out(registry, guest, ahead),
            Glance::Pending
                if may_stand && guest.looks() < LOOKS && self.standing.len() < STANDING => {
                let _ = self.standing.push_back(guest);
            }
            Glance::Pending => {
                self.seat(registry, guest);
            }
            Glance::Lost => {}
        }
        None
    }

    // Gives out one that has no seat. One that comes back is given one first.
    fn give_out(
        &mut self,
        registry: &Registry,
        guest: Guest<R>,
        ahead: Vec<u8>,
    ) -> Option<ReadyGuest<R>> {
        if !guest.comes_back() {
            return Some(guest.ready(ahead));
        }
        let now = guest.since();
        let token = self.seat(registry, guest)?;
        self.lend(registry, token, ahead, now)
    }

    // Gives out the one under this token, to which it comes back. Without memory for that it leaves.
    fn lend(
        &mut self,
        registry: &Registry,
        token: usize,
        ahead: Vec<u8>,
        now: u64,
    ) -> Option<ReadyGuest<R>> {
        let ready = self.seats.get(token)?.lend(token, ahead, now);
        if ready.is_none() {
            drop(self.leave(registry, token));
        }
        ready
    }

    /// Looks once at those that stand, up to the first that can be given out. Who was looked at often enough sits down.
    pub(crate) fn next_standing(
        &mut self,
        registry: &Registry,
        may_stand: bool,
    ) -> Option<ReadyGuest<R>> {
        for _ in 0..self.standing.len() {
            let guest = self.standing.pop_front()?;
            let ready = self.look_at(registry, guest, may_stand);
            if ready.is_some() {
                return ready;
            }
        }
        None
    }

    /// Looks at the one under this token, of which the system told that bytes came, or that no more will. One that left is passed over.
    pub(crate) fn stir(
        &mut self,
        registry: &Registry,
        token: usize,
        has_ended: bool,
        now: Duration,
    ) -> Option<ReadyGuest<R>> {
        let guest = self.seats.get(token)?;
        match guest.look(self.alloc, has_ended) {
            Glance::Settled(ahead) if guest.comes_back() => {
                self.lend(registry, token, ahead, nanoseconds(now))
            }
            Glance::Settled(ahead) => Some(self.leave(registry, token)?.ready(ahead)),
            Glance::Pending => None,
            Glance::Lost => {
                drop(self.leave(registry, token));
                None
            }
        }
    }

    // From now on the system tells of its bytes, also of those that came meanwhile. Without a free seat the oldest leaves. Gives the
    // token, where the guest could be seated.
    fn seat(&mut self, registry: &Registry, guest: Guest<R>) -> Option<usize> {
        if self.seats.len() >= self.places.most {
            self.close_oldest(registry);
        }
        let socket = guest.as_raw_fd();
        let token = self.seats.put(guest).ok()?;
        let mut source = SourceFd(&socket);
        if registry
            .register(&mut source, Token(token), Interest::READABLE)
            .is_err()
        {
            drop(self.seats.take(token));
            return None;
        }
        Some(token)
    }

    // Takes the one under this token from its seat. The system tells of it no more.
    fn leave(&mut self, registry: &Registry, token: usize) -> Option<Guest<R>> {
        let guest = self.seats.take(token)?;
        let socket = guest.as_raw_fd();
        let _ = registry.deregister(&mut SourceFd(&socket));
        Some(guest)
    }

    /// Closes those that have stayed too long at this moment. Where some had to leave for want of descriptors, more may sit again.
    pub(crate) fn sweep(&mut self, registry: &Registry, now: Duration) {
        self.places.grow();
        let now = nanoseconds(now);
        for seat in 0..SLOTS {
            let Some((token, since)) = self.sits_at(seat) else {
                continue;
            };
            if now.saturating_sub(since) >= STAY {
                drop(self.leave(registry, token));
            }
        }
    }

    /// Closes the oldest connections, since the process has room for no more. Gives false where there is none.
    pub(crate) fn clear(&mut self, registry: &Registry) -> bool {
        if !self.close_oldest(registry) {
            return false;
        }
        for _ in 1..SPARE {
            self.close_oldest(registry);
        }
        true
    }

    /// Whether as many may sit as at first.
    pub(crate) fn is_full_size(&self) -> bool {
        self.places.most >= self.places.full
    }

    /// Lets no more sit for now than do, since the process may have no more descriptors.
    pub(crate) fn shrink(&mut self) {
        self.places.shrink(self.seats.len());
    }

    // Closes the oldest connection, and gives false where there is none.
    fn close_oldest(&mut self, registry: &Registry) -> bool {
        match self.oldest() {
            Some(token) => drop(self.leave(registry, token)),
            None => return self.standing.pop_front().is_some(),
        }
        true
    }

    // The token of the oldest who sits.
    fn oldest(&self) -> Option<usize> {
        let mut oldest: Option<(usize, u64)> = None;
        for seat in 0..SLOTS {
            let Some((token, since)) = self.sits_at(seat) else {
                continue;
            };
            match oldest {
                Some((_, first)) if first <= since => {}
                _ => oldest = Some((token, since)),
            }
        }
        oldest.map(|(token, _)| token)
    }

    // The token of the one in a seat, and since when it sits there.
    fn sits_at(&self, seat: usize) -> Option<(usize, u64)> {
        let token = self.seats.token_at(seat)?;
        let guest = self.seats.get(token)?;
        Some((token, guest.since()))
    }
}
