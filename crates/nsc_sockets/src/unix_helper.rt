// A helper at the plain socket.
use crate::guest::{Glance, Guest, ReadyGuest, nanoseconds};
use crate::helper::Helps;
use crate::patience::Patience;
use crate::peer::{Departures, Peer};
use crate::role::Role;
use crate::stream::may_pass;
use crate::team::{CALLED, Team};
use crate::unix_input::UnixInput;
use crate::unix_output::UnixOutput;
use mio::unix::SourceFd;
use mio::{Events, Interest, Poll, Token};
use std::alloc::Global;
use std::collections::VecDeque;
use std::os::fd::{AsRawFd, OwnedFd};
use std::os::unix::net::UnixListener;
use std::sync::{Arc, Wait};
use std::time::{Clock, Duration};
use std::{io, thread};

// The turns of a wait: more than there can be.
const TURNS: u64 = u64::MAX;

// `LOOKS` looks that find nothing come before a sleep; while connections are kept, `LOOKS_KEPT` before a wait.
const LOOKS: u32 = 5;

const LOOKS_KEPT: u32 = 50;

// At most `MOST_KEPT` connections whose requests are not whole are kept, each for `KEPT` nanoseconds: most requests come at once.
const MOST_KEPT: usize = 8;

const KEPT: u64 = 2_000_000;

// How long a helper pauses that cannot take a connection, or keeps some, in milliseconds.
const PAUSE: u64 = 1;

// What the system tells at a time: that the helper is called, and that connections wait.
const EVENTS: usize = 2;

const DOOR: Token = Token(CALLED.0 + 1);

/// What a helper is made with.
#[derive(Drop)]
pub(crate) struct Tools<R: Wait + Clock + Drop> {
    pub(crate) alloc: Global,
    pub(crate) system: R,
    pub(crate) team: Arc<Team<R>>,
    /// The plain socket.
    pub(crate) socket: Arc<UnixListener>,
    /// The closers, and how many connections may wait for them.
    pub(crate) departures: Departures<R>,
    pub(crate) share: u64,
    /// What patience the outputs have with peers that do not read.
    pub(crate) patience: Arc<Patience>,
}

/// Takes connections of the plain socket while it is awake. It sleeps if it finds none, unless it is in charge: then it waits for the
/// next one. A connection whose request does not come within two milliseconds is given to the first thread.
#[derive(Drop)]
pub struct UnixHelper<R: Wait + Clock + Drop> {
    tools: Tools<R>,
    number: usize,
    poll: Poll,
    events: Events,
    kept: VecDeque<Guest<R>>,
    // How many connections may be taken before a look at how many wait for a closer.
    places: u64,
    looks: u32,
    has_joined: bool,
    // Whether no connection waited at the last try to take one.
    is_quiet: bool,
    // Whether the system tells of connections.
    is_told: bool,
}

impl<R: Wait + Clock + Clone + Drop> UnixHelper<R> {
    /// Makes the helper of a number, which waits by this poll.
    pub(crate) fn new(tools: Tools<R>, number: usize, poll: Poll) -> io::Result<UnixHelper<R>> {
        let events = Events::with_capacity(tools.alloc, EVENTS)?;
        let kept = VecDeque::with_capacity(tools.alloc, MOST_KEPT)?;
        Ok(UnixHelper {
            tools,
            number,
            poll,
            events,
            kept,
            places: 0,
            looks: 0,
            has_joined: false,
            is_quiet: false,
            is_told: false,
        })
    }

    // Joins the others at its first turn, and sleeps until it is called.
    fn join(&mut self) {
        if !self.has_joined {
            self.has_joined = true;
            self.tools.team.join();
            self.sleep();
        }
    }

    // A connection whose request is whole, if there is one.
    fn find(&mut self) -> Option<(UnixInput<R>, UnixOutput<R>)> {
        let now = self.tools.system.monotonic().ok()?;
        let ready = match self.next_kept(now) {
            Some(ready) => ready,
            None => self.next_new(now)?,
        };
        let theirs = self.tools.system.clone().ok()?;
        ready.into_plain_ends(theirs, &self.tools.patience).ok()
    }

    // Looks once at those that are kept, up to the first whose request is whole.
    fn next_kept(&mut self, now: Duration) -> Option<ReadyGuest<R>> {
        for _ in 0..self.kept.len() {
            let guest = self.kept.pop_front()?;
            let ready = self.look_at(guest, now);
            if ready.is_some() {
                return ready;
            }
        }
        None
    }

    // Takes a connection, if one waits and the closers have places.
    fn next_new(&mut self, now: Duration) -> Option<ReadyGuest<R>> {
        self.is_quiet = false;
        if self.is_crowded() {
            return None;
        }
        let socket = self.take()?;
        self.places = self.places.saturating_sub(1);
        let peer = Peer::arrived(self.tools.alloc, socket, &self.tools.departures).ok()?;
        self.look_at(Guest::new(Role::Plain, peer, now), now)
    }

    // Takes a connection from the socket.
    fn take(&mut self) -> Option<OwnedFd> {
        match self.tools.socket.accept() {
            Ok((stream, _)) => Some(OwnedFd::from(stream)),
            Err(error) => {
                self.is_quiet = error.kind() == io::ErrorKind::WouldBlock;
                None
            }
        }
    }

    // Whether as many connections wait for a closer as may.
    fn is_crowded(&mut self) -> bool {
        if self.places == 0 {
            self.places = self
                .tools
                .share
                .saturating_sub(self.tools.departures.waiting());
        }
        self.places == 0
    }

    // Looks at a connection. If its request is not whole it is kept, and given to the first thread after a while.
    fn look_at(&mut self, guest: Guest<R>, now: Duration) -> Option<ReadyGuest<R>> {
        match guest.look(self.tools.alloc, false) {
            Glance::Settled(ahead) => return Some(guest.ready(ahead)),
            Glance::Pending => self.keep(guest, now),
            Glance::Lost => {}
        }
        None
    }

    // Keeps a connection, or gives it to the first thread.
    fn keep(&mut self, guest: Guest<R>, now: Duration) {
        let waited = nanoseconds(now).saturating_sub(guest.since());
        if waited < KEPT && self.kept.len() < MOST_KEPT {
            let _ = self.kept.push_back(guest);
        } else {
            self.tools.team.hand(&self.tools.system, guest);
        }
    }

    // Rests after a look that found nothing: yields at first, then sleeps, or waits for the next connection if it is in charge.
    fn rest(&mut self) {
        if self.looks < self.most_looks() {
            self.looks = self.looks.saturating_add(1);
            thread::yield_now();
        } else if !self.kept.is_empty() {
            self.wait_at_door(Some(Duration::from_millis(PAUSE)));
        } else {
            self.looks = 0;
            self.rest_idle();
        }
    }

    // How many looks come before a rest that is no yield.
    fn most_looks(&self) -> u32 {
        if self.kept.is_empty() {
            LOOKS
        } else {
            LOOKS_KEPT
        }
    }

    // Rests with no connection that is kept.
    fn rest_idle(&mut self) {
        if self.tools.team.watch().rest(self.number) {
            self.sleep();
        } else if self.is_quiet {
            self.wait_at_door(None);
        } else {
            self.pause();
        }
    }

    // Sleeps until it is called, or all is over.
    fn sleep(&mut self) {
        self.be_untold();
        for _ in 0..TURNS {
            if self.tools.team.is_over() || self.tools.team.watch().rise(self.number) {
                return;
            }
            self.wait(None);
        }
    }

    // Waits until a connection comes, it is called, or the time is up.
    fn wait_at_door(&mut self, limit: Option<Duration>) {
        if self.is_told {
            self.wait(limit);
        } else {
            self.be_told();
        }
    }

    // Has the system tell of connections, also of those that wait already.
    fn be_told(&mut self) {
        let socket = self.tools.socket.as_raw_fd();
        let registered = self
            .poll
            .registry()
            .register(&mut SourceFd(&socket), DOOR, Interest::READABLE);
        match registered {
            Ok(()) => self.is_told = true,
            Err(_) => self.pause(),
        }
    }

    // Has the system tell of connections no more.
    fn be_untold(&mut self) {
        if self.is_told {
            let socket = self.tools.socket.as_raw_fd();
            let _ = self.poll.registry().deregister(&mut SourceFd(&socket));
            self.is_told = false;
        }
    }

    // Waits for what the system tells, up to a time.
    fn wait(&mut self, limit: Option<Duration>) {
        match self.poll.poll(&mut self.events, limit) {
            Ok(()) => {}
            Err(error) if may_pass(&error) => {}
            Err(_) => self.pause(),
        }
    }

    fn pause(&self) {
        thread::sleep(&self.tools.system, Duration::from_millis(PAUSE));
    }
}

impl<R: Wait + Clock + Clone + Drop> Helps<UnixInput<R>, UnixOutput<R>> for UnixHelper<R> {
    fn next(&mut self) -> Option<(UnixInput<R>, UnixOutput<R>)> {
        self.join();
        for _ in 0..TURNS {
            if self.tools.team.is_over() {
                return None;
            }
            if let Some(ends) = self.find() {
                self.looks = 0;
                return Some(ends);
            }
            self.rest();
        }
        None
    }
}
