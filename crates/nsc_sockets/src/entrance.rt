// The listening sockets of a process, and the connections that wait to be given out.
mod helping;
mod resting;

use crate::departure::Departure;
use crate::door::Door;
use crate::entrance::helping::polls;
use crate::guest::{Guest, ReadyGuest};
use crate::listener::Accepted;
use crate::notice::Notice;
use crate::pace::Pace;
use crate::patience::{Patience, patient_of};
use crate::peer::{Departures, Peer};
use crate::role::Role;
use crate::stream::may_pass;
use crate::team::Team;
use crate::unix_input::UnixInput;
use crate::unix_output::{NARROW, UnixOutput};
use crate::waiting_room::WaitingRoom;
use mio::{Events, Poll, Registry, Token};
use nsc_lines::Lines;
use nsc_tokens::SEATS;
use nsc_yields::Yields;
use std::alloc::Global;
use std::collections::VecDeque;
use std::net::Net;
use std::os::unix::net::UnixListener;
use std::sync::atomic::AtomicU64;
use std::sync::{Arc, Wait};
use std::time::{Clock, Duration};
use std::{io, thread};

// So much the system may tell at a time.
const EVENTS: usize = 64;

// How long a call waits for a connection, in seconds, and the most turns that it takes for it.
const LONGEST: u64 = 1;

const TURNS: u32 = 1_000_000;

// The system is asked what it tells after UNASKED connections, or ASKED milliseconds.
const UNASKED: u32 = 64;

const ASKED: u64 = 1;

// How long a call pauses, in milliseconds, where it could not take a connection and there is none to close.
const PAUSE: u64 = 1;

// Who sits in the waiting room and is ready for a look.
#[derive(Clone, Copy, Debug)]
struct Stirred {
    token: usize,
    has_ended: bool,
}

/// What an entrance is made with.
#[derive(Drop)]
pub(crate) struct Means<R: Wait + Clock + Drop> {
    /// How many connections may wait for bytes, as many for a worker, and as many for a closer.
    pub(crate) share: usize,
    /// How many wait for a worker.
    pub(crate) jobs: Arc<AtomicU64>,
    /// The closers.
    pub(crate) departures: Departures<R>,
    /// Where the administrator is told.
    pub(crate) lines: Lines<R>,
}

/// The doors of a process, and the connections that came in and wait to be given out.
#[derive(Drop)]
pub(crate) struct Entrance<R: Wait + Clock + Drop> {
    alloc: Global,
    means: Means<R>,
    poll: Poll,
    // The same registry for those that come back from other threads.
    registry: Arc<Registry>,
    events: Events,
    doors: Vec<Door>,
    room: WaitingRoom<R>,
    stirred: VecDeque<Stirred>,
    // What patience the outputs have with peers that do not read.
    patience: Arc<Patience>,
    pace: Pace,
    yields: Yields,
    // How many connections may be taken before a look at how many wait for a closer.
    places: u64,
    is_wakeful: bool,
    // What was told of a want of descriptors.
    notice: Notice,
    team: Arc<Team<R>>,
    // The polls of helpers that are not made yet.
    spare: Vec<Poll>,
    // How many connections in a row were found at the first look.
    streak: u32,
    // Whether a helper is in charge of the plain socket.
    is_lent: bool,
    // When the system was asked last what it tells, and how many connections were looked for since.
    asked: Duration,
    unasked: u32,
}

impl<R: Wait + Clock + Clone + Drop> Entrance<R> {
    /// An entrance without doors. With fewer than three processors it sleeps whenever there is nothing to do, so as not to keep
    /// those from running that it waits for. No output has patience so far.
    pub(crate) fn new(
        alloc: Global,
        net: &impl Net,
        processors: usize,
        means: Means<R>,
    ) -> io::Result<Entrance<R>> {
        let poll = Poll::new(net)?;
        let registry = Arc::new(alloc, poll.registry().try_clone()?)?;
        let room = WaitingRoom::new(alloc, means.share)?;
        let spare = polls(alloc, net)?;
        let team = Team::new(alloc, poll.registry(), HANDED, &spare)?;
        Ok(Entrance {
            alloc,
            means,
            poll,
            registry,
            events: Events::with_capacity(alloc, EVENTS)?,
            doors: Vec::new(alloc),
            room,
            stirred: VecDeque::with_capacity(alloc, EVENTS)?,
            patience: Arc::new(alloc, Patience::new(0))?,
            pace: Pace::new(),
            yields: Yields::new(),
            places: 0,
            is_wakeful: processors >= 3,
            notice: Notice::new(),
            team: Arc::new(alloc, team)?,
            spare,
            streak: 0,
            is_lent: false,
            asked: Duration::ZERO,
            unasked: 0,
        })
    }

    /// Takes connections of this role from this socket too, which makes no call wait.
    pub(crate) fn add_door(&mut self, role: Role, socket: UnixListener) -> io::Result<()> {
        let token = door_token(self.doors.len());
        let socket = Arc::new(self.alloc, socket)?;
        let door = Door::new(self.poll.registry(), token, role, socket)?;
        self.doors.push(door)?;
        Ok(())
    }

    /// Ends all patience, also of those that wait, and the helpers, and has the doors and whoever was not given out closed.
    pub(crate) fn close(self) {
        let Entrance {
            means,
            doors,
            room,
            patience,
            team,
            ..
        } = self;
        patience.allow(0);
        team.end();
        drop(room);
        for door in doors {
            means.departures.put(Departure::Door(door.end()), true);
        }
    }

    /// Sets the number of workers, and with it how many slow peers may be waited for at once.
    pub(crate) fn set_workers(&self, workers: u64) {
        self.patience.allow(patient_of(workers));
    }

    /// The next connection that can be given out, or `Quiet` after a second without one. It fails if the closers can close no more.
    ///
    /// If the connection is an administrator's, a helper has charge of the plain socket until the next call.
    pub(crate) fn accept(
        &mut self,
        clock: &R,
    ) -> io::Result<Accepted<UnixInput<R>, UnixOutput<R>>> {
        self.take_back();
        let begun = clock.monotonic()?;
        self.ask_if_due(begun);
        let mut now = begun;
        for turn in 0..TURNS {
            if self.pace.begin_round(now) {
                self.begin_round(now)?;
            }
            if let Some(accepted) = self.next(clock, now) {
                self.note_found(turn, &accepted);
                return Ok(accepted);
            }
            let waited = now.saturating_sub(begun);
            let Some(left) = Duration::from_secs(LONGEST).checked_sub(waited) else {
                break;
            };
            let has_yielded = self.rest_or_pause(clock, turn, now, left)?;
            let later = clock.monotonic()?;
            if has_yielded {
                self.yields.note(now, later);
            }
            now = later;
        }
        Ok(Accepted::Quiet)
    }

    // Closes connections that have waited long enough. It fails if the closers can close no more.
    fn begin_round(&mut self, now: Duration) -> io::Result<()> {
        self.room.sweep(&self.registry, now);
        self.tell_end();
        if self.means.departures.is_over() {
            self.tell("nscd: too many connections carry descriptors whose close takes long");
            return Err(io::Error::from(io::ErrorKind::Other));
        }
        Ok(())
    }

    // A connection that can be given out at once, if there is one.
    fn next(&mut self, clock: &R, now: Duration) -> Option<Accepted<UnixInput<R>, UnixOutput<R>>> {
        let ready = self.next_ready(clock, now)?;
        let theirs = clock.clone().ok()?;
        let accepted = ready
            .into_ends(theirs, &self.patience, &self.registry)
            .ok()?;
        self.pace.note_given(now);
        Some(accepted)
    }

    // Those that stirred come first, then those of helpers, then those that stand, then those at the doors.
    fn next_ready(&mut self, clock: &R, now: Duration) -> Option<ReadyGuest<R>> {
        if let Some(ready) = self.next_stirred(now) {
            return Some(ready);
        }
        if let Some(ready) = self.next_handed(clock) {
            return Some(ready);
        }
        let may_stand = self.yields.may_yield(now);
        if let Some(ready) = self.room.next_standing(self.poll.registry(), may_stand) {
            return Some(ready);
        }
        if self.is_crowded() {
            return None;
        }
        for at in 0..self.doors.len() {
            if let Some(ready) = self.next_at(clock, now, at, may_stand) {
                return Some(ready);
            }
        }
        None
    }

    fn next_stirred(&mut self, now: Duration) -> Option<ReadyGuest<R>> {
        for _ in 0..self.stirred.len() {
            let Stirred { token, has_ended } = self.stirred.pop_front()?;
            if let Some(ready) = self.room.stir(&self.registry, token, has_ended, now) {
                return Some(ready);
            }
        }
        None
    }

    // Whether as many connections wait for a closer as may: then no more are taken. How many wait is looked at only once as many were
    // taken as could be at the last look, since each look slows those that give connections to closers.
    fn is_crowded(&mut self) -> bool {
        if self.places == 0 {
            let waiting = self.means.departures.waiting();
            self.places = (self.means.share as u64).saturating_sub(waiting);
        }
        self.places == 0
    }

    // Takes a connection at an open door. Where none can be taken, some that wait are closed to make room.
    fn next_at(
        &mut self,
        clock: &R,
        now: Duration,
        at: usize,
        may_stand: bool,
    ) -> Option<ReadyGuest<R>> {
        let is_near = self.pace.is_near();
        let door = self.doors.get_mut(at)?;
        if !door.is_open(is_near) {
            return None;
        }
        let role = door.role();
        let outcome = door.take();
        match outcome {
            Ok(socket) => {
                self.places = self.places.saturating_sub(1);
                let peer = Peer::arrived(self.alloc, socket, &self.means.departures).ok()?;
                if role == Role::Gate {
                    peer.stream.bound_unsent(NARROW);
                }
                let guest = Guest::new(role, peer, now);
                self.room.receive(self.poll.registry(), guest, may_stand)
            }
            Err(error) if may_pass(&error) => None,
            Err(error) => {
                self.make_room(clock, now, &error);
                None
            }
        }
    }

    // Some that wait are closed where descriptors or memory were short. Where none is, the next try comes a little later.
    fn make_room(&mut self, system: &R, now: Duration, error: &io::Error) {
        let is_wanting = is_wanting(error);
        let is_scarce = is_wanting || error.kind() == io::ErrorKind::OutOfMemory;
        if !(is_scarce && self.room.clear(&self.registry)) {
            thread::sleep(system, Duration::from_millis(PAUSE));
        }
        if is_wanting {
            self.room.shrink();
            self.tell_begin(now);
        }
    }

    // Tells the administrator that descriptors are wanting.
    fn tell_begin(&mut self, now: Duration) {
        if self.notice.begin(now) {
            self.tell("nscd: no descriptor is left: connections that wait are closed");
        }
    }

    // And that there are enough again, once as many may wait as before.
    fn tell_end(&mut self) {
        if self.room.is_full_size() && self.notice.end() {
            self.tell("nscd: there are descriptors again");
        }
    }

    fn tell(&self, line: &str) {
        self.means.lines.tell(line);
    }
}

// The token of the waker of the first thread. Those of connections begin behind the number of seats.
const HANDED: Token = Token(SEATS - 1);

// The token of a door. There are few.
fn door_token(at: usize) -> Token {
    Token(at.min(SEATS - 2))
}

// The system's numbers for the errors that the process, or all of them together, have as many open files as they may.
const MOST_OF_A_PROCESS: i32 = 24;

const MOST_OF_ALL: i32 = 23;

// Whether a descriptor was wanting.
fn is_wanting(error: &io::Error) -> bool {
    matches!(error.raw_os_error(), Some(MOST_OF_A_PROCESS | MOST_OF_ALL))
}
