// Who accepts beside the first thread, and when.
use super::{EVENTS, Entrance};
use crate::guest::ReadyGuest;
use crate::listener::Accepted;
use crate::role::Role;
use crate::unix_helper::{Tools, UnixHelper};
use crate::unix_input::UnixInput;
use crate::unix_output::UnixOutput;
use mio::Poll;
use nsc_roster::HELPERS;
use std::alloc::Global;
use std::io;
use std::net::Net;
use std::sync::atomic::Ordering;
use std::sync::{Arc, Wait};
use std::time::Clock;

// How many connections in a row are found at the first look before a helper is woken.
const STREAK: u32 = 8;

impl<R: Wait + Clock + Clone + Drop> Entrance<R> {
    /// Makes one more helper at the plain socket. `None` if there is none of that role, there are enough, or memory is short.
    pub(crate) fn helper(&mut self, system: &R) -> Option<UnixHelper<R>> {
        let tools = self.tools(system)?;
        let poll = self.spare.pop()?;
        let number = self.spare.len();
        UnixHelper::new(tools, number, poll).ok()
    }

    // What a helper is made with.
    fn tools(&self, system: &R) -> Option<Tools<R>> {
        let door = self.doors.iter().find(|door| door.role() == Role::Plain)?;
        Some(Tools {
            alloc: self.alloc,
            system: system.clone().ok()?,
            team: Arc::try_clone(&self.team).ok()?,
            socket: door.share()?,
            departures: Arc::try_clone(&self.means.departures).ok()?,
            share: self.means.share as u64,
            patience: Arc::try_clone(&self.patience).ok()?,
        })
    }

    /// Takes charge of the plain socket again, and looks there once as if told.
    pub(super) fn take_back(&mut self) {
        if !self.is_lent {
            return;
        }
        self.team.take_back();
        self.is_lent = false;
        for door in self.doors.iter_mut() {
            if door.role() == Role::Plain {
                door.open();
            }
        }
    }

    /// Puts a helper in charge if an administrator's order was found, which may wait. Wakes one if many connections follow each other.
    pub(super) fn note_found(
        &mut self,
        turn: u32,
        accepted: &Accepted<UnixInput<R>, UnixOutput<R>>,
    ) {
        if let Accepted::Conn {
            role: Role::Admin,
            ..
        } = accepted
        {
            self.is_lent = self.team.lend();
        }
        self.streak = if turn == 0 {
            self.streak.saturating_add(1)
        } else {
            0
        };
        if self.streak >= STREAK {
            self.streak = 0;
            if self.may_call() {
                self.team.call();
            }
        }
    }

    // Whether a helper would find a processor, and the workers keep up.
    fn may_call(&self) -> bool {
        let jobs = self.means.jobs.load(Ordering::SeqCst);
        self.is_wakeful && jobs <= (self.means.share / 2) as u64
    }

    /// Gives the next connection of a helper that can be given out.
    pub(super) fn next_handed(&mut self, system: &R) -> Option<ReadyGuest<R>> {
        for _ in 0..EVENTS {
            let guest = self.team.take(system)?;
            let ready = self.room.receive(self.poll.registry(), guest, false);
            if ready.is_some() {
                return ready;
            }
        }
        None
    }
}

/// Makes a poll for each helper.
pub(super) fn polls(alloc: Global, net: &impl Net) -> io::Result<Vec<Poll>> {
    let mut polls = Vec::with_capacity(alloc, HELPERS)?;
    for _ in 0..HELPERS {
        polls.push(Poll::new(net)?)?;
    }
    Ok(polls)
}
