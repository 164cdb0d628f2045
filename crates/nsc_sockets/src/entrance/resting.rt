// How the thread that accepts waits for what the system tells.
use super::{ASKED, Entrance, PAUSE, Stirred, UNASKED, door_token};
use crate::stream::may_pass;
use mio::Token;
use nsc_tokens::SEATS;
use std::sync::Wait;
use std::time::{Clock, Duration};
use std::{io, thread};

// How many turns pass without sleep while connections are near each other.
const WAKEFUL: u32 = 50;

impl<R: Wait + Clock + Clone + Drop> Entrance<R> {
    /// Asks what the system tells, without waiting, if that was not done for a while: connections at one socket must not keep it from
    /// telling of others. It does not ask while connections that it told of wait for a look, whose list is bounded. If it cannot be
    /// asked, the next call tries again.
    pub(super) fn ask_if_due(&mut self, now: Duration) {
        self.unasked = self.unasked.saturating_add(1);
        let is_due = now.saturating_sub(self.asked) >= Duration::from_millis(ASKED);
        if self.stirred.is_empty() && (is_due || self.unasked >= UNASKED) {
            let _ = self.ask(now, Duration::ZERO);
        }
    }

    // Asks what the system tells, for which it waits up to a time, and notes that.
    fn ask(&mut self, now: Duration, limit: Duration) -> io::Result<()> {
        self.asked = now;
        self.unasked = 0;
        self.poll.poll(&mut self.events, Some(limit))?;
        self.note_events();
        Ok(())
    }

    /// Rests. If memory is short for that, it pauses, and the next turn tries again.
    pub(super) fn rest_or_pause(
        &mut self,
        clock: &R,
        turn: u32,
        now: Duration,
        left: Duration,
    ) -> io::Result<bool> {
        match self.rest(turn, now, left) {
            Err(error) if may_pass(&error) || error.kind() == io::ErrorKind::OutOfMemory => {
                thread::sleep(clock, Duration::from_millis(PAUSE));
                Ok(false)
            }
            outcome => outcome,
        }
    }

    // Waits until the system tells of something, at most for as long as is left. It does not sleep while there is work, nor at
    // first while connections are near each other, unless the processors are busy. While no more connections are taken it looks again
    // after a moment. Whether it yielded.
    fn rest(&mut self, turn: u32, now: Duration, left: Duration) -> io::Result<bool> {
        if self.is_crowded() {
            self.ask(now, Duration::from_millis(PAUSE))?;
            return Ok(false);
        }
        let is_unknown = self.doors.iter().any(|door| door.is_unknown());
        let may_yield = self.yields.may_yield(now);
        let looks_on = may_yield && self.is_wakeful && self.pace.is_near() && turn < WAKEFUL;
        let is_awake = looks_on || self.has_work();
        let limit = if is_awake { Duration::ZERO } else { left };
        self.ask(now, limit)?;
        let has_news = !self.events.is_empty();
        let yields = may_yield && is_awake && !has_news && !is_unknown;
        if is_unknown {
            self.ask_doors()?;
        }
        if yields {
            thread::yield_now();
        }
        Ok(yields)
    }

    // Whether there is somebody to look at of whom the system is not going to tell again.
    fn has_work(&self) -> bool {
        !self.stirred.is_empty()
            || self.team.has_handed()
            || self.room.has_standing()
            || self.doors.iter().any(|door| !door.is_quiet())
    }

    // Notes whom the system told of.
    fn note_events(&mut self) {
        for event in self.events.iter() {
            let Token(token) = event.token();
            if token < SEATS {
                if let Some(door) = self.doors.get_mut(token) {
                    door.open();
                }
            } else {
                let _ = self.stirred.push_back(Stirred {
                    token,
                    has_ended: event.is_read_closed(),
                });
            }
        }
    }

    // The doors of which it is still not known whether connections wait there are asked, so that the next wait tells.
    fn ask_doors(&mut self) -> io::Result<()> {
        for at in 0..self.doors.len() {
            if let Some(door) = self.doors.get_mut(at) {
                if door.is_unknown() {
                    door.ask(self.poll.registry(), door_token(at))?;
                }
            }
        }
        Ok(())
    }
}
