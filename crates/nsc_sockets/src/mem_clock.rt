// `MemClock`: a clock in memory, whose moments follow at a fixed step.
ghost use Rattle.std.specs.Prelude.{◌≡◌, ◌<◌, ◌≤◌, ◌^◌};
ghost use Rattle.nsc_sockets.specs.MemClock.{MemClock, clock_from, after_telling};

use crate::clock::Clock;
use std::marker::Model;

/// A clock in memory, which tells the moments that it was told to tell.
#[derive(Debug, Drop)]
pub struct MemClock {
    latest: u64,
    next: u64,
    step: u64,
}

impl Model for MemClock {
    ghost use Rattle.std.specs.Prelude.{◌≤◌};
    ghost use Rattle.nsc_sockets.specs.MemClock.{MemClock, last_moment};

    ghost Value = { MemClock };

    ghost view = { λ c. record { latest = c.latest; next = c.next; step = c.step } };

    ghost invariant = { λ c. (c.latest ≤ c.next) × (c.next ≤ last_moment) };
}

// The last moment that a clock may tell.
const LAST: u64 = (1 << 62) - 1;

impl MemClock {
    /// A clock that tells `start` first, and then each time a moment `step` seconds later, but none after 2^62 - 1.
    pub fn new(start: u64, step: u64) -> MemClock
        ensures { result ≡ clock_from start step }
    {
        MemClock {
            latest: 0,
            next: start.min(LAST),
            step,
        }
    }
}

impl Clock for MemClock {
    ghost latest = { λ c. c.latest };

    /// Tells the next moment.
    fn now(&mut self) -> u64
        ensures latest { self.new.latest ≡ result }
        ensures later { self.old.latest ≤ result }
        ensures bound { result < 2 ^ 62 }

        ensures told { result ≡ self.old.next }
        ensures after { self.new ≡ after_telling self.old }
    {
        self.latest = self.next;
        self.next = self.next.saturating_add(self.step).min(LAST);
        self.latest
    }
}
