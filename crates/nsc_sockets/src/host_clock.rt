// `HostClock`: the system's clock in whole seconds since 1970.
ghost use Rattle.std.specs.Prelude.{◌≡◌, ◌^◌, ◌<◌, ◌≤◌};

use crate::clock::Clock;
use std::marker::Model;
use std::time;

/// The system's clock, in whole seconds since 1970, by the date as it was when this clock was made. It never falls, since no setting of
/// the date moves it from then on. Contracts see the moment that it told last.
#[derive(Debug, Drop)]
pub struct HostClock<T: time::Clock> {
    system: T,
    // How many seconds after 1970 the count began that no setting of the date moves.
    began: u64,
    latest: u64,
}

impl<T: time::Clock> Model for HostClock<T> {
    ghost use Rattle.std.specs.Prelude.{◌^◌, ◌<◌};
    ghost use Rattle.nsc_sockets.specs.Adapters.{HostClock};

    ghost Value = { HostClock };

    ghost view = { λ c. record { latest = c.latest } };

    ghost invariant = { λ c. c.latest < 2 ^ 62 };
}

// The last moment that there is.
const LAST: u64 = (1 << 62) - 1;

impl<T: time::Clock> HostClock<T> {
    /// A clock over the system's, which has told no moment. Where the system tells no date, its moments count from a start of the
    /// system's own.
    pub fn new(system: T) -> HostClock<T>
        ensures { result ≡ record { latest = 0 } }
    {
        let began = match (system.since_1970(), system.monotonic()) {
            (Ok(date), Ok(passed)) => date.as_secs().saturating_sub(passed.as_secs()),
            _ => 0,
        };
        HostClock {
            system,
            began,
            latest: 0,
        }
    }
}

impl<T: time::Clock> Clock for HostClock<T> {
    ghost latest = { λ c. c.latest };

    /// Where the system tells no time, or one before the last, the moment stays.
    fn now(&mut self) -> u64
        ensures latest { self.new.latest ≡ result }
        ensures later { self.old.latest ≤ result }
        ensures bound { result < 2 ^ 62 }
    {
        if let Ok(passed) = self.system.monotonic() {
            let moment = self.began.saturating_add(passed.as_secs());
            self.latest = self.latest.max(moment.min(LAST));
        }
        self.latest
    }
}
