// What an administrator is told of one cause, again and again.
ghost use Rattle.std.specs.Prelude.{◌≡◌, ◌-◌, ◌≤◌, ◌↔◌, IsTrue, IfSome, Some, true, false, if◌then◌else◌};
ghost use Rattle.std.specs.Duration.{as_nanos};

use std::time::Duration;

// A cause is told of at most once in `PAUSE` seconds.
const PAUSE: u64 = 60;

/// When a cause was told of last, and whether that it is over is to be told.
#[derive(Clone, Copy, Debug)]
pub(crate) struct Notice {
    told: Option<Duration>,
    is_open: bool,
}

impl Notice {
    /// It was told of never.
    pub(crate) fn new() -> Notice {
        Notice {
            told: None,
            is_open: false,
        }
    }

    /// Whether to tell of the cause at this moment, which is then taken for told: unless that was done less than a minute ago.
    pub(crate) fn begin(&mut self, now: Duration) -> bool
        ensures due { IsTrue result ↔ IfSome self.old.told (λ at. 60000000000 ≤ as_nanos now - as_nanos at) }
        ensures told { self.new ≡ (if result then record { told = Some now; is_open = true } else self.old) }
    {
        let is_due = match self.told {
            Some(at) => now.saturating_sub(at) >= Duration::from_secs(PAUSE),
            None => true,
        };
        if is_due {
            self.told = Some(now);
            self.is_open = true;
        }
        is_due
    }

    /// Whether to tell that the cause is over: once where it was told of.
    pub(crate) fn end(&mut self) -> bool
        ensures told { result ≡ self.old.is_open }
        ensures over { self.new ≡ record self.old { is_open = false } }
    {
        let was_open = self.is_open;
        self.is_open = false;
        was_open
    }
}
