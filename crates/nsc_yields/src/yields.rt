// `Yields`: whether a thread may yield the processor, as past yields tell.
ghost use Rattle.std.specs.Prelude.{◌≡◌, ◌≤◌, ◌<◌, ◌^◌, nat_lt, not};
ghost use Rattle.std.specs.Duration.{as_nanos};
ghost use Rattle.nsc_yields.specs.Yields.{after_late, after_yield, longest, lost_after, next_pause};

use std::marker::Model;
use std::time::Duration;

// A yield is late that took so long: others ran meanwhile. All times are in nanoseconds.
const LATE: u128 = 500_000;

// `MOST_LOST` may be lost to late yields, and of the time that passes one part in `PART`.
const MOST_LOST: u128 = 20_000_000;

const PART: u128 = 8;

const SHORTEST: u128 = 1_000_000_000;

const LONGEST: u128 = 16_000_000_000;

/// Whether a thread that looks out for work may yield the processor between two looks, as it learns from its yields.
///
/// Where a processor is free, a yield is the quickest way to let the peer go on for which the thread waits. Where all are
/// busy, whoever yields waits for all others, while one that sleeps is woken as its work comes. So once yields that came back
/// after half a millisecond or later took more than an eighth of the time and twenty milliseconds, a pause without yields
/// follows: of a second, and of twice as long each time that this soon happens again, up to sixteen.
#[derive(Clone, Copy, Debug)]
pub struct Yields {
    from: u128,
    pause: u128,
    lost: u128,
    at: u128,
}

impl Model for Yields {
    ghost use Rattle.std.specs.Prelude.{◌≤◌};
    ghost use Rattle.nsc_yields.specs.Yields.{Yields, longest, most_lost};

    ghost Value = { Yields };

    ghost view = { λ y. record { from = y.from; pause = y.pause; lost = y.lost; at = y.at } };

    ghost inverse = { λ y. record { from = y.from; pause = y.pause; lost = y.lost; at = y.at } };

    ghost invariant = { λ y. (y.pause ≤ longest) × (y.lost ≤ most_lost) };
}

impl Yields {
    /// No yield was late so far, so it may.
    pub fn new() -> Yields
        ensures { result ≡ record { from = 0; pause = 0; lost = 0; at = 0 } }
    {
        Yields {
            from: 0,
            pause: 0,
            lost: 0,
            at: 0,
        }
    }

    /// Whether it may yield at this moment.
    pub fn may_yield(&self, now: Duration) -> bool
        ensures { result ≡ not (nat_lt (as_nanos now) self.now.from) }
    {
        now.as_nanos() >= self.from
    }

    /// Notes a yield, from a moment before it to one after it.
    pub fn note(&mut self, began: Duration, ended: Duration)
        ensures { self.new ≡ after_yield self.old (as_nanos began) (as_nanos ended) }
    {
        let began = began.as_nanos();
        let ended = ended.as_nanos();
        if ended.saturating_sub(began) >= LATE {
            self.note_late(began, ended);
        }
    }

    // Notes a yield that came back late.
    fn note_late(&mut self, began: u128, ended: u128)
        requires { ended < 2 ^ 94 }
        ensures { self.new ≡ after_late self.old began ended }
    {
        let lost = self.lost_after(began, ended);
        if lost < MOST_LOST {
            self.lost = lost;
            self.at = ended;
            return;
        }
        let pause = self.next_pause(ended);
        *self = Yields {
            from: ended + pause,
            pause,
            lost: 0,
            at: ended,
        };
    }

    // How much is lost with this yield.
    fn lost_after(&self, began: u128, ended: u128) -> u128
        requires { ended < 2 ^ 94 }
        ensures { result ≡ lost_after self.now began ended }
    {
        let made_good = ended.saturating_sub(self.at) / PART;
        self.lost.saturating_sub(made_good) + ended.saturating_sub(began)
    }

    // The next pause, from this moment on.
    fn next_pause(&self, ended: u128) -> u128
        ensures pause { result ≡ next_pause self.now ended }
        ensures bound { result ≤ longest }
    {
        if ended.saturating_sub(self.from) < LONGEST {
            (2 * self.pause).min(LONGEST).max(SHORTEST)
        } else {
            SHORTEST
        }
    }
}
