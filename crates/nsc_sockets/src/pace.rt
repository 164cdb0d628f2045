// `Pace`: how closely connections follow one another, and when the next sweep is due.
use std::time::Duration;

// Connections are near each other where so much time at most lies between two, in microseconds.
const NEAR: u64 = 100;

// How often connections that have waited long enough are looked for: once in `ROUND` seconds.
const ROUND: u64 = 1;

/// How connections follow one another.
#[derive(Debug, Drop)]
pub(crate) struct Pace {
    is_near: bool,
    given: Duration,
    swept: Duration,
}

impl Pace {
    /// Before the first connection.
    pub(crate) fn new() -> Pace {
        Pace {
            is_near: false,
            given: Duration::ZERO,
            swept: Duration::ZERO,
        }
    }

    /// Whether the last two connections were near each other, so that the next one may be too.
    pub(crate) fn is_near(&self) -> bool {
        self.is_near
    }

    /// A connection was given out at this moment.
    pub(crate) fn note_given(&mut self, now: Duration) {
        self.is_near = now.saturating_sub(self.given) < Duration::from_micros(NEAR);
        self.given = now;
    }

    /// Whether at this moment a round is due, which is then taken for made.
    pub(crate) fn begin_round(&mut self, now: Duration) -> bool {
        let is_due = now.saturating_sub(self.swept) >= Duration::from_secs(ROUND);
        if is_due {
            self.swept = now;
        }
        is_due
    }
}
