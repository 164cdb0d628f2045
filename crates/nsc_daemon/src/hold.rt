// How long a thread is at one job.
ghost use Rattle.std.specs.Prelude.{◌≡◌, ◌<◌, ◌↔◌, IsTrue, None, Some};
ghost use Rattle.std.specs.Duration.{as_nanos};
ghost use Rattle.nsc_daemon.specs.Holds.{EndsJob, is_held};

use std::time::Duration;

// A thread that is at one job for as long is held, in milliseconds.
const HELD: u64 = 100;

/// Tells which connections waited while a thread was held: their peers may have gone.
#[derive(Clone, Copy, Debug, PartialEq, Eq)]
pub struct Hold {
    /// When the job began at which the thread is, if it is at one.
    pub begun: Option<Duration>,
    /// When the last job ended that held the thread, and zero if none did.
    pub ended: Duration,
}

impl Hold {
    /// Makes that of a thread which was at no job.
    pub fn new() -> Hold
        ensures begun { result.begun ≡ None }
        ensures ended { as_nanos result.ended ≡ 0 }
    {
        Hold {
            begun: None,
            ended: Duration::ZERO,
        }
    }

    /// Notes that a job begins at a moment.
    pub fn begin(&mut self, now: Duration)
        ensures { self.new ≡ record self.old { begun = Some now } }
    {
        self.begun = Some(now);
    }

    /// Notes that the job ends at a moment, if the thread is at one.
    pub fn end(&mut self, now: Duration)
        ensures { EndsJob now self.old self.new }
    {
        if is_held(self.begun, now) {
            self.ended = now;
        }
        self.begun = None;
    }

    /// Tells whether a connection that came at a moment waited while the thread was held.
    pub fn covers(&self, came: Duration) -> bool
        ensures { IsTrue result ↔ (as_nanos came < as_nanos self.now.ended) }
    {
        came.as_nanos() < self.ended.as_nanos()
    }
}

// Whether a thread that is at a job since a moment is held, at another.
fn is_held(begun: Option<Duration>, now: Duration) -> bool
    ensures { result ≡ is_held now begun }
{
    match begun {
        Some(begun) => now.saturating_sub(begun) >= Duration::from_millis(HELD),
        None => false,
    }
}
