// The moment of the last connection, for threads without a clock of their own.
ghost use Rattle.std.specs.Prelude.{◌<◌, ◌^◌};

use std::sync::atomic::{AtomicIn, Ordering, Rule};

// A moment, in seconds, is below 2^62.
struct IsMoment;

impl Rule for IsMoment {
    ghost use Rattle.std.specs.Prelude.{◌<◌, ◌^◌};

    ghost invariant = { λ n. n < 2 ^ 62 };
}

/// Holds a moment, in seconds, as threads share it.
#[derive(Drop)]
pub struct Moment {
    word: AtomicIn<IsMoment>,
}

impl Moment {
    /// Begins at a moment.
    pub fn new(now: u64) -> Moment
        requires { now < 2 ^ 62 }
    {
        Moment {
            word: AtomicIn::new(now),
        }
    }

    /// Sets the moment.
    pub fn set(&self, now: u64)
        requires { now < 2 ^ 62 }
    {
        self.word.store(now, Ordering::SeqCst);
    }

    /// Tells the moment that was set last.
    pub fn get(&self) -> u64
        ensures { result < 2 ^ 62 }
    {
        self.word.load(Ordering::SeqCst)
    }
}
