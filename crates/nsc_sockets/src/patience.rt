// How long a write may wait for a peer that does not read, and who may wait long.
ghost use Rattle.std.specs.Prelude.{◌≡◌, ◌-◌, ◌<◌, ◌↔◌, IsSome, IfSome, min, if◌then◌else◌};
ghost use Rattle.std.specs.Duration.{as_nanos};

use std::sync::atomic::{AtomicU64, Ordering};
use std::time::Duration;

// At most `MOST` writers wait with patience.
const MOST: u64 = 2;

// How long a whole write may wait, with patience in seconds, and without in milliseconds.
const LONG: u64 = 5;

const SHORT: u64 = 5;

/// How many writers may have patience, and how many wait, of those that share it.
#[derive(Drop)]
pub(crate) struct Patience {
    most: AtomicU64,
    waiting: AtomicU64,
}

impl Patience {
    /// For `most` writers at a time.
    pub(crate) fn new(most: u64) -> Patience {
        Patience {
            most: AtomicU64::new(most),
            waiting: AtomicU64::new(0),
        }
    }

    /// For `most` writers from now on. With none, those that have it lose it at their next turn.
    pub(crate) fn allow(&self, most: u64) {
        self.most.store(most, Ordering::SeqCst);
    }

    /// One more waits. Whether it may have patience.
    pub(crate) fn enter(&self) -> bool {
        self.waiting.fetch_add(1, Ordering::SeqCst) < self.most.load(Ordering::SeqCst)
    }

    /// It waits no more.
    pub(crate) fn leave(&self) {
        self.waiting.fetch_sub(1, Ordering::SeqCst);
    }

    /// Whether nobody may have patience any more.
    pub(crate) fn is_over(&self) -> bool {
        self.most.load(Ordering::SeqCst) == 0
    }
}

/// How many of `workers` workers may wait with patience: all but one, so that one is always free, and two at most.
pub(crate) fn patient_of(workers: u64) -> u64
    ensures { result ≡ min (workers - 1) 2 }
{
    workers.saturating_sub(1).min(MOST)
}

/// What is left at a moment of the time that a whole write may wait, which began to wait at another.
pub(crate) fn time_left(is_patient: bool, begun: Duration, now: Duration) -> Option<Duration>
    ensures left { IsSome result ↔ (as_nanos now - as_nanos begun < (if is_patient then 5000000000 else 5000000)) }
    ensures amount { IfSome result (λ left. as_nanos left ≡ (if is_patient then 5000000000 else 5000000) - (as_nanos now - as_nanos begun)) }
{
    let whole = longest(is_patient);
    let waited = now.saturating_sub(begun);
    if waited < whole {
        Some(whole.saturating_sub(waited))
    } else {
        None
    }
}

// How long a whole write may wait.
fn longest(is_patient: bool) -> Duration
    ensures { as_nanos result ≡ (if is_patient then 5000000000 else 5000000) }
{
    if is_patient {
        Duration::from_secs(LONG)
    } else {
        Duration::from_millis(SHORT)
    }
}
