// What an administrator is told of files that cannot be read.
ghost use Rattle.std.specs.Prelude.{◌≡◌, ◌+◌, ◌≤◌, ◌⊎◌, ◌↔◌, IsTrue};

use nsc_model::FileId;
use std::sync::atomic::{AtomicBool, AtomicU64, Ordering};

// A file is told of at most once in `PAUSE` seconds.
const PAUSE: u64 = 60;

/// When a fault of each file was told last, and whether that it is over is to be told, for all sets that share this.
#[derive(Drop)]
pub(crate) struct Notices {
    // One more than the second, and 0 where it was told never.
    told: [AtomicU64; 8],
    is_open: [AtomicBool; 8],
    // Whether the file was read, or found absent, at least once.
    is_known: [AtomicBool; 8],
}

impl Notices {
    /// None was told of.
    pub(crate) fn new() -> Notices {
        Notices {
            told: [
                AtomicU64::new(0),
                AtomicU64::new(0),
                AtomicU64::new(0),
                AtomicU64::new(0),
                AtomicU64::new(0),
                AtomicU64::new(0),
                AtomicU64::new(0),
                AtomicU64::new(0),
            ],
            is_open: [
                AtomicBool::new(false),
                AtomicBool::new(false),
                AtomicBool::new(false),
                AtomicBool::new(false),
                AtomicBool::new(false),
                AtomicBool::new(false),
                AtomicBool::new(false),
                AtomicBool::new(false),
            ],
            is_known: [
                AtomicBool::new(false),
                AtomicBool::new(false),
                AtomicBool::new(false),
                AtomicBool::new(false),
                AtomicBool::new(false),
                AtomicBool::new(false),
                AtomicBool::new(false),
                AtomicBool::new(false),
            ],
        }
    }

    /// Whether to tell of a fault of this file at this second, which is then taken for told.
    pub(crate) fn begin(&self, file: FileId, now: u64) -> bool {
        let told = &self.told[file as usize];
        let last = told.load(Ordering::SeqCst);
        if !is_due(last, now) {
            return false;
        }
        // Of several threads that come to this at once one tells it.
        let next = now.saturating_add(1);
        let outcome = told.compare_exchange(last, next, Ordering::SeqCst, Ordering::SeqCst);
        if outcome.is_ok() {
            self.is_open[file as usize].store(true, Ordering::SeqCst);
        }
        outcome.is_ok()
    }

    /// Whether this file was read, or found absent, before.
    pub(crate) fn is_known(&self, file: FileId) -> bool {
        self.is_known[file as usize].load(Ordering::SeqCst)
    }

    /// Notes that this file was read, and says whether to tell that its faults are over: once if one was told.
    pub(crate) fn end(&self, file: FileId) -> bool {
        self.is_known[file as usize].store(true, Ordering::SeqCst);
        let is_open = &self.is_open[file as usize];
        is_open.load(Ordering::SeqCst) && is_open.swap(false, Ordering::SeqCst)
    }
}

// Whether to tell of a fault, by one more than the second at which one was told last, and 0 for never.
fn is_due(told: u64, now: u64) -> bool
    ensures { IsTrue result ↔ ((told ≡ 0) ⊎ (told + 59 ≤ now)) }
{
    told == 0 || now.saturating_sub(told) >= PAUSE - 1
}
