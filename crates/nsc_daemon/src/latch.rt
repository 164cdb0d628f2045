// An end that waits for threads for a while, and joins none.
use std::sync::{Condvar, Mutex, Wait};
use std::time::{Clock, Duration};

// So often a wait looks at most, however often it is woken.
const TURNS: u32 = 1_000_000;

/// Counts the threads that have not ended, for one that waits for them.
#[derive(Drop)]
pub struct Latch {
    left: Mutex<u64>,
    ended: Condvar,
}

impl Latch {
    /// Counts no thread.
    pub fn new() -> Latch {
        Latch {
            left: Mutex::new(0),
            ended: Condvar::new(),
        }
    }

    /// Counts one more thread, before it begins.
    pub fn enter<RT: Wait>(&self, rt: &RT) {
        let mut left = self.left.lock(rt);
        *left = left.saturating_add(1);
    }

    /// Counts one thread less, once it has ended or could not begin.
    pub fn leave<RT: Wait>(&self, rt: &RT) {
        let mut left = self.left.lock(rt);
        *left = left.saturating_sub(1);
        drop(left);
        self.ended.notify_one();
    }

    /// Waits until all have ended, but no longer than this. It does not wait without a clock.
    pub fn wait<RT: Wait + Clock>(&self, rt: &RT, limit: Duration) {
        let Ok(begun) = rt.monotonic() else {
            return;
        };
        let mut left = self.left.lock(rt);
        for _ in 0..TURNS {
            if *left == 0 {
                return;
            }
            let waited = match rt.monotonic() {
                Ok(now) => now.saturating_sub(begun),
                Err(_) => return,
            };
            let Some(rest) = limit.checked_sub(waited) else {
                return;
            };
            left = self.ended.wait_timeout(rt, left, rest).0;
        }
    }
}
