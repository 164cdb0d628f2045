// How many connections may wait, by the descriptors that a process may have.
ghost use Rattle.std.specs.Prelude.{◌≡◌, ◌+◌, ◌*◌, ◌-◌, ◌/◌, min, max};

// What the process needs besides its workers: the standard streams, the doors, the lock of the folder, what tells of bytes, the
// connection and the file of the thread that accepts, its waker, three for each of two helpers, and some to spare.
const NEEDED: u64 = 23;

// Each worker needs one for its connection, and one for the file that it reads.
const OF_A_WORKER: u64 = 2;

// At least `LEAST` and at most `MOST` connections may wait in each place, whatever the number of descriptors.
const LEAST: u64 = 4;

const MOST: u64 = 4096;

/// How many descriptors a process of this number of workers cannot do without: its own, and the least number of connections in each of
/// the three places.
pub(crate) fn least_of(workers: u32) -> u64
    ensures { result ≡ 23 + 2 * workers + 12 }
{
    NEEDED + OF_A_WORKER * u64::from(workers) + 3 * LEAST
}

/// How many connections may wait for this number of workers, as many for bytes, and as many for a closer: in each place a third of what
/// the process does not need, at least 4 and at most 4,096.
pub(crate) fn share_of(descriptors: u64, workers: u32) -> u64
    ensures { result ≡ min (max ((descriptors - (23 + 2 * workers)) / 3) 4) 4096 }
{
    let needed = NEEDED + OF_A_WORKER * u64::from(workers);
    (descriptors.saturating_sub(needed) / 3)
        .max(LEAST)
        .min(MOST)
}

/// How many may sit at the moment, and at most.
#[derive(Clone, Copy, Debug)]
pub(crate) struct Places {
    pub(crate) most: usize,
    pub(crate) full: usize,
}

impl Places {
    /// As many as there are.
    pub(crate) fn new(full: usize) -> Places
        ensures { result ≡ record { most = full; full = full } }
    {
        Places { most: full, full }
    }

    /// No more than these are left, but for a few.
    pub(crate) fn shrink(&mut self, left: usize)
        ensures { self.new ≡ record self.old { most = min (max left 4) self.old.full } }
    {
        self.most = left.max(LEAST as usize).min(self.full);
    }

    /// Twice as many, up to all.
    pub(crate) fn grow(&mut self)
        ensures { self.new ≡ record self.old { most = min (self.old.most + self.old.most) self.old.full } }
    {
        self.most = self.most.saturating_add(self.most).min(self.full);
    }
}
