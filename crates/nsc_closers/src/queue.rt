// What waits to be closed, what is left open, and which closers are held.
ghost use Rattle.std.specs.Prelude.{◌≡◌, ◌≤◌, ◌<◌, ◌↔◌, [], IfNone, IfOk, IfSome, IsTrue, Some, None, count_by, length, slice_set, true, false, ◌+◌, ◌++◌, ◌∷◌, ◌⊎◌};
ghost use Rattle.std.specs.Duration.{as_nanos};
ghost use Rattle.nsc_closers.specs.Closing.{Begins, Ends, IsWanted, IsWary, WakesRest, WatchesSo, is_held, is_late};

use crate::closers::Bounds;
use std::alloc::{AllocError, Global};
use std::collections::VecDeque;
use std::mem;
use std::time::Duration;

/// The most closers.
pub(crate) const MOST_CLOSERS: usize = 32;

// A closer that is at one job for as long is held, and a job that waits for as long is late, in milliseconds.
const HOLD: u64 = 100;

// Once a closer was held, or a job was late, every job is looked at for as long before it is closed, in seconds.
const WARY: u64 = 60;

// Jobs are near each other if no more time lies between two, in microseconds.
const NEAR: u64 = 100;

// The part of a full list at which a closer's rest ends.
const WAKING_PART: usize = 4;

/// A job, and the moment at which it was put.
#[derive(Drop)]
pub(crate) struct Timed<T: Drop> {
    pub(crate) job: T,
    pub(crate) since: Duration,
}

/// The jobs of the closers, in order, and what the closers do.
#[derive(Drop)]
pub(crate) struct Queue<T: Drop> {
    pub(crate) jobs: VecDeque<Timed<T>>,
    /// The jobs that are left open.
    pub(crate) aside: Vec<T>,
    /// How many jobs fill the list.
    pub(crate) full: usize,
    /// How many jobs may be left open.
    pub(crate) most_aside: usize,
    /// Since when each closer is at its job, if it has one.
    pub(crate) at_work: Vec<Option<Duration>>,
    /// Until when jobs are looked at before they are closed.
    pub(crate) wary_until: Duration,
    /// Whether too much is left open, or every closer is held.
    pub(crate) is_over: bool,
    /// Closers that sleep until they are called, and closers that rest for a moment.
    pub(crate) sleeping: u64,
    pub(crate) resting: u64,
    /// Whether a sleeping closer was called that has not come yet.
    pub(crate) is_called: bool,
    /// Whether the watcher looks at the closers again.
    pub(crate) is_watched: bool,
    /// Whether the last two jobs came near each other.
    pub(crate) is_near: bool,
    latest: Duration,
}

/// A job that a closer begins, and whether to look at it first.
#[derive(Drop)]
pub(crate) struct Begun<T: Drop> {
    pub(crate) job: T,
    pub(crate) is_wary: bool,
}

/// What a look at the closers finds.
#[derive(Clone, Copy, Debug, PartialEq, Eq)]
pub(crate) enum Watch {
    /// A closer is free, or there is no work.
    Enough,
    /// All closers are held, or a job is late: one more is to be made, if there may be one.
    Short,
    /// All closers are held, and there are as many as there may be; or too much is left open.
    Over,
}

impl<T: Drop> Queue<T> {
    /// Makes a list without jobs and closers, and takes memory for the jobs of `bounds`, for those left open, and for all closers.
    pub(crate) fn new(alloc: Global, bounds: Bounds) -> Result<Queue<T>, AllocError>
        ensures empty { IfOk result (λ queue. (queue.jobs.items ≡ []) × (queue.at_work.items ≡ []) × (queue.is_over ≡ false)) }
        ensures bounds { IfOk result (λ queue. (queue.full ≡ bounds.full) × (queue.most_aside ≡ bounds.aside)) }
    {
        let most_kept = bounds.aside.saturating_add(MOST_CLOSERS);
        Ok(Queue {
            jobs: VecDeque::with_capacity(alloc, bounds.places)?,
            aside: Vec::with_capacity(alloc, most_kept)?,
            full: bounds.full,
            most_aside: bounds.aside,
            at_work: Vec::with_capacity(alloc, MOST_CLOSERS)?,
            wary_until: Duration::ZERO,
            is_over: false,
            sleeping: 0,
            resting: 0,
            is_called: false,
            is_watched: false,
            is_near: false,
            latest: Duration::ZERO,
        })
    }

    /// Adds a job at the end. A job that finds no memory is left open for good.
    pub(crate) fn add(&mut self, job: T, now: Duration)
        ensures added { (self.new.jobs.items ≡ self.old.jobs.items ++ record { job = job; since = now } ∷ []) ⊎ (self.new.jobs.items ≡ self.old.jobs.items) }
        ensures rest { self.new ≡ record self.old { jobs = self.new.jobs; is_near = self.new.is_near; latest = now } }
    {
        self.is_near = now.saturating_sub(self.latest) < Duration::from_micros(NEAR);
        self.latest = now;
        if let Err(refused) = self.jobs.push_back(Timed { job, since: now }) {
            mem::forget(refused.value);
        }
    }

    /// Tells whether to call a closer. One that rests is called if the job is urgent, or if the list is a quarter full. Else one that
    /// sleeps is called, if none rests and none was called, and is on its way then.
    pub(crate) fn call(&mut self, is_urgent: bool) -> bool
        ensures wanted { IsTrue result ↔ IsWanted is_urgent self.old }
        ensures rest { self.new ≡ record self.old { is_called = self.new.is_called } }
    {
        let is_resting = self.resting > 0;
        if is_urgent && is_resting {
            return true;
        }
        if wakes_rest(self.jobs.len(), self.full, is_resting) {
            return true;
        }
        let is_wanted = self.sleeping > 0 && !self.is_called && self.resting == 0;
        if is_wanted {
            self.is_called = true;
        }
        is_wanted
    }

    /// Adds a closer, and gives its number. `None` if there are as many as there may be.
    pub(crate) fn enlist(&mut self) -> Option<usize>
        ensures number { IfSome result (λ number. (number ≡ length self.old.at_work.items) × (length self.new.at_work.items ≡ number + 1) × (number < 32)) }
    {
        let number = self.at_work.len();
        if number >= MOST_CLOSERS || self.at_work.push(None).is_err() {
            return None;
        }
        Some(number)
    }

    /// Takes away the closer that was added last, which could not be made.
    pub(crate) fn dismiss(&mut self) {
        let _ = self.at_work.pop();
    }

    /// Has a closer begin the first job, if there is one.
    pub(crate) fn begin(&mut self, closer: usize, now: Duration) -> Option<Begun<T>>
        ensures begun { IfSome result (λ begun. Begins closer now begun self.old self.new) }
        ensures none { IfNone result ((self.old.jobs.items ≡ []) × (self.new ≡ record self.old { jobs = self.new.jobs }) × (self.new.jobs.items ≡ [])) }
    {
        let Timed { job, .. } = self.jobs.pop_front()?;
        self.note_work(closer, Some(now));
        let is_wary = now.as_nanos() < self.wary_until.as_nanos();
        Some(Begun { job, is_wary })
    }

    /// Has a closer end its job. A job that comes back is left open.
    pub(crate) fn end(&mut self, closer: usize, back: Option<T>, now: Duration)
        ensures { Ends closer back now self.old self.new }
    {
        self.note_work(closer, None);
        let Some(job) = back else {
            return;
        };
        self.be_wary(now);
        match self.aside.push(job) {
            Ok(()) => {}
            Err(refused) => mem::forget(refused.value),
        }
        if self.aside.len() >= self.most_aside {
            self.is_over = true;
        }
    }

    // Notes since when a closer is at work, if it is.
    fn note_work(&mut self, closer: usize, since: Option<Duration>)
        ensures rest { self.new ≡ record self.old { at_work = self.new.at_work } }
        ensures noted { closer < length self.old.at_work.items → self.new.at_work.items ≡ slice_set self.old.at_work.items closer since }
    {
        if let Some(place) = self.at_work.get_mut(closer) {
            *place = since;
        }
    }

    // Has each job looked at from now on, for a minute.
    fn be_wary(&mut self, now: Duration)
        ensures rest { self.new ≡ record self.old { wary_until = self.new.wary_until } }
        ensures until { IsWary now self.new }
    {
        self.wary_until = now.saturating_add(Duration::from_secs(WARY));
    }

    /// Looks at the closers at a moment.
    pub(crate) fn watch(&mut self, now: Duration) -> Watch
        ensures { WatchesSo now self.old self.new result }
    {
        let held = held_at(&self.at_work, now);
        let is_late = self.is_late(now);
        if held > 0 || is_late {
            self.be_wary(now);
        }
        if held == MOST_CLOSERS {
            self.is_over = true;
        }
        if self.is_over {
            Watch::Over
        } else if is_late || held == self.at_work.len() {
            Watch::Short
        } else {
            Watch::Enough
        }
    }

    // Whether the first job has waited for so long that it is late.
    fn is_late(&self, now: Duration) -> bool
        ensures { result ≡ is_late now self.now }
    {
        match self.jobs.front() {
            Some(first) => is_held(Some(first.since), now),
            None => false,
        }
    }

    /// Tells whether a job waits or a closer is at work.
    pub(crate) fn is_busy(&self) -> bool {
        !self.jobs.is_empty() || self.at_work.iter().any(|since| since.is_some())
    }
}

// Tells whether a closer's rest ends: the list holds a quarter of the jobs that fill it.
fn wakes_rest(count: usize, full: usize, is_resting: bool) -> bool
    ensures { IsTrue result ↔ WakesRest count full is_resting }
{
    is_resting && count >= full / WAKING_PART
}

// How many closers are at one job for so long that they are held.
fn held_at(at_work: &[Option<Duration>], now: Duration) -> usize
    ensures { result ≡ count_by (is_held now) at_work.now }
{
    at_work.iter().filter(|since| is_held(**since, now)).count()
}

// Whether a closer that is at its job since a moment is held.
fn is_held(since: Option<Duration>, now: Duration) -> bool
    ensures { result ≡ is_held now since }
{
    match since {
        Some(since) => now.saturating_sub(since) >= Duration::from_millis(HOLD),
        None => false,
    }
}
