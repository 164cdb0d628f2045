// `Queue`: the jobs of a list in order, and what a worker does next.
ghost use Rattle.std.specs.Prelude.{◌≡◌, ◌<◌, [], ◌↔◌, ◌-◌, IsTrue, length, false, true, if◌then◌else◌, IfOk, OnErr};
ghost use Rattle.std.specs.Duration.{as_nanos};
ghost use Rattle.nsc_jobs.specs.Jobs.{DoesNext, HasGone, HasNoWorker, IsWorkerWanted, Puts};

use nsc_base::NoMemory;
use nsc_yields::Yields;
use std::alloc::Global;
use std::collections::VecDeque;
use std::time::Duration;

// Jobs are near each other where so much time at most lies between two, in microseconds.
const NEAR: u64 = 100;

// How long a client waits for its reply, in seconds.
const WAIT: u64 = 5;

/// A job, and the moment at which it was put.
#[derive(Drop)]
pub(crate) struct Timed<T: Drop> {
    pub(crate) job: T,
    pub(crate) since: Duration,
}

/// The jobs of a list, in order, and what its workers do.
#[derive(Drop)]
pub(crate) struct Queue<T: Drop> {
    pub(crate) jobs: VecDeque<Timed<T>>,
    // How many jobs there may be.
    pub(crate) most: usize,
    pub(crate) sleeping: u64,
    pub(crate) looking: u64,
    // Whether a worker was called that has not come yet.
    pub(crate) is_called: bool,
    pub(crate) is_closed: bool,
    // What the looks for jobs tell of yields.
    pub(crate) yields: Yields,
    is_near: bool,
    latest: Duration,
}

/// What a worker does next.
#[derive(Drop)]
pub(crate) enum Next<T: Drop> {
    /// It does this job.
    Job(T),
    /// It drops this job, whose client has gone.
    Old(T),
    /// It leaves: no job will come.
    Leave,
    /// It looks for a job for a moment.
    Look,
    /// It sleeps until it is called.
    Sleep,
}

impl<T: Drop> Queue<T> {
    /// No job, of at most `most` jobs, and no worker.
    pub(crate) fn new(alloc: Global, most: usize) -> Queue<T>
        ensures jobs { result.jobs.items ≡ [] }
        ensures most { result.most ≡ most }
        ensures closed { result.is_closed ≡ false }
        ensures workers { HasNoWorker result }
    {
        Queue {
            jobs: VecDeque::new(alloc),
            most,
            sleeping: 0,
            looking: 0,
            is_called: false,
            is_closed: false,
            yields: Yields::new(),
            is_near: false,
            latest: Duration::ZERO,
        }
    }

    /// Puts a job at the end, at this moment. Where there are more then than there may be, the oldest leaves, and is given. Jobs are
    /// near each other where less than 100 microseconds lie between the last two.
    pub(crate) fn push(&mut self, job: T, now: Duration) -> Result<Option<T>, NoMemory>
        ensures put { IfOk result (λ oldest. Puts self.old.most (record { job = job; since = now }) oldest self.old.jobs.items self.new.jobs.items) }
        ensures lost { OnErr result (self.new.jobs.items ≡ self.old.jobs.items) }
        ensures near { IsTrue self.new.is_near ↔ (as_nanos now - as_nanos self.old.latest < 100000) }
        ensures stays { self.new ≡ record self.old { jobs = self.new.jobs; is_near = self.new.is_near; latest = now } }
    {
        self.is_near = now.saturating_sub(self.latest) < Duration::from_micros(NEAR);
        self.latest = now;
        self.jobs.push_back(Timed { job, since: now })?;
        if self.jobs.len() <= self.most {
            return Ok(None);
        }
        Ok(self.jobs.pop_front().map(|oldest| oldest.job))
    }

    /// How many jobs there are.
    pub(crate) fn len(&self) -> u64
        ensures { result ≡ length self.now.jobs.items }
    {
        self.jobs.len() as u64
    }

    /// Whether one more worker is to be called, which is then on its way.
    pub(crate) fn call(&mut self) -> bool
        ensures wanted { IsTrue result ↔ IsWorkerWanted self.old }
        ensures called { self.new ≡ record self.old { is_called = if result then true else self.old.is_called } }
    {
        let is_wanted = self.sleeping > 0 && !self.is_called && self.looking < self.len();
        if is_wanted {
            self.is_called = true;
        }
        is_wanted
    }

    /// What a worker does next at this moment, and notes that it does so. It takes the job at the front, and does it unless its client
    /// has gone. Where there is none it leaves a closed list, and looks for a job only where it may, jobs are near each other, and no
    /// other worker looks.
    pub(crate) fn next(&mut self, may_look: bool, now: Duration) -> Next<T>
        ensures { DoesNext result may_look now self.old self.new }
    {
        match self.jobs.pop_front() {
            Some(Timed { job, since }) if has_gone(since, now) => Next::Old(job),
            Some(Timed { job, .. }) => Next::Job(job),
            None if self.is_closed => Next::Leave,
            None if may_look && self.is_near && self.looking == 0 => {
                self.looking = 1;
                Next::Look
            }
            None => {
                self.sleeping = self.sleeping.saturating_add(1);
                Next::Sleep
            }
        }
    }

    /// A worker looks no more, and this is what it learned of yields.
    pub(crate) fn end_look(&mut self, yields: Yields)
        ensures { self.new ≡ record self.old { looking = self.old.looking - 1; yields = yields } }
    {
        self.looking = self.looking.saturating_sub(1);
        self.yields = yields;
    }

    /// A worker sleeps no more, so the one that was called has come.
    pub(crate) fn wake(&mut self)
        ensures { self.new ≡ record self.old { sleeping = self.old.sleeping - 1; is_called = false } }
    {
        self.sleeping = self.sleeping.saturating_sub(1);
        self.is_called = false;
    }

    /// No more jobs will come.
    pub(crate) fn close(&mut self)
        ensures { self.new ≡ record self.old { is_closed = true } }
    {
        self.is_closed = true;
    }
}

// Whether the client of a job that was put at a moment has gone by now.
fn has_gone(since: Duration, now: Duration) -> bool
    ensures { IsTrue result ↔ HasGone since now }
{
    now.saturating_sub(since) > Duration::from_secs(WAIT)
}
