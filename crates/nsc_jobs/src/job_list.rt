// `JobList`: the list of jobs between one thread that puts and workers that take.
use crate::queue::{Next, Queue};
use nsc_base::NoMemory;
use nsc_yields::Yields;
use std::alloc::Global;
use std::sync::atomic::{AtomicU64, Ordering};
use std::sync::{Arc, Condvar, Mutex, MutexGuard, Wait};
use std::thread;
use std::time::{Clock, Duration};

// How often a worker looks for a job before it sleeps.
const LOOKS: u32 = 100;

/// Jobs that one thread puts and others take, in order. No worker is woken without need: at most one is on its way at a time,
/// and while jobs follow each other closely one that has done its job looks for the next for a moment before it sleeps. It looks
/// no more where the processors are busy, as its yields tell. A job for which there is no place, or that has waited for more than five
/// seconds, is dropped.
#[derive(Drop)]
pub struct JobList<T: Drop> {
    queue: Mutex<Queue<T>>,
    woken: Condvar,
    // The number of jobs, for a look without the lock.
    jobs: Arc<AtomicU64>,
    may_look: bool,
}

impl<T: Drop> JobList<T> {
    /// Makes an open list without jobs, for at most `most`. With fewer than three processors no worker looks for jobs, which would keep
    /// others from running. `jobs` tells how many jobs wait, without a lock.
    pub fn new(alloc: Global, processors: usize, most: usize, jobs: Arc<AtomicU64>) -> JobList<T> {
        jobs.store(0, Ordering::SeqCst);
        JobList {
            queue: Mutex::new(Queue::new(alloc, most)),
            woken: Condvar::new(),
            jobs,
            may_look: processors >= 3,
        }
    }

    /// Puts a job at the end, and calls a worker where one is wanted. Where there are too many then, the oldest is dropped, and where
    /// there is no memory for it the job itself is.
    pub fn put<R: Wait + Clock>(&self, rt: &R, job: T) -> Result<(), NoMemory> {
        let now = moment(rt);
        let mut queue = self.queue.lock(rt);
        let oldest = queue.push(job, now)?;
        self.end_turn(queue);
        // It may take a while, so the lock is free by then.
        drop(oldest);
        Ok(())
    }

    /// Tells the workers that no more jobs will come. Those that were put before are still taken.
    pub fn close<R: Wait>(&self, rt: &R) {
        self.queue.lock(rt).close();
        self.woken.notify_all();
    }

    /// Takes the first job that is not too old, and waits where there is none. `None` exactly where it found the list closed and
    /// without jobs.
    pub fn take<R: Wait + Clock>(&self, rt: &R) -> Option<T> {
        let mut may_look = self.may_look;
        for _ in rt.forever() {
            let now = moment(rt);
            let mut queue = self.queue.lock(rt);
            let is_free = may_look && queue.yields.may_yield(now);
            match queue.next(is_free, now) {
                Next::Job(job) => {
                    self.end_turn(queue);
                    return Some(job);
                }
                Next::Old(job) => {
                    self.end_turn(queue);
                    drop(job);
                }
                Next::Leave => return None,
                Next::Look => {
                    let mut yields = queue.yields;
                    drop(queue);
                    self.look(rt, &mut yields);
                    self.queue.lock(rt).end_look(yields);
                    may_look = false;
                }
                Next::Sleep => {
                    self.woken.wait(rt, queue).wake();
                    may_look = self.may_look;
                }
            }
        }
        unreachable!()
    }

    // Gives the lock up after a change of the jobs, and then calls a worker where one is wanted.
    fn end_turn(&self, mut queue: MutexGuard<'_, Queue<T>>) {
        self.jobs.store(queue.len(), Ordering::SeqCst);
        let is_wanted = queue.call();
        drop(queue);
        if is_wanted {
            self.woken.notify_one();
        }
    }

    // Looks whether there are jobs, until there are, it has looked often enough, or it may not yield.
    fn look<R: Clock>(&self, rt: &R, yields: &mut Yields) {
        let mut now = moment(rt);
        for _ in 0..LOOKS {
            if self.jobs.load(Ordering::SeqCst) > 0 || !yields.may_yield(now) {
                return;
            }
            thread::yield_now();
            let later = moment(rt);
            yields.note(now, later);
            now = later;
        }
    }
}

// The moment by the system's clock, and always the same where it has none.
fn moment<R: Clock>(rt: &R) -> Duration {
    rt.monotonic().unwrap_or(Duration::ZERO)
}
