// `Closers`: the bounded list of jobs to close, and the start of the threads that close.
use crate::closing::Closing;
use crate::queue::Queue;
use crate::threads::{Shared, start_closer, start_watcher};
use nsc_base::NoMemory;
use std::alloc::Global;
use std::fs::File;
use std::rt::Files;
use std::sync::atomic::{AtomicBool, AtomicU64, Ordering};
use std::sync::{Arc, Condvar, Mutex, Wait};
use std::thread;
use std::thread::Threads;
use std::time::{Clock, Duration};

/// How much a list of jobs is made for.
#[derive(Clone, Copy, Debug)]
pub struct Bounds {
    /// How many jobs have room.
    pub places: usize,
    /// How many jobs fill the list. A closer's rest ends early if a quarter as many wait.
    pub full: usize,
    /// How many jobs may be left open.
    pub aside: usize,
}

/// A list of jobs, and the threads that close them, one at a time each. If all these threads are held by their jobs for 100
/// milliseconds, or the first job waits for as long, one more is made, up to 32. For a minute after that each job is looked at before it
/// is closed, and one that may take long is left open. It is over once all 32 are held, or as many jobs are left open as may be.
#[derive(Drop)]
pub struct Closers<T: Drop, R: Drop> {
    system: R,
    shared: Arc<Shared<T>>,
}

impl<T: Drop, R: Drop> Closers<T, R> {
    /// Makes a list without threads, with memory for as many jobs as `bounds` tells.
    pub fn new(alloc: Global, system: R, bounds: Bounds) -> Result<Closers<T, R>, NoMemory> {
        let shared = Shared {
            queue: Mutex::new(Queue::new(alloc, bounds)?),
            called: Condvar::new(),
            stirred: Condvar::new(),
            waiting: AtomicU64::new(0),
            is_over: AtomicBool::new(false),
        };
        Ok(Closers {
            system,
            shared: Arc::new(alloc, shared)?,
        })
    }

    /// How many jobs wait for a closer.
    pub fn waiting(&self) -> u64 {
        self.shared.waiting.load(Ordering::SeqCst)
    }

    /// Whether it is over: too much is left open, or every closer is held.
    pub fn is_over(&self) -> bool {
        self.shared.is_over.load(Ordering::SeqCst)
    }
}

impl<T: Drop, R: Drop> Closers<T, R> {
    /// What makes the threads of this list. It fails only without memory.
    pub fn crew(&self) -> Result<Crew<T>, NoMemory> {
        Ok(Crew {
            shared: Arc::try_clone(&self.shared)?,
        })
    }
}

/// What makes the threads of a list of jobs.
#[derive(Drop)]
pub struct Crew<T: Drop> {
    shared: Arc<Shared<T>>,
}

impl<T: Closing + Drop + Send + 'static> Crew<T> {
    /// Makes the first closer, and the watcher, who makes the others. It fails only without memory.
    pub fn start<RT>(&self, rt: &RT) -> Result<(), NoMemory>
    where
        RT: AllocGlobal
            + Files<File = File>
            + Threads
            + Wait
            + Clock
            + Clone
            + Drop
            + Send
            + Sync
            + 'static,
        RT::Dir: Send + 'static,
    {
        start_closer(rt, &self.shared)?;
        start_watcher(rt, &self.shared)
    }
}

impl<T: Drop, R: Wait + Clock + Drop> Closers<T, R> {
    /// Puts a job at the end, and waits for nobody. A closer's rest ends if the job is urgent, or if the list is a quarter full.
    pub fn put(&self, job: T, is_urgent: bool) {
        let now = self.system.monotonic().unwrap_or(Duration::ZERO);
        let mut queue = self.shared.queue.lock(&self.system);
        queue.add(job, now);
        self.shared
            .waiting
            .store(queue.jobs.len() as u64, Ordering::SeqCst);
        let is_wanted = queue.call(is_urgent);
        drop(queue);
        if is_wanted {
            self.shared.called.notify_one();
        }
    }

    /// Waits until all jobs are closed, but no longer than a number of milliseconds.
    pub fn settle(&self, most: u32) {
        for _ in 0..most {
            if !self.shared.queue.lock(&self.system).is_busy() {
                return;
            }
            thread::sleep(&self.system, Duration::from_millis(1));
        }
    }
}
