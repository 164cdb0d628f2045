// The threads: closers, and the watcher, who makes one more closer if all are held.
use crate::closing::Closing;
use crate::queue::{Begun, Queue, Watch};
use nsc_base::NoMemory;
use std::fs::File;
use std::rt::Files;
use std::sync::atomic::{AtomicBool, AtomicU64, Ordering};
use std::sync::{Arc, Condvar, Mutex, Wait};
use std::thread;
use std::thread::Threads;
use std::time::{Clock, Duration};

// How long a closer rests while jobs are near each other, in milliseconds.
const REST: u64 = 1;

// How long the watcher waits between two looks, in milliseconds.
const WATCH: u64 = 50;

/// What all closers, the watcher and the handles share.
#[derive(Drop)]
pub(crate) struct Shared<T: Drop> {
    pub(crate) queue: Mutex<Queue<T>>,
    // Told of a job.
    pub(crate) called: Condvar,
    // Told that a closer is at work again.
    pub(crate) stirred: Condvar,
    // The number of jobs, for a look without the lock.
    pub(crate) waiting: AtomicU64,
    // Whether too much is left open, or every closer is held.
    pub(crate) is_over: AtomicBool,
}

/// Makes one more closer, if there may be one.
pub(crate) fn start_closer<T, RT>(rt: &RT, shared: &Arc<Shared<T>>) -> Result<(), NoMemory>
where
    T: Closing + Drop + Send + 'static,
    RT: AllocGlobal
        + Files<File = File>
        + Threads
        + Wait
        + Clock
        + Clone
        + Drop
        + Send
        + Sync
        + 'static,
    RT::Dir: Send + 'static,
{
    let theirs = rt.clone()?;
    let jobs = Arc::try_clone(shared)?;
    let Some(closer) = shared.queue.lock(rt).enlist() else {
        return Ok(());
    };
    match thread::spawn(rt, move || close_all(&theirs, &jobs, closer)) {
        // Nobody joins it: it may be held for ever.
        Ok(_) => Ok(()),
        Err(_) => {
            shared.queue.lock(rt).dismiss();
            Err(NoMemory)
        }
    }
}

/// Makes the watcher.
pub(crate) fn start_watcher<T, RT>(rt: &RT, shared: &Arc<Shared<T>>) -> Result<(), NoMemory>
where
    T: Closing + Drop + Send + 'static,
    RT: AllocGlobal
        + Files<File = File>
        + Threads
        + Wait
        + Clock
        + Clone
        + Drop
        + Send
        + Sync
        + 'static,
    RT::Dir: Send + 'static,
{
    let theirs = rt.clone()?;
    let jobs = Arc::try_clone(shared)?;
    match thread::spawn(rt, move || watch_all(&theirs, &jobs)) {
        Ok(_) => Ok(()),
        Err(_) => Err(NoMemory),
    }
}

// Closes what comes, for ever.
fn close_all<T: Closing + Drop, RT: AllocGlobal + Files<File = File> + Wait + Clock>(
    rt: &RT,
    shared: &Shared<T>,
    closer: usize,
) {
    let mut back = None;
    for _ in rt.forever() {
        let Begun { job, is_wary } = next_job(rt, shared, closer, back);
        back = job.close(rt, rt.alloc(), is_wary);
    }
}

// Ends a closer's job, and begins the next one, which is waited for. While jobs are near each other, the closer rests before it sleeps,
// so that it need not be woken for each.
fn next_job<T: Drop, RT: Wait + Clock>(
    rt: &RT,
    shared: &Shared<T>,
    closer: usize,
    back: Option<T>,
) -> Begun<T> {
    let mut now = moment(rt);
    let mut queue = shared.queue.lock(rt);
    queue.end(closer, back, now);
    let mut may_rest = true;
    for _ in rt.forever() {
        if let Some(begun) = queue.begin(closer, now) {
            shared
                .waiting
                .store(queue.jobs.len() as u64, Ordering::SeqCst);
            if !queue.is_watched {
                queue.is_watched = true;
                shared.stirred.notify_one();
            }
            return begun;
        }
        if may_rest && queue.is_near {
            queue.resting = queue.resting.saturating_add(1);
            let rest = Duration::from_millis(REST);
            queue = shared.called.wait_timeout(rt, queue, rest).0;
            now = moment(rt);
            queue.resting = queue.resting.saturating_sub(1);
            may_rest = false;
        } else {
            queue.sleeping = queue.sleeping.saturating_add(1);
            queue = shared.called.wait(rt, queue);
            now = moment(rt);
            queue.sleeping = queue.sleeping.saturating_sub(1);
            queue.is_called = false;
            may_rest = true;
        }
    }
    unreachable!()
}

// Looks at the closers while they are at work, for ever.
fn watch_all<T, RT>(rt: &RT, shared: &Arc<Shared<T>>)
where
    T: Closing + Drop + Send + 'static,
    RT: AllocGlobal
        + Files<File = File>
        + Threads
        + Wait
        + Clock
        + Clone
        + Drop
        + Send
        + Sync
        + 'static,
    RT::Dir: Send + 'static,
{
    for _ in rt.forever() {
        wait_for_work(rt, shared);
        thread::sleep(rt, Duration::from_millis(WATCH));
        let found = shared.queue.lock(rt).watch(moment(rt));
        match found {
            Watch::Enough => {}
            Watch::Over => shared.is_over.store(true, Ordering::SeqCst),
            Watch::Short => {
                // Without memory the next look tries again.
                let _ = start_closer(rt, shared);
            }
        }
    }
}

// Waits until a job waits or a closer is at work.
fn wait_for_work<T: Drop, RT: Wait>(rt: &RT, shared: &Shared<T>) {
    let mut queue = shared.queue.lock(rt);
    for _ in rt.forever() {
        if queue.is_busy() {
            queue.is_watched = true;
            return;
        }
        queue.is_watched = false;
        queue = shared.stirred.wait(rt, queue);
    }
}

// The moment by the system's clock, and always zero where it has none.
fn moment<R: Clock>(rt: &R) -> Duration {
    rt.monotonic().unwrap_or(Duration::ZERO)
}
