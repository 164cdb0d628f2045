// The threads that serve beside the one that accepts: workers and helpers.
ghost use Rattle.std.specs.Prelude.{◌≡◌};

use crate::acceptor::Acceptor;
use crate::helping::{Helping, Shared};
use crate::intake::Waitings;
use crate::latch::Latch;
use crate::tally::Tally;
use crate::worker::Worker;
use nsc_base::NoMemory;
use nsc_model::Store;
use nsc_outside::{Sink, Source};
use nsc_sockets::{Attended, Helps, Listener};
use std::sync::{Arc, Wait};
use std::thread::Threads;
use std::{thread, time};

/// Leaves connections to the workers, if there are some, and gives how many serve them then.
pub fn hand_over<S: Store + Drop, R: Source + Drop, K: Sink + Drop>(
    acceptor: &mut Acceptor<S, R, K>,
    list: &Waitings<R, K>,
    workers: usize,
) -> usize
    ensures { acceptor.new ≡ acceptor.old }
{
    if workers == 0 {
        return 0;
    }
    match Arc::try_clone(list) {
        Ok(shared) => {
            acceptor.waitings = Some(shared);
            workers
        }
        Err(_) => 0,
    }
}

/// Starts as many workers as it can, up to this number, and gives how many.
pub fn start_workers<
    RT: AllocGlobal + Threads + Wait + time::Clock + Clone + Drop + Send + Sync + 'static,
    S: Store + Drop + Send + Sync + 'static,
    R: Source + Send + Drop + 'static,
    K: Sink + Attended + Send + Drop + 'static,
>(
    rt: &RT,
    workers: u32,
    acceptor: &Acceptor<S, R, K>,
    list: &Waitings<R, K>,
    latch: &Arc<Latch>,
) -> usize
where
    S::Pass: Send + 'static,
{
    let mut started = 0usize;
    for _ in 0..workers {
        let Ok(worker) = Worker::new(
            rt,
            &acceptor.stores,
            acceptor.scopes,
            list,
            latch,
            acceptor.gate.is_some(),
        ) else {
            continue;
        };
        let Ok(theirs) = rt.clone() else {
            continue;
        };
        latch.enter(rt);
        match thread::spawn(rt, move || worker.run(&theirs)) {
            Ok(_) => started = started.saturating_add(1),
            Err(_) => latch.leave(rt),
        }
    }
    started
}

/// Starts the helpers that the listener has, two at most. One that cannot be started is left out.
pub fn start_helpers<
    RT: AllocGlobal + Threads + Wait + time::Clock + Clone + Drop + Send + Sync + 'static,
    S: Store + Drop + Send + Sync + 'static,
    N: Listener,
>(rt: &RT, acceptor: &mut Acceptor<S, N::In, N::Out>, list: &Waitings<N::In, N::Out>, net: &mut N)
where
    S::Pass: Send + 'static,
    N::In: 'static,
    N::Out: 'static,
    N::Helper: Helps<N::In, N::Out> + 'static,
    ensures acceptor { acceptor.new ≡ acceptor.old }
    ensures given { N.given net.new ≡ N.given net.old }
    ensures bound { N.bound net.new ≡ N.bound net.old }
    ensures faults { N.faults net.new ≡ N.faults net.old }
{
    for_helper(rt, acceptor, list, net.helper());
    for_helper(rt, acceptor, list, net.helper());
}

// Starts a helper, if there is one. If memory is short, it is dropped.
fn for_helper<
    RT: AllocGlobal + Threads + Wait + time::Clock + Clone + Drop + Send + Sync + 'static,
    S: Store + Drop + Send + Sync + 'static,
    R: Source + Send + Drop + 'static,
    K: Sink + Send + Drop + 'static,
    H: Helps<R, K> + Send + Drop + 'static,
>(rt: &RT, acceptor: &mut Acceptor<S, R, K>, list: &Waitings<R, K>, helper: Option<H>)
where
    S::Pass: Send + 'static,
    ensures { acceptor.new ≡ acceptor.old }
{
    if let Some(helper) = helper {
        let _ = start_helper(rt, acceptor, list, helper);
    }
}

// Starts a helper, whose hits the thread that accepts takes.
fn start_helper<
    RT: AllocGlobal + Threads + Wait + time::Clock + Clone + Drop + Send + Sync + 'static,
    S: Store + Drop + Send + Sync + 'static,
    R: Source + Send + Drop + 'static,
    K: Sink + Send + Drop + 'static,
    H: Helps<R, K> + Send + Drop + 'static,
>(
    rt: &RT,
    acceptor: &mut Acceptor<S, R, K>,
    list: &Waitings<R, K>,
    helper: H,
) -> Result<(), NoMemory>
where
    S::Pass: Send + 'static,
    ensures { acceptor.new ≡ acceptor.old }
{
    let tally = Arc::new(rt.alloc(), Tally::new())?;
    let shared = Shared {
        tally: Arc::try_clone(&tally)?,
        moment: Arc::try_clone(&acceptor.moment)?,
    };
    let (stores, scopes) = (&acceptor.stores, acceptor.scopes);
    let helping = Helping::new(rt, stores, scopes, list, shared, helper)?;
    acceptor.tallies.push(tally)?;
    spawn_helper(rt, helping)
}

// Gives a helper a thread. Nobody joins it: it ends once the listener is closed.
fn spawn_helper<
    RT: AllocGlobal + Threads + Wait + time::Clock + Clone + Drop + Send + Sync + 'static,
    S: Store + Drop + Send + Sync + 'static,
    R: Source + Send + Drop + 'static,
    K: Sink + Send + Drop + 'static,
    H: Helps<R, K> + Send + Drop + 'static,
>(rt: &RT, helping: Helping<S, R, K, H>) -> Result<(), NoMemory>
where
    S::Pass: Send + 'static,
{
    let theirs = rt.clone()?;
    match thread::spawn(rt, move || helping.run(&theirs)) {
        Ok(_thread) => Ok(()),
        Err(_) => Err(NoMemory),
    }
}
