// The threads that accept: the first, which has all sockets, and its helpers, which take connections at the plain one.
use crate::guest::Guest;
use mio::{Poll, Registry, Token, Waker};
use nsc_roster::{HELPERS, Watch};
use std::alloc::Global;
use std::collections::VecDeque;
use std::io;
use std::sync::atomic::{AtomicBool, AtomicU64, AtomicUsize, Ordering};
use std::sync::{Mutex, Wait};
use std::time::Clock;

// How many connections may wait for the first thread.
const MOST: usize = 256;

// The token of a helper's waker.
pub(crate) const CALLED: Token = Token(0);

/// Holds what the threads that accept share.
#[derive(Drop)]
pub(crate) struct Team<R: Wait + Clock + Drop> {
    watch: Watch,
    // End the waits of the first thread and of each helper.
    first: Waker,
    wakers: Vec<Waker>,
    // Connections of helpers whose requests are not whole.
    handed: Mutex<VecDeque<Guest<R>>>,
    // Their number, for a look without the lock.
    count: AtomicU64,
    // How many helpers have a thread.
    joined: AtomicUsize,
    is_over: AtomicBool,
}

impl<R: Wait + Clock + Drop> Team<R> {
    /// Makes a team whose first thread polls `first` and is told by `token`, and whose helpers poll each its own.
    pub(crate) fn new(
        alloc: Global,
        first: &Registry,
        token: Token,
        polls: &[Poll],
    ) -> io::Result<Team<R>> {
        let mut wakers = Vec::with_capacity(alloc, HELPERS)?;
        for poll in polls {
            wakers.push(Waker::new(poll.registry(), CALLED)?)?;
        }
        Ok(Team {
            watch: Watch::new(),
            first: Waker::new(first, token)?,
            wakers,
            handed: Mutex::new(VecDeque::with_capacity(alloc, MOST)?),
            count: AtomicU64::new(0),
            joined: AtomicUsize::new(0),
            is_over: AtomicBool::new(false),
        })
    }

    /// Tells who accepts.
    pub(crate) fn watch(&self) -> &Watch {
        &self.watch
    }

    /// Notes that one more helper has a thread.
    pub(crate) fn join(&self) {
        self.joined.fetch_add(1, Ordering::SeqCst);
    }

    // Whether each helper has a thread. Else none is called: it might be the one without.
    fn is_complete(&self) -> bool {
        self.joined.load(Ordering::SeqCst) >= HELPERS
    }

    /// Wakes a helper that sleeps, if there is one.
    pub(crate) fn call(&self) {
        if !self.is_complete() {
            return;
        }
        if let Some(helper) = self.watch.call() {
            self.wake(helper);
        }
    }

    /// Puts a helper in charge of the plain socket, and tells whether there is one.
    pub(crate) fn lend(&self) -> bool {
        if !self.is_complete() {
            return false;
        }
        let Some(lent) = self.watch.lend() else {
            return false;
        };
        if lent.is_owed {
            self.wake(lent.helper);
        }
        true
    }

    /// Puts the first thread in charge again.
    pub(crate) fn take_back(&self) {
        if let Some(helper) = self.watch.take_back() {
            self.wake(helper);
        }
    }

    // Ends a helper's wait. If the system refuses, the next wake ends it.
    fn wake(&self, helper: usize) {
        if let Some(waker) = self.wakers.get(helper) {
            let _ = waker.wake();
        }
    }

    /// Gives a connection to the first thread. If too many wait for it, the oldest is closed.
    pub(crate) fn hand(&self, system: &R, guest: Guest<R>) {
        let mut handed = self.handed.lock(system);
        let oldest = if handed.len() >= MOST {
            handed.pop_front()
        } else {
            None
        };
        let refused = handed.push_back(guest);
        self.count.store(handed.len() as u64, Ordering::SeqCst);
        drop(handed);
        let _ = self.first.wake();
        drop(refused);
        drop(oldest);
    }

    /// Takes a connection that a helper gave, if there is one.
    pub(crate) fn take(&self, system: &R) -> Option<Guest<R>> {
        if !self.has_handed() {
            return None;
        }
        let mut handed = self.handed.lock(system);
        let guest = handed.pop_front();
        self.count.store(handed.len() as u64, Ordering::SeqCst);
        guest
    }

    /// Tells whether a connection waits for the first thread.
    pub(crate) fn has_handed(&self) -> bool {
        self.count.load(Ordering::SeqCst) > 0
    }

    /// Tells the helpers that no connection is to be taken any more.
    pub(crate) fn end(&self) {
        self.is_over.store(true, Ordering::SeqCst);
        for helper in 0..HELPERS {
            self.wake(helper);
        }
    }

    /// Tells whether no connection is to be taken any more.
    pub(crate) fn is_over(&self) -> bool {
        self.is_over.load(Ordering::SeqCst)
    }
}
