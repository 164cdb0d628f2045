// The thread that ticks, so that a tick which waits for a file or a lock keeps no connection waiting.
ghost use Rattle.std.specs.Prelude.{◌≡◌, ◌<◌, ◌^◌, ◌⊎◌};
ghost use Rattle.nsc_daemon.specs.FastPath.{none_of_all};
ghost use Rattle.nsc_server.specs.Passes.{ArePasses};

use crate::fast_path::{FastPath, Hits, note_hits};
use crate::worker::attach_all;
use nsc_base::NoMemory;
use nsc_model::{Databases, Store};
use std::alloc::Global;
use std::marker::Model;
use std::mem::replace;
use std::sync::{Arc, Condvar, Mutex, Wait};
use std::thread;
use std::thread::Threads;
use std::time::Clock;

// Orders a tick at a moment, in seconds. The databases are told of the hits before it.
#[derive(Drop)]
struct Order {
    now: u64,
    hits: Databases<Hits>,
    ghost moment: { now < 2 ^ 62 },
}

// What the thread that ticks is at.
#[derive(Drop)]
enum State {
    // It waits for an order.
    Idle,
    // It has an order that it did not take yet.
    Ordered(Order),
    // It ticks.
    Busy,
    // No order will come.
    Closed,
}

// What both threads share.
#[derive(Drop)]
struct Orders {
    state: Mutex<State>,
    woken: Condvar,
}

/// The thread that ticks, as the thread that accepts sees it.
#[derive(Drop)]
pub struct Ticker {
    orders: Arc<Orders>,
}

// What the thread that ticks has: its passes, and its orders.
#[derive(Drop)]
struct Ticking<S: Store + Drop> {
    stores: Arc<Databases<S>, Global>,
    passes: Databases<S::Pass>,
    orders: Arc<Orders>,
}

impl<S: Store + Drop> Model for Ticking<S> {
    ghost use Rattle.std.specs.Arc.{arc_value};
    ghost use Rattle.nsc_server.specs.Passes.{ArePasses};
    ghost use Rattle.nsc_daemon.specs.Workers.{Ticking};

    ghost Value = { Ticking };

    ghost view = { λ t. record {} };

    ghost invariant = { λ t. ArePasses S.Store (arc_value t.stores) t.passes };
}

impl Ticker {
    /// Starts a thread that ticks these databases, with passes of its own. Fails only for want of memory, or of a thread.
    pub fn start<RT, S>(rt: &RT, stores: &Arc<Databases<S>, Global>) -> Result<Ticker, NoMemory>
    where
        RT: AllocGlobal + Threads + Wait + Clock + Clone + Drop + Send + Sync + 'static,
        S: Store + Drop + Send + Sync + 'static,
        S::Pass: Send + 'static,
    {
        let orders = Arc::new(
            rt.alloc(),
            Orders {
                state: Mutex::new(State::Idle),
                woken: Condvar::new(),
            },
        )?;
        let ticking = Ticking {
            stores: Arc::try_clone(stores)?,
            passes: attach_all(rt, stores)?,
            orders: Arc::try_clone(&orders)?,
        };
        let theirs = rt.clone()?;
        // Nobody joins it: a file may hold it for as long as it likes.
        match thread::spawn(rt, move || ticking.run(&theirs)) {
            Ok(_thread) => Ok(Ticker { orders }),
            Err(_) => Err(NoMemory),
        }
    }

    /// Orders a tick at this moment, in seconds, and hands over the hits. If the tick before is not done, nothing is ordered, and the
    /// hits stay.
    pub fn order<RT: Wait>(&self, rt: &RT, now: u64, fast: &mut FastPath)
        requires { now < 2 ^ 62 }
        ensures { (fast.new.hits ≡ fast.old.hits) ⊎ (fast.new.hits ≡ none_of_all) }
    {
        let mut state = self.orders.state.lock(rt);
        if let State::Idle = &*state {
            *state = State::Ordered(Order {
                now,
                hits: fast.take_hits(),
            });
            drop(state);
            self.orders.woken.notify_one();
        }
    }

    /// Tells the thread that no order will come. A tick that is under way goes on.
    pub fn close<RT: Wait>(&self, rt: &RT) {
        let mut state = self.orders.state.lock(rt);
        *state = State::Closed;
        drop(state);
        self.orders.woken.notify_one();
    }
}

impl Orders {
    // The next order, for which it waits. `None` if no order will come.
    fn take<RT: Wait>(&self, rt: &RT) -> Option<Order> {
        for _ in rt.forever() {
            let mut state = self.state.lock(rt);
            match replace(&mut *state, State::Busy) {
                State::Ordered(order) => return Some(order),
                State::Closed => {
                    *state = State::Closed;
                    return None;
                }
                State::Idle | State::Busy => {
                    *state = State::Idle;
                    drop(self.woken.wait(rt, state));
                }
            }
        }
        unreachable!()
    }
}

impl<S: Store + Drop> Ticking<S> {
    // Ticks as it is ordered, until no order will come.
    fn run<RT: AllocGlobal + Wait>(mut self, rt: &RT) {
        for _ in rt.forever() {
            if !self.turn(rt) {
                return;
            }
        }
    }

    // Waits for an order, and ticks. `false` if no order will come.
    fn turn<RT: AllocGlobal + Wait>(&mut self, rt: &RT) -> bool {
        let Some(order) = self.orders.take(rt) else {
            return false;
        };
        note_hits(rt, &self.stores, &order.hits);
        tick_all(rt, &self.stores, &mut self.passes, order.now);
        true
    }
}

/// Ticks the four databases at this moment, in seconds. A fault of a tick is passed over.
pub fn tick_all<RT: AllocGlobal + Wait, S: Store>(
    rt: &RT,
    stores: &Databases<S>,
    passes: &mut Databases<S::Pass>,
    now: u64,
)
    requires passes { ArePasses S.Store stores.now passes.old }
    requires moment { now < 2 ^ 62 }
    ensures { ArePasses S.Store stores.now passes.new }
{
    let _ = stores.passwd.tick(rt, rt.alloc(), &mut passes.passwd, now);
    let _ = stores.group.tick(rt, rt.alloc(), &mut passes.group, now);
    let _ = stores.hosts.tick(rt, rt.alloc(), &mut passes.hosts, now);
    let _ = stores
        .services
        .tick(rt, rt.alloc(), &mut passes.services, now);
}
