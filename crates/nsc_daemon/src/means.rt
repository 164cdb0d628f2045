// What a daemon has before its sockets are bound.
ghost use Rattle.std.specs.Prelude.{◌≡◌, ◌++◌, IfOk, codes};
ghost use Rattle.std.specs.Arc.{arc_value};
ghost use Rattle.std.specs.String.{string_bytes};
ghost use Rattle.nsc_server.specs.Passes.{AreNamed};

use crate::fast_path::FastPath;
use crate::gate::Gatekeeper;
use crate::intake::Waitings;
use crate::latch::Latch;
use crate::moment::Moment;
use crate::terms::Terms;
use crate::ticker::Ticker;
use nsc_base::NoMemory;
use nsc_jobs::JobList;
use nsc_model::{Databases, Store};
use nsc_server::RequestBuffer;
use nsc_sockets::{Listener, Prepared};
use std::alloc::Global;
use std::fs::File;
use std::rt::Files;
use std::sync::atomic::AtomicU64;
use std::sync::{Arc, Wait};
use std::thread;
use std::thread::Threads;
use std::time::Clock;

/// Tells how a daemon serves, as its listener has it.
#[derive(Drop)]
pub struct Manner {
    /// How many connections may wait for a worker.
    pub most: usize,
    /// The count of those that wait, as the listener shares it.
    pub jobs: Arc<AtomicU64>,
    /// Whether a thread of its own ticks.
    pub ticks_apart: bool,
}

/// Prepares the listener, and makes the threads that close connections. Where there are such, ticks have a thread too.
pub fn prepare<RT, N: Listener>(rt: &RT, workers: u32, net: &mut N) -> Result<Manner, NoMemory>
where
    RT: AllocGlobal
        + Files<File = File>
        + Threads
        + Wait
        + Clock
        + Clone
        + Drop
        + Send
        + Sync
        + 'static,
    RT::Dir: Send + 'static,
    N::Departure: 'static,
    ensures given { N.given net.new ≡ N.given net.old }
    ensures bound { N.bound net.new ≡ N.bound net.old }
    ensures faults { N.faults net.new ≡ N.faults net.old }
{
    let Prepared { most, jobs, crew } = net.prepare(workers)?;
    if let Some(crew) = &crew {
        crew.start(rt)?;
    }
    Ok(Manner {
        most,
        jobs: count_of(rt.alloc(), jobs)?,
        ticks_apart: crew.is_some(),
    })
}

// The count of the connections that wait: the listener's, if it has one.
fn count_of(alloc: Global, jobs: Option<Arc<AtomicU64>>) -> Result<Arc<AtomicU64>, NoMemory> {
    match jobs {
        Some(jobs) => Ok(jobs),
        None => Ok(Arc::new(alloc, AtomicU64::new(0))?),
    }
}

/// What a daemon has before its sockets are bound.
#[derive(Drop)]
pub struct Means<S: Store + Drop, R: Drop, K: Drop> {
    /// The databases, as the threads share them.
    pub stores: Arc<Databases<S>, Global>,
    /// The room for requests of the thread that accepts.
    pub buffer: RequestBuffer,
    /// What answers lookups in place.
    pub fast: FastPath,
    /// The thread that ticks, if the thread that accepts does not.
    pub ticker: Option<Ticker>,
    /// The connections that wait for a worker.
    pub list: Waitings<R, K>,
    /// Counts the workers that have not ended.
    pub latch: Arc<Latch>,
    /// Who serves the gate where there is one and no worker.
    pub gate: Option<Gatekeeper<S>>,
    /// Tells helpers the moment.
    pub moment: Arc<Moment>,
    /// The path of the socket of every user.
    pub plain: String,
    /// The path of the socket of the administrator.
    pub admin: String,
}

impl<S: Store + Drop, R: Drop, K: Drop> Means<S, R, K> {
    /// Makes what it takes to serve under these terms and in this manner. Fails only for want of memory, or of a thread.
    pub fn new<RT>(
        rt: &RT,
        terms: &Terms<'_>,
        manner: Manner,
        stores: Databases<S>,
    ) -> Result<Means<S, R, K>, NoMemory>
    where
        RT: AllocGlobal + Threads + Wait + Clock + Clone + Drop + Send + Sync + 'static,
        S: Send + Sync + 'static,
        S::Pass: Send + 'static,
        requires { AreNamed S.Store stores }
        ensures stores { IfOk result (λ means. arc_value means.stores ≡ stores) }
        ensures plain { IfOk result (λ means. string_bytes means.plain ≡ terms.now.run_dir.now ++ codes "/socket") }
        ensures admin { IfOk result (λ means. string_bytes means.admin ≡ terms.now.run_dir.now ++ codes "/admin") }
    {
        let alloc = rt.alloc();
        let buffer = RequestBuffer::new(alloc)?;
        let fast = FastPath::new(alloc)?;
        let stores = Arc::new(alloc, stores)?;
        let Manner {
            most,
            jobs,
            ticks_apart,
        } = manner;
        let list = waitings(rt, most, jobs)?;
        let latch = Arc::new(alloc, Latch::new())?;
        let (plain, admin) = socket_paths(alloc, terms.run_dir)?;
        let gate = gatekeeper(rt, terms, &stores)?;
        let moment = Arc::new(alloc, Moment::new(0))?;
        let ticker = if ticks_apart {
            Some(Ticker::start(rt, &stores)?)
        } else {
            None
        };
        Ok(Means {
            stores,
            buffer,
            fast,
            ticker,
            list,
            latch,
            gate,
            moment,
            plain,
            admin,
        })
    }
}

// An empty list for the connections that wait, at most `most`, which are counted in `jobs`. It fails only without memory.
fn waitings<RT: AllocGlobal + Threads, R: Drop, K: Drop>(
    rt: &RT,
    most: usize,
    jobs: Arc<AtomicU64>,
) -> Result<Waitings<R, K>, NoMemory> {
    let processors = match thread::available_parallelism(rt) {
        Ok(number) => number.get(),
        Err(_) => 1,
    };
    let list = JobList::new(rt.alloc(), processors, most, jobs);
    Ok(Arc::new(rt.alloc(), list)?)
}

// The paths of the two sockets: that of every user, and that of the administrator.
fn socket_paths(alloc: Global, run_dir: &str) -> Result<(String, String), NoMemory>
    ensures plain { IfOk result (λ paths. string_bytes paths.0 ≡ run_dir.now ++ codes "/socket") }
    ensures admin { IfOk result (λ paths. string_bytes paths.1 ≡ run_dir.now ++ codes "/admin") }
{
    let plain = format!(in alloc; "{run_dir}/socket")?;
    let admin = format!(in alloc; "{run_dir}/admin")?;
    Ok((plain, admin))
}

// Who serves the gate, where there is one and no worker.
fn gatekeeper<RT: AllocGlobal + Wait, S: Store + Drop>(
    rt: &RT,
    terms: &Terms<'_>,
    stores: &Arc<Databases<S>, Global>,
) -> Result<Option<Gatekeeper<S>>, NoMemory>
    requires { AreNamed S.Store (arc_value stores.now) }
{
    match terms.gate {
        Some(_) => Ok(Some(Gatekeeper::new(rt, stores)?)),
        None => Ok(None),
    }
}
