// `Worker`: one thread that serves connections, with its passes and its buffer.
ghost use Rattle.std.specs.Prelude.{IfOk};
ghost use Rattle.std.specs.Arc.{arc_value};
ghost use Rattle.nsc_server.specs.Passes.{AreNamed, ArePasses};

use crate::gate::Gatekeeper;
use crate::hold::Hold;
use crate::intake::{Intake, Waitings};
use crate::latch::Latch;
use nsc_base::NoMemory;
use nsc_model::{Databases, Store};
use nsc_outside::{Sink, Source};
use nsc_server::{RequestBuffer, Scopes, work};
use nsc_sockets::Attended;
use std::alloc::Global;
use std::marker::Model;
use std::sync::{Arc, Wait};
use std::time::Clock;

/// One thread that serves connections: its passes, its buffer, and the connections that wait. For the gate it has other passes.
#[derive(Drop)]
pub struct Worker<S: Store + Drop, R: Source + Drop, K: Sink + Drop> {
    pub stores: Arc<Databases<S>, Global>,
    pub scopes: Scopes,
    pub passes: Databases<S::Pass>,
    pub buffer: RequestBuffer,
    pub intake: Intake<R, K, Gatekeeper<S>>,
    /// Counts the workers that have not ended.
    pub latch: Arc<Latch>,
}

impl<S: Store + Drop, R: Source + Drop, K: Sink + Drop> Model for Worker<S, R, K> {
    ghost use Rattle.std.specs.Arc.{arc_value};
    ghost use Rattle.nsc_server.specs.Passes.{AreNamed, ArePasses};
    ghost use Rattle.nsc_daemon.specs.Workers.{Worker};

    ghost Value = { Worker };

    ghost view = { λ w. record {} };

    ghost invariant = { λ w. AreNamed S.Store (arc_value w.stores) × ArePasses S.Store (arc_value w.stores) w.passes };
}

impl<S: Store + Drop, R: Source + Drop, K: Sink + Attended + Drop> Worker<S, R, K> {
    /// A worker with passes of its own, for the gate too where there is one. Fails only for want of memory.
    pub fn new<RT: AllocGlobal + Wait>(
        rt: &RT,
        stores: &Arc<Databases<S>, Global>,
        scopes: Scopes,
        list: &Waitings<R, K>,
        latch: &Arc<Latch>,
        has_gate: bool,
    ) -> Result<Worker<S, R, K>, NoMemory>
        requires { AreNamed S.Store (arc_value stores.now) }
    {
        let passes = attach_all(rt, stores)?;
        let buffer = RequestBuffer::new(rt.alloc())?;
        let gate = if has_gate {
            Some(Gatekeeper::new(rt, stores)?)
        } else {
            None
        };
        let list = Arc::try_clone(list)?;
        let latch = Arc::try_clone(latch)?;
        let stores = Arc::try_clone(stores)?;
        Ok(Worker {
            stores,
            scopes,
            passes,
            buffer,
            intake: Intake {
                list,
                gate,
                hold: Hold::new(),
                taken: 0,
                is_over: false,
            },
            latch,
        })
    }

    /// Serves connections until no more will come, and then says so.
    pub fn run<RT: AllocGlobal + Wait + Clock>(self, rt: &RT) {
        let Worker {
            stores,
            scopes,
            mut passes,
            mut buffer,
            mut intake,
            latch,
        } = self;
        work(rt, &mut intake, &stores, scopes, &mut passes, &mut buffer);
        latch.leave(rt);
    }
}

/// A pass of each store. Fails only for want of memory.
pub fn attach_all<RT: AllocGlobal + Wait, S: Store>(
    rt: &RT,
    stores: &Databases<S>,
) -> Result<Databases<S::Pass>, NoMemory>
    ensures { IfOk result (ArePasses S.Store stores.now) }
{
    let passwd = stores.passwd.attach(rt, rt.alloc())?;
    let group = stores.group.attach(rt, rt.alloc())?;
    let hosts = stores.hosts.attach(rt, rt.alloc())?;
    let services = stores.services.attach(rt, rt.alloc())?;
    Ok(Databases {
        passwd,
        group,
        hosts,
        services,
    })
}
