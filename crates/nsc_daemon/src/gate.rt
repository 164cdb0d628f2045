// Connections to the gate.
ghost use Rattle.std.specs.Prelude.{◌<◌, ◌^◌};
ghost use Rattle.std.specs.Arc.{arc_value};
ghost use Rattle.nsc_server.specs.Passes.{AreNamed};

use crate::worker::attach_all;
use nsc_base::{Buf, NoMemory};
use nsc_client::serve_gate;
use nsc_model::{Databases, Store};
use nsc_outside::{Sink, Source};
use std::alloc::Global;
use std::marker::Model;
use std::sync::{Arc, Wait};

// The room for what a search finds: the longest reply that is kept.
const ROOM: usize = 65_536;

/// Who serves connections to the gate.
pub trait ServesGate {
    /// Serves one, whose moment is this one, in seconds, as far as it comes. Then it is closed, or comes back for the lines that its
    /// peer sends later.
    fn serve<RT: AllocGlobal + Wait, R: Source, K: Sink>(
        &mut self,
        rt: &RT,
        input: &mut R,
        output: &mut K,
        now: u64,
    )
        requires { now < 2 ^ 62 };
}

/// One who serves the gate over the daemon's databases: with passes of its own, and room for what searches find.
#[derive(Drop)]
pub struct Gatekeeper<S: Store + Drop> {
    stores: Arc<Databases<S>, Global>,
    passes: Databases<S::Pass>,
    room: Buf,
}

impl<S: Store + Drop> Model for Gatekeeper<S> {
    ghost use Rattle.std.specs.Prelude.{◌≡◌};
    ghost use Rattle.std.specs.Arc.{arc_value};
    ghost use Rattle.nsc_client.specs.Gate.{AreNamed, ArePasses};
    ghost use Rattle.nsc_daemon.specs.Workers.{Gatekeeper};

    ghost Value = { Gatekeeper };

    ghost view = { λ g. record {} };

    ghost invariant = { λ g. AreNamed S.Store (arc_value g.stores) × ArePasses S.Store (arc_value g.stores) g.passes × (g.room.limit ≡ 65536) };
}

impl<S: Store + Drop> Gatekeeper<S> {
    /// A gatekeeper with passes of its own. Fails only for want of memory.
    pub fn new<RT: AllocGlobal + Wait>(
        rt: &RT,
        stores: &Arc<Databases<S>, Global>,
    ) -> Result<Gatekeeper<S>, NoMemory>
        requires { AreNamed S.Store (arc_value stores.now) }
    {
        let passes = attach_all(rt, stores)?;
        let room = Buf::new(rt.alloc(), ROOM)?;
        let stores = Arc::try_clone(stores)?;
        Ok(Gatekeeper {
            stores,
            passes,
            room,
        })
    }
}

impl<S: Store + Drop> ServesGate for Gatekeeper<S> {
    fn serve<RT: AllocGlobal + Wait, R: Source, K: Sink>(
        &mut self,
        rt: &RT,
        input: &mut R,
        output: &mut K,
        now: u64,
    ) {
        // Whatever came of it, nobody is left to tell.
        let _ = serve_gate(
            rt,
            &self.stores,
            &mut self.passes,
            &mut self.room,
            input,
            output,
            now,
        );
    }
}
