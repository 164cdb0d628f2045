// `Listener`: the trait of sockets that accept connections or make connections.
ghost use Rattle.std.specs.Prelude.{◌≡◌, ℕ, List, Option, IfOk, OnOk, OnErr};
ghost use Rattle.nsc_model.specs.Reads.{Rose};
ghost use Rattle.nsc_sockets.specs.Connections.{BindsOne, Connection, Gives, IsPeer, Socket};

use crate::attended::Attended;
use crate::role::Role;
use nsc_base::NoMemory;
use nsc_closers::{Closing, Crew};
use nsc_outside::{Failed, Sink, Source};
use std::sync::Arc;
use std::sync::atomic::AtomicU64;

/// What a listener found.
#[derive(Drop)]
pub enum Accepted<R: Drop, K: Drop> {
    /// A connection, with what its peer sends and what its peer is sent.
    Conn {
        /// The socket on which it came.
        role: Role,
        /// What the peer sends.
        input: R,
        /// What the peer is sent.
        output: K,
    },
    /// No socket had a connection when it was looked at.
    Quiet,
}

/// What a listener has prepared for its workers.
#[derive(Drop)]
pub struct Prepared<T: Drop> {
    /// How many connections may wait for a worker.
    pub most: usize,
    /// The count of those that wait for a worker, if the listener asks for it.
    pub jobs: Option<Arc<AtomicU64>>,
    /// What makes the threads that close connections, if there are to be any.
    pub crew: Option<Crew<T>>,
}

/// Sockets: those on which connections come, and those of another process.
pub trait Listener {
    /// What a peer sends.
    type In: Source + Send + Drop;

    /// What a peer is sent.
    type Out: Sink + Attended + Send + Drop;

    /// What is closed by threads of its own.
    type Departure: Closing + Send + Drop;

    /// What takes connections beside the listener.
    type Helper: Send + Drop;

    // How many calls have failed; the count stops at the greatest `u64`.
    ghost faults: { Self → ℕ };

    // The connections that it gave, the newest first, where it tells them.
    ghost given: { Self → Option (List Connection) };

    // The sockets that it bound, the newest first, where it tells them.
    ghost bound: { Self → Option (List Socket) };

    // The bytes of the peer that the next `connect` reaches, where it tells them.
    ghost peer: { Self → Option (List ℕ) };

    /// Prepares for a number of workers, before a socket is bound. It fails only without memory.
    fn prepare(&mut self, workers: u32) -> Result<Prepared<Self::Departure>, NoMemory>
        ensures given { given self.new ≡ given self.old }
        ensures bound { bound self.new ≡ bound self.old }
        ensures peer { peer self.new ≡ peer self.old }
        ensures faults { faults self.new ≡ faults self.old };

    /// From now on `workers` workers serve what it gives. All but one, and two at most, may wait long for a peer that does not read.
    fn set_workers(&mut self, workers: usize)
        ensures given { given self.new ≡ given self.old }
        ensures bound { bound self.new ≡ bound self.old }
        ensures peer { peer self.new ≡ peer self.old }
        ensures faults { faults self.new ≡ faults self.old }
    {
        let _ = workers;
    }

    /// Closes the sockets, and removes their names: from now on nobody can connect, whoever was not given yet is sent away, and nobody
    /// waits long for a peer that does not read.
    fn close(&mut self)
        ensures given { given self.new ≡ given self.old }
        ensures bound { bound self.new ≡ bound self.old }
        ensures peer { peer self.new ≡ peer self.old }
        ensures faults { faults self.new ≡ faults self.old }
    {}

    /// Takes connections of this role at the socket of this path from now on.
    fn bind(&mut self, role: Role, path: &str) -> Result<(), Failed>
        ensures given { given self.new ≡ given self.old }
        ensures bound { OnOk result (BindsOne (bound self.old) (bound self.new) role path.now) }
        ensures peer { peer self.new ≡ peer self.old }
        ensures calm { OnOk result (faults self.new ≡ faults self.old) }
        ensures failed { OnErr result (Rose (faults self.old) (faults self.new)) };

    /// The next connection, or `Quiet` where none was there when the sockets were looked at. One of the gate may be given again and
    /// again, each time with the whole lines that came since.
    fn accept(&mut self) -> Result<Accepted<Self::In, Self::Out>, Failed>
        ensures gives { IfOk result (λ accepted. Gives Self.In.left (given self.old) (given self.new) accepted) }
        ensures stays { OnErr result (given self.new ≡ given self.old) }
        ensures bound { bound self.new ≡ bound self.old }
        ensures peer { peer self.new ≡ peer self.old }
        ensures calm { OnOk result (faults self.new ≡ faults self.old) }
        ensures failed { OnErr result (Rose (faults self.old) (faults self.new)) };

    /// Makes one more helper at the plain socket, once it is bound. `None` if there is to be none.
    fn helper(&mut self) -> Option<Self::Helper>
        ensures given { given self.new ≡ given self.old }
        ensures bound { bound self.new ≡ bound self.old }
        ensures peer { peer self.new ≡ peer self.old }
        ensures faults { faults self.new ≡ faults self.old }
    {
        None
    }

    /// A connection to the socket of another process at this path.
    fn connect(&mut self, path: &str) -> Result<(Self::In, Self::Out), Failed>
        ensures peer { IfOk result (λ ends. IsPeer (peer self.old) (Self.In.left ends.0)) }
        ensures given { given self.new ≡ given self.old }
        ensures bound { bound self.new ≡ bound self.old }
        ensures calm { OnOk result (faults self.new ≡ faults self.old) }
        ensures failed { OnErr result (Rose (faults self.old) (faults self.new)) };
}
