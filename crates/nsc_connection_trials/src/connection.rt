// A connection of the trials: its bytes, its failing calls, its outcome and its replies.
ghost use Rattle.nsc_server.specs.Passes.{AreNamed, ArePasses};
ghost use Rattle.nsc_server.specs.Requests.{TakesRequests};

use crate::outcome::Outcome;
use crate::texts::{ASK_ROOT, ROOT_BASH};
use nsc_base::NoMemory;
use nsc_model::{Databases, Store};
use nsc_outside::{MemSink, MemSource};
use nsc_server::{RequestBuffer, Scopes, Served, serve_one};
use nsc_sockets::Role;
use std::alloc::Global;
use std::sync::Wait;

// How many bytes a connection takes.
const ROOM: usize = 4096;

/// How the calls of one end of a connection go.
#[derive(Clone, Copy, Debug)]
pub struct Calls {
    /// Whether each call moves a byte at most.
    pub by_byte: bool,
    /// The number of the call that fails; 0 is none.
    pub failing: u64,
}

/// Calls that move what they can, and of which none fails.
pub const WELL: Calls = Calls {
    by_byte: false,
    failing: 0,
};

/// Calls that move what they can, of which the one with this number fails.
pub fn failing(call: u64) -> Calls {
    Calls {
        by_byte: false,
        failing: call,
    }
}

/// A connection, and what must come of it.
#[derive(Clone, Copy, Debug)]
pub struct Connection<'a> {
    /// What it sends.
    pub sends: &'a [u8],
    /// Whether it stands at the socket of the administrator, and not at that of everyone.
    pub is_admin: bool,
    /// How reads from it go.
    pub reads: Calls,
    /// How writes to it go.
    pub writes: Calls,
    /// What must come of it.
    pub served: Served,
    /// What it must be sent.
    pub sent: &'a [u8],
}

/// Everyone's connection that asks for root and is answered.
pub const GOOD: Connection<'static> = Connection {
    sends: ASK_ROOT,
    is_admin: false,
    reads: WELL,
    writes: WELL,
    served: Served::Replied,
    sent: ROOT_BASH,
};

/// Serves one connection after another. The outcome tells the first that came to anything else than it must.
pub fn serve_all<R: AllocGlobal + Wait, S: Store>(
    rt: &R,
    stores: &Databases<S>,
    passes: &mut Databases<S::Pass>,
    connections: &[Connection<'_>],
) -> Result<Outcome, NoMemory>
    requires named { AreNamed S.Store stores.now }
    requires passes { ArePasses S.Store stores.now passes.old }
{
    let mut buffer = RequestBuffer::new(rt.alloc())?;
    for (place, connection) in connections.iter().enumerate() {
        if !comes(rt, stores, passes, &mut buffer, connection)? {
            return Ok(Outcome::Wrong(place + 1));
        }
    }
    Ok(Outcome::Right)
}

// Whether the outcome of a connection is the right one.
fn comes<R: AllocGlobal + Wait, S: Store>(
    rt: &R,
    stores: &Databases<S>,
    passes: &mut Databases<S::Pass>,
    buffer: &mut RequestBuffer,
    connection: &Connection<'_>,
) -> Result<bool, NoMemory>
    requires named { AreNamed S.Store stores.now }
    requires passes { ArePasses S.Store stores.now passes.old }
    ensures passes { ArePasses S.Store stores.now passes.new }
{
    let alloc = rt.alloc();
    let mut input = input(alloc, connection.sends, connection.reads)?;
    let mut output = output(alloc, connection.writes)?;
    let role = role(connection.is_admin);
    let served = serve_one(
        rt,
        stores,
        Scopes::whole(),
        passes,
        buffer,
        &mut input,
        &mut output,
        role,
        0,
    );
    Ok(served == connection.served && output.taken() == connection.sent)
}

// The role of a connection that brings requests.
fn role(is_admin: bool) -> Role
    ensures { TakesRequests result }
{
    if is_admin { Role::Admin } else { Role::Plain }
}

/// What a connection sends.
pub fn input(alloc: Global, sends: &[u8], reads: Calls) -> Result<MemSource, NoMemory> {
    let source = MemSource::new(Vec::from_slice(alloc, sends)?);
    let source = source.failing_at(Vec::from_slice(alloc, &[reads.failing])?);
    Ok(if reads.by_byte {
        source.with_step(1)
    } else {
        source
    })
}

/// What takes the replies.
pub fn output(alloc: Global, writes: Calls) -> Result<MemSink, NoMemory> {
    let sink = MemSink::new(alloc, ROOM)?;
    let sink = sink.failing_at(Vec::from_slice(alloc, &[writes.failing])?);
    Ok(if writes.by_byte {
        sink.with_step(1)
    } else {
        sink
    })
}
