// `SocketLink`: a link whose calls are connections to a socket.
ghost use Rattle.std.specs.Prelude.{◌≡◌, ◌≤◌, length};
ghost use Rattle.nsc_model.specs.Entry.{key_limit};
ghost use Rattle.nsc_model.specs.Reads.{Rose};
ghost use Rattle.nsc_client.specs.Links.{FailsBy};
ghost use Rattle.nsc_client.specs.SocketLink.{FailsOnlyBy, IsBroken, IsOfPeer, NeverFail, faults_after};

use crate::exchange::exchange;
use crate::link::{Link, LinkFault};
use nsc_base::Bytes;
use nsc_model::Kind;
use nsc_sockets::Listener;
use std::alloc::Global;
use std::marker::Model;
use std::sync::Wait;

/// The link to whoever serves the socket of a path. Each call is a connection of its own, on which the request goes out and all that comes
/// back is its reply. It takes every pass, and leaves it as it was.
#[derive(Drop)]
pub struct SocketLink<'p, N: Listener> {
    listener: N,
    path: &'p str,
    faults: u64,
}

impl<'p, N: Listener> Model for SocketLink<'p, N> {
    ghost use Rattle.nsc_client.specs.SocketLink.{SocketLink};

    ghost Value = { SocketLink N };

    ghost view = { λ l. record { listener = l.listener; path = l.path.now; faults = l.faults } };
}

impl<'p, N: Listener> SocketLink<'p, N> {
    /// A link over the sockets that this listener connects to, of which it asks the one at this path.
    pub fn new(listener: N, path: &'p str) -> SocketLink<'p, N>
        ensures { result ≡ record { listener = listener; path = path.now; faults = 0 } }
    {
        SocketLink {
            listener,
            path,
            faults: 0,
        }
    }

    /// What connects.
    pub fn listener(&self) -> &N
        ensures { result.now ≡ self.now.listener }
    {
        &self.listener
    }

    /// How many calls have failed; the count stops at the greatest `u64`.
    pub fn faults(&self) -> u64
        ensures { result ≡ self.now.faults }
    {
        self.faults
    }
}

impl<'p, P, N: Listener> Link<P> for SocketLink<'p, N> {
    ghost use Rattle.std.specs.Prelude.{◌≡◌};
    ghost use Rattle.nsc_client.specs.SocketLink.{IsOfPeer};

    ghost takes = { λ link pass which. Unit {0} };

    ghost keeps = { λ link before after request now answer. (after ≡ before) × IsOfPeer (N.peer link.listener) request.kind answer };

    ghost faults = { λ link. link.faults };

    /// Connects, sends the request, and reads the connection to its end. `BadReply` where that spells no reply of the kind, or where more
    /// than 2^30 bytes come. `Failed` comes only where no connection was made, or where it failed.
    fn call<R: Wait>(
        &mut self,
        _rt: &R,
        alloc: Global,
        pass: &mut P,
        kind: Kind,
        key: &[u8],
        _now: u64,
    ) -> Result<Bytes, LinkFault>
        requires { length key.now ≤ key_limit }
        ensures answer { (pass.new ≡ pass.old) × IsOfPeer (N.peer self.old.listener) kind result }
        ensures failed { FailsBy self.old.faults self.new.faults result }

        // The count, and why a call failed: where no connection ever fails, only since none was made.
        ensures counted { self.new.faults ≡ faults_after self.old.faults result }
        ensures cause { FailsOnlyBy (IsBroken N.Listener N.In.Source N.Out.Sink self.old.listener self.new.listener) result }
        ensures unconnected { NeverFail N.In.Source N.Out.Sink → FailsOnlyBy (Rose (N.faults self.old.listener) (N.faults self.new.listener)) result }
        ensures path { self.new.path ≡ self.old.path }
    {
        let _ = pass;
        match self.listener.connect(self.path) {
            Ok((mut conn_in, mut conn_out)) => {
                let answer = exchange(alloc, &mut conn_in, &mut conn_out, kind, key);
                counted(&mut self.faults, answer)
            }
            Err(_) => counted(&mut self.faults, Err(LinkFault::Failed)),
        }
    }
}

// Counts a call that failed, by its answer.
fn counted(faults: &mut u64, answer: Result<Bytes, LinkFault>) -> Result<Bytes, LinkFault>
    ensures same { result ≡ answer }
    ensures count { faults.new ≡ faults_after faults.old answer }
    ensures rose { FailsBy faults.old faults.new answer }
{
    if let Err(LinkFault::Failed) = answer {
        *faults = faults.saturating_add(1);
    }
    answer
}
