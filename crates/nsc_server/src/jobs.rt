// `Jobs`: the trait of a worker's queue of connections; and the worker's loop.
ghost use Rattle.std.specs.Prelude.{◌≡◌, ◌+◌, ◌^◌, ◌≤◌, IfNone, IfSome, min, true};
ghost use Rattle.nsc_server.specs.Jobs.{IsServable, given_after};
ghost use Rattle.nsc_server.specs.Passes.{AreNamed, ArePasses, SawMore, passes_at};

use crate::request_buffer::RequestBuffer;
use crate::scope::Scopes;
use crate::serve::serve_one;
use nsc_model::{Databases, Store, next_count};
use nsc_outside::{Sink, Source};
use nsc_sockets::Role;
use std::sync::Wait;
use std::time::Clock;

/// A connection that is to be served.
#[derive(Drop)]
pub struct Job<R: Drop, K: Drop> {
    /// The socket on which it came: Plain or Admin.
    pub role: Role,
    /// What the peer sends.
    pub input: R,
    /// What the peer is sent.
    pub output: K,
    /// The moment at which it is served, in seconds, below 2^62.
    pub now: u64,
}

/// Where a worker gets its connections from.
pub trait Jobs {
    ghost use Rattle.std.specs.Prelude.{ℕ, Bool};

    /// What a peer sends.
    type In: Source + Drop;

    /// What a peer is sent.
    type Out: Sink + Drop;

    // How many connections it gave, a number that stays at 2^62.
    ghost given: { Self → ℕ };

    // Whether it told that no more is to come.
    ghost is_over: { Self → Bool };

    /// The next connection, which may be waited for. `None` where no more is to come.
    fn next<R: AllocGlobal + Wait + Clock>(&mut self, rt: &R) -> Option<Job<Self::In, Self::Out>>
        ensures servable { IfSome result IsServable }
        ensures given { given self.new ≡ given_after result (given self.old) }
        ensures over { IfNone result (is_over self.new ≡ true) };
}

/// Serves connections until none is to come. Gives how many `jobs` gave meanwhile, at most 2^62.
pub fn work<RT: AllocGlobal + Wait + Clock, J: Jobs, S: Store>(
    rt: &RT,
    jobs: &mut J,
    stores: &Databases<S>,
    scopes: Scopes,
    passes: &mut Databases<S::Pass>,
    buffer: &mut RequestBuffer,
) -> u64
    requires named { AreNamed S.Store stores.now }
    requires passes { ArePasses S.Store stores.now passes.old }
    ensures passes { ArePasses S.Store stores.now passes.new }
    ensures before { SawMore (passes_at S.Store passes.old) (passes_at S.Store passes.new) }
    ensures count { J.given jobs.old ≤ 2 ^ 62 → J.given jobs.new ≡ min (J.given jobs.old + result) (2 ^ 62) }
    ensures limit { result ≤ 2 ^ 62 }
    ensures over { J.is_over jobs.new ≡ true }
{
    let mut count = 0;
    for _ in rt.forever() {
        let Some(mut job) = jobs.next(rt) else {
            break;
        };
        serve_one(
            rt,
            stores,
            scopes,
            passes,
            buffer,
            &mut job.input,
            &mut job.output,
            job.role,
            job.now,
        );
        count = next_count(count);
    }
    count
}
