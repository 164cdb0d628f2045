// The connections that wait for workers, and one worker's way to them.
ghost use Rattle.std.specs.Prelude.{◌≡◌, ◌<◌, ◌^◌, IfNone, IfSome, true};
ghost use Rattle.nsc_server.specs.Jobs.{IsServable, given_after};

use crate::gate::ServesGate;
use crate::hold::Hold;
use nsc_jobs::JobList;
use nsc_model::next_count;
use nsc_outside::{Sink, Source};
use nsc_server::{Job, Jobs};
use nsc_sockets::{Attended, Role};
use std::alloc::Global;
use std::sync::{Arc, Wait};
use std::time::{Clock, Duration};

/// The socket on which a connection came that waits for a worker.
#[derive(Clone, Copy, Debug, PartialEq, Eq)]
pub enum Way {
    /// That of every user's requests.
    Plain,
    /// The gate.
    Gate,
}

/// A connection that waits for a worker.
#[derive(Drop)]
pub struct Waiting<R: Drop, K: Drop> {
    pub way: Way,
    pub input: R,
    pub output: K,
    pub now: u64,
    /// When it was put, by the system's clock.
    pub put: Duration,
    pub ghost moment: { now < 2 ^ 62 },
}

/// The connections that wait, as the workers and the thread that accepts share them.
pub type Waitings<R, K> = Arc<JobList<Waiting<R, K>>, Global>;

/// One worker's way to the connections that wait. It serves those to the gate itself, where there is one, and hands out the others.
#[derive(Drop)]
pub struct Intake<R: Drop, K: Drop, G: Drop> {
    pub list: Waitings<R, K>,
    pub gate: Option<G>,
    /// How long its thread is at one job.
    pub hold: Hold,
    /// How many it handed out, a number that stays at 2^62.
    pub taken: u64,
    /// Whether no more will come.
    pub is_over: bool,
}

impl<R: Source + Drop, K: Sink + Drop, G: ServesGate + Drop> Intake<R, K, G> {
    // Hands a connection out, or serves it where it came to the gate.
    fn pass_on<RT: AllocGlobal + Wait>(
        &mut self,
        rt: &RT,
        waiting: Waiting<R, K>,
    ) -> Option<Job<R, K>>
        ensures servable { IfSome result IsServable }
        ensures given { self.new.taken ≡ given_after result self.old.taken }
        ensures over { self.new.is_over ≡ self.old.is_over }
    {
        let Waiting {
            way,
            mut input,
            mut output,
            now,
            ..
        } = waiting;
        match way {
            Way::Plain => {
                self.taken = next_count(self.taken);
                Some(Job {
                    role: Role::Plain,
                    input,
                    output,
                    now,
                })
            }
            Way::Gate => {
                if let Some(gate) = &mut self.gate {
                    gate.serve(rt, &mut input, &mut output, now);
                }
                None
            }
        }
    }
}

// Takes the next connection whose peer still waits. `None` if no more will come. A peer is asked if its connection waited while the
// thread was held.
fn take_attended<RT: Wait + Clock, R: Drop, K: Attended + Drop>(
    rt: &RT,
    list: &JobList<Waiting<R, K>>,
    hold: Hold,
) -> Option<Waiting<R, K>> {
    for _ in rt.forever() {
        let waiting = list.take(rt)?;
        let may_have_gone = hold.covers(waiting.put);
        if !may_have_gone || !waiting.output.has_gone() {
            return Some(waiting);
        }
    }
    unreachable!()
}

/// Tells the moment by the system's clock, and always zero if it has none.
pub fn moment<RT: Clock>(rt: &RT) -> Duration {
    rt.monotonic().unwrap_or(Duration::ZERO)
}

impl<R: Source + Drop, K: Sink + Attended + Drop, G: ServesGate + Drop> Jobs for Intake<R, K, G> {
    type In = R;

    type Out = K;

    ghost given = { λ q. q.taken };

    ghost is_over = { λ q. q.is_over };

    fn next<RT: AllocGlobal + Wait + Clock>(&mut self, rt: &RT) -> Option<Job<R, K>>
        ensures servable { IfSome result IsServable }
        ensures given { self.new.taken ≡ given_after result self.old.taken }
        ensures over { IfNone result (self.new.is_over ≡ true) }
    {
        for _ in rt.forever() {
            self.hold.end(moment(rt));
            let Some(waiting) = take_attended(rt, &self.list, self.hold) else {
                self.is_over = true;
                return None;
            };
            self.hold.begin(moment(rt));
            if let Some(job) = self.pass_on(rt, waiting) {
                return Some(job);
            }
        }
        unreachable!()
    }
}
