// `MemSink`: a sink in memory of a fixed capacity, with planned failures of calls.
ghost use Rattle.std.specs.Prelude.{◌≡◌, ◌-◌, ◌<◌, ◌≤◌, [], length, min, nat_lt, take, ◌||◌, IfOk, OnOk, OnErr, is_err};
ghost use Rattle.nsc_outside.specs.Stream.{Grows};
ghost use Rattle.nsc_model.specs.Reads.{Rose};
ghost use Rattle.nsc_outside.specs.MemSink.{MemSink};
ghost use Rattle.nsc_outside.specs.CallPlan.{after_call, after_fault, is_next_failing};

use crate::call_plan::CallPlan;
use crate::stream::{Failed, Sink};
use nsc_base::NoMemory;
use std::alloc::Global;
use std::marker::Model;

/// A sink in memory, seen in contracts as what it took, how many bytes more it can take, and how its calls go.
#[derive(Debug, Drop)]
pub struct MemSink {
    taken: Vec<u8>,
    room: usize,
    plan: CallPlan,
}

impl Model for MemSink {
    ghost use Rattle.std.specs.Prelude.{◌+◌, ◌≤◌, vec_len};
    ghost use Rattle.std.specs.Vec.{vec_capacity};
    ghost use Rattle.nsc_outside.specs.MemSink.{MemSink};

    ghost Value = { MemSink };

    ghost view = { λ s. record { taken = s.taken.items; room = s.room; plan = s.plan } };

    ghost invariant = { λ s. vec_len s.taken + s.room ≤ vec_capacity s.taken };
}

impl MemSink {
    /// A sink with room for this many bytes, for which the memory is taken here: a call takes all bytes, and fails only
    /// for want of room. Fails only for want of memory.
    pub fn new(alloc: Global, room: usize) -> Result<MemSink, NoMemory>
        ensures { IfOk result (λ sink. sink ≡ record { taken = []; room = room; plan = record { step = usize.MAX; failing = []; calls = 0; faults = 0 } }) }
    {
        Ok(MemSink {
            taken: Vec::with_capacity(alloc, room)?,
            room,
            plan: CallPlan::new(alloc),
        })
    }

    /// This sink, which then takes `step` bytes a call at most.
    pub fn with_step(mut self, step: usize) -> MemSink
        requires { 0 < step }
        ensures { result ≡ record self { plan = record self.plan { step = step } } }
    {
        self.plan.set_step(step);
        self
    }

    /// This sink, at which then the calls with these numbers fail, the first being 1.
    pub fn failing_at(mut self, calls: Vec<u64>) -> MemSink
        ensures { result ≡ record self { plan = record self.plan { failing = calls.items } } }
    {
        self.plan.set_failing(calls);
        self
    }

    /// The bytes taken so far.
    pub fn taken(&self) -> &[u8]
        ensures { result.now ≡ self.now.taken }
    {
        self.taken.as_slice()
    }

    /// How many calls have failed; the count stops at the greatest `u64`.
    pub fn faults(&self) -> u64
        ensures { result ≡ self.now.plan.faults }
    {
        self.plan.faults()
    }
}

impl Sink for MemSink {
    ghost use Rattle.std.specs.Prelude.{Some};

    ghost taken = { λ s. Some s.taken };

    ghost faults = { λ s. s.plan.faults };

    /// Takes as many bytes as a call may take. Fails where it is to fail, and where it lacks the room for that many.
    fn write(&mut self, bytes: &[u8]) -> Result<usize, Failed>
        ensures count { IfOk result (λ n. n ≤ length bytes.now) }
        ensures some { IfOk result (λ n. 0 < length bytes.now → 0 < n) }
        ensures grown { IfOk result (λ n. Grows (Some self.old.taken) (Some self.new.taken) (take n bytes.now)) }
        ensures stays { OnErr result (Some self.new.taken ≡ Some self.old.taken) }
        ensures calm { OnOk result (self.new.plan.faults ≡ self.old.plan.faults) }
        ensures failed { OnErr result (Rose self.old.plan.faults self.new.plan.faults) }

        ensures planned { is_err result ≡ (is_next_failing self.old.plan || nat_lt self.old.room (min self.old.plan.step (length bytes.now))) }
        ensures amount { IfOk result (λ n. n ≡ min self.old.plan.step (length bytes.now)) }
        ensures room { IfOk result (λ n. self.new.room ≡ self.old.room - n) }
        ensures room_stays { OnErr result (self.new.room ≡ self.old.room) }
        ensures called { OnOk result (self.new.plan ≡ after_call self.old.plan) }
        ensures counted { OnErr result (self.new.plan ≡ after_fault (after_call self.old.plan)) }
    {
        self.plan.begin()?;
        let count = self.plan.step().min(bytes.len());
        if count > self.room {
            return Err(self.plan.fault());
        }
        // The memory was taken when the sink was made.
        self.taken.extend_from_slice(&bytes[..count]).unwrap();
        self.room -= count;
        Ok(count)
    }

    /// Takes as many bytes as a call may take and as it has room for. Fails where it is to fail.
    fn offer(&mut self, bytes: &[u8]) -> Result<usize, Failed>
        ensures count { IfOk result (λ n. n ≤ length bytes.now) }
        ensures grown { IfOk result (λ n. Grows (Some self.old.taken) (Some self.new.taken) (take n bytes.now)) }
        ensures stays { OnErr result (Some self.new.taken ≡ Some self.old.taken) }
        ensures calm { OnOk result (self.new.plan.faults ≡ self.old.plan.faults) }
        ensures failed { OnErr result (Rose self.old.plan.faults self.new.plan.faults) }

        ensures planned { is_err result ≡ is_next_failing self.old.plan }
        ensures amount { IfOk result (λ n. n ≡ min (min self.old.plan.step (length bytes.now)) self.old.room) }
        ensures room { IfOk result (λ n. self.new.room ≡ self.old.room - n) }
        ensures room_stays { OnErr result (self.new.room ≡ self.old.room) }
        ensures called { OnOk result (self.new.plan ≡ after_call self.old.plan) }
        ensures counted { OnErr result (self.new.plan ≡ after_fault (after_call self.old.plan)) }
    {
        self.plan.begin()?;
        let count = self.plan.step().min(bytes.len()).min(self.room);
        // The memory was taken when the sink was made.
        self.taken.extend_from_slice(&bytes[..count]).unwrap();
        self.room -= count;
        Ok(count)
    }
}
