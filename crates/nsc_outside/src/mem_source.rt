// `MemSource`: a source over bytes in memory, with planned failures of calls.
ghost use Rattle.std.specs.Prelude.{◌≡◌, ◌<◌, ◌≤◌, [], length, min, take, IfOk, OnOk, OnErr, is_err};
ghost use Rattle.nsc_outside.specs.Stream.{Moves, IsAhead, IsDrained};
ghost use Rattle.nsc_model.specs.Reads.{Rose};
ghost use Rattle.nsc_outside.specs.MemSource.{MemSource};
ghost use Rattle.nsc_outside.specs.CallPlan.{after_call, after_fault, is_next_failing};

use crate::call_plan::CallPlan;
use crate::stream::{Failed, Source};
use std::marker::Model;

/// A source in memory, seen in contracts as what it has left and how its calls go. It takes no memory.
#[derive(Debug, Drop)]
pub struct MemSource {
    bytes: Vec<u8>,
    next: usize,
    plan: CallPlan,
}

impl Model for MemSource {
    ghost use Rattle.std.specs.Prelude.{◌≤◌, drop, vec_len};
    ghost use Rattle.nsc_outside.specs.MemSource.{MemSource};

    ghost Value = { MemSource };

    ghost view = { λ s. record { left = drop s.next s.bytes.items; plan = s.plan } };

    ghost invariant = { λ s. s.next ≤ vec_len s.bytes };
}

impl MemSource {
    /// A source of these bytes: a call gives as many as there is room for, and none fails.
    pub fn new(bytes: Vec<u8>) -> MemSource
        ensures { result ≡ record { left = bytes.items; plan = record { step = usize.MAX; failing = []; calls = 0; faults = 0 } } }
    {
        let plan = CallPlan::new(*bytes.allocator());
        MemSource {
            bytes,
            next: 0,
            plan,
        }
    }

    /// This source, which then gives `step` bytes a call at most.
    pub fn with_step(mut self, step: usize) -> MemSource
        requires { 0 < step }
        ensures { result ≡ record self { plan = record self.plan { step = step } } }
    {
        self.plan.set_step(step);
        self
    }

    /// This source, at which then the calls with these numbers fail, the first being 1.
    pub fn failing_at(mut self, calls: Vec<u64>) -> MemSource
        ensures { result ≡ record self { plan = record self.plan { failing = calls.items } } }
    {
        self.plan.set_failing(calls);
        self
    }

    /// The bytes that are left.
    pub fn rest(&self) -> &[u8]
        ensures { result.now ≡ self.now.left }
    {
        let bytes = self.bytes.as_slice();
        &bytes[self.next..]
    }

    /// How many calls have failed; the count stops at the greatest `u64`.
    pub fn faults(&self) -> u64
        ensures { result ≡ self.now.plan.faults }
    {
        self.plan.faults()
    }
}

impl Source for MemSource {
    ghost use Rattle.std.specs.Prelude.{Some};

    ghost left = { λ s. Some s.left };

    ghost faults = { λ s. s.plan.faults };

    /// Gives all bytes that are left.
    fn ahead(&self) -> &[u8]
        ensures front { IsAhead (Some self.now.left) result.now }

        ensures all { result.now ≡ self.now.left }
    {
        self.rest()
    }

    /// Gives as many bytes as there are, as `buf` has room for and as a call may give, and fails where it is to fail.
    fn read(&mut self, buf: &mut [u8]) -> Result<usize, Failed>
        ensures count { IfOk result (λ n. n ≤ length buf.old) }
        ensures moved { IfOk result (λ n. Moves (Some self.old.left) (Some self.new.left) (take n buf.new)) }
        ensures end { IfOk result (λ n. n ≡ 0 → 0 < length buf.old → IsDrained (Some self.new.left)) }
        ensures stays { OnErr result (Some self.new.left ≡ Some self.old.left) }
        ensures calm { OnOk result (self.new.plan.faults ≡ self.old.plan.faults) }
        ensures failed { OnErr result (Rose self.old.plan.faults self.new.plan.faults) }

        ensures planned { is_err result ≡ is_next_failing self.old.plan }
        ensures amount { IfOk result (λ n. n ≡ min (min self.old.plan.step (length buf.old)) (length self.old.left)) }
        ensures called { OnOk result (self.new.plan ≡ after_call self.old.plan) }
        ensures counted { OnErr result (self.new.plan ≡ after_fault (after_call self.old.plan)) }
    {
        self.plan.begin()?;
        let bytes = self.bytes.as_slice();
        let count = self.plan.step().min(buf.len()).min(bytes.len() - self.next);
        buf[..count].copy_from_slice(&bytes[self.next..self.next + count]);
        self.next += count;
        Ok(count)
    }
}
