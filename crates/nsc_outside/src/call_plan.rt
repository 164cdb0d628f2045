// `CallPlan`: how many bytes a call of a stream in memory moves, and which calls fail.
ghost use Rattle.std.specs.Prelude.{◌≡◌, ◌<◌, ◌≤◌, [], OnOk, OnErr, is_err};
ghost use Rattle.nsc_model.specs.Reads.{greatest, Rose};
ghost use Rattle.nsc_outside.specs.CallPlan.{CallPlan, is_next_failing, after_call, after_fault};

use crate::stream::Failed;
use std::alloc::Global;
use std::marker::Model;

// How the calls of a stream in memory go: the most bytes that one moves, and which of them fail.
#[derive(Debug, Drop)]
pub(crate) struct CallPlan {
    step: usize,
    failing: Vec<u64>,
    calls: u64,
    faults: u64,
}

impl Model for CallPlan {
    ghost use Rattle.std.specs.Prelude.{◌<◌};
    ghost use Rattle.nsc_outside.specs.CallPlan.{CallPlan};

    ghost Value = { CallPlan };

    ghost view = { λ p. record { step = p.step; failing = p.failing.items; calls = p.calls; faults = p.faults } };

    ghost invariant = { λ p. 0 < p.step };
}

impl CallPlan {
    // No limit, and no call that fails.
    pub(crate) fn new(alloc: Global) -> CallPlan
        ensures { result ≡ record { step = usize.MAX; failing = []; calls = 0; faults = 0 } }
    {
        CallPlan {
            step: usize::MAX,
            failing: Vec::new(alloc),
            calls: 0,
            faults: 0,
        }
    }

    pub(crate) fn set_step(&mut self, step: usize)
        requires { 0 < step }
        ensures { self.new ≡ record self.old { step = step } }
    {
        self.step = step;
    }

    pub(crate) fn set_failing(&mut self, calls: Vec<u64>)
        ensures { self.new ≡ record self.old { failing = calls.items } }
    {
        self.failing = calls;
    }

    pub(crate) fn step(&self) -> usize
        ensures step { result ≡ self.now.step }
        ensures moves { 0 < result }
    {
        self.step
    }

    pub(crate) fn faults(&self) -> u64
        ensures faults { result ≡ self.now.faults }
        ensures bound { result ≤ greatest }
    {
        self.faults
    }

    // Counts a call, which fails if it is one of those that are to fail.
    pub(crate) fn begin(&mut self) -> Result<(), Failed>
        ensures planned { is_err result ≡ is_next_failing self.old }
        ensures ok { OnOk result (self.new ≡ after_call self.old) }
        ensures err { OnErr result (self.new ≡ after_fault (after_call self.old)) }
        ensures rose { OnErr result (Rose self.old.faults self.new.faults) }
    {
        self.calls = self.calls.saturating_add(1);
        if self.failing.contains(&self.calls) {
            return Err(self.fault());
        }
        Ok(())
    }

    // Counts a fault.
    #[tactic(auto, using(crate::proofs::Memories::rose_risen))]
    pub(crate) fn fault(&mut self) -> Failed
        ensures counted { self.new ≡ after_fault self.old }
        ensures rose { Rose self.old.faults self.new.faults }
    {
        self.faults = self.faults.saturating_add(1);
        Failed
    }
}
