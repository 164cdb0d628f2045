// `FailPlan`: which calls of one kind fail, by their numbers.
ghost use Rattle.std.specs.Prelude.{◌≡◌};
ghost use Rattle.nsc_outside.specs.FailPlan.{next_fails, no_failing, one_more};

use std::alloc::Global;
use std::marker::Model;

// Which calls of one kind fail, by their numbers.
#[derive(Debug, Drop)]
pub(crate) struct FailPlan {
    failing: Vec<u64>,
    calls: u64,
}

impl Model for FailPlan {
    ghost use Rattle.nsc_outside.specs.FailPlan.{FailPlan};

    ghost Value = { FailPlan };

    ghost view = { λ p. record { failing = p.failing.items; calls = p.calls } };
}

impl FailPlan {
    // No call fails, and none was made.
    pub(crate) fn new(alloc: Global) -> FailPlan
        ensures { result ≡ no_failing }
    {
        FailPlan {
            failing: Vec::new(alloc),
            calls: 0,
        }
    }

    pub(crate) fn set_failing(&mut self, calls: Vec<u64>)
        ensures { self.new ≡ record self.old { failing = calls.items } }
    {
        self.failing = calls;
    }

    // Counts a call, and says whether it is one of those that are to fail.
    pub(crate) fn begin(&mut self) -> bool
        ensures planned { result ≡ next_fails self.old }
        ensures called { self.new ≡ one_more self.old }
    {
        self.calls = self.calls.saturating_add(1);
        self.failing.contains(&self.calls)
    }
}
