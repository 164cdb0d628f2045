// `ReadPlan`: which reads of a set of files fail, by numbers that split sets share.
ghost use Rattle.std.specs.Prelude.{◌≡◌, [], IfOk, is_err};
ghost use Rattle.nsc_outside.specs.ReadPlan.{new_plan, FailsAsPlanned};

use crate::numbers::Numbering;
use crate::stream::Failed;
use nsc_base::NoMemory;
use std::alloc::Global;
use std::marker::Model;
use std::sync::Arc;

// Which reads fail, by their numbers. Plans that were shared from one number their reads together.
#[derive(Drop)]
pub(crate) struct ReadPlan {
    failing: Arc<Vec<u64>>,
    numbering: Numbering,
}

impl Model for ReadPlan {
    ghost use Rattle.std.specs.Arc.{arc_value};
    ghost use Rattle.nsc_outside.specs.ReadPlan.{ReadPlan};

    ghost Value = { ReadPlan };

    ghost view = { λ p. record { failing = (arc_value p.failing).items; numbering = p.numbering.table; numbers = p.numbering.numbers } };
}

impl ReadPlan {
    // The reads with these numbers fail, and none was made so far.
    pub(crate) fn new(alloc: Global, failing: Vec<u64>) -> Result<ReadPlan, NoMemory>
        ensures { IfOk result (λ plan. plan ≡ new_plan failing.items plan.numbering) }
    {
        Ok(ReadPlan {
            failing: Arc::new(alloc, failing)?,
            numbering: Numbering::new(alloc)?,
        })
    }

    // The same plan, which draws its numbers together with this one, and has drawn none.
    pub(crate) fn share(&self) -> Result<ReadPlan, NoMemory>
        ensures { IfOk result (λ plan. plan ≡ record self.now { numbers = [] }) }
    {
        Ok(ReadPlan {
            failing: Arc::try_clone(&self.failing)?,
            numbering: self.numbering.share()?,
        })
    }

    // Draws the number of a read, the next one, and fails exactly if it is one of those that are to fail.
    pub(crate) fn begin(&mut self) -> Result<(), Failed>
        ensures { FailsAsPlanned self.old self.new (is_err result) }
    {
        let number = self.numbering.draw();
        if self.failing.contains(&number) {
            return Err(Failed);
        }
        Ok(())
    }
}
