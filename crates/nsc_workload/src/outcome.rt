// `Outcome`: the lines of a workload that was run, and the count of differing answers.
ghost use Rattle.std.specs.Prelude.{◌≡◌, IfOk, count_by, flat_map, not};
ghost use Rattle.nsc_workload.specs.Runs.{has_row};
ghost use Rattle.nsc_workload.specs.Workload.{lines_of};

use crate::lines::lines;
use crate::workers::Replies;
use nsc_base::NoMemory;
use std::alloc::Global;

/// What a workload that was run tells.
#[derive(Drop)]
pub(crate) struct Outcome {
    /// Its lines.
    pub(crate) text: Vec<u8>,
    /// How many answers of its readers differ from the reply to the same request.
    pub(crate) differing: u64,
}

impl Outcome {
    /// What these replies tell. Fails only for want of memory.
    pub(crate) fn of(alloc: Global, replies: &Replies) -> Result<Outcome, NoMemory>
        ensures text { IfOk result (λ outcome. outcome.text.items ≡ lines_of (count_by has_row replies.now.all.items)
            (count_by (λ r. not (has_row r)) replies.now.all.items) (flat_map (λ r. r) replies.now.all.items)) }
        ensures differing { IfOk result (λ outcome. outcome.differing ≡ replies.now.differing) }
    {
        Ok(Outcome {
            text: lines(alloc, replies.all.as_slice())?,
            differing: replies.differing,
        })
    }
}
