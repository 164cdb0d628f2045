// `workload`: the run of a workload, from its number to the lines that are written.
ghost use Rattle.std.specs.Prelude.{◌≡◌, ◌≤◌, ◌<◌, IfOk};
ghost use Rattle.nsc_outside.specs.StreamAt.{stream_out};
ghost use Rattle.nsc_model.specs.Exits.{IsExitOf, Working};
ghost use Rattle.nsc_workload.specs.Runs.{CountsDiffering, PutsText, TellsDiffering, replies_from};
ghost use Rattle.nsc_workload.specs.Workload.{request_count, workload_of};

use crate::outcome::Outcome;
use crate::room::lines_over;
use crate::users::content;
use nsc_base::NoMemory;
use nsc_model::Exit;
use nsc_outside::{Sink, write_all};
use std::alloc::Global;
use std::marker::Brand;
use std::sync::Wait;
use std::thread::Threads;

/// How a workload ended.
#[derive(Clone, Copy, Debug, PartialEq, Eq)]
pub struct Worked {
    /// The exit.
    pub exit: Exit,
    /// How many answers of the readers differ from the reply to the same request; 0 where memory was short.
    pub differing: u64,
}

/// Runs the workload of a number, 1 to 1,000, by 1 to 64 workers, and writes how many requests were found, how many were not,
/// and the SHA-256 of all replies in the order of the requests. The workers look the requests up in one database in threads,
/// and another thread ticks meanwhile; what is written is the same however many there are. Two more threads ask the first 64 requests in
/// place first, as the gate does, and their answers that differ from the reply to the same request are counted. At `WriteFault` the
/// output took a front of the lines, and at `NoMemory` nothing.
pub fn workload<RT: AllocGlobal + Threads + Wait + Sync, K: Sink>(
    rt: &RT,
    number: u32,
    workers: u32,
    output: &mut K,
) -> Worked
    requires number { (0 < number) × (number ≤ 1000) }
    requires workers { (0 < workers) × (workers ≤ 64) }
    ensures exits { IsExitOf Working result.exit }
    ensures written { PutsText result.exit (workload_of number) (stream_out K.Sink output.old) (stream_out K.Sink output.new) }
    ensures differing { TellsDiffering result.exit (replies_from number 0 (request_count number)) result.differing }
{
    match lines(rt, rt.alloc(), number, workers) {
        Err(_) => Worked {
            exit: Exit::NoMemory,
            differing: 0,
        },
        Ok(outcome) => Worked {
            exit: write(output, outcome.text.as_slice()),
            differing: outcome.differing,
        },
    }
}

// Writes a text.
fn write<K: Sink>(output: &mut K, text: &[u8]) -> Exit
    ensures exits { IsExitOf Working result }
    ensures known { result ≡ Exit.NoMemory → ⊥ }
    ensures written { PutsText result text.now (stream_out K.Sink output.old) (stream_out K.Sink output.new) }
{
    match write_all(output, text) {
        Ok(()) => Exit::Ok,
        Err(_) => Exit::WriteFault,
    }
}

// What the workload tells.
fn lines<R: Threads + Wait + Sync>(
    rt: &R,
    alloc: Global,
    number: u32,
    workers: u32,
) -> Result<Outcome, NoMemory>
    requires number { (0 < number) × (number ≤ 1000) }
    requires workers { (0 < workers) × (workers ≤ 64) }
    ensures text { IfOk result (λ outcome. outcome.text.items ≡ workload_of number) }
    ensures differing { IfOk result (λ outcome. CountsDiffering (replies_from number 0 (request_count number)) outcome.differing) }
{
    let content = content(alloc, number)?;
    lines_over::<Brand, R>(rt, alloc, content, number, workers)
}
