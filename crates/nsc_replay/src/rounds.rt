// `replay`: all frames of an input in turn, from the first byte to the exit.
ghost use Rattle.std.specs.Prelude.{◌≡◌, ◌<◌, IfOk, IfErr, OnOk};
ghost use Rattle.nsc_model.specs.Exits.{IsExitOf, Replaying};
ghost use Rattle.nsc_model.specs.Frames.{place_limit};
ghost use Rattle.nsc_model.specs.Replay.{first_state, turn_of};
ghost use Rattle.nsc_model.specs.Sizes.{SizesFit};
ghost use Rattle.nsc_replay.specs.Frame.{FrameFits, said};
ghost use Rattle.nsc_replay.specs.Turns.{CountsOutput, DoesNot, FrameIsDone};
ghost use Rattle.nsc_replay.specs.Streams.{Calm, Counted, streams};
ghost use Rattle.nsc_replay.specs.Runs.{ReplayRun, RoundGoesOn};

use crate::frame::{Frame, INPUT_LIMIT};
use crate::machine::Machine;
use crate::reading::read_frame;
use crate::reply::put_reply;
use nsc_model::{Answerer, Conf, Exit};
use nsc_outside::{Sink, Source};
use std::alloc::Global;

// A frame begins below this place: 2^40.
const PLACE_LIMIT: u64 = 1_099_511_627_776;

/// Replays the frames of the input with these settings: from every file absent, at moment 0, up to and with the first E.
/// For each input of a connection the reply is written after its length. The suggested sizes are 1 to 65,536.
pub fn replay<A: Answerer, R: Source, K: Sink>(
    alloc: Global,
    conf: &Conf,
    answers: &A,
    input: &mut R,
    output: &mut K,
) -> Exit
    requires { SizesFit conf.now }
    ensures exits { IsExitOf Replaying result }

    // What was read and written, by the exit.
    ensures run { ReplayRun conf.now first_state 0 (streams R.Source K.Sink input.old input.new output.old output.new) result }

    // A fault of a stream is told only where one came.
    ensures counts { Counted result (streams R.Source K.Sink input.old input.new output.old output.new) }
{
    let mut machine = match Machine::new(alloc, conf) {
        Ok(machine) => machine,
        Err(_) => return Exit::NoMemory,
    };
    all_rounds(alloc, answers, input, output, &mut machine)
}

// Frames, one after another, from the input's first byte on.
fn all_rounds<A: Answerer, R: Source, K: Sink>(
    alloc: Global,
    answers: &A,
    input: &mut R,
    output: &mut K,
    machine: &mut Machine<A>,
) -> Exit
    ensures run { ReplayRun machine.old.settings machine.old.state 0 (streams R.Source K.Sink input.old input.new output.old output.new) result }
    ensures counts { Counted result (streams R.Source K.Sink input.old input.new output.old output.new) }
{
    let mut room = [0; INPUT_LIMIT];
    let mut place = 0;
    while place < PLACE_LIMIT {
        match round(alloc, answers, input, output, machine, &mut room, place) {
            Ok(next) => place = next,
            Err(exit) => return exit,
        }
    }
    Exit::BadFrame { offset: place }
}

// The frame at this place of the input. Gives the place after it, or the exit of the replay.
fn round<A: Answerer, R: Source, K: Sink>(
    alloc: Global,
    answers: &A,
    input: &mut R,
    output: &mut K,
    machine: &mut Machine<A>,
    room: &mut [u8; INPUT_LIMIT],
    place: u64,
) -> Result<u64, Exit>
    requires { place < place_limit }
    ensures settings { machine.new.settings ≡ machine.old.settings }
    ensures goes { IfOk result (λ next. RoundGoesOn machine.old.settings machine.old.state place machine.new.state next (streams R.Source K.Sink input.old input.new output.old output.new)) }
    ensures onward { IfOk result (λ next. place < next) }
    ensures calm { OnOk result (Calm (streams R.Source K.Sink input.old input.new output.old output.new)) }
    ensures ends { IfErr result (ReplayRun machine.old.settings machine.old.state place (streams R.Source K.Sink input.old input.new output.old output.new)) }
    ensures counts { IfErr result (λ exit. Counted exit (streams R.Source K.Sink input.old input.new output.old output.new)) }
{
    let frame = match read_frame(alloc, input, room) {
        Ok(frame) => frame,
        Err(halt) => return Err(halt.at(place)),
    };
    if frame.is_end() {
        return Err(Exit::Ok);
    }
    let next = place + frame.size();
    serve(alloc, answers, output, machine, frame)?;
    Ok(next)
}

// One frame through the machine, and its reply to the output.
fn serve<A: Answerer, K: Sink>(
    alloc: Global,
    answers: &A,
    output: &mut K,
    machine: &mut Machine<A>,
    frame: Frame<'_>,
) -> Result<(), Exit>
    requires { FrameFits frame }
    ensures settings { machine.new.settings ≡ machine.old.settings }
    ensures done { OnOk result (FrameIsDone (turn_of machine.old.settings machine.old.state (said frame.entry)) machine.new.state (K.taken output.old) (K.taken output.new)) }
    ensures calm { OnOk result (K.faults output.new ≡ K.faults output.old) }
    ensures ends { IfErr result (DoesNot (turn_of machine.old.settings machine.old.state (said frame.entry)) (K.taken output.old) (K.taken output.new)) }
    ensures counts { IfErr result (λ exit. CountsOutput exit (K.faults output.old) (K.faults output.new)) }
{
    let Some(reply) = machine.turn(alloc, answers, frame)? else {
        return Ok(());
    };
    match put_reply(output, reply.as_slice()) {
        Ok(()) => Ok(()),
        Err(_) => Err(Exit::WriteFault),
    }
}
