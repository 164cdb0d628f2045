// `run` and `replay`: the command of the program's words, and the replay of an input.
ghost use Rattle.std.specs.Prelude.{◌≡◌, IfSome, None};
ghost use Rattle.nsc_model.specs.Replay.{first_state, replay};
ghost use Rattle.nsc_model.specs.Sizes.{SizesFit};
ghost use Rattle.nsc_replay.specs.Runs.{ReplayRun};
ghost use Rattle.nsc_replay.specs.Streams.{Counted, streams};
ghost use Rattle.nsc_run.specs.Commands.{IsReplayed, StreamsCalm, TellsFinish};
ghost use Rattle.nsc_run.specs.Forms.{form_of, texts};
ghost use Rattle.nsc_run.specs.Runs.{BindsByForm, IsDone, RunsByForm, TellsByForm, outside};

use crate::actions::{ask, replay_under, serve};
use crate::form::Form;
use crate::words::read_words;
use nsc_index::Indexed;
use nsc_model::{Conf, Exit};
use nsc_outside::{FileSet, ImageStore, Sink, Source};
use nsc_sockets::{Clock, Helps, Listener};
use nsc_workload::workload;
use std::fs::File;
use std::rt::Files;
use std::sync::Wait;
use std::thread::Threads;
use std::time;

/// Replays the frames of the input with these settings: from every file absent, at moment 0, up to and with the first E.
/// For each input of a connection the reply is written after its length. The suggested sizes are 1 to 65,536.
///
/// At `Ok` the input stands right after its first E, and what was written is the whole output of the replay. At
/// `BadFrame`, `TooLong` and `Spent` it is the output of the frames before. At `ReadFault` it is that of the whole frames
/// that were read, at `NoMemory` that of these or of all but the last, and at `WriteFault` a front of it. `ReadFault` and
/// `WriteFault` come only where a call on that stream failed, and its count of faults rose. Memory may be short at any
/// time.
pub fn replay<RT: AllocGlobal, R: Source, K: Sink>(
    rt: &RT,
    conf: &Conf,
    input: &mut R,
    output: &mut K,
) -> Exit
    requires { SizesFit conf.now }

    // The input was read to the end of its first E, and the output is that of the replay.
    ensures ok { result ≡ Exit.Ok → IfSome (R.left input.old) (λ bytes. IsReplayed conf.now bytes (streams R.Source K.Sink input.old input.new output.old output.new)) }

    // What was read and written, by the exit.
    ensures run { ReplayRun conf.now first_state 0 (streams R.Source K.Sink input.old input.new output.old output.new) result }

    // A fault of a stream is told only where one came.
    ensures counts { Counted result (streams R.Source K.Sink input.old input.new output.old output.new) }

    // Where no fault came, the exit tells how the replay of the input ends, unless memory was short.
    ensures complete { StreamsCalm (streams R.Source K.Sink input.old input.new output.old output.new) → IfSome (R.left input.old) (λ bytes. TellsFinish (replay conf.now bytes).finish result) }
{
    nsc_replay::replay(rt.alloc(), conf, &Indexed, input, output)
}

/// Runs the command of these words, which leave out the program's own name. Words that have no form are `Usage`, and then
/// nothing is done.
///
/// `--replay` replays the frames of the input, with the replies to the output, as `replay` says. With `-f FILE` it takes the
/// settings of the nscd.conf(5) at that path, and without, or where there is no such file, those that hold by default.
///
/// `-g`, `-K` and `-i DATABASE` ask something of the daemon whose sockets stand in the folder of `--run-dir`, as
/// `nsc_control::command` says. Where none is reached, the exit is `NetFault`.
///
/// `--workload NUMBER` runs the workload of that number, as `nsc_workload::workload` says, and writes its lines.
///
/// Without any of these it is the daemon, until it is told to end. It takes its files from the folder of `--etc`, and its
/// settings from the file of `-f`, or else from the nscd.conf beside nsswitch.conf. With `--gate PATH` it answers lines at a socket
/// there, too. A persistent database begins with what its image in the folder of `--run-dir` brings back, and is put there at the end.
///
/// `--found-only LIST` and `--leave LIST` name databases between commas: of the former it tells found entries alone, and the latter it
/// leaves to who asks. Without a gate it does not look at the files of databases that it leaves.
///
/// Where the settings' file could not be read, the exit is `SourceFault`, where it is longer than a file may be, `TooLong`, and
/// where it is no nscd.conf(5), `BadConf`. Then nothing is read of the input and nothing written.
pub fn run<
    RT: AllocGlobal
        + Files<File = File>
        + Threads
        + Wait
        + time::Clock
        + Clone
        + Drop
        + Send
        + Sync
        + 'static,
    R: Source,
    K: Sink,
    F: FileSet + Send + Drop + 'static,
    C: Clock,
    I: ImageStore,
    N: Listener,
>(
    rt: &RT,
    words: &[String],
    input: &mut R,
    output: &mut K,
    files: &mut F,
    clock: &mut C,
    images: &mut I,
    net: &mut N,
) -> Exit
where
    RT::Dir: Send + 'static,
    N::Departure: 'static,
    N::In: 'static,
    N::Out: 'static,
    N::Helper: Helps<N::In, N::Out> + 'static,
    // Usage tells that the words have no form.
    ensures usage { result ≡ Exit.Usage → form_of (texts words.now) ≡ None }

    // What was read and written, which images were put, and which counts of faults rose, by the form and the exit.
    ensures runs { RunsByForm N.In.Source N.Out.Sink (form_of (texts words.now))
        (outside R.Source K.Sink F.FileSet I.ImageStore N.Listener input.old output.old files.old images.old net.old)
        (outside R.Source K.Sink F.FileSet I.ImageStore N.Listener input.new output.new files.new images.new net.new) result }

    // At Ok the command was done.
    ensures ok { result ≡ Exit.Ok → IsDone N.In.Source N.Out.Sink (form_of (texts words.now))
        (outside R.Source K.Sink F.FileSet I.ImageStore N.Listener input.old output.old files.old images.old net.old)
        (outside R.Source K.Sink F.FileSet I.ImageStore N.Listener input.new output.new files.new images.new net.new) }

    // At Ok a daemon bound its sockets, with the gate where one is said, and no others.
    ensures bound { result ≡ Exit.Ok → BindsByForm (form_of (texts words.now)) (N.bound net.old) (N.bound net.new) }

    // Where no fault came, the exit tells what is known of it, unless memory was short.
    ensures complete { TellsByForm N.In.Source N.Out.Sink (form_of (texts words.now))
        (outside R.Source K.Sink F.FileSet I.ImageStore N.Listener input.old output.old files.old images.old net.old)
        (outside R.Source K.Sink F.FileSet I.ImageStore N.Listener input.new output.new files.new images.new net.new) result }
{
    match read_words(rt.alloc(), words) {
        Ok(Form::Replay { config }) => replay_under(rt, config, input, output, files),
        Ok(
            Form::Ask {
                ask: asked,
                run_dir,
            },
        ) => ask(rt.alloc(), asked, run_dir, output, net),
        Ok(Form::Workload { number, workers }) => workload(rt, number, workers, output).exit,
        Ok(Form::Daemon { service }) => { serve(rt, &service, output, files, clock, images, net) },
        Err(exit) => exit,
    }
}
