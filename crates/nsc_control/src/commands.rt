// `command`: one control request over the admin socket, and the exit by the reply.
ghost use Rattle.nsc_outside.specs.StreamAt.{stream_out};
ghost use Rattle.nsc_model.specs.Exits.{IsExitOf, Asking};
ghost use Rattle.nsc_control.specs.Commands.{Commands, Finishes, Judges, command_at};

use crate::ask::AdminAsk;
use crate::reading::read_reply;
use nsc_base::equal;
use nsc_model::Exit;
use nsc_outside::{Sink, Source, write_all};
use std::alloc::Global;

// The reply where nothing is told.
const DONE: [u8; 4] = [0, 0, 0, 0];

/// Asks a daemon over a connection to its admin socket, reads the connection to its end, or until more than 65,536 bytes
/// came, and puts the counts out, if these were asked for.
///
/// At `Ok` the daemon did what was asked, and its counts, if these were asked for, are in the output. At `WriteFault` the output
/// has a front of them. `NetFault` comes only where the connection failed, in one way or the other, and `BadReply` where more than
/// 65,536 bytes came or, where no counts were asked for, other bytes than four zero bytes. At all but the first two, and where no
/// counts were asked for, the output is as before.
pub fn command<R: Source, K: Sink, T: Sink>(
    alloc: Global,
    ask: AdminAsk,
    conn_in: &mut R,
    conn_out: &mut K,
    output: &mut T,
) -> Exit
    ensures exits { IsExitOf Asking result }
    ensures commands { Commands ask (command_at R.Source K.Sink T.Sink conn_in.old conn_out.old output.old) (command_at R.Source K.Sink T.Sink conn_in.new conn_out.new output.new) result }
{
    let Ok(request) = ask.request(alloc) else {
        return Exit::NoMemory;
    };
    let Ok(()) = write_all(conn_out, request.as_slice()) else {
        return Exit::NetFault;
    };
    match read_reply(alloc, conn_in) {
        Ok(reply) => finish(ask, reply.as_slice(), output),
        Err(exit) => exit,
    }
}

// Takes a whole reply.
fn finish<T: Sink>(ask: AdminAsk, reply: &[u8], output: &mut T) -> Exit
    ensures exits { IsExitOf Asking result }
    ensures ends { Finishes ask reply.now (stream_out T.Sink output.old) (stream_out T.Sink output.new) result }
{
    match ask {
        AdminAsk::Stat => match write_all(output, reply) {
            Ok(()) => Exit::Ok,
            Err(_) => Exit::WriteFault,
        },
        AdminAsk::Invalidate { .. } | AdminAsk::Shutdown => judged(reply),
    }
}

// What a reply says that tells nothing else.
fn judged(reply: &[u8]) -> Exit
    ensures exits { IsExitOf Asking result }
    ensures says { Judges reply.now result }
{
    if equal(reply, &DONE) {
        Exit::Ok
    } else {
        Exit::BadReply
    }
}
