// Reading of the next frame of a replay.
ghost use Rattle.std.specs.Prelude.{IfOk};
ghost use Rattle.nsc_model.specs.Frames.{frame_after, frame_at};
ghost use Rattle.nsc_replay.specs.Frame.{FrameFits, said};
ghost use Rattle.nsc_replay.specs.Reading.{CountsHalt, Reads};

use crate::frame::{Frame, INPUT_LIMIT};
use crate::halt::Halt;
use crate::pieces::{byte, database, file, long, request};
use nsc_outside::Source;
use std::alloc::Global;

/// Reads the next frame, and no byte after it. The input of a connection is read to the front of `room`.
pub fn read_frame<'a, R: Source>(
    alloc: Global,
    input: &mut R,
    room: &'a mut [u8; INPUT_LIMIT],
) -> Result<Frame<'a>, Halt>
    ensures reads { Reads said frame_at (R.left input.old) (R.left input.new) result }
    ensures fits { IfOk result FrameFits }
    ensures counts { CountsHalt (R.faults input.old) (R.faults input.new) result }
{
    let first = byte(input)?;
    after_first(alloc, input, room, first)
}

// What stands after the first byte of a frame.
fn after_first<'a, R: Source>(
    alloc: Global,
    input: &mut R,
    room: &'a mut [u8; INPUT_LIMIT],
    first: u8,
) -> Result<Frame<'a>, Halt>
    ensures reads { Reads said (frame_after first) (R.left input.old) (R.left input.new) result }
    ensures fits { IfOk result FrameFits }
    ensures counts { CountsHalt (R.faults input.old) (R.faults input.new) result }
{
    match first {
        b'Q' => {
            let input = request(input, room)?;
            Ok(Frame::Request { input })
        }
        b'F' => {
            let (file, bytes) = file(alloc, input)?;
            Ok(Frame::SetFile { file, bytes })
        }
        b'T' => {
            let moment = long(input)?;
            Ok(Frame::Time { moment })
        }
        b'I' => {
            let db = database(input)?;
            Ok(Frame::Invalidate { db })
        }
        b'E' => Ok(Frame::End),
        _ => Err(Halt::NoFrame),
    }
}
