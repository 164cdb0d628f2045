// Reading of the next bytes of a connection behind the bytes that are held.
ghost use Rattle.std.specs.Prelude.{◌<◌, length, IfErr, IfOk};
ghost use Rattle.std.specs.Bool.{OnTrue};
ghost use Rattle.nsc_outside.specs.StreamAt.{stream_in};
ghost use Rattle.nsc_client.specs.Held.{ComesOrEnds, ReadsNone};

use crate::link::LinkFault;
use nsc_outside::Source;

// How many bytes are read at once, at most.
const PART: usize = 2048;

/// Reads more bytes after those that are held. `false` where the input has ended. `NoMemory` where there is no room for more, and then
/// nothing is read; `Failed` where the input failed.
pub(crate) fn read_part<R: Source>(conn_in: &mut R, held: &mut Vec<u8>) -> Result<bool, LinkFault>
    ensures come { IfOk result (ComesOrEnds (stream_in R.Source conn_in.old) (stream_in R.Source conn_in.new) held.old.items held.new.items) }
    ensures longer { IfOk result (λ more. OnTrue more (length held.old.items < length held.new.items)) }
    ensures none { IfErr result (ReadsNone (stream_in R.Source conn_in.old) (stream_in R.Source conn_in.new)) }
{
    let mut part = [0; PART];
    if held.try_reserve(PART).is_err() {
        return Err(LinkFault::NoMemory);
    }
    match conn_in.read(&mut part) {
        Ok(count) => {
            held.extend_from_slice(&part[..count]).unwrap();
            Ok(count > 0)
        }
        Err(_) => Err(LinkFault::Failed),
    }
}
