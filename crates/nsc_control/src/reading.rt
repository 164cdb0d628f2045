// Reading of a daemon's reply to a control request, at most `ADMIN_REPLY_LIMIT` bytes.
ghost use Rattle.std.specs.Prelude.{◌≡◌, ◌≤◌, length, IfErr, IfOk, OnOk};
ghost use Rattle.nsc_outside.specs.Stream.{IsDrained, Moves};
ghost use Rattle.nsc_outside.specs.StreamAt.{stream_in};
ghost use Rattle.nsc_model.specs.Exits.{IsExitOf, Asking};
ghost use Rattle.nsc_control.specs.Commands.{IsUnread};

use nsc_base::{Bytes, NoMemory};
use nsc_model::Exit;
use nsc_outside::{Source, fill};
use std::alloc::Global;

// The longest reply, in bytes.
const ADMIN_REPLY_LIMIT: usize = 65_536;

// Reads a connection to its end: all that it had. `BadReply` where more than 65,536 bytes came, which is one byte more.
pub(crate) fn read_reply<R: Source>(alloc: Global, conn_in: &mut R) -> Result<Bytes, Exit>
    ensures came { IfOk result (λ reply. Moves (R.left conn_in.old) (R.left conn_in.new) reply) }
    ensures all { OnOk result (IsDrained (R.left conn_in.new)) }
    ensures limit { IfOk result (λ reply. length reply ≤ 65536) }
    ensures exits { IfErr result (IsExitOf Asking) }
    ensures unread { IfErr result (IsUnread (stream_in R.Source conn_in.old) (stream_in R.Source conn_in.new)) }
{
    let Ok(mut bytes) = room(alloc) else {
        return Err(Exit::NoMemory);
    };
    let Ok(count) = fill(conn_in, bytes.as_mut_slice()) else {
        return Err(Exit::NetFault);
    };
    if count > ADMIN_REPLY_LIMIT {
        return Err(Exit::BadReply);
    }
    bytes.truncate(count);
    Ok(Bytes::from_vec(bytes))
}

// Room for one byte more than a reply may have.
fn room(alloc: Global) -> Result<Vec<u8>, NoMemory>
    ensures { IfOk result (λ bytes. length bytes.items ≡ 65537) }
{
    let mut bytes = Vec::with_capacity(alloc, ADMIN_REPLY_LIMIT + 1)?;
    bytes.resize(ADMIN_REPLY_LIMIT + 1, 0)?;
    Ok(bytes)
}
