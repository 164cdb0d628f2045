// The reader of replies.
ghost use Rattle.std.specs.Prelude.{◌≡◌, IfNone, IfOk, IfSome};
ghost use Rattle.nsc_model.specs.Kinds.{kind_numbered};
ghost use Rattle.nsc_wire.specs.Replies.{decoded};
ghost use Rattle.nsc_fuzz.specs.Told.{IsNotTold, IsTold, reply_told};

use crate::put::{hand_over, put_number};
use crate::row::put_row;
use nsc_base::NoMemory;
use nsc_model::{Kind, Reply};
use nsc_wire::{ReplyFault, decode_reply};
use std::alloc::Global;

/// The reply to a lookup of this type: 0 for an entry, with its row; 1 for none; 2 for a database that is not cached; 3 for bytes that
/// are no reply, with the place of the first fault.
///
/// The row of a user is name, password, id, group's id, gecos, home directory and shell; of a group name, password, id and the list of
/// its members; of a host name, the list of its aliases, family and address; of a service name, protocol, the list of its aliases and
/// port; of addresses the list of them, each a family and a text of its bytes, and then the name; and of ids the list of them.
#[unsafe(no_mangle)]
pub extern "C" fn nsc_decode_reply(alloc: Global, kind: u32, bytes: &[u8], room: &mut [u8]) -> usize
    ensures told { IfSome (kind_numbered kind) (λ k. IsTold (reply_told (decoded k bytes.now)) room.old room.new result) }
    ensures none { IfNone (kind_numbered kind) (IsNotTold room.old room.new result) }
{
    match Kind::numbered(kind) {
        Some(kind) => hand_over(told(alloc, kind, bytes), room),
        None => 0,
    }
}

// What a reply is told as.
fn told(alloc: Global, kind: Kind, bytes: &[u8]) -> Result<Vec<u8>, NoMemory>
    ensures { IfOk result (λ told. told.items ≡ reply_told (decoded kind bytes.now)) }
{
    let mut out = Vec::new(alloc);
    match decode_reply(alloc, kind, bytes) {
        Ok(Reply::Found(row)) => {
            put_number(&mut out, 0)?;
            put_row(&mut out, &row)?;
        }
        Ok(Reply::Absent) => put_number(&mut out, 1)?,
        Ok(Reply::Disabled) => put_number(&mut out, 2)?,
        Err(ReplyFault::BadReply { at }) => {
            put_number(&mut out, 3)?;
            put_number(&mut out, at as u64)?;
        }
        Err(ReplyFault::NoMemory) => return Err(NoMemory),
    }
    Ok(out)
}
