// One request and its reply over a connection, in the bytes of protocol version 2.
ghost use Rattle.std.specs.Prelude.{◌≡◌, ◌≤◌, Some, length, IfErr, IfOk};
ghost use Rattle.nsc_outside.specs.StreamAt.{stream_in, stream_out};
ghost use Rattle.nsc_model.specs.Entry.{key_limit};
ghost use Rattle.nsc_model.specs.Kinds.{type_number};
ghost use Rattle.nsc_model.specs.Wire.{asked_look, request_of};
ghost use Rattle.nsc_sockets.specs.Connections.{IsPeer};
ghost use Rattle.nsc_client.specs.SocketLink.{FailsOnlyBy, IsCut, IsOfPeer, IsSent, IsUnread, request_for};

use crate::link::LinkFault;
use crate::reading::read_part;
use byteorder::{ByteOrder, LittleEndian};
use nsc_base::{Bytes, NoMemory};
use nsc_model::Kind;
use nsc_outside::{Sink, Source, write_all};
use nsc_wire::{HEAD, decode_reply};
use std::alloc::Global;

// The version of the protocol.
const VERSION: u32 = 2;

// The longest reply, in bytes.
const REPLY_LIMIT: usize = 1 << 30;

/// Asks over a connection: sends the request of this kind and key, and reads all that comes back, which is to spell a reply of the kind.
pub(crate) fn exchange<R: Source, K: Sink>(
    alloc: Global,
    conn_in: &mut R,
    conn_out: &mut K,
    kind: Kind,
    key: &[u8],
) -> Result<Bytes, LinkFault>
    requires { length key.now ≤ key_limit }
    ensures answer { IsOfPeer (R.left conn_in.old) kind result }
    ensures sent { IsSent (K.taken conn_out.old) (K.taken conn_out.new) (request_for kind key.now) result }
    ensures cause { FailsOnlyBy (IsCut (stream_in R.Source conn_in.old) (stream_in R.Source conn_in.new) (stream_out K.Sink conn_out.old) (stream_out K.Sink conn_out.new)) result }
{
    let Ok(asked) = request(alloc, kind, key) else {
        return Err(LinkFault::NoMemory);
    };
    if write_all(conn_out, asked.as_slice()).is_err() {
        return Err(LinkFault::Failed);
    }
    let bytes = read_all(alloc, conn_in)?;
    decode_reply(alloc, kind, bytes.as_slice())?;
    Ok(bytes)
}

// The bytes of a request: the version 2, its type and the length of its key, in four bytes each, and the key. Fails only for want of
// memory.
fn request(alloc: Global, kind: Kind, key: &[u8]) -> Result<Bytes, NoMemory>
    requires { length key.now ≤ key_limit }
    ensures bytes { IfOk result (λ bytes. bytes ≡ request_for kind key.now) }
    // Whoever reads it is asked for this kind and key, or for a netgroup.
    ensures asks { IfOk result (λ bytes. request_of bytes ≡ asked_look (Some kind) (type_number kind) key.now) }
{
    let mut head = [0; HEAD];
    LittleEndian::write_u32_into(&[VERSION, kind.number(), key.len() as u32], &mut head);
    let mut bytes = Vec::with_capacity(alloc, HEAD + key.len())?;
    bytes.extend_from_slice(&head)?;
    bytes.extend_from_slice(key)?;
    Ok(Bytes::from_vec(bytes))
}

// Reads a connection to its end, part by part: all that it had. `BadReply` where more bytes came than a reply has.
fn read_all<R: Source>(alloc: Global, conn_in: &mut R) -> Result<Bytes, LinkFault>
    ensures came { IfOk result (λ bytes. IsPeer (R.left conn_in.old) (Some bytes)) }
    ensures unread { IfErr result (IsUnread (stream_in R.Source conn_in.old) (stream_in R.Source conn_in.new)) }
{
    let mut bytes = Vec::new(alloc);
    'parts: while bytes.len() <= REPLY_LIMIT {
        if !read_part(conn_in, &mut bytes)? {
            return Ok(Bytes::from_vec(bytes));
        }
    }
    Err(LinkFault::BadReply { at: REPLY_LIMIT })
}
