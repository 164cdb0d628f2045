// Writing of a reply after its length.
ghost use Rattle.std.specs.Prelude.{◌≡◌, ◌≤◌, ◌<◌, ◌^◌, ◌++◌, ◌+◌, length, take, OnOk, OnErr};
ghost use Rattle.nsc_outside.specs.Stream.{Grows, GrowsByFront};
ghost use Rattle.nsc_model.specs.Reads.{Rose};
ghost use Rattle.nsc_model.specs.Replay.{framed};

use byteorder::{ByteOrder, LittleEndian};
use nsc_outside::{Failed, Sink, write_all};

// A reply of up to `SHORT_LIMIT` bytes goes out in one call with its length, and a longer one is not copied.
const SHORT_LIMIT: usize = 508;

// Its length and its bytes.
const PIECE: usize = 512;

/// Writes a reply after its length. On `Failed` some bytes at the front may be out, and no others.
pub fn put_reply<K: Sink>(output: &mut K, reply: &[u8]) -> Result<(), Failed>
    requires { length reply.now < 2 ^ 32 }
    ensures grown { OnOk result (Grows (K.taken output.old) (K.taken output.new) (framed reply.now)) }
    ensures calm { OnOk result (K.faults output.new ≡ K.faults output.old) }
    ensures front { OnErr result (GrowsByFront (K.taken output.old) (K.taken output.new) (framed reply.now)) }
    ensures failed { OnErr result (Rose (K.faults output.old) (K.faults output.new)) }
{
    let mut length = [0; 4];
    LittleEndian::write_u32(&mut length, reply.len() as u32);
    if reply.len() <= SHORT_LIMIT {
        return put_short(output, &length, reply);
    }
    write_all(output, &length)?;
    write_all(output, reply)
}

// Writes a short reply after these four bytes.
fn put_short<K: Sink>(output: &mut K, size: &[u8; 4], reply: &[u8]) -> Result<(), Failed>
    requires { length reply.now ≤ SHORT_LIMIT }
    ensures grown { OnOk result (Grows (K.taken output.old) (K.taken output.new) (size.now ++ reply.now)) }
    ensures calm { OnOk result (K.faults output.new ≡ K.faults output.old) }
    ensures front { OnErr result (GrowsByFront (K.taken output.old) (K.taken output.new) (size.now ++ reply.now)) }
    ensures failed { OnErr result (Rose (K.faults output.old) (K.faults output.new)) }
{
    let mut piece = [0; PIECE];
    lay(&mut piece, size, reply);
    write_all(output, &piece[..4 + reply.len()])
}

// Lays a short reply after these four bytes.
fn lay(piece: &mut [u8; PIECE], size: &[u8; 4], reply: &[u8])
    requires { length reply.now ≤ SHORT_LIMIT }
    ensures { take (4 + length reply.now) piece.new ≡ size.now ++ reply.now }
{
    piece[..4].copy_from_slice(size);
    piece[4..4 + reply.len()].copy_from_slice(reply);
}
