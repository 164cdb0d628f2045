// The reader of requests.
ghost use Rattle.std.specs.Prelude.{◌≡◌, IfOk};
ghost use Rattle.nsc_model.specs.Wire.{request_of};
ghost use Rattle.nsc_fuzz.specs.Told.{IsTold, request_told};

use crate::put::{hand_over, put_kind, put_number, put_text};
use nsc_base::NoMemory;
use nsc_wire::{Wire, read_request};
use std::alloc::Global;

/// What the input of a connection asks: 0 for a lookup, with the number of its type and the key as a text; 1 for a descriptor; 2 for a
/// lookup in the netgroups; 3 for SHUTDOWN; 4 for GETSTAT; 5 for INVALIDATE, with the name as a text; 6 for too few bytes, with their
/// count; 7 for another version, 8 for a bad type and 9 for a bad key length, each with its field as a number without a sign.
#[unsafe(no_mangle)]
pub extern "C" fn nsc_read_request(alloc: Global, bytes: &[u8], room: &mut [u8]) -> usize
    ensures { IsTold (request_told (request_of bytes.now)) room.old room.new result }
{
    hand_over(told(alloc, bytes), room)
}

// What a request is told as.
fn told(alloc: Global, bytes: &[u8]) -> Result<Vec<u8>, NoMemory>
    ensures { IfOk result (λ told. told.items ≡ request_told (request_of bytes.now)) }
{
    let mut out = Vec::new(alloc);
    match read_request(bytes) {
        Wire::Request { kind, key } => {
            put_number(&mut out, 0)?;
            put_kind(&mut out, kind)?;
            put_text(&mut out, key.of(bytes))?;
        }
        Wire::Descriptor => put_number(&mut out, 1)?,
        Wire::Netgroup => put_number(&mut out, 2)?,
        Wire::Shutdown => put_number(&mut out, 3)?,
        Wire::Stat => put_number(&mut out, 4)?,
        Wire::Invalidate { key } => {
            put_number(&mut out, 5)?;
            put_text(&mut out, key.of(bytes))?;
        }
        Wire::Short { have } => {
            put_number(&mut out, 6)?;
            put_number(&mut out, have as u64)?;
        }
        Wire::BadVersion(version) => {
            put_number(&mut out, 7)?;
            put_number(&mut out, u64::from(version.cast_unsigned()))?;
        }
        Wire::BadType(number) => {
            put_number(&mut out, 8)?;
            put_number(&mut out, u64::from(number.cast_unsigned()))?;
        }
        Wire::BadLength(length) => {
            put_number(&mut out, 9)?;
            put_number(&mut out, u64::from(length.cast_unsigned()))?;
        }
    }
    Ok(out)
}
