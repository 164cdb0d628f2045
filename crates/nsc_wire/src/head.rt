// The head of a request, and whether the bytes so far settle the request.
ghost use Rattle.std.specs.Prelude.{◌≡◌, ◌≢◌, ◌≤◌, ℕ, length};
ghost use Rattle.std.specs.Bool.{OnFalse, OnTrue};
ghost use Rattle.nsc_model.specs.Wire.{Short, request_of};
ghost use Rattle.nsc_wire.specs.Request.{Wants};

use crate::request::{Wire, read_request};
use nsc_base::u32_at;
use nsc_model::KEY_LIMIT;

/// The head of a request, before its key: version, type and key length, of four bytes each.
pub const HEAD: usize = 12;

/// The longest request, in bytes.
pub const LONGEST: usize = HEAD + KEY_LIMIT;

/// How many bytes of a key are wanted after a head, or a front of one: none where it is refused, or not whole.
pub fn key_wanted(head: &[u8]) -> usize
    requires { length head.now ≤ 12 }
    ensures { Wants head.now result }
{
    if head.len() < HEAD {
        return 0;
    }
    match read_request(head) {
        Wire::Short { .. } => u32_at(head, 8) as usize,
        _ => 0,
    }
}

/// Whether these bytes at the front of what a peer sends settle what becomes of its request: they are all of it, or tell
/// already that it is refused.
pub fn is_settled(bytes: &[u8]) -> bool
    ensures whole { OnTrue result ((have : ℕ) → request_of bytes.now ≢ Short have) }
    ensures short { OnFalse result (request_of bytes.now ≡ Short (length bytes.now)) }
{
    match read_request(bytes) {
        Wire::Short { .. } => false,
        _ => true,
    }
}
