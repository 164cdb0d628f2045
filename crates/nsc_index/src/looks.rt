//! Where colons and newlines stand in a text, found by looks at thirty-two bytes at once.

ghost use Rattle.std.specs.Prelude.{◌≡◌, ◌≢◌, ◌<◌, ◌≤◌, IfSome, length};
ghost use Rattle.std.specs.List.{after_first, before_first, position_or_len};
ghost use Rattle.nsc_index.specs.Fronts.{is_colon};
ghost use Rattle.nsc_index.specs.Looks.{IsLowest, IsWithout, MarksByte, is_newline};

use std::simd::prelude::*;

/// The bytes before the first colon of a text, and those after the second. `None` where its first thirty-two bytes have not two, or
/// where it has fewer bytes than that.
#[inline(always)]
pub fn around_two_colons(bytes: &[u8]) -> Option<(&[u8], &[u8])>
    ensures before { IfSome result (λ found. found.0.now ≡ before_first is_colon bytes.now) }
    ensures after { IfSome result (λ found. found.1.now ≡ after_first is_colon (after_first is_colon bytes.now)) }
{
    if bytes.len() < 32 {
        return None;
    }
    let colons = byte_bits(bytes, b':');
    if colons == 0 {
        return None;
    }
    let first = lowest(colons);
    let others = without(colons, first);
    if others == 0 {
        return None;
    }
    let second = lowest(others);
    Some((&bytes[..first], &bytes[second + 1..]))
}

/// The place of the first newline of a text. `None` where its first sixty-four bytes have none, or where it has fewer bytes than that.
#[inline(always)]
pub fn near_newline(bytes: &[u8]) -> Option<usize>
    ensures inside { IfSome result (λ place. place < length bytes.now) }
    ensures first { IfSome result (λ place. place ≡ position_or_len is_newline bytes.now) }
{
    if bytes.len() < 64 {
        return None;
    }
    let near = byte_bits(bytes, b'\n');
    if near != 0 {
        return Some(lowest(near));
    }
    let far = byte_bits(&bytes[32..], b'\n');
    if far != 0 {
        return Some(32 + lowest(far));
    }
    None
}

// A bit for each of the first thirty-two bytes, set where it is this byte.
#[inline(always)]
fn byte_bits(bytes: &[u8], byte: u8) -> u64
    requires { 32 ≤ length bytes.now }
    ensures { MarksByte byte bytes.now result }
{
    u8x32::from_slice(bytes)
        .simd_eq(u8x32::splat(byte))
        .to_bitmask()
}

// The lowest place at which a bit is set.
#[inline(always)]
fn lowest(bits: u64) -> usize
    requires { bits ≢ 0 }
    ensures { IsLowest bits result }
{
    bits.trailing_zeros() as usize
}

// The same bits but for one, which is not set.
#[inline(always)]
fn without(bits: u64, place: usize) -> u64
    requires { place < 64 }
    ensures { IsWithout bits place result }
{
    bits & !(1 << place)
}
