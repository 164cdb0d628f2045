//! The fields at the front of a line of a passwd file, whether or not the line has the form.

ghost use Rattle.std.specs.Prelude.{◌≡◌, ◌==◌, ◌≤◌, ◌<◌, ◌^◌, ◌++◌, OnOk, length};
ghost use Rattle.std.specs.List.{after_first, before_first, position_or_len};
ghost use Rattle.std.specs.Option.{option_map};
ghost use Rattle.nsc_base.specs.Text.{part};
ghost use Rattle.nsc_base.specs.Decimal.{decimal_of};
ghost use Rattle.nsc_index.specs.Fronts.{id_rows, is_colon, name_rows, raw_id, raw_mark};
ghost use Rattle.nsc_index.specs.Numbers.{text_number};

use crate::looks::around_two_colons;
use crate::numbers::{NumberAt, number_with, text_number};
use nsc_base::{NoMemory, Span, trim_front};

/// Adds a row for a line under the number of its name, and one under its id, where it spells one: another line has not the form. Fails
/// only for want of memory.
pub fn add_front(
    text: &[u8],
    line: Span,
    names: &mut Vec<NumberAt>,
    ids: &mut Vec<NumberAt>,
) -> Result<(), NoMemory>
    requires inside { line.to ≤ length text.now }
    requires within { line.to < 2 ^ 32 }
    ensures names { OnOk result (names.new.items ≡ names.old.items ++ name_rows text.now line) }
    ensures ids { OnOk result (ids.new.items ≡ ids.old.items ++ id_rows text.now line) }
{
    if let Some((name, id)) = front_of(line.of(text)) {
        names.push(NumberAt::new(name, line))?;
        ids.push(NumberAt::new(id, line))?;
    }
    Ok(())
}

// The number that the name of a line gives, and the id that the line spells, where it spells one.
fn front_of(line: &[u8]) -> Option<(u32, u32)>
    ensures name { option_map (λ front. front.0) result ≡ raw_mark line.now }
    ensures id { option_map (λ front. front.1) result ≡ raw_id line.now }
{
    let (number, rest) = number_and_rest(trim_front(line));
    let id = id_at_colon(rest)?;
    Some((number, id))
}

// The number that the bytes before the first colon give, and the bytes after the second. Both stand near the front of most lines, so
// that one look finds them.
fn number_and_rest(bytes: &[u8]) -> (u32, &[u8])
    ensures number { result.0 ≡ text_number (before_first is_colon bytes.now) }
    ensures rest { result.1.now ≡ after_first is_colon (after_first is_colon bytes.now) }
{
    match around_two_colons(bytes) {
        Some((name, rest)) => (text_number(name), rest),
        None => {
            let (number, rest) = number_at_colon(bytes);
            (number, after_colon(rest))
        }
    }
}

// The number that the bytes before the first colon give, and the bytes after it: all at one walk.
fn number_at_colon(bytes: &[u8]) -> (u32, &[u8])
    ensures number { result.0 ≡ text_number (before_first is_colon bytes.now) }
    ensures rest { result.1.now ≡ after_first is_colon bytes.now }
{
    let mut number = 0;
    for (place, byte) in bytes.iter().enumerate() {
        if *byte == b':' {
            return (number, &bytes[place + 1..]);
        }
        number = number_with(number, *byte);
    }
    (number, &[])
}

// The bytes after the first colon: none where there is no colon.
fn after_colon(bytes: &[u8]) -> &[u8]
    ensures { result.now ≡ after_first is_colon bytes.now }
{
    let place = colon_in(bytes);
    if place < bytes.len() {
        &bytes[place + 1..]
    } else {
        &[]
    }
}

// The number that the bytes before the first colon spell in decimal: at one walk. A byte below `0` wraps around, so that one test tells
// the digits from all others.
fn id_at_colon(bytes: &[u8]) -> Option<u32>
    ensures { result ≡ decimal_of (before_first is_colon bytes.now) }
{
    let mut id: u64 = 0;
    for (place, byte) in bytes.iter().enumerate() {
        let digit = byte.wrapping_sub(b'0');
        if digit > 9 {
            if *byte != b':' {
                return None;
            }
            return if place == 0 { None } else { Some(id as u32) };
        }
        id = id * 10 + u64::from(digit);
        if id > u64::from(u32::MAX) {
            return None;
        }
    }
    if bytes.is_empty() {
        None
    } else {
        Some(id as u32)
    }
}

// The place of the first colon, or the end where there is none. Fields at the front of a line are short: a walk over their bytes is
// quicker than a search is set up.
fn colon_in(bytes: &[u8]) -> usize
    ensures { result ≡ position_or_len is_colon bytes.now }
{
    for (place, byte) in bytes.iter().enumerate() {
        if *byte == b':' {
            return place;
        }
    }
    bytes.len()
}
