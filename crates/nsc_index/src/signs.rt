//! The lines of a passwd or group file that speak by a sign.

ghost use Rattle.std.specs.Prelude.{◌≡◌, ◌≤◌, ◌<◌, ◌^◌, ◌++◌, IfOk, IsFalse, None, OnOk, length, map};
ghost use Rattle.std.specs.Str.{bytes_eq};
ghost use Rattle.nsc_model.specs.Compat.{sayings};
ghost use Rattle.nsc_accounts.specs.Matters.{sign_name, speaks_on};
ghost use Rattle.nsc_index.specs.Indexes.{rows_from};
ghost use Rattle.nsc_index.specs.Signs.{Adds, IsSignIndex, named_line, signs_of};

use crate::names::{NameAt, places_of_name, sorted_names};
use crate::places::add_named;
use nsc_accounts::sign_line;
use nsc_base::{Case, NoMemory, Span, trim_front};

/// Adds the name on which a line speaks, where it has a sign. Fails only for want of memory.
#[inline]
pub fn add_sign(text: &[u8], line: Span, signs: &mut Vec<NameAt>) -> Result<(), NoMemory>
    requires inside { line.to ≤ length text.now }
    requires within { line.to < 2 ^ 32 }
    ensures { OnOk result (map (named_line text.now) signs.new.items ≡ map (named_line text.now) signs.old.items ++ signs_of text.now line) }
{
    if has_sign(line.of(text)) {
        return add_spoken(text, line, signs);
    }
    Ok(())
}

// The same of a line that has a sign, as few have: a call only for those.
#[inline(never)]
fn add_spoken(text: &[u8], line: Span, signs: &mut Vec<NameAt>) -> Result<(), NoMemory>
    requires inside { line.to ≤ length text.now }
    requires within { line.to < 2 ^ 32 }
    ensures { OnOk result (map (named_line text.now) signs.new.items ≡ map (named_line text.now) signs.old.items ++ signs_of text.now line) }
{
    if let Some(name) = sign_line(text, line) {
        signs.push(NameAt::new(name, line))?;
    }
    Ok(())
}

// Whether a line begins with a sign after the white space at its front: no other speaks by one.
#[inline]
fn has_sign(line: &[u8]) -> bool
    ensures { IsFalse result → None ≡ sign_name (sayings line.now) }
{
    match trim_front(line) {
        [b'+' | b'-', ..] => true,
        _ => false,
    }
}

/// The names on which the lines of a text speak, in their order. Fails only for want of memory.
pub fn sorted_signs(text: &[u8], signs: Vec<NameAt>) -> Result<Vec<NameAt>, NoMemory>
    requires { map (named_line text.now) signs.items ≡ rows_from (signs_of text.now) text.now 0 }
    ensures { IfOk result (λ index. IsSignIndex text.now index.items) }
{
    let index = sorted_names(text, Case::Counts, signs)?;
    Ok(index)
}

/// Adds the places of the lines that speak by a sign on a name, or on every name. Fails only for want of memory.
pub fn add_signs_on(
    text: &[u8],
    signs: &[NameAt],
    name: &[u8],
    places: &mut Vec<u32>,
) -> Result<(), NoMemory>
    requires { IsSignIndex text.now signs.now }
    ensures { OnOk result (Adds text.now (λ line. speaks_on (λ other. bytes_eq other name.now) (sign_name (sayings line))) places.old.items places.new.items) }
{
    add_named(places_of_name(text, Case::Counts, signs, name), places)?;
    // Those that speak on every name stand under the empty one.
    add_named(places_of_name(text, Case::Counts, signs, b""), places)?;
    Ok(())
}
