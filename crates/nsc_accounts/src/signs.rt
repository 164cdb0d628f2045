// The name after the plus or minus sign of a compat line, nsswitch.conf(5).
ghost use Rattle.std.specs.Prelude.{◌≡◌, ◌≤◌, ◌<◌, ◌∷◌, ℕ, List, IfSome, Some, length};
ghost use Rattle.std.specs.Option.{option_map};
ghost use Rattle.nsc_base.specs.Text.{part};
ghost use Rattle.nsc_model.specs.Compat.{first_field, sayings, sayings_by, sayings_minus, sayings_plus};
ghost use Rattle.nsc_accounts.specs.Matters.{sign_name};

use nsc_base::{Span, has_zero_byte};

/// The name on which a line of a passwd or group file speaks by its sign, a plus or a minus, as a place in the text: an empty one
/// where the line speaks of every name. `None` where it has no sign, or none that counts. Takes no memory.
pub fn sign_line(text: &[u8], line: Span) -> Option<Span>
    requires { line.to ≤ length text.now }
    ensures name { option_map (part text.now) result ≡ sign_name (sayings (part text.now line)) }
    ensures inside { IfSome result (λ name. name.to ≤ line.to) }
{
    let name = black_sign(text, line.trim_front(text))?;
    if has_zero_byte(line.of(text)) {
        return None;
    }
    Some(name)
}

// The same of a line that has no white space at its front, whether or not it has a zero byte.
fn black_sign(text: &[u8], all: Span) -> Option<Span>
    requires { all.to ≤ length text.now }
    ensures name { (line : List ℕ) → option_map (part text.now) result ≡ sign_name (sayings_by line (part text.now all)) }
    ensures inside { IfSome result (λ name. name.to ≤ all.to) }
{
    match all.of(text) {
        [b'+', ..] => Some(plus_name(text, after_sign(text, all))),
        [b'-', ..] => minus_name(text, after_sign(text, all)),
        _ => None,
    }
}

// What stands after the first byte, up to a colon.
fn after_sign(text: &[u8], all: Span) -> Span
    requires filled { all.from < all.to }
    requires inside { all.to ≤ length text.now }
    ensures name { (b : ℕ) (bytes : List ℕ) → part text.now all ≡ b ∷ bytes → part text.now result ≡ first_field bytes }
    ensures inside { result.to ≤ all.to }
{
    Span::new(all.from() + 1, all.to()).before_byte(text, b':')
}

// The name of a plus line, where a netgroup means every name.
fn plus_name(text: &[u8], name: Span) -> Span
    requires { name.to ≤ length text.now }
    ensures name { (fields : List (List ℕ)) → Some (part text.now result) ≡ sign_name (sayings_plus fields (part text.now name)) }
    ensures inside { result.to ≤ name.to }
{
    match name.of(text) {
        [b'@', ..] => Span::new(name.from(), name.from()),
        _ => name,
    }
}

// The name of a minus line. One without a name says nothing.
fn minus_name(text: &[u8], name: Span) -> Option<Span>
    requires { name.to ≤ length text.now }
    ensures name { option_map (part text.now) result ≡ sign_name (sayings_minus (part text.now name)) }
    ensures inside { IfSome result (λ sign. sign.to ≤ name.to) }
{
    match name.of(text) {
        [] => None,
        [b'@', ..] => Some(Span::new(name.from(), name.from())),
        _ => Some(name),
    }
}
