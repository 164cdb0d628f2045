// `LineSays`: the meaning of one line to the service compat, by the line's sign.
ghost use Rattle.std.specs.Prelude.{◌≡◌, ◌≤◌, ℕ, List, length};
ghost use Rattle.nsc_base.specs.Text.{fields_of, part};
ghost use Rattle.nsc_model.specs.Compat.{sayings, sayings_by, sayings_minus, sayings_plus};
ghost use Rattle.nsc_compat.specs.Said.{sayings_as};

use nsc_base::{Span, before_byte, has_zero_byte, trim_front};

/// What a line of a passwd or group file says.
#[derive(Clone, Copy, Debug)]
pub enum LineSays<'t> {
    /// Its own entry, where the line has the form of one.
    Own,
    /// A name is excluded.
    Excludes(&'t [u8]),
    /// The entry of a name is asked of further services.
    Asks {
        /// The name.
        name: &'t [u8],
        /// The line after its white space.
        all: &'t [u8],
    },
    /// The request itself is asked of further services.
    AsksAll {
        /// The line after its white space.
        all: &'t [u8],
    },
    /// A netgroup, whose names are not known.
    Netgroup,
    /// Nothing.
    Nothing,
}

/// What a line says, by its first byte after blanks and tabs: `+` and `-` stand before a name that ends at a colon or
/// with the line, nsswitch.conf(5). A line with a zero byte says nothing. Takes no memory.
pub fn line_says(text: &[u8], line: Span) -> LineSays<'_>
    requires { line.to ≤ length text.now }
    ensures { sayings_as (part text.now line) result ≡ sayings (part text.now line) }
{
    let bytes = line.of(text);
    if has_zero_byte(bytes) {
        return LineSays::Nothing;
    }
    black_says(trim_front(bytes))
}

// What a line says that has no white space at its front and no zero byte.
fn black_says(all: &[u8]) -> LineSays<'_>
    ensures { (line : List ℕ) → sayings_as line result ≡ sayings_by line all.now }
{
    match all {
        [] => LineSays::Nothing,
        [b'+', rest @ ..] => plus_says(before_byte(rest, b':'), all),
        [b'-', rest @ ..] => minus_says(before_byte(rest, b':')),
        _ => LineSays::Own,
    }
}

// What a plus line says, by the name after the plus.
fn plus_says<'t>(name: &'t [u8], all: &'t [u8]) -> LineSays<'t>
    ensures { (line : List ℕ) → sayings_as line result ≡ sayings_plus (fields_of 58 all.now) name.now }
{
    match name {
        [] => LineSays::AsksAll { all },
        [b'@', ..] => LineSays::Netgroup,
        _ => LineSays::Asks { name, all },
    }
}

// What a minus line says, by the name after the minus.
fn minus_says(name: &[u8]) -> LineSays<'_>
    ensures { (line : List ℕ) → sayings_as line result ≡ sayings_minus name.now }
{
    match name {
        [] => LineSays::Nothing,
        [b'@', ..] => LineSays::Netgroup,
        _ => LineSays::Excludes(name),
    }
}
