// Fields of lines of passwd(5) and group(5): names, ids, and an exact number of fields.
ghost use Rattle.std.specs.Prelude.{◌≡◌, ◌≤◌, All, IfSome, length};
ghost use Rattle.nsc_base.specs.Decimal.{decimal_of};
ghost use Rattle.nsc_base.specs.Text.{LiesIn, fields_of, part, trimmed};
ghost use Rattle.nsc_model.specs.Users.{is_name as names};
ghost use Rattle.nsc_accounts.specs.Fields.{exact_line_fields, third_number};

use nsc_base::{Span, decimal, exact_fields, field_at, has_zero_byte};

/// Whether a field may be a name: it is not empty, and begins with none of `#`, `+` and `-`.
pub fn is_name(text: &[u8], field: Span) -> bool
    requires { field.to ≤ length text.now }
    ensures { result ≡ names (part text.now field) }
{
    match field.of(text) {
        [] => false,
        [first, ..] => *first != b'#' && *first != b'+' && *first != b'-',
    }
}

/// The number that a field spells in decimal.
pub fn number(text: &[u8], field: Span) -> Option<u32>
    requires { field.to ≤ length text.now }
    ensures { result ≡ decimal_of (part text.now field) }
{
    decimal(field.of(text))
}

/// Where the fields of a line stand, after the white space at its front, where there are exactly `N` and no byte of the
/// line is 0.
pub fn line_fields<const N: usize>(text: &[u8], line: Span) -> Option<[Span; N]>
    requires { line.to ≤ length text.now }
    ensures fields { result ≡ exact_line_fields N text.now line }
    ensures inside { IfSome result (All (LiesIn line)) }
    ensures ordered { line.from ≤ line.to }
{
    if has_zero_byte(line.of(text)) {
        return None;
    }
    exact_fields::<N>(text, line.trim_front(text), b':')
}

/// The number that the third field of a line spells, after the white space at its front: the id of an entry. The fields
/// after it are not looked for.
pub fn id_of_line(text: &[u8], line: Span) -> Option<u32>
    requires { line.to ≤ length text.now }
    ensures id { result ≡ third_number (fields_of 58 (trimmed (part text.now line))) }
    ensures ordered { line.from ≤ line.to }
{
    third_number(text, line.trim_front(text))
}

// The number that the third field of a part of a text spells.
fn third_number(text: &[u8], within: Span) -> Option<u32>
    requires { within.to ≤ length text.now }
    ensures { result ≡ third_number (fields_of 58 (part text.now within)) }
{
    let name = field_at(text, within, within.from(), b':')?;
    let passwd = field_at(text, within, name.next, b':')?;
    let id = field_at(text, within, passwd.next, b':')?;
    number(text, id.span)
}
