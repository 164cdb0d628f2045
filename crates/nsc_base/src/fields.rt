// Fields of a part of a text between separators: the field at a place, or exactly `N` fields.
ghost use Rattle.std.specs.Prelude.{◌≡◌, ◌<◌, ◌≤◌, ◌↔◌, All, length, map, IfSome, IsNone};
ghost use Rattle.std.specs.Option.{option_map};
ghost use Rattle.nsc_base.specs.Fields.{exactly};
ghost use Rattle.nsc_base.specs.Text.{IsField, LiesIn, field_spans, fields_of, part};

use crate::span::{Line, Span};
use memchr::memchr;

/// The field that begins at the place `from` of a part of `text`, up to the separator `cut` or the end of the part,
/// and the place after the separator. A part has one field more than separators. `None` where the last field is
/// passed.
pub fn field_at(text: &[u8], within: Span, from: usize, cut: u8) -> Option<Line>
    requires { within.to ≤ length text.now }
    ensures none { IsNone result ↔ (within.to < from) }
    ensures field { IfSome result (IsField cut text.now within from) }
{
    let end = within.to();
    if end < from {
        return None;
    }
    let to = match memchr(cut, &text[from..end]) {
        Some(n) => from + n,
        None => end,
    };
    Some(Line {
        span: Span::new(from, to),
        next: to + 1,
    })
}

/// The fields of a part of a text, between its separators `cut`, where there are exactly `N`. `None` where there are more
/// or fewer.
pub fn exact_fields<const N: usize>(text: &[u8], within: Span, cut: u8) -> Option<[Span; N]>
    requires { within.to ≤ length text.now }
    ensures places { result ≡ exactly N (field_spans cut text.now within) }
    ensures fields { option_map (map (part text.now)) result ≡ exactly N (fields_of cut (part text.now within)) }
    ensures inside { IfSome result (All (LiesIn within)) }
{
    let mut spans = [Span::new(0, 0); N];
    let mut from = within.from();
    for span in spans.iter_mut() {
        let field = field_at(text, within, from, cut)?;
        *span = field.span;
        from = field.next;
    }
    if from <= within.to() {
        return None;
    }
    Some(spans)
}
