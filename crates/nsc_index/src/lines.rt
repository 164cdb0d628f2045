// Lines of a text to be indexed: the next line, and the line at a place.
ghost use Rattle.std.specs.Prelude.{◌≡◌, ◌≤◌, ◌↔◌, IfSome, IsNone, length};
ghost use Rattle.nsc_base.specs.Text.{IsLine, line_spans};
ghost use Rattle.nsc_model.specs.Entries.{first_of};

use crate::looks::near_newline;
use nsc_base::{Line, Span, line_at};

/// The line that begins at the place `from`, without its newline, and the place after the newline: what `line_at` gives. Most lines are
/// short, and a look at their first bytes costs less than the call of a search. `None` where no byte is left.
#[inline(always)]
pub fn next_line(text: &[u8], from: usize) -> Option<Line>
    requires { from ≤ length text.now }
    ensures none { IsNone result ↔ (from ≡ length text.now) }
    ensures line { IfSome result (IsLine text.now from) }
{
    match near_newline(&text[from..]) {
        Some(place) => Some(Line {
            span: Span::new(from, from + place),
            next: from + place + 1,
        }),
        None => line_at(text, from),
    }
}

/// The line that begins at a place of a text. `None` at the end of the text and beyond.
pub fn line_on(text: &[u8], place: u32) -> Option<Span>
    ensures line { result ≡ first_of (line_spans text.now place) }
    ensures inside { IfSome result (λ line. line.to ≤ length text.now) }
{
    let place = place as usize;
    if place > text.len() {
        return None;
    }
    Some(line_at(text, place)?.span)
}
