// The line of a text that begins at a place.
ghost use Rattle.std.specs.Prelude.{◌≡◌, ◌≤◌, ◌↔◌, length, IfSome, IsNone};
ghost use Rattle.nsc_base.specs.Text.{IsLine};

use crate::span::{Line, Span};
use memchr::memchr;

/// The line of `text` that begins at the place `from`, without its newline, and the place after the newline. `None`
/// where no byte is left. A last line needs no newline, and after a last newline no line begins.
pub fn line_at(text: &[u8], from: usize) -> Option<Line>
    requires { from ≤ length text.now }
    ensures none { IsNone result ↔ (from ≡ length text.now) }
    ensures line { IfSome result (IsLine text.now from) }
{
    if from == text.len() {
        return None;
    }
    match memchr(b'\n', &text[from..]) {
        Some(n) => Some(Line {
            span: Span::new(from, from + n),
            next: from + n + 1,
        }),
        None => Some(Line {
            span: Span::new(from, text.len()),
            next: text.len(),
        }),
    }
}
