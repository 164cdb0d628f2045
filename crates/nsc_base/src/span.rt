// `Span` and `Line`: parts of a text by their places, and the cuts of a part.
ghost use Rattle.std.specs.Prelude.{◌≡◌, ◌≤◌, ◌==◌, length};

use crate::cuts::{before_byte, trim_front};
use std::marker::Model;

/// A part of a text: the bytes from one place up to, and without, another that is not before it. Places count bytes from the
/// front of the text.
#[derive(Clone, Copy, Debug, PartialEq, Eq)]
pub struct Span {
    from: usize,
    to: usize,
}

impl Model for Span {
    ghost use Rattle.std.specs.Prelude.{◌≤◌};
    ghost use Rattle.nsc_base.specs.Span.{Span as Places};

    ghost Value = { Places };

    ghost view = { λ s. record { from = s.from; to = s.to } };

    ghost invariant = { λ s. s.from ≤ s.to };

    ghost inverse = { λ p. record { from = p.from; to = p.to } };
}

impl Span {
    ghost use Rattle.std.specs.Prelude.{MatchOption, false};
    ghost use Rattle.std.specs.List.{before_first, list_any};
    ghost use Rattle.nsc_base.specs.Text.{IsSplit, LiesIn, before_remark, part, trimmed};

    /// The part from one place up to, and without, another.
    pub const fn new(from: usize, to: usize) -> Span
        requires { from ≤ to }
        ensures { result ≡ record { from = from; to = to } }
    {
        Span { from, to }
    }

    /// The whole of a text.
    pub fn whole(text: &[u8]) -> Span
        ensures places { result ≡ record { from = 0; to = length text.now } }
        ensures bytes { part text.now result ≡ text.now }
    {
        Span::new(0, text.len())
    }

    /// The place of the first byte.
    pub fn from(self) -> usize
        ensures place { result ≡ self.from }
        ensures ordered { self.from ≤ self.to }
    {
        self.from
    }

    /// The place after the last byte.
    pub fn to(self) -> usize
        ensures place { result ≡ self.to }
        ensures ordered { self.from ≤ self.to }
    {
        self.to
    }

    /// Whether the part has no byte.
    pub fn is_empty(self) -> bool
        ensures { result ≡ (self.from == self.to) }
    {
        self.from == self.to
    }

    /// The bytes of this part of a text, lent.
    pub fn of(self, text: &[u8]) -> &[u8]
        requires { self.to ≤ length text.now }
        ensures bytes { result.now ≡ part text.now self }
        ensures ordered { self.from ≤ self.to }
    {
        &text[self.from..self.to]
    }

    /// This part of a text without the white space at its front: blanks and tabs.
    pub fn trim_front(self, text: &[u8]) -> Span
        requires { self.to ≤ length text.now }
        ensures bytes { part text.now result ≡ trimmed (part text.now self) }
        ensures ends { result.to ≡ self.to }
        ensures inside { LiesIn self result }
    {
        let rest = trim_front(self.of(text));
        Span::new(self.to() - rest.len(), self.to())
    }

    /// This part of a text up to the first byte of this kind, or all of it where it has none.
    pub fn before_byte(self, text: &[u8], byte: u8) -> Span
        requires { self.to ≤ length text.now }
        ensures bytes { part text.now result ≡ before_first (λ b. b == byte) (part text.now self) }
        ensures begins { result.from ≡ self.from }
        ensures inside { LiesIn self result }
    {
        let front = before_byte(self.of(text), byte);
        Span::new(self.from(), self.from() + front.len())
    }

    /// This part of a text up to its remark, which begins with the first `#`, or all of it where it has none.
    pub fn before_remark(self, text: &[u8]) -> Span
        requires { self.to ≤ length text.now }
        ensures bytes { part text.now result ≡ before_remark (part text.now self) }
        ensures begins { result.from ≡ self.from }
        ensures inside { LiesIn self result }
    {
        self.before_byte(text, b'#')
    }

    /// What stands before the first byte of this kind in this part of a text, and what stands after it. `None` where it
    /// has none.
    pub fn split_at_byte(self, text: &[u8], byte: u8) -> Option<(Span, Span)>
        requires { self.to ≤ length text.now }
        ensures { MatchOption result (list_any (λ b. b == byte) (part text.now self) ≡ false) (λ halves. IsSplit byte text.now self halves.0 halves.1) }
    {
        let front = self.before_byte(text, byte);
        if front.to() == self.to() {
            return None;
        }
        Some((front, Span::new(front.to() + 1, self.to())))
    }
}

/// A line, a field or a word of a text, and the place where the next one is looked for, which is not before its end.
#[derive(Clone, Copy, Debug, PartialEq, Eq)]
pub struct Line {
    /// The bytes of the line, without its end.
    pub span: Span,
    /// The place in the text from which to go on.
    pub next: usize,
    ghost onward: { span.to ≤ next },
}
