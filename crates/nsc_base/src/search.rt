// Search for the first line of a text with an entry, past the lines that lack a needle.
ghost use Rattle.std.specs.Prelude.{◌≡◌, ◌<◌, ◌≤◌, [], length, MatchOption};
ghost use Rattle.nsc_base.specs.Found.{FirstOf, IsLineStart, IsLineWith, NoneBefore, OrLacks, PassesOver, same_by};
ghost use Rattle.nsc_base.specs.Text.{line_spans};
ghost use Rattle.nsc_base.specs.declared.span.Span.{Span};
ghost use Rattle.nsc_base.specs.declared.search.Case.{Case};

use crate::any_case::first_in_any_case;
use crate::bytes::equal;
use crate::lines::line_at;
use crate::span::{Line, Span};
use memchr::{memmem, memrchr};

/// Whether the case of ASCII letters counts where texts are compared.
#[derive(Clone, Copy, Debug, PartialEq, Eq)]
pub enum Case {
    /// `a` and `A` differ.
    Counts,
    /// `a` and `A` are the same.
    Ignored,
}

impl Case {
    /// Whether two texts are the same.
    pub fn same(self, a: &[u8], b: &[u8]) -> bool
        ensures { result ≡ same_by self a.now b.now }
    {
        match self {
            Case::Counts => equal(a, b),
            Case::Ignored => a.eq_ignore_ascii_case(b),
        }
    }
}

/// What `entry_of` gives for the first line of the text for which it gives something, where a line that lacks the needle
/// gives nothing. Lines that lack it are passed over without being read. Takes no memory of its own.
pub fn first_line_with<E, F: Fn(Span) -> Option<E>>(
    text: &[u8],
    needle: &[u8],
    case: Case,
    entry_of: F,
) -> Option<E>
    requires { (line : Span) → line.from ≤ line.to → line.to ≤ length text.now → F.pre entry_of line }
    ensures { FirstOf (OrLacks case needle.now text.now (F.post entry_of)) (line_spans text.now 0) result }
{
    let mut from = 0;
    while let Some(line) = line_with(text, from, needle, case) {
        if let Some(entry) = entry_of(line.span) {
            return Some(entry);
        }
        from = line.next;
    }
    None
}

/// The next line of the text, from a place on at which a line begins, in which the needle may stand, and the place where the
/// line after it begins. The lines before it lack the needle; `None` where all lines from there on lack it.
pub fn line_with(text: &[u8], from: usize, needle: &[u8], case: Case) -> Option<Line>
    requires { from ≤ length text.now }
    ensures { MatchOption result (PassesOver case needle.now text.now [] (line_spans text.now from)) (IsLineWith case needle.now text.now from) }
{
    let at = from + first_place(&text[from..], needle, case)?;
    line_at(text, line_start(text, from, at))
}

// Where the line begins that a place is in, or after, from a place on at which a line begins.
fn line_start(text: &[u8], from: usize, at: usize) -> usize
    requires before { from ≤ at }
    requires inside { at ≤ length text.now }
    ensures no_earlier { from ≤ result }
    ensures no_later { result ≤ at }
    ensures lines { IsLineStart text.now from result }
{
    match memrchr(b'\n', &text[from..at]) {
        Some(n) => from + n + 1,
        None => from,
    }
}

// A place before which no needle begins. `None` where there is no needle.
fn first_place(bytes: &[u8], needle: &[u8], case: Case) -> Option<usize>
    ensures { NoneBefore case needle.now bytes.now result }
{
    match case {
        Case::Counts => memmem::find(bytes, needle),
        Case::Ignored => first_in_any_case(bytes, needle),
    }
}
