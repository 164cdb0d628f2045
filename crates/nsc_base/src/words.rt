// Words of a text, which blanks and tabs separate.
ghost use Rattle.std.specs.Prelude.{◌≡◌, ◌≢◌, ◌<◌, ◌≤◌, ◌↔◌, ◌∷◌, ℕ, [], length, slice_index, slice_range, IfSome, IsNone, MatchOption};
ghost use Rattle.std.specs.List.{list_any};
ghost use Rattle.std.specs.Option.{option_map};
ghost use Rattle.nsc_base.specs.Found.{same_by};
ghost use Rattle.nsc_base.specs.Text.{IsWord, is_white, part, word_spans, words_of};
ghost use Rattle.nsc_base.specs.Words.{WordsLieIn, two_of, words_at};

use crate::search::Case;
use crate::span::{Line, Span};

/// Where the first two words of a part of a text stand, and the text after them.
#[derive(Clone, Copy, Debug)]
pub struct WordsAt {
    /// The first word.
    pub first: Span,
    /// The second word.
    pub second: Span,
    /// The text after the second word.
    pub others: Span,
}

/// The first word of a part of `text` from the place `from` on, and the place where it ends. Blanks and tabs part
/// words. `None` where only white space is left.
pub fn word_at(text: &[u8], within: Span, from: usize) -> Option<Line>
    requires inside { within.to ≤ length text.now }
    requires before { from ≤ within.to }
    ensures none { IsNone result ↔ (words_of (slice_range text.now from within.to) ≡ []) }
    ensures word { IfSome result (IsWord text.now within from) }
{
    let rest = &text[from..within.to()];
    let white = run_length(rest, true);
    let word = run_length(&rest[white..], false);
    if word == 0 {
        return None;
    }
    let start = from + white;
    Some(Line {
        span: Span::new(start, start + word),
        next: start + word,
    })
}

/// The first word of a text, and the text after it. `None` where it has no word.
pub fn next_word(text: &[u8]) -> Option<(&[u8], &[u8])>
    ensures { MatchOption result (words_of text.now ≡ []) (λ w. words_of text.now ≡ w.0.now ∷ words_of w.1.now) }
{
    let word = word_at(text, Span::whole(text), 0)?;
    Some((word.span.of(text), &text[word.next..]))
}

/// The first two words of a part of a text, and the text after them. `None` where it has fewer words.
pub fn two_words(text: &[u8], within: Span) -> Option<WordsAt>
    requires { within.to ≤ length text.now }
    ensures words { option_map (words_at text.now) result ≡ two_of (words_of (part text.now within)) }
    ensures places { IfSome result (λ at. word_spans text.now within ≡ at.first ∷ at.second ∷ word_spans text.now at.others) }
    ensures inside { IfSome result (WordsLieIn within) }
{
    let first = word_at(text, within, within.from())?;
    let second = word_at(text, within, first.next)?;
    Some(WordsAt {
        first: first.span,
        second: second.span,
        others: Span::new(second.next, within.to()),
    })
}

/// Whether one of the words of a part of a text is the wanted one.
pub fn has_word(text: &[u8], within: Span, wanted: &[u8], case: Case) -> bool
    requires { within.to ≤ length text.now }
    ensures { result ≡ list_any (λ n. same_by case n wanted.now) (words_of (part text.now within)) }
{
    let mut from = within.from();
    while let Some(word) = word_at(text, within, from) {
        if case.same(word.span.of(text), wanted) {
            return true;
        }
        from = word.next;
    }
    false
}

// A blank or a tab.
fn is_blank(byte: u8) -> bool
    ensures { result ≡ is_white byte }
{
    byte == b' ' || byte == b'\t'
}

// How many bytes at the front are white space, or how many are not.
fn run_length(bytes: &[u8], white: bool) -> usize
    ensures within { result ≤ length bytes.now }
    ensures run { (k : ℕ) → k < result → is_white (slice_index bytes.now k) ≡ white }
    ensures stop { result < length bytes.now → is_white (slice_index bytes.now result) ≢ white }
{
    for (i, byte) in bytes.iter().enumerate() {
        if is_blank(*byte) != white {
            return i;
        }
    }
    bytes.len()
}
