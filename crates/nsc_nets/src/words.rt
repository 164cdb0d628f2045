// Words of a line of hosts(5) or services(5) before its remark, and its names and aliases.
ghost use Rattle.std.specs.Prelude.{◌≡◌, ◌≤◌, ◌∷◌, length, IfSome};
ghost use Rattle.std.specs.List.{list_any};
ghost use Rattle.std.specs.Option.{option_map};
ghost use Rattle.nsc_base.specs.Found.{same_by};
ghost use Rattle.nsc_base.specs.Text.{IsWord, LiesIn, before_remark, part, word_spans, words_of};
ghost use Rattle.nsc_base.specs.Words.{WordsLieIn, two_of, words_at};
ghost use Rattle.nsc_nets.specs.Lines.{entry_part};

use nsc_base::{Case, Line, Span, WordsAt, has_word, two_words, word_at};

/// A line up to its remark, where its entry stands.
pub fn before_line_remark(text: &[u8], line: Span) -> Span
    requires { line.to ≤ length text.now }
    ensures place { result ≡ entry_part text.now line }
    ensures bytes { part text.now result ≡ before_remark (part text.now line) }
    ensures inside { LiesIn line result }
{
    line.before_remark(text)
}

/// The first two words of a line before its remark, and the text after them. `None` where the line has fewer words.
pub fn line_words(text: &[u8], line: Span) -> Option<WordsAt>
    requires { line.to ≤ length text.now }
    ensures words { option_map (words_at text.now) result ≡ two_of (words_of (before_remark (part text.now line))) }
    ensures places { IfSome result (λ at. word_spans text.now (entry_part text.now line) ≡ at.first ∷ at.second ∷ word_spans text.now at.others) }
    ensures inside { IfSome result (WordsLieIn line) }
{
    two_words(text, before_line_remark(text, line))
}

/// The first two words of a part of a text, and the text after them, where the first word is known.
pub fn words_after(text: &[u8], within: Span, first: Line) -> Option<WordsAt>
    requires inside { within.to ≤ length text.now }
    requires first { IsWord text.now within within.from first }
    ensures words { option_map (words_at text.now) result ≡ two_of (words_of (part text.now within)) }
    ensures places { IfSome result (λ at. word_spans text.now within ≡ at.first ∷ at.second ∷ word_spans text.now at.others) }
    ensures inside { IfSome result (WordsLieIn within) }
    ensures same { IfSome result (λ at. at.first ≡ first.span) }
{
    let second = word_at(text, within, first.next)?;
    Some(WordsAt {
        first: first.span,
        second: second.span,
        others: Span::new(second.next, within.to()),
    })
}

/// Whether a name is the wanted one, or one of the aliases between white space is.
pub fn has_name(text: &[u8], name: Span, aliases: Span, wanted: &[u8], case: Case) -> bool
    requires name_inside { name.to ≤ length text.now }
    requires aliases_inside { aliases.to ≤ length text.now }
    ensures { result ≡ list_any (λ n. same_by case n wanted.now) (part text.now name ∷ words_of (part text.now aliases)) }
{
    case.same(name.of(text), wanted) || has_word(text, aliases, wanted, case)
}
