// Texts of exactly one word or exactly two words, in lines of nscd.conf(5).
ghost use Rattle.std.specs.Prelude.{◌≡◌, ◌≢◌, ◌∷◌, [], length, MatchOption};
ghost use Rattle.nsc_base.specs.Text.{words_of};

use nsc_base::next_word;

/// The only word of a text. `None` where it has another number of words.
pub fn only_word(text: &[u8]) -> Option<&[u8]>
    ensures { MatchOption result (length (words_of text.now) ≢ 1) (λ w. words_of text.now ≡ w.now ∷ []) }
{
    let (word, rest) = next_word(text)?;
    match next_word(rest) {
        Some(_) => None,
        None => Some(word),
    }
}

/// The two words of a text. `None` where it has another number of words.
pub fn two_words(text: &[u8]) -> Option<(&[u8], &[u8])>
    ensures { MatchOption result (length (words_of text.now) ≢ 2) (λ w. words_of text.now ≡ w.0.now ∷ w.1.now ∷ []) }
{
    let (first, rest) = next_word(text)?;
    let second = only_word(rest)?;
    Some((first, second))
}
