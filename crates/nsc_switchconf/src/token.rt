// `Token`: the tokens of a service list, read from a text one by one.
ghost use Rattle.std.specs.Prelude.{◌≡◌, ◌<◌, ◌≤◌, ◌∷◌, [], length, MatchOption, IfSome};
ghost use Rattle.std.specs.List.{prefix_len};
ghost use Rattle.std.specs.Option.{option_map};
ghost use Rattle.nsc_model.specs.Switches.{sign_of, tokens_of};
ghost use Rattle.nsc_switchconf.specs.Tokens.{in_word, token_of};

/// A token of a service list.
#[derive(Clone, Copy, Debug)]
pub enum Token<'a> {
    /// A longest run of bytes that are none of the other tokens.
    Word(&'a [u8]),
    /// `[`.
    Open,
    /// `]`.
    Close,
    /// `!`.
    Not,
    /// `=`.
    Equals,
    /// A blank or a tab.
    Gap,
}

/// The first token of a text, and the text after it. `None` where the text is empty.
pub fn next_token(text: &[u8]) -> Option<(Token<'_>, &[u8])>
    ensures token { MatchOption result (tokens_of text.now ≡ []) (λ t. tokens_of text.now ≡ token_of t.0 ∷ tokens_of t.1.now) }
    ensures onward { IfSome result (λ t. length t.1.now < length text.now) }
{
    let (first, rest) = text.split_first()?;
    match sign(*first) {
        Some(token) => Some((token, rest)),
        None => {
            let (word, rest) = text.split_at(word_length(text));
            Some((Token::Word(word), rest))
        }
    }
}

// The token that a byte is by itself. `None` for a byte of a word.
fn sign(byte: u8) -> Option<Token<'static>>
    ensures { option_map token_of result ≡ sign_of byte }
{
    match byte {
        b' ' | b'\t' => Some(Token::Gap),
        b'[' => Some(Token::Open),
        b']' => Some(Token::Close),
        b'!' => Some(Token::Not),
        b'=' => Some(Token::Equals),
        _ => None,
    }
}

// How many bytes at the front are those of a word.
fn word_length(bytes: &[u8]) -> usize
    ensures run { result ≡ prefix_len in_word bytes.now }
    ensures within { result ≤ length bytes.now }
{
    for (i, byte) in bytes.iter().enumerate() {
        if sign(*byte).is_some() {
            return i;
        }
    }
    bytes.len()
}
