// Bytes in words.
ghost use Rattle.std.specs.Prelude.{◌≡◌, ◌<◌, length};
ghost use Rattle.nsc_words.specs.Words.{word_of};

use nsc_base::u64_at;

/// A word of the bytes, by its number from 0 on: eight bytes a word, the lowest byte first, and zeros past the end.
pub fn word_of(bytes: &[u8], index: usize) -> u64
    ensures { result ≡ word_of bytes.now index }
{
    let whole = bytes.len() / 8;
    if index < whole {
        u64_at(bytes, 8 * index)
    } else if index == whole {
        last_word(&bytes[8 * index..])
    } else {
        0
    }
}

// The word of the last bytes, fewer than eight of them.
fn last_word(bytes: &[u8]) -> u64
    requires { length bytes.now < 8 }
    ensures { result ≡ word_of bytes.now 0 }
{
    let mut word = [0u8; 8];
    word[..bytes.len()].copy_from_slice(bytes);
    u64_at(&word, 0)
}
