// Words of a part of a line, added to the names of an index.
ghost use Rattle.std.specs.Prelude.{◌≡◌, ◌≤◌, ◌<◌, ◌^◌, ◌++◌, OnOk, length};
ghost use Rattle.nsc_index.specs.Names.{words_at};

use crate::names::NameAt;
use nsc_base::{NoMemory, Span, word_at};

/// Adds the words of a part of a line to the names. Fails only for want of memory.
pub fn add_words(
    text: &[u8],
    line: Span,
    within: Span,
    names: &mut Vec<NameAt>,
) -> Result<(), NoMemory>
    requires line { line.to < 2 ^ 32 }
    requires inside { within.to ≤ length text.now }
    requires within { within.to < 2 ^ 32 }
    ensures { OnOk result (names.new.items ≡ names.old.items ++ words_at text.now line within) }
{
    let mut from = within.from();
    while let Some(word) = word_at(text, within, from) {
        names.push(NameAt::new(word.span, line))?;
        from = word.next;
    }
    Ok(())
}
