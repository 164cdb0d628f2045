// Several words at once.
ghost use Rattle.std.specs.Prelude.{◌≡◌, ◌+◌, ◌<◌, ◌≤◌, ◌^◌, All, length, slice_index};
ghost use Rattle.nsc_base.specs.Nodes.{words_for};
ghost use Rattle.nsc_words.specs.Words.{word_of};
ghost use Rattle.nsc_arena.specs.Written.{IsWritten, MaySet};

use crate::memory::Words;
use nsc_words::word_of;

/// Sets the words from a place on.
pub fn put_words<W: Words>(table: &mut W, at: usize, words: &[u64])
    requires size { length (W.words table.old) < 2 ^ 63 }
    requires inside { at + length words.now ≤ length (W.words table.old) }
    requires open { MaySet (W.can_set (W.rest table.old)) at (length words.now) }
    ensures written { IsWritten (W.words table.old) (W.words table.new) at (length words.now) (slice_index words.now) }
    ensures rest { W.rest table.new ≡ W.rest table.old }
{
    for (index, word) in words.iter().enumerate() {
        table.set(at + index, *word);
    }
}

/// Sets the words from a place on to those of bytes.
pub fn put_bytes<W: Words>(table: &mut W, at: usize, bytes: &[u8])
    requires size { length (W.words table.old) < 2 ^ 63 }
    requires inside { at + words_for (length bytes.now) ≤ length (W.words table.old) }
    requires open { MaySet (W.can_set (W.rest table.old)) at (words_for (length bytes.now)) }
    ensures written { IsWritten (W.words table.old) (W.words table.new) at (words_for (length bytes.now)) (word_of bytes.now) }
    ensures bytes { All (λ b. b < 256) bytes.now }
    ensures rest { W.rest table.new ≡ W.rest table.old }
{
    let count = bytes.len().div_ceil(8);
    for index in 0..count {
        table.set(at + index, word_of(bytes, index));
    }
}

/// Copies words down to a place that is not behind theirs. Each is read before it is written over; where the place is theirs, none is set.
pub fn move_down<W: Words>(table: &mut W, from: usize, to: usize, count: usize)
    requires down { to ≤ from }
    requires size { length (W.words table.old) < 2 ^ 63 }
    requires inside { from + count ≤ length (W.words table.old) }
    requires open { MaySet (W.can_set (W.rest table.old)) to count }
    ensures written { IsWritten (W.words table.old) (W.words table.new) to count (λ i. slice_index (W.words table.old) (from + i)) }
    ensures rest { W.rest table.new ≡ W.rest table.old }
{
    if to == from {
        return;
    }
    for index in 0..count {
        let word = table.get(from + index);
        table.set(to + index, word);
    }
}
