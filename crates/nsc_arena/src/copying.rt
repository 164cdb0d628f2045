// The usable nodes of one table, copied into another one.
ghost use Rattle.std.specs.Prelude.{◌≡◌, ℕ, ◌+◌, ◌<◌, ◌≤◌, ◌^◌, List, length, slice_index};
ghost use Rattle.nsc_words.specs.declared.node.Placed.{Placed};
ghost use Rattle.nsc_words.specs.Laid.{Laid, slid};
ghost use Rattle.nsc_words.specs.Layout.{IsLayout, arena_start, table_words};
ghost use Rattle.nsc_arena.specs.Written.{UsableNodesFit, IsSameHead, IsWritten, MaySet, MaySetNodes};

use crate::chaining::chain;
use crate::memory::Words;
use crate::reading::words_at;
use nsc_words::{FIRST_FREE, Layout, STATE};

/// Copies the usable nodes of a table into another one, whose buckets are 0: each behind those before it, in their order, and linked
/// there, so that FIRST_FREE stands right behind the newest one. They fit.
pub fn copy_nodes<V: Words, W: Words>(from: &mut V, from_map: Layout, table: &mut W, map: Layout)
    requires from_layout { IsLayout from_map }
    requires layout { IsLayout map }
    requires table { length (W.words table.old) ≡ table_words map }
    requires open { MaySetNodes map (W.can_set (W.rest table.old)) }
    requires empty { (i : ℕ) → 16 ≤ i → i < arena_start map → slice_index (W.words table.old) i ≡ 0 }
    requires laid { (nodes : List Placed) × Laid (V.words from.old) from_map nodes × UsableNodesFit map nodes }
    ensures laid { (nodes : List Placed) → Laid (V.words from.old) from_map nodes → UsableNodesFit map nodes → Laid (W.words table.new) map (slid (arena_start map) nodes) }
    ensures head { IsSameHead (W.words table.old) (W.words table.new) }
    ensures rest { W.rest table.new ≡ W.rest table.old }
    ensures from_words { V.words from.new ≡ V.words from.old }
    ensures from_rest { V.rest from.new ≡ V.rest from.old }
{
    let end = from.get(FIRST_FREE) as usize;
    table.set(FIRST_FREE, map.arena_start() as u64);
    let mut at = from_map.arena_start();
    'nodes: while at < end {
        let count = words_at(from, at);
        if from.get(at + STATE) == 1 {
            let to = table.get(FIRST_FREE) as usize;
            copy_words(from, at, table, to, count);
            chain(table, map, to);
        }
        at += count;
    }
}

// Copies words to a place of another table.
fn copy_words<V: Words, W: Words>(from: &mut V, at: usize, table: &mut W, to: usize, count: usize)
    requires from_size { length (V.words from.old) < 2 ^ 63 }
    requires size { length (W.words table.old) < 2 ^ 63 }
    requires read { at + count ≤ length (V.words from.old) }
    requires inside { to + count ≤ length (W.words table.old) }
    requires open { MaySet (W.can_set (W.rest table.old)) to count }
    ensures written { IsWritten (W.words table.old) (W.words table.new) to count (λ i. slice_index (V.words from.old) (at + i)) }
    ensures rest { W.rest table.new ≡ W.rest table.old }
    ensures from_words { V.words from.new ≡ V.words from.old }
    ensures from_rest { V.rest from.new ≡ V.rest from.old }
{
    for index in 0..count {
        let word = from.get(at + index);
        table.set(to + index, word);
    }
}
