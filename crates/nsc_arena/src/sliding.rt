// Clearing of a table, and the compaction of its nodes in place.
ghost use Rattle.std.specs.Prelude.{◌≡◌, ℕ, ◌+◌, ◌≤◌, List, [], length, slice_index};
ghost use Rattle.nsc_words.specs.declared.node.Placed.{Placed};
ghost use Rattle.nsc_words.specs.Laid.{Laid, slid};
ghost use Rattle.nsc_words.specs.Layout.{IsLayout, arena_start, table_words};
ghost use Rattle.nsc_arena.specs.Written.{IsSameHead, MaySetNodes};

use crate::chaining::chain;
use crate::memory::Words;
use crate::reading::words_at;
use crate::writing::move_down;
use nsc_words::{FIRST_FREE, HEAD_WORDS, Layout, STATE};

/// Makes the words hold no node. The head words but for FIRST_FREE stay, and so do the words of the arena.
pub fn clear<W: Words>(table: &mut W, map: Layout)
    requires layout { IsLayout map }
    requires table { length (W.words table.old) ≡ table_words map }
    requires open { MaySetNodes map (W.can_set (W.rest table.old)) }
    ensures laid { Laid (W.words table.new) map [] }
    ensures arena { (i : ℕ) → arena_start map ≤ i → slice_index (W.words table.new) i ≡ slice_index (W.words table.old) i }
    ensures head { IsSameHead (W.words table.old) (W.words table.new) }
    ensures rest { W.rest table.new ≡ W.rest table.old }
{
    for bucket in HEAD_WORDS..map.arena_start() {
        table.set(bucket, 0);
    }
    table.set(FIRST_FREE, map.arena_start() as u64);
}

/// Moves the usable nodes down, each to the end of those before it, in their order, and mends the chains: the ended ones are gone, and
/// FIRST_FREE stands right behind the newest one. Each node is moved once. Gives how many words are free that were not.
pub fn slide<W: Words>(table: &mut W, map: Layout) -> usize
    requires layout { IsLayout map }
    requires open { MaySetNodes map (W.can_set (W.rest table.old)) }
    requires laid { (nodes : List Placed) × Laid (W.words table.old) map nodes }
    ensures laid { (nodes : List Placed) → Laid (W.words table.old) map nodes → Laid (W.words table.new) map (slid (arena_start map) nodes) }
    ensures freed { slice_index (W.words table.new) 3 + result ≡ slice_index (W.words table.old) 3 }
    ensures head { IsSameHead (W.words table.old) (W.words table.new) }
    ensures rest { W.rest table.new ≡ W.rest table.old }
{
    let end = table.get(FIRST_FREE) as usize;
    clear(table, map);
    let mut from = map.arena_start();
    'nodes: while from < end {
        let count = words_at(table, from);
        if table.get(from + STATE) == 1 {
            let to = table.get(FIRST_FREE) as usize;
            move_down(table, from, to, count);
            chain(table, map, to);
        }
        from += count;
    }
    end - table.get(FIRST_FREE) as usize
}
