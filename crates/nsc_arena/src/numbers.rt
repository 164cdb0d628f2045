// Nodes by their numbers.
ghost use Rattle.std.specs.Prelude.{◌≡◌, ◌&&◌, nat_le, List};
ghost use Rattle.nsc_words.specs.declared.node.Placed.{Placed};
ghost use Rattle.nsc_words.specs.Laid.{Laid};
ghost use Rattle.nsc_words.specs.Layout.{IsLayout};
ghost use Rattle.nsc_arena.specs.Changes.{IsFirst, IsMark, IsNodeAt};

use crate::memory::Words;
use crate::reading::words_at;
use nsc_words::{FIRST_FREE, Layout, NUMBER, STATE};

/// The place of the oldest usable node of at least this number; `None` exactly where there is none. It goes over the nodes from a
/// place on, before which all have lower numbers, and changes nothing.
pub fn first_from<W: Words>(table: &mut W, map: Layout, from: usize, number: u64) -> Option<usize>
    requires layout { IsLayout map }
    requires laid { (nodes : List Placed) × Laid (W.words table.old) map nodes × IsMark map nodes from number }
    ensures same { W.words table.new ≡ W.words table.old }
    ensures rest { W.rest table.new ≡ W.rest table.old }
    ensures first { (nodes : List Placed) → Laid (W.words table.old) map nodes → IsMark map nodes from number → IsFirst number nodes result }
{
    let end = table.get(FIRST_FREE) as usize;
    let mut at = from;
    'nodes: while at < end {
        if is_from(table, at, number) {
            return Some(at);
        }
        at += words_at(table, at);
    }
    None
}

// Whether the node at a place is usable, and has at least this number.
fn is_from<W: Words>(table: &mut W, at: usize, number: u64) -> bool
    requires { (p : Placed) × IsNodeAt (W.words table.old) at p }
    ensures same { W.words table.new ≡ W.words table.old }
    ensures rest { W.rest table.new ≡ W.rest table.old }
    ensures is { (p : Placed) → IsNodeAt (W.words table.old) at p → result ≡ (p.usable && nat_le number p.node.number) }
{
    table.get(at + STATE) == 1 && number <= table.get(at + NUMBER)
}
