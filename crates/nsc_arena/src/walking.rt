// The walk along a bucket's chain to the newest usable node of a request.
ghost use Rattle.std.specs.Prelude.{◌≡◌, ◌↔◌, ◌+◌, ◌<◌, ◌≤◌, ◌^◌, IsTrue, List, length};
ghost use Rattle.nsc_words.specs.declared.node.Placed.{Placed};
ghost use Rattle.nsc_words.specs.Hash.{hash_of};
ghost use Rattle.nsc_words.specs.Laid.{Laid, answers, newest_for, place_of};
ghost use Rattle.nsc_words.specs.Layout.{IsLayout, table_words};
ghost use Rattle.nsc_arena.specs.Changes.{IsNodeAt};

use crate::memory::Words;
use crate::reading::has_bytes;
use nsc_words::{KEY, Layout, NEXT, SHAPE, STATE, shape_kind, shape_len};

/// The place of the newest usable node of a request, by its hash, its kind and its key. It changes nothing, and ends whatever the words
/// hold: each NEXT must be below the place before it. Where the words hold nodes, `None` comes exactly where none of these
/// answers the request.
pub fn walk<W: Words>(table: &mut W, map: Layout, hash: u32, kind: u32, key: &[u8]) -> Option<usize>
    requires layout { IsLayout map }
    requires hash { hash ≡ hash_of kind key.now }
    requires table { length (W.words table.old) ≡ table_words map }
    ensures same { W.words table.new ≡ W.words table.old }
    ensures rest { W.rest table.new ≡ W.rest table.old }
    ensures newest { (nodes : List Placed) → Laid (W.words table.old) map nodes → result ≡ place_of (newest_for kind key.now nodes) }
{
    let mut below = map.words();
    let mut at = table.get(map.bucket(hash));
    'chain: while is_between(at, map.arena_start(), below) {
        let place = at as usize;
        if answers_at(table, place, kind, key) {
            return Some(place);
        }
        below = place;
        at = table.get(place + NEXT);
    }
    None
}

// A node may stand at this place, below another one.
fn is_between(at: u64, start: usize, below: usize) -> bool
    requires { 8 ≤ below }
    ensures { IsTrue result ↔ (start ≤ at) × (at + 8 ≤ below) }
{
    at >= start as u64 && at <= (below - 8) as u64
}

/// Whether the node at a place is usable, and answers this request. Where no node stands there, it ends and changes nothing.
pub fn answers_at<W: Words>(table: &mut W, at: usize, kind: u32, key: &[u8]) -> bool
    requires size { length (W.words table.old) < 2 ^ 63 }
    requires inside { at + 8 ≤ length (W.words table.old) }
    ensures same { W.words table.new ≡ W.words table.old }
    ensures rest { W.rest table.new ≡ W.rest table.old }
    ensures answers { (p : Placed) → IsNodeAt (W.words table.old) at p → result ≡ answers kind key.now p }
{
    // The key comes first: it stands beside NEXT, so a node of another key is read in one place, and not in two.
    if !has_bytes(table, at + KEY, key) {
        return false;
    }
    if table.get(at + STATE) != 1 {
        return false;
    }
    let shape = table.get(at + SHAPE);
    if shape_kind(shape) != kind || shape_len(shape) as usize != key.len() {
        return false;
    }
    true
}
