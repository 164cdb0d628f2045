// Writing of a new node behind the others, before a chain leads to the node.
ghost use Rattle.std.specs.Prelude.{◌≡◌, ◌+◌, ◌≤◌, ◌<◌, ◌^◌, List, [], ◌∷◌, length};
ghost use Rattle.nsc_words.specs.declared.node.Placed.{Placed};
ghost use Rattle.nsc_words.specs.Laid.{Laid, Stands, words_in};
ghost use Rattle.nsc_words.specs.Layout.{IsLayout};
ghost use Rattle.nsc_words.specs.Packing.{shape_word, size_word};
ghost use Rattle.nsc_arena.specs.Changes.{IsPlaced, node_of, usable_at};
ghost use Rattle.nsc_arena.specs.Written.{IsSameBelow, MaySet, MaySetFree};

use crate::memory::Words;
use crate::writing::{put_bytes, put_words};
use nsc_words::{FIRST_FREE, KEY, Layout, node_words, shape, size_word};

/// What is written of a node, but for its key and its reply.
#[derive(Clone, Copy, Debug, PartialEq, Eq)]
pub struct Fixed {
    /// The number of its insertion.
    pub number: u64,
    /// The number of the kind of its request.
    pub kind: u32,
    /// The version that its answer was made over.
    pub version: u64,
    /// The last moment, in seconds, at which it is not yet over.
    pub timeout: u64,
    /// How often it was reloaded without a use.
    pub reloads: u64,
    /// Whether its reply is a not-found reply.
    pub not_found: bool,
}

/// Writes a node behind the others, and gives its place; `None` exactly where it does not fit, and then nothing changed. The node is
/// usable, but no chain leads to it yet. Its kind is below 256; its key has at most 1,024 bytes, and its reply at most 65,536.
pub fn place_bytes<W: Words>(
    table: &mut W,
    map: Layout,
    fixed: Fixed,
    key: &[u8],
    reply: &[u8],
) -> Option<usize>
    requires layout { IsLayout map }
    requires kind { fixed.kind < 256 }
    requires key { length key.now ≤ 1024 }
    requires reply { length reply.now ≤ 65536 }
    requires open { MaySetFree map (W.words table.old) (W.can_set (W.rest table.old)) }
    requires laid { (nodes : List Placed) × Laid (W.words table.old) map nodes }
    ensures placed { IsPlaced map (node_of fixed key.now reply.now) (W.words table.old) (W.words table.new) result }
    ensures laid { (nodes : List Placed) → Laid (W.words table.old) map nodes → Laid (W.words table.new) map nodes }
    ensures rest { W.rest table.new ≡ W.rest table.old }
{
    let at = table.get(FIRST_FREE) as usize;
    if node_words(key.len(), reply.len()) > map.words() - at {
        return None;
    }
    put_node(table, at, fixed, key, reply);
    Some(at)
}

// Writes a node at a place, but for its NEXT, which is set when it is linked.
fn put_node<W: Words>(table: &mut W, at: usize, fixed: Fixed, key: &[u8], reply: &[u8])
    requires kind { fixed.kind < 256 }
    requires key { length key.now ≤ 1024 }
    requires reply { length reply.now ≤ 65536 }
    requires size { length (W.words table.old) < 2 ^ 63 }
    requires inside { at + words_in (node_of fixed key.now reply.now) ≤ length (W.words table.old) }
    requires open { MaySet (W.can_set (W.rest table.old)) at (words_in (node_of fixed key.now reply.now)) }
    ensures stands { Stands (W.words table.new) (usable_at at (node_of fixed key.now reply.now)) }
    ensures below { IsSameBelow (W.words table.old) (W.words table.new) at }
    ensures rest { W.rest table.new ≡ W.rest table.old }
{
    put_words(table, at, &head_words(fixed, key.len(), reply.len()));
    put_bytes(table, at + KEY, key);
    put_bytes(table, at + KEY + key.len().div_ceil(8), reply);
}

// The first words of a usable node, up to its NEXT.
fn head_words(fixed: Fixed, key_len: usize, reply_len: usize) -> [u64; 7]
    requires kind { fixed.kind < 256 }
    requires key { key_len ≤ 1024 }
    requires reply { reply_len ≤ 65536 }
    ensures { result ≡ fixed.number ∷ shape_word fixed.kind key_len ∷ size_word reply_len fixed.not_found ∷ fixed.version ∷ fixed.timeout ∷ fixed.reloads ∷ 1 ∷ [] }
{
    [
        fixed.number,
        shape(fixed.kind, key_len as u32),
        size_word(reply_len as u32, fixed.not_found),
        fixed.version,
        fixed.timeout,
        fixed.reloads,
        1,
    ]
}
