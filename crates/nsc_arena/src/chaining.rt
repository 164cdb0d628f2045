// Linking of a new node into the chain of its bucket.
ghost use Rattle.std.specs.Prelude.{◌≡◌, ◌≢◌, ℕ, ◌+◌, ◌≤◌, true, List, ◌∷◌, length, slice_index, slice_set};
ghost use Rattle.nsc_words.specs.declared.node.Placed.{Placed};
ghost use Rattle.nsc_words.specs.Hash.{hash_of};
ghost use Rattle.nsc_words.specs.Laid.{Laid, bucket_in, words_in};
ghost use Rattle.nsc_words.specs.Layout.{IsLayout, arena_start, table_words};
ghost use Rattle.nsc_arena.specs.Changes.{IsNext, IsNodeAt};
ghost use Rattle.nsc_arena.specs.Written.{IsSameHead, MaySetNodes};

use crate::memory::Words;
use crate::reading::{hash_at, words_at};
use nsc_words::{FIRST_FREE, Layout, NEXT};

/// Links the usable node that stands behind the others, and whose number is above theirs: it is the newest one of its bucket then,
/// and FIRST_FREE stands behind it. Of the arena it sets the node's NEXT alone. Gives the hash of its request.
pub fn chain<W: Words>(table: &mut W, map: Layout, at: usize) -> u32
    requires layout { IsLayout map }
    requires open { MaySetNodes map (W.can_set (W.rest table.old)) }
    requires next { (nodes : List Placed) × (p : Placed) × IsNext (W.words table.old) map nodes p × (p.place ≡ at) }
    ensures laid { (nodes : List Placed) (p : Placed) → IsNext (W.words table.old) map nodes p → p.place ≡ at → Laid (W.words table.new) map (p ∷ nodes) }
    ensures hash { (nodes : List Placed) (p : Placed) → IsNext (W.words table.old) map nodes p → p.place ≡ at → result ≡ hash_of p.node.kind p.node.key }
    ensures arena { (i : ℕ) → arena_start map ≤ i → i ≢ at + 7 → slice_index (W.words table.new) i ≡ slice_index (W.words table.old) i }
    ensures head { IsSameHead (W.words table.old) (W.words table.new) }
    ensures rest { W.rest table.new ≡ W.rest table.old }
{
    let hash = hash_at(table, at);
    let (bucket, end) = lead(table, map, at, hash);
    table.set(bucket, at as u64);
    table.set(FIRST_FREE, end as u64);
    hash
}

/// Makes the NEXT of the node at a place, whose request has this hash, lead to where its bucket leads, and sets no other word. Gives the
/// place of the bucket's word, and that behind the node.
pub fn lead<W: Words>(table: &mut W, map: Layout, at: usize, hash: u32) -> (usize, usize)
    requires layout { IsLayout map }
    requires table { length (W.words table.old) ≡ table_words map }
    requires open { W.can_set (W.rest table.old) (at + 7) ≡ true }
    requires node { (p : Placed) × IsNodeAt (W.words table.old) at p }
    requires hash { (p : Placed) → IsNodeAt (W.words table.old) at p → hash ≡ hash_of p.node.kind p.node.key }
    ensures gives { (p : Placed) → IsNodeAt (W.words table.old) at p → result ≡ (bucket_in map p, at + words_in p.node) }
    ensures set { W.words table.new ≡ slice_set (W.words table.old) (at + 7) (slice_index (W.words table.old) result.0) }
    ensures rest { W.rest table.new ≡ W.rest table.old }
{
    let bucket = map.bucket(hash);
    let end = at + words_at(table, at);
    let newest = table.get(bucket);
    table.set(at + NEXT, newest);
    (bucket, end)
}
