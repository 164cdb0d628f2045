// Places of nodes that are kept beside the words of a table, so that a lookup of what is kept mostly reads one node, and not those before
// it in its chain.
ghost use Rattle.std.specs.Prelude.{◌≡◌, ℕ, ◌+◌, ◌-◌, ◌/◌, ◌%◌, ◌<◌, ◌≤◌, ◌≢◌, ◌⊎◌, true, IfOk, IfSome, Some, length, replicate, slice_index};
ghost use Rattle.nsc_words.specs.declared.node.Placed.{Placed};
ghost use Rattle.nsc_words.specs.Laid.{Among, Laid, answers, newest_for, place_of};
ghost use Rattle.nsc_words.specs.Layout.{IsLayout, arena_start, table_words};
ghost use Rattle.nsc_arena.specs.ReadBack.{nodes_in};
ghost use Rattle.nsc_shelf.specs.Hints.{AreHints, HasPlace, IsAlone, told_place};

use nsc_arena::{Words, answers_at, walk};
use nsc_base::NoMemory;
use nsc_words::{Layout, hash};
use std::alloc::Global;

// How many words of the arena there are for each hint. The least node has eight.
const WORDS_FOR_HINT: usize = 8;

// How many hints stand in a row. Each hash has one row.
const ROW: usize = 4;

// How many places an arena has at most. A hint is a place in it and, above, the upper bits of a hash: so the node there is mostly the one
// that is asked for.
const PLACES: u32 = 0x80_0000;

/// Hints for a table of this layout, none of which tells a place yet: four bytes for each eight words of the arena. Fails only for want
/// of memory.
pub fn no_hints(alloc: Global, map: Layout) -> Result<Vec<u32>, NoMemory>
    requires { IsLayout map }
    ensures { IfOk result (λ hints. hints.items ≡ replicate (map.arena / 8) 0) }
{
    let count = map.arena / WORDS_FOR_HINT;
    let mut hints = Vec::with_capacity(alloc, count)?;
    hints.resize(count, 0)?;
    Ok(hints)
}

/// Makes all hints tell no place.
pub fn forget(hints: &mut [u32])
    ensures { hints.new ≡ replicate (length hints.old) 0 }
{
    hints.fill(0);
}

/// The place of a usable node of a request, by its kind, below 256, and its key: by a hint, or else by its chain, and then it is noted. Where
/// such nodes are one, that is the newest one, and `None` comes exactly where there is none.
pub fn find<W: Words>(
    words: &mut W,
    map: Layout,
    hints: &mut [u32],
    kind: u32,
    key: &[u8],
) -> Option<usize>
    requires layout { IsLayout map }
    requires kind { kind < 256 }
    requires laid { Laid (W.words words.old) map (nodes_in (W.words words.old) map) }
    requires hints { AreHints hints.old map (nodes_in (W.words words.old) map) }
    ensures same { W.words words.new ≡ W.words words.old }
    ensures rest { W.rest words.new ≡ W.rest words.old }
    ensures newest { IsAlone kind key.now (nodes_in (W.words words.old) map) → result ≡ place_of (newest_for kind key.now (nodes_in (W.words words.old) map)) }
    ensures hinted { AreHints hints.new map (nodes_in (W.words words.old) map) }
{
    let hash = hash(kind, key);
    if let Some(place) = find_hinted(words, map, hints, hash, kind, key) {
        return Some(place);
    }
    let place = walk(words, map, hash, kind, key)?;
    note(map, hints, hash, place);
    Some(place)
}

/// Notes the place of a node of this hash, where its row has a hint that tells none. A hint stays until all are forgotten: were it to give
/// way, those that are asked in turn would drive each other out. That of a node that ended stays too, since a slide soon follows, and
/// forgets all.
pub fn note(map: Layout, hints: &mut [u32], hash: u32, place: usize)
    requires layout { IsLayout map }
    requires some { 4 ≤ length hints.old }
    requires from { arena_start map ≤ place }
    requires to { place < table_words map }
    ensures count { length hints.new ≡ length hints.old }
    ensures hints { (i : ℕ) → (slice_index hints.new i ≡ slice_index hints.old i) ⊎ (told_place map (slice_index hints.new i) ≡ place) }
{
    let row = row_of(hash, hints.len());
    if let Some(index) = free_in(hints, row) {
        hints[index] = hint_of(map, hash, place);
    }
}

// The place that a hint of a hash tells, where the node there answers a request.
fn find_hinted<W: Words>(
    words: &mut W,
    map: Layout,
    hints: &[u32],
    hash: u32,
    kind: u32,
    key: &[u8],
) -> Option<usize>
    requires layout { IsLayout map }
    requires laid { Laid (W.words words.old) map (nodes_in (W.words words.old) map) }
    requires hints { AreHints hints.now map (nodes_in (W.words words.old) map) }
    ensures same { W.words words.new ≡ W.words words.old }
    ensures rest { W.rest words.new ≡ W.rest words.old }
    ensures newest { IsAlone kind key.now (nodes_in (W.words words.old) map) → IfSome result (λ place. place_of (newest_for kind key.now (nodes_in (W.words words.old) map)) ≡ Some place) }
{
    let row = row_of(hash, hints.len());
    for index in row..row + ROW {
        if is_of(words, map, hints[index], hash, kind, key) {
            return Some(place_in(map, hints[index]));
        }
    }
    None
}

// The first of the hints of a hash, of `count` hints. The hashes of names that follow one another mostly differ in their lower bits alone,
// so that their hints lie side by side.
fn row_of(hash: u32, count: usize) -> usize
    requires { 4 ≤ count }
    ensures { result + 4 ≤ count }
{
    let mixed = hash ^ hash >> 16;
    mixed as usize % (count / ROW) * ROW
}

// The hint of a place and a hash.
fn hint_of(map: Layout, hash: u32, place: usize) -> u32
    requires layout { IsLayout map }
    requires from { arena_start map ≤ place }
    requires to { place < table_words map }
    ensures { told_place map result ≡ place }
{
    hash / PLACES * PLACES + (place - map.arena_start()) as u32
}

// The place that a hint tells.
fn place_in(map: Layout, hint: u32) -> usize
    requires { IsLayout map }
    ensures { result ≡ told_place map hint }
{
    map.arena_start() + (hint % PLACES) as usize
}

// Whether a hint tells the place of a usable node that answers a request of this hash.
fn is_of<W: Words>(words: &mut W, map: Layout, hint: u32, hash: u32, kind: u32, key: &[u8]) -> bool
    requires layout { IsLayout map }
    requires laid { Laid (W.words words.old) map (nodes_in (W.words words.old) map) }
    requires hint { hint ≢ 0 → HasPlace (nodes_in (W.words words.old) map) (told_place map hint) }
    ensures same { W.words words.new ≡ W.words words.old }
    ensures rest { W.rest words.new ≡ W.rest words.old }
    ensures is { result ≡ true → (p : Placed) × Among p (nodes_in (W.words words.old) map) × (p.place ≡ told_place map hint) × (answers kind key.now p ≡ true) }
{
    if hint == 0 || hint / PLACES != hash / PLACES {
        return false;
    }
    answers_at(words, place_in(map, hint), kind, key)
}

// The first hint of a row that tells no place.
fn free_in(hints: &[u32], row: usize) -> Option<usize>
    requires { row + 4 ≤ length hints.now }
    ensures { IfSome result (λ index. index < length hints.now) }
{
    for index in row..row + ROW {
        if hints[index] == 0 {
            return Some(index);
        }
    }
    None
}
