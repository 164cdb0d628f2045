// What the words of a node hold.
ghost use Rattle.std.specs.Prelude.{◌≡◌, ℕ, ◌+◌, ◌*◌, ◌<◌, ◌≤◌, ◌^◌, ◌++◌, All, List, length, slice_index, true, false};
ghost use Rattle.nsc_base.specs.Nodes.{words_for};
ghost use Rattle.nsc_words.specs.declared.node.Placed.{Placed};
ghost use Rattle.nsc_words.specs.Hash.{hash_of};
ghost use Rattle.nsc_words.specs.Laid.{Stands, words_in};
ghost use Rattle.nsc_words.specs.Words.{HoldsBytes};
ghost use Rattle.nsc_arena.specs.Changes.{IsNodeAt, head_of};
ghost use Rattle.nsc_arena.specs.ReadBack.{byte_in};

use crate::memory::Words;
use nsc_base::Buf;
use nsc_words::{
    KEY, NUMBER, RELOADS, SHAPE, SIZE, TIMEOUT, VERSION, hash_kind, hash_word, node_words,
    shape_kind, shape_len, size_len, size_not_found, word_of,
};

// How many bytes are copied at once, and how many words that is.
const BLOCK: usize = 64;

const BLOCK_WORDS: usize = 8;

/// What is read of a node, but for its key and its reply.
#[derive(Clone, Copy, Debug, PartialEq, Eq)]
pub struct Head {
    /// The number of its insertion.
    pub number: u64,
    /// The number of the kind of its request.
    pub kind: u32,
    /// The length of its key, in bytes.
    pub key_len: usize,
    /// The length of its reply, in bytes.
    pub reply_len: usize,
    /// Whether its reply is a not-found reply.
    pub not_found: bool,
    /// The version that its answer was made over.
    pub version: u64,
    /// The last moment, in seconds, at which it is not yet over.
    pub timeout: u64,
    /// How often it was reloaded without a use.
    pub reloads: u64,
}

/// What is read of the node at a place, but for its key and its reply.
pub fn head_at<W: Words>(table: &mut W, at: usize) -> Head
    requires size { length (W.words table.old) < 2 ^ 63 }
    requires inside { at + 8 ≤ length (W.words table.old) }
    ensures same { W.words table.new ≡ W.words table.old }
    ensures rest { W.rest table.new ≡ W.rest table.old }
    ensures head { (p : Placed) → Stands (W.words table.old) p → p.place ≡ at → result ≡ head_of p }
{
    let shape = table.get(at + SHAPE);
    let size = table.get(at + SIZE);
    Head {
        number: table.get(at + NUMBER),
        kind: shape_kind(shape),
        key_len: shape_len(shape) as usize,
        reply_len: size_len(size) as usize,
        not_found: size_not_found(size),
        version: table.get(at + VERSION),
        timeout: table.get(at + TIMEOUT),
        reloads: table.get(at + RELOADS),
    }
}

/// Whether the words from a place on hold these bytes.
pub fn has_bytes<W: Words>(table: &mut W, at: usize, bytes: &[u8]) -> bool
    requires size { length (W.words table.old) < 2 ^ 63 }
    requires inside { at ≤ length (W.words table.old) }
    ensures same { W.words table.new ≡ W.words table.old }
    ensures rest { W.rest table.new ≡ W.rest table.old }
    ensures yes { result ≡ true → HoldsBytes (W.words table.old) at bytes.now }
    ensures no { result ≡ false → at + words_for (length bytes.now) ≤ length (W.words table.old) → HoldsBytes (W.words table.old) at bytes.now → ⊥ }
{
    let count = bytes.len().div_ceil(8);
    if count > table.len() - at {
        return false;
    }
    for index in 0..count {
        if table.get(at + index) != word_of(bytes, index) {
            return false;
        }
    }
    true
}

/// Puts `len` bytes of the words from a place on after those of a buffer. The caller knows that they fit.
pub fn read_bytes<W: Words>(table: &mut W, at: usize, len: usize, out: &mut Buf)
    requires size { length (W.words table.old) < 2 ^ 63 }
    requires inside { at + words_for len ≤ length (W.words table.old) }
    requires room { length out.old.content + len ≤ out.old.limit }
    ensures same { W.words table.new ≡ W.words table.old }
    ensures rest { W.rest table.new ≡ W.rest table.old }
    ensures limit { out.new.limit ≡ out.old.limit }
    ensures bytes { (bytes : List ℕ) → All (λ b. b < 256) bytes → length bytes ≡ len → HoldsBytes (W.words table.old) at bytes → out.new.content ≡ out.old.content ++ bytes }
{
    let blocks = len.div_ceil(BLOCK);
    for index in 0..blocks {
        let count = (len - BLOCK * index).min(BLOCK);
        let block = block_at(table, at + BLOCK_WORDS * index, count.div_ceil(8));
        out.push(&block[..count]);
    }
}

// The bytes of `count` words from a place on, and zeros after them.
fn block_at<W: Words>(table: &mut W, at: usize, count: usize) -> [u8; 64]
    requires size { length (W.words table.old) < 2 ^ 63 }
    requires inside { at + count ≤ length (W.words table.old) }
    requires few { count ≤ 8 }
    ensures same { W.words table.new ≡ W.words table.old }
    ensures rest { W.rest table.new ≡ W.rest table.old }
    ensures bytes { (k : ℕ) → k < 8 * count → slice_index result k ≡ byte_in (W.words table.old) at k }
{
    let mut block = [0; BLOCK];
    for index in 0..count {
        let word = table.get(at + index);
        block[8 * index..8 * index + 8].copy_from_slice(&word.to_le_bytes());
    }
    block
}

/// The hash of the request of the node at a place.
pub fn hash_at<W: Words>(table: &mut W, at: usize) -> u32
    requires { (p : Placed) × IsNodeAt (W.words table.old) at p }
    ensures same { W.words table.new ≡ W.words table.old }
    ensures rest { W.rest table.new ≡ W.rest table.old }
    ensures hash { (p : Placed) → IsNodeAt (W.words table.old) at p → result ≡ hash_of p.node.kind p.node.key }
{
    let shape = table.get(at + SHAPE);
    let len = shape_len(shape) as usize;
    let mut hash = hash_kind(shape_kind(shape));
    let count = len.div_ceil(8);
    for index in 0..count {
        let word = table.get(at + KEY + index);
        hash = hash_word(hash, word, (len - 8 * index).min(8));
    }
    hash
}

/// How many words the node at a place takes.
pub fn words_at<W: Words>(table: &mut W, at: usize) -> usize
    requires { (p : Placed) × IsNodeAt (W.words table.old) at p }
    ensures same { W.words table.new ≡ W.words table.old }
    ensures rest { W.rest table.new ≡ W.rest table.old }
    ensures words { (p : Placed) → IsNodeAt (W.words table.old) at p → result ≡ words_in p.node }
{
    let shape = table.get(at + SHAPE);
    let size = table.get(at + SIZE);
    node_words(shape_len(shape) as usize, size_len(size) as usize)
}
