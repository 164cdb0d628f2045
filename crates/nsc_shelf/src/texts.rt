// The key and the reply of a node that was found.
ghost use Rattle.std.specs.Prelude.{◌≡◌, ◌+◌, ◌≤◌, ◌++◌, length};
ghost use Rattle.nsc_model.specs.Entry.{key_limit, kept_limit};
ghost use Rattle.nsc_words.specs.declared.node.Placed.{Placed};
ghost use Rattle.nsc_arena.specs.Changes.{IsNodeAt, head_of};

use crate::finding::Found;
use nsc_arena::{Words, read_bytes};
use nsc_base::Buf;
use nsc_words::KEY;

/// Puts the key of a node that was found after the bytes of a buffer.
pub fn read_key<W: Words>(words: &mut W, found: Found, key: &mut Buf)
    requires node { (p : Placed) × IsNodeAt (W.words words.old) found.at p × (found.head ≡ head_of p) }
    requires room { length key.old.content + key_limit ≤ key.old.limit }
    ensures same { W.words words.new ≡ W.words words.old }
    ensures rest { W.rest words.new ≡ W.rest words.old }
    ensures key { (p : Placed) → IsNodeAt (W.words words.old) found.at p → found.head ≡ head_of p → key.new ≡ record key.old { content = key.old.content ++ p.node.key } }
{
    read_bytes(words, found.at + KEY, found.head.key_len, key);
}

/// Puts the reply of a node that was found after the bytes of a buffer.
pub fn read_reply<W: Words>(words: &mut W, found: Found, reply: &mut Buf)
    requires node { (p : Placed) × IsNodeAt (W.words words.old) found.at p × (found.head ≡ head_of p) }
    requires room { length reply.old.content + kept_limit ≤ reply.old.limit }
    ensures same { W.words words.new ≡ W.words words.old }
    ensures rest { W.rest words.new ≡ W.rest words.old }
    ensures reply { (p : Placed) → IsNodeAt (W.words words.old) found.at p → found.head ≡ head_of p → reply.new ≡ record reply.old { content = reply.old.content ++ p.node.reply } }
{
    let text = found.at + KEY + found.head.key_len.div_ceil(8);
    read_bytes(words, text, found.head.reply_len, reply);
}
