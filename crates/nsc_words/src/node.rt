// `Node`: what the words of a node hold, their places, and the length of a node.
ghost use Rattle.std.specs.Prelude.{◌≡◌, ◌≤◌};
ghost use Rattle.nsc_base.specs.Nodes.{node_words};

use nsc_base::Bytes;

/// The word of a node that has its number.
pub const NUMBER: usize = 0;
/// The word of a node that has its kind and the length of its key.
pub const SHAPE: usize = 1;
/// The word of a node that has the length of its reply, and whether that is a not-found reply.
pub const SIZE: usize = 2;
/// The word of a node that has its version.
pub const VERSION: usize = 3;
/// The word of a node that has the last moment at which it is not yet over.
pub const TIMEOUT: usize = 4;
/// The word of a node that counts its reloads.
pub const RELOADS: usize = 5;
/// The word of a node that is 1 where it is usable, and 0 where it ended.
pub const STATE: usize = 6;
/// The word of a node that has the place of an older node of its bucket, or 0.
pub const NEXT: usize = 7;
/// The first word of a node's key. The words of its reply follow those of its key.
pub const KEY: usize = 8;

/// What the words of a node hold: an entry of a cache. Its kind is below 256; its key has at most 1,024 bytes, and its reply at most
/// 65,536.
#[derive(Debug, Drop)]
pub struct Node {
    /// The number of its insertion.
    pub number: u64,
    /// The number of the kind of its request.
    pub kind: u32,
    /// The key of its request.
    pub key: Bytes,
    /// The bytes of its reply.
    pub reply: Bytes,
    /// The version that its answer was made over.
    pub version: u64,
    /// The last moment, in seconds, at which it is not yet over.
    pub timeout: u64,
    /// How often it was reloaded without a use.
    pub reloads: u64,
    /// Whether its reply is a not-found reply.
    pub not_found: bool,
}

/// A node at its place in a table: usable, or ended.
#[derive(Debug, Drop)]
pub struct Placed {
    /// The place of its first word.
    pub place: usize,
    /// What its words hold.
    pub node: Node,
    /// Whether it is usable.
    pub usable: bool,
}

/// How many words of eight bytes an entry takes in a table, with a key of `key_len` bytes, at most 1,024, and a reply of
/// `reply_len` bytes, at most 65,536: eight fixed words, and those of the key and of the reply, each rounded up.
pub fn node_words(key_len: usize, reply_len: usize) -> usize
    requires key { key_len ≤ 1024 }
    requires reply { reply_len ≤ 65536 }
    ensures { result ≡ node_words key_len reply_len }
{
    8 + (key_len + 7) / 8 + (reply_len + 7) / 8
}
