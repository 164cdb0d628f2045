// `Layout`: the head words, buckets and arena of a table, with their places.
ghost use Rattle.std.specs.Prelude.{◌≡◌, ◌<◌, ◌^◌};
ghost use Rattle.nsc_words.specs.Layout.{IsLayout, arena_start, bucket_at, table_words};

/// The number of words at a table's head.
pub const HEAD_WORDS: usize = 16;

/// The head word that counts the beginnings and the ends of compactions.
pub const CYCLE: usize = 0;
/// The head word that counts the invalidations.
pub const EPOCH: usize = 1;
/// The head word that has the number of the newest version.
pub const SOURCE: usize = 2;
/// The head word that has the place after the newest node.
pub const FIRST_FREE: usize = 3;
/// The head word that counts the insertions.
pub const LOADS: usize = 4;
/// The head word that counts the lookups of a kept found reply.
pub const HITS: usize = 5;
/// The head word that counts the lookups of a kept not-found reply.
pub const NEGATIVE_HITS: usize = 6;
/// The head word that counts the lookups that made a found reply.
pub const MISSES: usize = 7;
/// The head word that counts the lookups that made a not-found reply.
pub const NEGATIVE_MISSES: usize = 8;
/// The head word that counts the insertions that found no room.
pub const ADD_FAILED: usize = 9;

/// How a table is laid out, in words of eight bytes: sixteen head words, a hash table of `buckets` words, 1 to 2^29, and after it
/// `arena` words that entries may take, 128 to 8,388,608. A place is a word's number in the whole table.
#[derive(Clone, Copy, Debug, PartialEq, Eq)]
pub struct Layout {
    /// The number of hash buckets, of one word each.
    pub buckets: usize,
    /// The number of words that entries may take.
    pub arena: usize,
}

impl Layout {
    /// The place of the first word that an entry may take.
    pub fn arena_start(self) -> usize
        requires { IsLayout self }
        ensures { result ≡ arena_start self }
    {
        HEAD_WORDS + self.buckets
    }

    /// The number of words of the whole table.
    pub fn words(self) -> usize
        requires { IsLayout self }
        ensures { result ≡ table_words self }
    {
        HEAD_WORDS + self.buckets + self.arena
    }

    /// The place of the bucket of a hash.
    pub fn bucket(self, hash: u32) -> usize
        requires { IsLayout self }
        ensures { result ≡ bucket_at self hash }
    {
        HEAD_WORDS + hash as usize % self.buckets
    }
}
