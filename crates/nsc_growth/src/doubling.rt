// `Doubling`: the next layout of a table that grows, within a limit in bytes.
ghost use Rattle.std.specs.Prelude.{◌≡◌, ◌+◌, ◌<◌, ◌≤◌, ◌^◌, ◌↔◌, IsTrue};
ghost use Rattle.nsc_words.specs.Layout.{IsLayout};
ghost use Rattle.nsc_growth.specs.Doubled.{Fits, IsNext, doubled};

use nsc_words::{HEAD_WORDS, Layout};
use std::marker::Model;

// Entries take at most `MOST_WORDS` words of eight bytes, which are 64 MiB.
const MOST_WORDS: usize = 8_388_608;

/// Growth by doubling, both of the buckets and of the words that entries may take, as long as a table takes at most `limit` bytes.
#[derive(Clone, Copy, Debug)]
pub struct Doubling {
    limit: u32,
}

impl Model for Doubling {
    ghost use Rattle.std.specs.Prelude.{ℕ};

    ghost Value = { ℕ };

    ghost view = { λ d. d.limit };

    ghost inverse = { λ n. record { limit = n } };
}

impl Doubling {
    /// Growth up to `limit` bytes.
    pub fn new(limit: u32) -> Doubling
        ensures { result ≡ limit }
    {
        Doubling { limit }
    }

    /// The layout to go on with where entries need more words than are left beside the live ones: the first that has room for both.
    /// `None` where no larger table may have it. It takes no memory.
    pub fn next(&self, layout: Layout, live: u64, need: u64) -> Option<Layout>
        requires sizes { IsLayout layout }
        ensures { IsNext self.now layout (live + need) result }
    {
        let wanted = live.checked_add(need)?;
        let mut larger = twice(layout);
        'doublings: while self.allows(larger) {
            if wanted <= larger.arena as u64 {
                return Some(larger);
            }
            larger = twice(larger);
        }
        None
    }

    // Whether a table may be laid out so.
    fn allows(&self, layout: Layout) -> bool
        requires buckets { layout.buckets ≤ 2 ^ 30 }
        requires arena { layout.arena ≤ 2 ^ 24 }
        ensures allowed { IsTrue result ↔ Fits self.now layout }
        ensures buckets { IsTrue result → layout.buckets ≤ 2 ^ 29 }
    {
        let words = HEAD_WORDS + layout.buckets + layout.arena;
        words * 8 <= self.limit as usize && layout.arena <= MOST_WORDS
    }
}

// Twice the buckets, and twice the words that entries may take.
fn twice(layout: Layout) -> Layout
    requires buckets { layout.buckets ≤ 2 ^ 29 }
    requires arena { layout.arena ≤ 2 ^ 23 }
    ensures { result ≡ doubled 1 layout }
{
    Layout {
        buckets: layout.buckets * 2,
        arena: layout.arena * 2,
    }
}
