// Nodes that are found by numbers, one after the other.
ghost use Rattle.std.specs.Prelude.{◌≡◌, List};
ghost use Rattle.nsc_words.specs.declared.node.Placed.{Placed};
ghost use Rattle.nsc_words.specs.Laid.{Laid};
ghost use Rattle.nsc_words.specs.Layout.{IsLayout, arena_start};
ghost use Rattle.nsc_arena.specs.Changes.{IsMark};
ghost use Rattle.nsc_shelf.specs.Finding.{IsOldest};

use nsc_arena::{Head, Words, first_from, head_at};
use nsc_words::Layout;

/// The place of a node, and a number that the nodes before it have not reached.
#[derive(Clone, Copy, Debug, PartialEq, Eq)]
pub struct Mark {
    /// The place.
    pub place: usize,
    /// The number.
    pub number: u64,
}

/// A node that was found.
#[derive(Clone, Copy, Debug, PartialEq, Eq)]
pub struct Found {
    /// Its place.
    pub at: usize,
    /// What is read of it, but for its key and its reply.
    pub head: Head,
}

impl Mark {
    /// The mark of the oldest node.
    pub fn start(map: Layout) -> Mark
        requires { IsLayout map }
        ensures { result ≡ record { place = arena_start map; number = 0 } }
    {
        Mark {
            place: map.arena_start(),
            number: 0,
        }
    }

    // Where a search for a number begins.
    fn start_for(self, map: Layout, number: u64) -> usize
        requires { IsLayout map }
        ensures { (nodes : List Placed) → IsMark map nodes self.place self.number → IsMark map nodes result number }
    {
        if self.number <= number {
            self.place
        } else {
            map.arena_start()
        }
    }
}

/// The oldest usable node of at least this number, which then is marked. The search begins at the mark where that is not behind the
/// number, so that one who asks by rising numbers goes over the nodes once.
pub fn find_from<W: Words>(
    words: &mut W,
    map: Layout,
    mark: &mut Mark,
    number: u64,
) -> Option<Found>
    requires layout { IsLayout map }
    requires laid { (nodes : List Placed) × Laid (W.words words.old) map nodes × IsMark map nodes mark.old.place mark.old.number }
    ensures same { W.words words.new ≡ W.words words.old }
    ensures rest { W.rest words.new ≡ W.rest words.old }
    ensures found { (nodes : List Placed) → Laid (W.words words.old) map nodes → IsMark map nodes mark.old.place mark.old.number → IsOldest number nodes result }
    ensures marked { (nodes : List Placed) → Laid (W.words words.old) map nodes → IsMark map nodes mark.old.place mark.old.number → IsMark map nodes mark.new.place mark.new.number }
{
    let from = mark.start_for(map, number);
    let Some(at) = first_from(words, map, from, number) else {
        return None;
    };
    let head = head_at(words, at);
    *mark = Mark {
        place: at,
        number: head.number,
    };
    Some(Found { at, head })
}
