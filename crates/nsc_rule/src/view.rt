// What the seats at the words know.
use crate::map::Map;
use atomic_table::Seat;
use nsc_model::{Content, Ending, Entry, Record, Request};
use nsc_words::{Layout, Placed};
use std::collections::LinkedList;
use std::marker::Model;
use std::snapshot::Snapshot;

/// Which table goes on in place of another one. No value of it is made.
pub struct Successor {
    seat: Snapshot<Seat<(), ()>>,
}

impl Model for Successor {
    ghost use Rattle.atomic_table.specs.Seated.{TableId, table_id_coded};

    ghost Value = { TableId };

    ghost coded = { table_id_coded };

    ghost view = { λ s. s.seat.value.table_id };
}

/// What the seat that writes knows: the table itself. No value of it is made.
pub struct Plan {
    /// How the words are laid out.
    pub layout: Layout,
    /// The history, the newest record first.
    pub seen: LinkedList<Record>,
    /// All words.
    pub words: [u64; 0],
    /// The nodes, the newest first. While a compaction is under way, those before it.
    pub nodes: LinkedList<Placed>,
    /// Whether FIRST_FREE and LOADS count the newest node too: no insertion is under way.
    pub counted: bool,
    /// Which table goes on in place of this one, once one does.
    pub retired: Option<Successor>,
}

/// How far the search of a seat that reads has come. No value of it is made.
pub struct Search {
    /// How many words it has loaded for searches.
    pub steps: u64,
    /// How many searches it has begun.
    pub searches: u64,
    /// What CYCLE was when the latest search began.
    pub first: u64,
    /// What CYCLE was at the end of the latest search, or at its beginning until it has come to its end.
    pub last: u64,
    /// The history when the search began.
    pub began: LinkedList<Record>,
    /// What is searched for.
    pub request: Request,
    /// What CYCLE has been at least: what it was at the latest step of a search, or when the history was shown last.
    pub known: u64,
    /// Where it stands: a node's place, 0 at the end of a chain, or the end of the words where it begins.
    pub place: u64,
    /// The entry of the node on which it stands.
    pub on: Option<Entry>,
    /// Whether that entry was found ended.
    pub gone: bool,
}

/// What a seat knows, and what it was told that another seat has seen. No value of it is made.
pub enum View {
    /// The seat that writes.
    Writes {
        /// What it knows.
        plan: Plan,
        /// What it was told of.
        told: LinkedList<Record>,
        /// The table that, as it was told, goes on in place of this one.
        over: Option<Successor>,
    },
    /// A seat that reads.
    Reads {
        /// The history, as far as it has seen it.
        seen: LinkedList<Record>,
        /// What it was told of.
        told: LinkedList<Record>,
        /// The table that, as it was told, goes on in place of this one.
        over: Option<Successor>,
        /// Which table it has seen goes on in place of this one.
        retired: Option<Successor>,
        /// Its search.
        searching: Search,
    },
}

/// What the table is told once, when it is made.
#[derive(Drop)]
pub struct About {
    /// How the words are laid out.
    pub layout: Layout,
    /// From what it goes on.
    pub origin: Origin,
}

/// From what a table goes on.
#[derive(Drop)]
pub enum Origin {
    /// From a content, which is version 0.
    Fresh(Snapshot<Content>),
    /// From what the pen of another table knows, in place of which this one goes on.
    After(Snapshot<Seat<(), View>>),
}

/// How a step of the pen changes its plan, beside the word that it writes.
#[derive(Drop)]
pub enum Stroke {
    /// Nothing more.
    Plain,
    /// The node at this place has the word as its count of reloads.
    Reloads {
        /// The place.
        place: usize,
    },
    /// The node at the place that the word names is linked, and its entry inserted.
    Publish,
    /// The newest node is counted: its insertion is over.
    Counted,
    /// The node at this place ends.
    End {
        /// The place.
        place: usize,
        /// Why it ends.
        cause: Ending,
    },
    /// A compaction is over.
    Even,
    /// The database is invalidated, as often as the word says.
    Invalid,
    /// The version that the word names is confirmed.
    Poll,
    /// The files have this content, which is the version that the word names.
    Change {
        /// The content.
        content: Snapshot<Content>,
    },
    /// Another table goes on in place of this one.
    Retire {
        /// That table.
        newer: Snapshot<Map>,
    },
}
