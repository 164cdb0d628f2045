/// What a search without a lock answers.
#[derive(Clone, Copy, Debug, PartialEq, Eq)]
pub enum InPlace {
    /// A usable entry answers. Its reply is in the buffer.
    Hit {
        /// The number of its insertion.
        number: u64,
        /// The version that its answer was made over.
        version: u64,
        /// Whether its reply is a not-found reply.
        not_found: bool,
    },
    /// A compaction was under way when the search began.
    Odd {
        /// What CYCLE was.
        cycle: u64,
    },
    /// A compaction began while the search went on.
    Moved {
        /// What CYCLE was when the search began.
        from: u64,
        /// What it was when the search ended.
        to: u64,
    },
    /// No entry answers.
    NoEntry,
}

/// What a search without a lock answers that looks at the count of reloads too.
#[derive(Clone, Copy, Debug, PartialEq, Eq)]
pub struct Sought {
    /// What it answers.
    pub answer: InPlace,
    /// Whether the entry that answers was loaded again since it was used last, so a lookup has to set its count of reloads back. Nothing
    /// is promised of it.
    pub is_reloaded: bool,
}
