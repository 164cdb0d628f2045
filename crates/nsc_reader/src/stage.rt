// How far a search has come.
use nsc_model::InPlace;

/// Which word a search loads next. A place is that of the node where it stands.
#[derive(Clone, Copy, Debug, PartialEq, Eq)]
pub enum Stage {
    /// The word of its bucket.
    Bucket {
        /// The place of that word.
        bucket: usize,
    },
    /// The first word of the node's key. It comes before the others: it stands beside NEXT, so a node of another key is read in one place.
    FirstWord {
        /// The place.
        place: usize,
    },
    /// SHAPE.
    Shape {
        /// The place.
        place: usize,
        /// How many words of the key were compared, and are the request's.
        compared: usize,
    },
    /// The next word of the key.
    KeyWord {
        /// The place.
        place: usize,
        /// How many words of the key were compared, and are the request's.
        compared: usize,
    },
    /// STATE. The node has the kind and the key.
    State {
        /// The place.
        place: usize,
    },
    /// NEXT. The node is another request's, or ended.
    Next {
        /// The place.
        place: usize,
    },
    /// SIZE. The node is usable.
    Size {
        /// The place.
        place: usize,
    },
    /// NUMBER.
    Number {
        /// The place.
        place: usize,
        /// Its SIZE.
        size: u64,
    },
    /// VERSION.
    Version {
        /// The place.
        place: usize,
        /// Its SIZE.
        size: u64,
        /// Its NUMBER.
        number: u64,
    },
    /// The next word of the reply.
    Reply {
        /// The place.
        place: usize,
        /// Its SIZE.
        size: u64,
        /// Its NUMBER.
        number: u64,
        /// Its VERSION.
        version: u64,
        /// How many words of the reply were copied.
        copied: usize,
    },
    /// CYCLE, for the last time.
    Last {
        /// What it answers, if CYCLE is still what it was.
        answer: InPlace,
    },
}

/// What has become of a search.
#[derive(Clone, Copy, Debug, PartialEq, Eq)]
pub enum Progress {
    /// It has taken no step.
    New,
    /// It is under way.
    Under {
        /// What CYCLE was at its first step.
        first: u64,
        /// What comes next.
        stage: Stage,
    },
    /// It has answered.
    Answered {
        /// The answer.
        answer: InPlace,
    },
}
