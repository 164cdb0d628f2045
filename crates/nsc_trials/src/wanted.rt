// `Wanted`: whether a lookup's reply is to come from an entry or from a new answer.
use nsc_base::{Bytes, equal};
use nsc_model::{Given, LookupFault, Why};

/// Where a reply is to come from.
#[derive(Clone, Copy, Debug, PartialEq, Eq)]
pub enum Wanted {
    /// From the live entry of this number.
    Hit(u64),
    /// It was made anew, and inserted with this number.
    Loaded(u64),
    /// It was made anew, and is not kept, since the database was invalidated meanwhile: the number of
    /// invalidations before the files were read, and by the insertion.
    Discarded(u64, u64),
    /// It was made anew, and is not kept, for want of room: the number of words that it needs, and of free words.
    Full(u64, u64),
}

impl Wanted {
    /// Whether a lookup gave this, with these bytes.
    pub fn is(self, given: &Result<Given, LookupFault>, reply: &[u8]) -> bool {
        match (self, given) {
            (Wanted::Hit(want), Ok(Given::Hit { bytes, number })) => {
                want == *number && equal(bytes.as_slice(), reply)
            }
            (Wanted::Loaded(want), Ok(Given::Loaded { bytes, number })) => {
                want == *number && equal(bytes.as_slice(), reply)
            }
            (Wanted::Discarded(loaded, epoch), Ok(Given::Fresh { bytes, why })) => {
                *why == Why::Discarded { loaded, epoch } && equal(bytes.as_slice(), reply)
            }
            (Wanted::Full(need, free), Ok(Given::Fresh { bytes, why })) => {
                *why == Why::Full { need, free } && equal(bytes.as_slice(), reply)
            }
            _ => false,
        }
    }
}

/// The reply that a lookup gave, and whether it is that of an entry which was live before.
pub fn reply_of(given: &Given) -> (&Bytes, bool) {
    match given {
        Given::Hit { bytes, .. } => (bytes, true),
        Given::Loaded { bytes, .. } => (bytes, false),
        Given::Fresh { bytes, .. } => (bytes, false),
    }
}
