// `CacheFault`: why a call of a cache, or an invalidation, gave up.
ghost use Rattle.std.specs.Prelude.{◌≡◌};
ghost use Rattle.nsc_model.specs.declared.fault.CacheFault.TheVariants.{NoMemory as Memory};

use nsc_base::NoMemory;
use std::alloc::{AllocError, AllocFailed};
use thiserror::Error;

/// Why a call of a cache, or an invalidation of a database, gave up.
#[derive(Clone, Copy, Debug, PartialEq, Eq, Error)]
pub enum CacheFault {
    /// Memory was short.
    #[error("out of memory")]
    NoMemory,
    /// A count that the call needs stands at its end: that of the versions, and nothing changed; that of the invalidations, and a
    /// poll was made at most; or that of the compactions, and the entries are ended that the call ends, but their words are not free.
    #[error("a count stands at {count}")]
    Spent {
        /// The count, 2^62.
        count: u64,
    },
}

impl From<NoMemory> for CacheFault {
    ghost from_gives = { λ _ fault. fault ≡ Memory };

    fn from(_e: NoMemory) -> CacheFault {
        CacheFault::NoMemory
    }
}

impl From<AllocError> for CacheFault {
    ghost from_gives = { λ _ fault. fault ≡ Memory };

    fn from(_e: AllocError) -> CacheFault {
        CacheFault::NoMemory
    }
}

impl<T: Drop> From<AllocFailed<T>> for CacheFault {
    ghost from_gives = { λ _ fault. fault ≡ Memory };

    fn from(_e: AllocFailed<T>) -> CacheFault {
        CacheFault::NoMemory
    }
}
