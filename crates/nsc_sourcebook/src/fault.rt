// `PollFault`: why the files of a database gave no version.
ghost use Rattle.std.specs.Prelude.{◌≡◌};
ghost use Rattle.nsc_sourcebook.specs.Faults.{fault_of, lookup_fault};
ghost use Rattle.nsc_sourcebook.specs.declared.fault.PollFault.TheVariants.{NoMemory as Memory};

use nsc_base::NoMemory;
use nsc_model::{FileId, LookupFault};
use nsc_outside::ReadCause;
use std::alloc::{AllocError, AllocFailed};
use thiserror::Error;

/// Why a database's files gave no version.
#[derive(Clone, Copy, Debug, PartialEq, Eq, Error)]
pub enum PollFault {
    /// Memory was short.
    #[error("out of memory")]
    NoMemory,
    /// A file is there, or may be, and could not be read.
    #[error("a file could not be read")]
    SourceFault {
        /// The file.
        file: FileId,
    },
    /// A file is longer than 16,777,216 bytes.
    #[error("a file of {length} bytes is too long")]
    TooLong {
        /// The file.
        file: FileId,
        /// The length in bytes, as far as it is known: above 16,777,216.
        length: u64,
    },
}

impl PollFault {
    // The fault of a read of this file.
    pub(crate) fn of(file: FileId, cause: ReadCause) -> PollFault
        ensures { result ≡ fault_of file cause }
    {
        match cause {
            ReadCause::NoMemory => PollFault::NoMemory,
            ReadCause::Failed => PollFault::SourceFault { file },
            ReadCause::TooLong { length } => PollFault::TooLong { file, length },
        }
    }
}

impl From<NoMemory> for PollFault {
    ghost from_gives = { λ _ fault. fault ≡ Memory };

    fn from(_e: NoMemory) -> PollFault {
        PollFault::NoMemory
    }
}

impl From<AllocError> for PollFault {
    ghost from_gives = { λ _ fault. fault ≡ Memory };

    fn from(_e: AllocError) -> PollFault {
        PollFault::NoMemory
    }
}

impl<T: Drop> From<AllocFailed<T>> for PollFault {
    ghost from_gives = { λ _ fault. fault ≡ Memory };

    fn from(_e: AllocFailed<T>) -> PollFault {
        PollFault::NoMemory
    }
}

impl From<PollFault> for LookupFault {
    ghost from_gives = { λ poll fault. fault ≡ lookup_fault poll };

    fn from(e: PollFault) -> LookupFault {
        match e {
            PollFault::NoMemory => LookupFault::NoMemory,
            PollFault::SourceFault { file } => LookupFault::SourceFault { file },
            PollFault::TooLong { file, length } => LookupFault::TooLong { file, length },
        }
    }
}
