// `ReplyFault`: why a reply could not be read back.
ghost use Rattle.std.specs.Prelude.{◌≡◌};
ghost use Rattle.nsc_wire.specs.declared.fault.Broken.TheVariants.{NoMemory as Memory};

use nsc_base::NoMemory;
use std::alloc::{AllocError, AllocFailed};
use thiserror::Error;

/// Why a reply could not be read back.
#[derive(Clone, Copy, Debug, PartialEq, Eq, Error)]
pub enum ReplyFault {
    /// Memory was short.
    #[error("out of memory")]
    NoMemory,
    /// The bytes are no reply of the kind.
    #[error("a reply is at fault at byte {at}")]
    BadReply {
        /// The place of the first field or text that breaks the layout; how many bytes there are where they end early; or the
        /// place of the first byte that is too many.
        at: usize,
    },
}

// Why the readers of fields, texts and rows gave up.
#[derive(Clone, Copy, Debug, PartialEq, Eq)]
pub(crate) enum Broken {
    // Memory was short.
    NoMemory,
    // The layout is broken; this number of bytes is left there.
    Left(usize),
}

impl From<NoMemory> for Broken {
    ghost from_gives = { λ _ broken. broken ≡ Memory };

    fn from(_e: NoMemory) -> Broken {
        Broken::NoMemory
    }
}

impl From<AllocError> for Broken {
    ghost from_gives = { λ _ broken. broken ≡ Memory };

    fn from(_e: AllocError) -> Broken {
        Broken::NoMemory
    }
}

impl<T: Drop> From<AllocFailed<T>> for Broken {
    ghost from_gives = { λ _ broken. broken ≡ Memory };

    fn from(_e: AllocFailed<T>) -> Broken {
        Broken::NoMemory
    }
}
