// `Halt`: why no frame was read, and the exit that follows.
ghost use Rattle.std.specs.Prelude.{◌≡◌};
ghost use Rattle.nsc_replay.specs.declared.halt.Halt.TheVariants.{ReadFault, NoMemory as Memory};

use nsc_base::NoMemory;
use nsc_model::Exit;
use nsc_outside::Failed;
use std::alloc::{AllocError, AllocFailed};

/// Why no frame was read.
#[derive(Clone, Copy, Debug, PartialEq, Eq)]
pub enum Halt {
    /// The input ended inside a frame, or where one should begin.
    Ended,
    /// The bytes begin no frame, whatever follows.
    NoFrame,
    /// A file is announced that is longer than a file may be.
    LongFile {
        /// The length that is announced, in bytes.
        length: u64,
    },
    /// The input failed.
    ReadFault,
    /// Memory was short.
    NoMemory,
}

impl Halt {
    ghost use Rattle.std.specs.Prelude.{◌≡◌};
    ghost use Rattle.nsc_replay.specs.Reading.{halt_exit};

    /// The exit where no frame was read at this place of the input.
    pub fn at(self, place: u64) -> Exit
        ensures { result ≡ halt_exit place self }
    {
        match self {
            Halt::Ended | Halt::NoFrame => Exit::BadFrame { offset: place },
            Halt::LongFile { length } => Exit::TooLong { length },
            Halt::ReadFault => Exit::ReadFault,
            Halt::NoMemory => Exit::NoMemory,
        }
    }
}

impl From<Failed> for Halt {
    ghost from_gives = { λ _ halt. halt ≡ ReadFault };

    fn from(_e: Failed) -> Halt {
        Halt::ReadFault
    }
}

impl From<NoMemory> for Halt {
    ghost from_gives = { λ _ halt. halt ≡ Memory };

    fn from(_e: NoMemory) -> Halt {
        Halt::NoMemory
    }
}

impl From<AllocError> for Halt {
    ghost from_gives = { λ _ halt. halt ≡ Memory };

    fn from(_e: AllocError) -> Halt {
        Halt::NoMemory
    }
}

impl<T: Drop> From<AllocFailed<T>> for Halt {
    ghost from_gives = { λ _ halt. halt ≡ Memory };

    fn from(_e: AllocFailed<T>) -> Halt {
        Halt::NoMemory
    }
}
