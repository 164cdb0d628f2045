// `Served`: what came of one connection.
use nsc_base::NoMemory;
use nsc_model::{CacheFault, FileId, LookupFault};

/// What came of one connection.
#[derive(Clone, Copy, Debug, PartialEq, Eq)]
pub enum Served {
    /// The whole reply was written.
    Replied,
    /// The whole reply to SHUTDOWN was written.
    ShutDown,
    /// The connection is closed without a reply, and nothing was written.
    Closed(Closing),
    /// The input ended before the request did, and nothing was written.
    Ended {
        /// After how many bytes it ended.
        have: usize,
    },
    /// The input failed, and nothing was written.
    ReadFault,
    /// The output failed. A front of the reply may be written.
    WriteFault,
    /// A file is there, or may be, and could not be read. Nothing was written.
    SourceFault {
        /// The file.
        file: FileId,
    },
    /// A file is longer than 16,777,216 bytes. Nothing was written.
    TooLong {
        /// The file.
        file: FileId,
        /// The length in bytes, as far as it is known.
        length: u64,
    },
    /// A count that the request needs stands at its end. Nothing was written.
    Spent {
        /// The count, 2^62.
        count: u64,
    },
    /// Memory was short. Nothing was written.
    NoMemory,
}

/// Why a connection is closed without a reply.
#[derive(Clone, Copy, Debug, PartialEq, Eq)]
pub enum Closing {
    /// It is of another version than 2.
    BadVersion(i32),
    /// Its type is below 0 or above 21.
    BadType(i32),
    /// The length of its key is below 0 or above 1,024.
    BadLength(i32),
    /// It asks for the descriptor of a database's memory.
    Descriptor,
    /// It asks of the netgroups, which are not cached.
    Netgroup,
    /// Its database is left; or only found entries are told of it, and further services may be asked though one is found.
    Left,
    /// No entry was found, and only found ones are told of its database.
    NotFound,
    /// It controls the daemon, and came on a socket where only lookups may be asked.
    RoleDenied,
}

impl From<LookupFault> for Served {
    ghost use Rattle.std.specs.Prelude.{◌≡◌};
    ghost use Rattle.nsc_server.specs.Outcomes.{served_by};

    ghost from_gives = { λ fault served. served ≡ served_by fault };

    fn from(fault: LookupFault) -> Served {
        match fault {
            LookupFault::NoMemory => Served::NoMemory,
            LookupFault::Spent { count } => Served::Spent { count },
            LookupFault::SourceFault { file } => Served::SourceFault { file },
            LookupFault::TooLong { file, length } => Served::TooLong { file, length },
        }
    }
}

impl From<CacheFault> for Served {
    ghost use Rattle.std.specs.Prelude.{◌≡◌};
    ghost use Rattle.nsc_server.specs.Outcomes.{served_after};

    ghost from_gives = { λ fault served. served ≡ served_after fault };

    fn from(fault: CacheFault) -> Served {
        match fault {
            CacheFault::NoMemory => Served::NoMemory,
            CacheFault::Spent { count } => Served::Spent { count },
        }
    }
}

impl From<NoMemory> for Served {
    ghost use Rattle.std.specs.Prelude.{◌≡◌};
    ghost use Rattle.nsc_server.specs.declared.served.Served.TheVariants.{NoMemory as Memory};

    ghost from_gives = { λ _ served. served ≡ Memory };

    fn from(_e: NoMemory) -> Served {
        Served::NoMemory
    }
}
