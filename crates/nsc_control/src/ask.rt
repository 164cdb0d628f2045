// `AdminAsk`: the control requests GETSTAT, INVALIDATE and SHUTDOWN, as bytes.
ghost use Rattle.std.specs.Prelude.{◌≡◌, IfOk};
ghost use Rattle.nsc_control.specs.Asks.{key_of, request_for, type_of};

use nsc_base::{Bytes, NoMemory};
use nsc_model::Db;
use std::alloc::Global;

/// What a daemon is asked.
#[derive(Clone, Copy, Debug, PartialEq, Eq)]
pub enum AdminAsk {
    /// To tell its counts.
    Stat,
    /// To empty a database.
    Invalidate {
        /// The database.
        db: Db,
    },
    /// To end.
    Shutdown,
}

impl AdminAsk {
    // The type of its request.
    fn number(self) -> u8
        ensures { result ≡ type_of self }
    {
        match self {
            AdminAsk::Shutdown => 8,
            AdminAsk::Stat => 9,
            AdminAsk::Invalidate { .. } => 10,
        }
    }

    // The key of its request: the name of the database and a zero byte, or nothing.
    fn key(self) -> &'static [u8]
        ensures { result.now ≡ key_of self }
    {
        match self {
            AdminAsk::Shutdown | AdminAsk::Stat => b"",
            AdminAsk::Invalidate { db: Db::Passwd } => b"passwd\0",
            AdminAsk::Invalidate { db: Db::Group } => b"group\0",
            AdminAsk::Invalidate { db: Db::Hosts } => b"hosts\0",
            AdminAsk::Invalidate { db: Db::Services } => b"services\0",
        }
    }

    // The bytes of its request: the version 2, its type and the length of its key, in four bytes each, and the key. Fails
    // only for want of memory.
    pub(crate) fn request(self, alloc: Global) -> Result<Bytes, NoMemory>
        ensures { IfOk result (λ bytes. bytes ≡ request_for self) }
    {
        let key = self.key();
        let mut bytes = Vec::new(alloc);
        bytes.extend_from_slice(&[2, 0, 0, 0, self.number(), 0, 0, 0])?;
        bytes.extend_from_slice(&[key.len() as u8, 0, 0, 0])?;
        bytes.extend_from_slice(key)?;
        Ok(Bytes::from_vec(bytes))
    }
}
