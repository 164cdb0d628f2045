// `Asked`: the users that the trials ask for, their requests and the right replies.
ghost use Rattle.std.specs.Prelude.{◌≡◌, ◌≤◌, length};
ghost use Rattle.nsc_model.specs.declared.kind.Db.TheVariants as db;
ghost use Rattle.nsc_model.specs.Entry.{key_limit};
ghost use Rattle.nsc_model.specs.Kinds.{database_of};

use crate::texts;
use nsc_caller::Caller;
use nsc_model::{Given, Kind, LookupFault, Store};
use std::sync::Wait;

/// Whom the trials ask for.
#[derive(Clone, Copy, Debug, PartialEq, Eq)]
pub enum Asked {
    /// Root, by name.
    Root,
    /// Root, by id.
    RootId,
    /// Ann, by name.
    Ann,
    /// Ann, by the id that she has first.
    AnnId,
    /// Ann, by the id that she has later.
    MovedId,
    /// A user who is in no file.
    Nobody,
}

impl Asked {
    /// Each of them.
    pub const ALL: [Asked; 6] = [
        Asked::Root,
        Asked::RootId,
        Asked::Ann,
        Asked::AnnId,
        Asked::MovedId,
        Asked::Nobody,
    ];

    /// The kind of the request.
    pub fn kind(self) -> Kind
        ensures { database_of result ≡ db.Passwd }
    {
        match self {
            Asked::Root | Asked::Ann | Asked::Nobody => Kind::PwName,
            Asked::RootId | Asked::AnnId | Asked::MovedId => Kind::PwUid,
        }
    }

    /// Its key.
    pub fn key(self) -> &'static [u8]
        ensures { length result.now ≤ key_limit }
    {
        match self {
            Asked::Root => b"root",
            Asked::RootId => b"0",
            Asked::Ann => b"ann",
            Asked::AnnId => b"1000",
            Asked::MovedId => b"1001",
            Asked::Nobody => b"nobody1",
        }
    }

    /// Looks the user up at this moment, in seconds.
    pub fn find<S: Store, R: Wait>(
        self,
        caller: &mut Caller<'_, '_, S, R>,
        now: u32,
    ) -> Result<Given, LookupFault> {
        caller.find(self.kind(), self.key(), now)
    }

    /// Looks the user up at this moment through another pass, which is met then.
    pub fn find_and_meet<S: Store, R: Wait>(
        self,
        caller: &mut Caller<'_, '_, S, R>,
        now: u32,
    ) -> Result<Given, LookupFault> {
        caller.find_and_meet(self.kind(), self.key(), now)
    }

    /// The reply over the first of the two files of two users.
    pub fn first_reply(self) -> &'static [u8] {
        match self {
            Asked::Root | Asked::RootId => texts::ROOT_BASH,
            Asked::Ann | Asked::AnnId => texts::ANN,
            Asked::MovedId | Asked::Nobody => texts::ABSENT,
        }
    }

    /// The reply over the second of them.
    pub fn second_reply(self) -> &'static [u8] {
        match self {
            Asked::Root | Asked::RootId => texts::ROOT_SH,
            Asked::Ann | Asked::MovedId => texts::ANN_MOVED,
            Asked::AnnId | Asked::Nobody => texts::ABSENT,
        }
    }
}
