// `Entry` and `Record`: an entry of a cache, and a record of a database's history.
use crate::answer::{Answer, Request};
use crate::content::Content;
use std::marker::Model;

/// Why an entry of a cache ended.
#[derive(Clone, Copy, Debug, PartialEq, Eq)]
pub enum Ending {
    /// Its time was over at this moment, in seconds.
    Expired {
        /// The moment.
        now: u64,
    },
    /// Its whole database was invalidated.
    Invalidated,
    /// Its time was over, and it was to be loaded anew.
    Replaced,
}

/// What never changes of an entry of a cache. Its key has at most 1,024 bytes, and its reply at most 65,536.
#[derive(Debug, Drop)]
pub struct Entry {
    number: u64,
    request: Request,
    version: u64,
    answer: Answer,
    timeout: u64,
}

impl Model for Entry {
    ghost use Rattle.std.specs.Prelude.{◌≤◌, length};
    ghost use Rattle.nsc_model.specs.Entry.{Entry, key_limit, kept_limit};

    ghost Value = { Entry };

    ghost view = { λ e. record { number = e.number; request = e.request; version = e.version; answer = e.answer; timeout = e.timeout } };

    ghost invariant = { λ e. (length e.request.key ≤ key_limit) × (length e.answer.bytes ≤ kept_limit) };
}

impl Entry {
    ghost use Rattle.std.specs.Prelude.{◌≡◌, ◌≤◌, length};
    ghost use Rattle.nsc_model.specs.Entry.{key_limit, kept_limit};

    /// The entry of these parts: its number in its database, the request that it answers, the source version
    /// that the answer was made over, the answer, and the last moment, in seconds, at which it is not yet
    /// over.
    pub fn new(number: u64, request: Request, version: u64, answer: Answer, timeout: u64) -> Entry
        requires key { length request.key ≤ key_limit }
        requires reply { length answer.bytes ≤ kept_limit }
        ensures { result ≡ record { number = number; request = request; version = version; answer = answer; timeout = timeout } }
    {
        Entry {
            number,
            request,
            version,
            answer,
            timeout,
        }
    }

    /// The number of the entry: entries of a database are counted from 0.
    pub fn number(&self) -> u64
        ensures { result ≡ self.now.number }
    {
        self.number
    }

    /// The request that it answers; its key has at most 1,024 bytes.
    pub fn request(&self) -> &Request
        ensures value { result.now ≡ self.now.request }
        ensures bound { length result.now.key ≤ key_limit }
    {
        &self.request
    }

    /// The source version that its answer was made over.
    pub fn version(&self) -> u64
        ensures { result ≡ self.now.version }
    {
        self.version
    }

    /// Its answer, of at most 65,536 bytes.
    pub fn answer(&self) -> &Answer
        ensures value { result.now ≡ self.now.answer }
        ensures bound { length result.now.bytes ≤ kept_limit }
    {
        &self.answer
    }

    /// The last moment, in seconds, at which it is not yet over.
    pub fn timeout(&self) -> u64
        ensures { result ≡ self.now.timeout }
    {
        self.timeout
    }
}

/// One record of a database's history. Histories are lists of records, the newest first.
#[derive(Debug, Drop)]
pub enum Record {
    /// The sources became this content, which is the version of this number.
    Change {
        /// The version's number, from 0.
        version: u64,
        /// What the files held.
        content: Content,
    },
    /// The sources were looked at, and still are this version.
    Poll {
        /// The newest version's number.
        version: u64,
    },
    /// An entry was inserted.
    Load {
        /// The entry.
        entry: Entry,
    },
    /// An entry ended.
    End {
        /// The entry's number.
        number: u64,
        /// Why it ended.
        cause: Ending,
    },
    /// The database was invalidated.
    Invalid {
        /// The number of the invalidation, from 1.
        epoch: u64,
    },
}
