// `Loaded` and `Inserted`: an answer to be inserted, and what became of an insertion.
ghost use Rattle.std.specs.Prelude.{◌≡◌, ◌≤◌, ◌^◌, length};
ghost use Rattle.nsc_model.specs.Entry.{key_limit};

use nsc_base::Bytes;
use nsc_model::{Answer, Kind};
use std::marker::Model;

/// A version that was looked at, and how many invalidations there were when its files were about to be read.
#[derive(Clone, Copy, Debug, PartialEq, Eq)]
pub struct Stamp {
    /// The version.
    pub version: u64,
    /// The number of invalidations, from 0.
    pub epoch: u64,
}

/// What is to be inserted: a request, whose key has at most 1,024 bytes, with its answer over a version, until its time is over.
#[derive(Drop)]
pub struct Loaded {
    kind: Kind,
    key: Bytes,
    answer: Answer,
    stamp: Stamp,
    timeout: u64,
    reloads: u64,
}

impl Model for Loaded {
    ghost use Rattle.std.specs.Prelude.{◌≤◌, length};
    ghost use Rattle.nsc_model.specs.Entry.{key_limit};
    ghost use Rattle.nsc_writer.specs.Loaded.{Loaded};

    ghost Value = { Loaded };

    ghost view = { λ l. record { request = record { kind = l.kind; key = l.key }; answer = l.answer; stamp = l.stamp; timeout = l.timeout; reloads = l.reloads } };

    ghost invariant = { λ l. length l.key ≤ key_limit };
}

impl Loaded {
    /// The request of this kind and key, whose answer is this one over the version of the stamp. Its entry ends after the
    /// moment `timeout`, in seconds, and counts `reloads` reloads without a use.
    pub fn new(
        kind: Kind,
        key: Bytes,
        answer: Answer,
        stamp: Stamp,
        timeout: u64,
        reloads: u64,
    ) -> Loaded
        requires { length key ≤ key_limit }
        ensures { result ≡ record { request = record { kind = kind; key = key }; answer = answer; stamp = stamp; timeout = timeout; reloads = reloads } }
    {
        Loaded {
            kind,
            key,
            answer,
            stamp,
            timeout,
            reloads,
        }
    }

    /// The kind of the request.
    pub fn kind(&self) -> Kind
        ensures { result ≡ self.now.request.kind }
    {
        self.kind
    }

    /// The key of the request, at most 1,024 bytes.
    pub fn key(&self) -> &[u8]
        ensures value { result.now ≡ self.now.request.key }
        ensures bound { length result.now ≤ key_limit }
    {
        self.key.as_slice()
    }

    /// The answer.
    pub fn answer(&self) -> &Answer
        ensures { result.now ≡ self.now.answer }
    {
        &self.answer
    }

    /// The reply bytes of the answer.
    pub fn into_reply(self) -> Bytes
        ensures { result ≡ self.answer.bytes }
    {
        self.answer.into_bytes()
    }

    /// The version that the answer was made over.
    pub fn stamp(&self) -> Stamp
        ensures { result ≡ self.now.stamp }
    {
        self.stamp
    }

    /// The last moment, in seconds, at which its entry is not yet over.
    pub fn timeout(&self) -> u64
        ensures { result ≡ self.now.timeout }
    {
        self.timeout
    }

    /// How many reloads without a use its entry counts.
    pub fn reloads(&self) -> u64
        ensures { result ≡ self.now.reloads }
    {
        self.reloads
    }
}

/// What became of an insertion.
#[derive(Clone, Copy, Debug, PartialEq, Eq)]
pub enum Inserted {
    /// The entry was inserted.
    Done {
        /// Its number.
        number: u64,
    },
    /// The reply is too long to be kept.
    TooLarge {
        /// Its length in bytes, above 65,536.
        length: u64,
    },
    /// The database was invalidated after the insertion noted its invalidations.
    Discarded {
        /// How many it noted.
        loaded: u64,
        /// How many there are.
        epoch: u64,
    },
    /// An entry of the request is live.
    Present {
        /// Its number.
        number: u64,
    },
    /// No more entries can be counted.
    Spent {
        /// The count of entries, 2^62.
        count: u64,
    },
    /// Too few words are free.
    Full {
        /// How many words the entry needs.
        need: u64,
        /// How many are free.
        free: u64,
    },
}
