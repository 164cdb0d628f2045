// `Request` and `Answer`: the kind and key of a lookup, and the bytes of a reply.
use crate::kind::Kind;
use nsc_base::Bytes;
use std::marker::Model;

/// A request of a lookup: its kind, and the key as an entry stores it, without a zero byte after a text.
#[derive(Debug, Drop)]
pub struct Request {
    /// What is asked.
    pub kind: Kind,
    /// The name, the number as text, or the raw bytes of an address.
    pub key: Bytes,
}

/// The bytes of a reply, at most 2^30 of them, and whether it is a not-found reply.
#[derive(Debug, Drop)]
pub struct Answer {
    bytes: Bytes,
    not_found: bool,
}

impl Model for Answer {
    ghost use Rattle.std.specs.Prelude.{◌≤◌, ◌^◌, length};
    ghost use Rattle.nsc_model.specs.Answer.{Answer, reply_limit};

    ghost Value = { Answer };

    ghost view = { λ a. record { bytes = a.bytes; not_found = a.not_found } };

    ghost invariant = { λ a. length a.bytes ≤ reply_limit };
}

impl Answer {
    ghost use Rattle.std.specs.Prelude.{◌≡◌, ◌≤◌, length};
    ghost use Rattle.nsc_model.specs.Answer.{reply_limit};

    /// The answer of these reply bytes and this mark.
    pub fn new(bytes: Bytes, not_found: bool) -> Answer
        requires { length bytes ≤ reply_limit }
        ensures { result ≡ record { bytes = bytes; not_found = not_found } }
    {
        Answer { bytes, not_found }
    }

    /// The reply bytes, lent: at most 2^30.
    pub fn bytes(&self) -> &[u8]
        ensures value { result.now ≡ self.now.bytes }
        ensures bound { length result.now ≤ reply_limit }
    {
        self.bytes.as_slice()
    }

    /// Whether it is a not-found reply.
    pub fn is_not_found(&self) -> bool
        ensures { result ≡ self.now.not_found }
    {
        self.not_found
    }

    /// The reply bytes.
    pub fn into_bytes(self) -> Bytes
        ensures { result ≡ self.bytes }
    {
        self.bytes
    }
}
