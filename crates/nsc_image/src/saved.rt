// An entry as an image keeps it.

use nsc_model::Kind;
use std::marker::Model;

/// An entry as an image keeps it. The bytes of an image lend its key and its reply, or the caller that saves it. The key has at most
/// `KEY_LIMIT` bytes, and the reply at most `KEPT_LIMIT`.
#[derive(Debug, Drop)]
pub struct Saved<'a> {
    number: u64,
    kind: Kind,
    key: &'a [u8],
    reply: &'a [u8],
    not_found: bool,
    reloads: u32,
    timeout: u64,
}

impl<'a> Model for Saved<'a> {
    ghost use Rattle.std.specs.Prelude.{◌≤◌, length};
    ghost use Rattle.nsc_model.specs.Entry.{key_limit, kept_limit};
    ghost use Rattle.nsc_model.specs.Image.{Saved};
    ghost use Rattle.nsc_image.specs.Reading.{saved_with};

    ghost Value = { Saved };

    ghost view = { λ s. saved_with s.number s.kind s.key.now s.reply.now s.not_found s.reloads s.timeout };

    ghost invariant = { λ s. (length s.key.now ≤ key_limit) × (length s.reply.now ≤ kept_limit) };
}

impl<'a> Saved<'a> {
    ghost use Rattle.std.specs.Prelude.{◌≡◌, ◌≤◌, length};
    ghost use Rattle.nsc_model.specs.Entry.{key_limit, kept_limit};
    ghost use Rattle.nsc_image.specs.Reading.{saved_with};

    /// Makes the entry of these parts:
    ///
    /// - `number`: its number in its database
    /// - `kind` and `key`: its request
    /// - `reply` and `not_found`: the bytes of its reply, and whether they are a not-found reply
    /// - `reloads`: how often it was reloaded without a use
    /// - `timeout`: the last moment, in seconds, at which it is not yet over
    pub fn new(
        number: u64,
        kind: Kind,
        key: &'a [u8],
        reply: &'a [u8],
        not_found: bool,
        reloads: u32,
        timeout: u64,
    ) -> Saved<'a>
        requires key { length key.now ≤ key_limit }
        requires reply { length reply.now ≤ kept_limit }
        ensures { result ≡ saved_with number kind key.now reply.now not_found reloads timeout }
    {
        Saved {
            number,
            kind,
            key,
            reply,
            not_found,
            reloads,
            timeout,
        }
    }

    /// Gives the number of the entry in its database.
    pub fn number(&self) -> u64
        ensures { result ≡ self.now.number }
    {
        self.number
    }

    /// Gives the kind of its request.
    pub fn kind(&self) -> Kind
        ensures { result ≡ self.now.request.kind }
    {
        self.kind
    }

    /// Gives the key of its request, at most `KEY_LIMIT` bytes.
    pub fn key(&self) -> &'a [u8]
        ensures value { result.now ≡ self.now.request.key }
        ensures bound { length result.now ≤ key_limit }
    {
        self.key
    }

    /// Gives the bytes of its reply, at most `KEPT_LIMIT`.
    pub fn reply(&self) -> &'a [u8]
        ensures value { result.now ≡ self.now.answer.bytes }
        ensures bound { length result.now ≤ kept_limit }
    {
        self.reply
    }

    /// Tells whether its reply is a not-found reply.
    pub fn is_not_found(&self) -> bool
        ensures { result ≡ self.now.answer.not_found }
    {
        self.not_found
    }

    /// Gives the count of its reloads without a use. It is 0 if the image is of version 2.
    pub fn reloads(&self) -> u32
        ensures { result ≡ self.now.reloads }
    {
        self.reloads
    }

    /// Gives the last moment, in seconds, at which it is not yet over.
    pub fn timeout(&self) -> u64
        ensures { result ≡ self.now.timeout }
    {
        self.timeout
    }
}
