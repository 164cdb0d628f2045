// `Wire`: what the bytes of a request ask, or why the request is refused.
ghost use Rattle.std.specs.Prelude.{◌≡◌, ◌+◌, ◌≤◌, length};
ghost use Rattle.nsc_base.specs.Text.{part};
ghost use Rattle.nsc_model.specs.Entry.{key_limit};
ghost use Rattle.nsc_model.specs.Kinds.{kind_numbered};
ghost use Rattle.nsc_model.specs.Wire.{asked_look, asked_otherwise, request_of, stored_key, text_key};
ghost use Rattle.nsc_wire.specs.Request.{IsKeyIn, KeyFits, KeyIsIn, asked_by};

use crate::head::HEAD;
use crate::reply::VERSION;
use nsc_base::{Span, i32_at, u32_at};
use nsc_model::{KEY_LIMIT, Kind};

/// What the input of a connection asks. Spans are places in the input, in bytes.
#[derive(Clone, Copy, Debug, PartialEq, Eq)]
pub enum Wire {
    /// A lookup.
    Request {
        /// What is asked.
        kind: Kind,
        /// The key as it is stored: a text without its zero byte, an address as its raw bytes.
        key: Span,
    },
    /// The descriptor of a database's memory: GETFDPW, GETFDGR, GETFDHST, GETFDSERV and GETFDNETGR.
    Descriptor,
    /// A lookup in the netgroups, which are not cached: GETNETGRENT and INNETGR.
    Netgroup,
    /// SHUTDOWN: the daemon is to end.
    Shutdown,
    /// GETSTAT: the daemon is to tell its numbers.
    Stat,
    /// INVALIDATE: a database is to be emptied.
    Invalidate {
        /// The name of the database, without its zero byte.
        key: Span,
    },
    /// Fewer bytes than a request has.
    Short {
        /// How many there are.
        have: usize,
    },
    /// Another version than 2.
    BadVersion(i32),
    /// A type below 0 or above 21.
    BadType(i32),
    /// A key length below 0 or above 1,024.
    BadLength(i32),
}

const LAST_TYPE: u32 = 21;

/// Reads a request: its version, its type and the length of its key, and then the key. What stands after the key is
/// not looked at. Of several faults the first is told, in the order of the fields: fewer than 12 bytes, the version,
/// the type, the length, and last a key that passes the end of the bytes.
pub fn read_request(bytes: &[u8]) -> Wire
    ensures asked { asked_by bytes.now result ≡ request_of bytes.now }
    ensures key { KeyIsIn bytes.now result }
    ensures limit { KeyFits bytes.now result }
{
    if bytes.len() < HEAD {
        return Wire::Short { have: bytes.len() };
    }
    if u32_at(bytes, 0) != VERSION {
        return Wire::BadVersion(i32_at(bytes, 0));
    }
    let number = u32_at(bytes, 4);
    if number > LAST_TYPE {
        return Wire::BadType(i32_at(bytes, 4));
    }
    let length = u32_at(bytes, 8) as usize;
    if length > KEY_LIMIT {
        return Wire::BadLength(i32_at(bytes, 8));
    }
    let end = HEAD + length;
    if bytes.len() < end {
        return Wire::Short { have: bytes.len() };
    }
    asked(bytes, number, Span::new(HEAD, end))
}

// What a request of this type and this key asks.
fn asked(bytes: &[u8], number: u32, key: Span) -> Wire
    requires key { IsKeyIn bytes.now key }
    requires limit { length (part bytes.now key) ≤ key_limit }
    ensures asked { asked_by bytes.now result ≡ asked_look (kind_numbered number) number (part bytes.now key) }
    ensures key { KeyIsIn bytes.now result }
    ensures limit { KeyFits bytes.now result }
{
    let Some(kind) = Kind::numbered(number) else {
        return other(bytes, number, key);
    };
    if kind.is_netgroup() {
        return Wire::Netgroup;
    }
    Wire::Request {
        kind,
        key: stored(bytes, kind, key),
    }
}

// The part of a lookup's key that is stored.
fn stored(bytes: &[u8], kind: Kind, key: Span) -> Span
    requires key { IsKeyIn bytes.now key }
    ensures key { IsKeyIn bytes.now result }
    ensures within { length (part bytes.now result) ≤ length (part bytes.now key) }
    ensures stored { part bytes.now result ≡ stored_key kind (part bytes.now key) }
{
    match kind {
        Kind::HostAddr | Kind::HostAddr6 => key,
        Kind::PwName
        | Kind::PwUid
        | Kind::GrName
        | Kind::GrGid
        | Kind::HostName
        | Kind::HostName6
        | Kind::Ai
        | Kind::InitGroups
        | Kind::ServName
        | Kind::ServPort
        | Kind::NetgrEnt
        | Kind::InNetgr => text(bytes, key),
    }
}

// The part of a key before its first zero byte, or the whole key where it has none.
fn text(bytes: &[u8], key: Span) -> Span
    requires { IsKeyIn bytes.now key }
    ensures key { IsKeyIn bytes.now result }
    ensures within { length (part bytes.now result) ≤ length (part bytes.now key) }
    ensures text { part bytes.now result ≡ text_key (part bytes.now key) }
{
    key.before_byte(bytes, 0)
}

// Request types that are no lookups.
const SHUTDOWN: u32 = 8;

const STAT: u32 = 9;

const INVALIDATE: u32 = 10;

// What a type that is no lookup asks.
fn other(bytes: &[u8], number: u32, key: Span) -> Wire
    requires key { IsKeyIn bytes.now key }
    requires limit { length (part bytes.now key) ≤ key_limit }
    ensures asked { asked_by bytes.now result ≡ asked_otherwise number (part bytes.now key) }
    ensures key { KeyIsIn bytes.now result }
    ensures limit { KeyFits bytes.now result }
{
    match number {
        SHUTDOWN => Wire::Shutdown,
        STAT => Wire::Stat,
        INVALIDATE => Wire::Invalidate {
            key: text(bytes, key),
        },
        _ => Wire::Descriptor,
    }
}
