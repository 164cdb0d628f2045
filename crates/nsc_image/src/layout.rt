// The places of the parts of an image, and the checks of its entries.
ghost use Rattle.std.specs.Prelude.{◌≡◌, ◌+◌, ◌≤◌, length, IfSome, IfNone, drop};
ghost use Rattle.nsc_model.specs.Kinds.{kind_numbered};
ghost use Rattle.nsc_image.specs.Faults.{EntriesBreak, entry_checks, first_failing, is_kind_of as kind_is_of};
ghost use Rattle.nsc_model.specs.Image.{db_number, is_above};
ghost use Rattle.nsc_image.specs.Layout.{Fill};
ghost use Rattle.nsc_image.specs.Reading.{IsReadable, kind_or_any, saved_at, saved_size};
ghost use Rattle.nsc_image.specs.Versions.{fixed_size, number_of};

use crate::saved::Saved;
use crate::version::Version;
use nsc_base::{u32_at, u64_at};
use nsc_model::{Db, KEPT_LIMIT, KEY_LIMIT, Kind};

// What an image begins with.
pub(crate) const MAGIC: [u8; 8] = *b"NSCIMAGE";

// The places of the fields behind the magic. The entries begin behind them.
pub(crate) const VERSION_FIELD: usize = 8;

pub(crate) const DATABASE_FIELD: usize = 12;

pub(crate) const COUNT_FIELD: usize = 16;

pub(crate) const ENTRIES: usize = 20;

// The size of the digest at the end, in bytes.
pub(crate) const DIGEST: usize = 32;

// The places of an entry's fields, from its first byte on, that both versions have.
pub(crate) const NUMBER: usize = 0;

pub(crate) const KIND: usize = 8;

pub(crate) const KEY_LENGTH: usize = 12;

pub(crate) const REPLY_LENGTH: usize = 16;

pub(crate) const MARK: usize = 20;

// Where timeouts end: 2^63.
const TIMEOUT_END: u64 = 1 << 63;

// Gives the number of a database.
pub(crate) fn db_number(db: Db) -> u32
    ensures { result ≡ db_number db }
{
    match db {
        Db::Passwd => 0,
        Db::Group => 1,
        Db::Hosts => 2,
        Db::Services => 3,
    }
}

// Tells whether a number is above the last one before it, if there is one.
fn is_above(last: Option<u64>, number: u64) -> bool
    ensures { result ≡ is_above last number }
{
    match last {
        Some(last) => last < number,
        None => true,
    }
}

// Tells whether this is the number of a kind of the database.
fn is_kind_of(db: Db, number: u32) -> bool
    ensures { result ≡ kind_is_of db (kind_numbered number) }
{
    match Kind::numbered(number) {
        Some(kind) => db_number(Db::of(kind)) == db_number(db),
        None => false,
    }
}

// Finds the first field at fault of the entry at the front of the bytes, and gives its place. `last` is the number of the entry before
// it, if there is one.
#[tactic(auto, unfolding(crate::specs::Faults::entry_checks, crate::specs::Reading::saved_size))]
pub(crate) fn entry_fault(
    db: Db,
    version: Version,
    last: Option<u64>,
    bytes: &[u8],
) -> Option<usize>
    ensures fault { result ≡ first_failing (entry_checks db (number_of version) last bytes.now) }
    ensures fixed { IfSome result (λ at. at ≤ 28) }
    ensures long { IfNone result (fixed_size (number_of version) ≤ length bytes.now) }
    ensures whole { IfNone result (saved_size (number_of version) bytes.now ≤ length bytes.now) }
{
    let fixed = version.fixed_size();
    if bytes.len() < fixed {
        return Some(0);
    }
    if !is_above(last, u64_at(bytes, NUMBER)) {
        return Some(NUMBER);
    }
    if !is_kind_of(db, u32_at(bytes, KIND)) {
        return Some(KIND);
    }
    let key_length = u32_at(bytes, KEY_LENGTH) as usize;
    if key_length > KEY_LIMIT {
        return Some(KEY_LENGTH);
    }
    let reply_length = u32_at(bytes, REPLY_LENGTH) as usize;
    if reply_length > KEPT_LIMIT {
        return Some(REPLY_LENGTH);
    }
    if u32_at(bytes, MARK) > 1 {
        return Some(MARK);
    }
    let timeout = version.timeout_at();
    if u64_at(bytes, timeout) >= TIMEOUT_END {
        return Some(timeout);
    }
    if bytes.len() < fixed + key_length + reply_length {
        return Some(0);
    }
    None
}

// Reads the entry at the front of the bytes, which lend its key and its reply.
#[tactic(auto, unfolding(crate::specs::Reading::saved_at, crate::specs::Reading::saved_size))]
pub(crate) fn entry_at(version: Version, bytes: &[u8]) -> Saved
    requires { IsReadable (number_of version) bytes.now }
    ensures { result ≡ saved_at (number_of version) bytes.now }
{
    let key = version.fixed_size();
    let reply = key + u32_at(bytes, KEY_LENGTH) as usize;
    let end = reply + u32_at(bytes, REPLY_LENGTH) as usize;
    Saved::new(
        u64_at(bytes, NUMBER),
        kind_or_any(u32_at(bytes, KIND)),
        &bytes[key..reply],
        &bytes[reply..end],
        u32_at(bytes, MARK) > 0,
        version.reloads_in(bytes),
        u64_at(bytes, version.timeout_at()),
    )
}

// Gives the kind of a number. If the number has no kind, any kind is given.
fn kind_or_any(number: u32) -> Kind
    ensures { result ≡ kind_or_any (kind_numbered number) }
{
    Kind::numbered(number).unwrap_or(Kind::PwName)
}

// Gives the bytes behind the entry at the front.
#[tactic(auto, unfolding(crate::specs::Reading::saved_size))]
pub(crate) fn behind_entry(version: Version, bytes: &[u8]) -> &[u8]
    requires long { fixed_size (number_of version) ≤ length bytes.now }
    requires whole { saved_size (number_of version) bytes.now ≤ length bytes.now }
    ensures { result.now ≡ drop (saved_size (number_of version) bytes.now) bytes.now }
{
    let reply = version.fixed_size() + u32_at(bytes, KEY_LENGTH) as usize;
    &bytes[reply + u32_at(bytes, REPLY_LENGTH) as usize..]
}

// Finds the first fault in the bytes, and gives its place. The bytes are to be `count` entries, and nothing else.
pub(crate) fn entries_fault(db: Db, version: Version, count: u32, bytes: &[u8]) -> Option<usize>
    ensures fault { IfSome result (EntriesBreak db (number_of version) count bytes.now) }
    ensures none { IfNone result (Fill db (number_of version) count bytes.now) }
    ensures within { IfSome result (λ place. place ≤ length bytes.now + 28) }
{
    let mut rest = bytes;
    let mut last = None;
    for _ in 0..count {
        if let Some(at) = entry_fault(db, version, last, rest) {
            return Some(bytes.len() - rest.len() + at);
        }
        last = Some(u64_at(rest, NUMBER));
        rest = behind_entry(version, rest);
    }
    if rest.is_empty() {
        return None;
    }
    Some(bytes.len() - rest.len())
}
