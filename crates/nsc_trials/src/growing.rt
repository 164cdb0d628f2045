// The trial of a table that becomes larger, up to max-db-size.
ghost use Rattle.std.specs.Prelude.{◌≡◌, ◌≤◌, length};
ghost use Rattle.nsc_model.specs.Entry.{key_limit, kept_limit};
ghost use Rattle.nsc_model.specs.Sizes.{SizeFits};

use crate::texts::ABSENT;
use crate::wanted::Wanted;
use nsc_base::{Buf, NoMemory};
use nsc_caller::Caller;
use nsc_model::{Conf, InPlace, KEY_LIMIT, Kind, Store};
use std::alloc::Global;
use std::sync::Wait;

// Names that no user has. An entry of one takes sixteen words, and that of the long one seventeen.
const FIRST: [&[u8]; 7] = [
    b"absent-user-name0\0",
    b"absent-user-name1\0",
    b"absent-user-name2\0",
    b"absent-user-name3\0",
    b"absent-user-name4\0",
    b"absent-user-name5\0",
    b"absent-user-name6\0",
];

const LONG: &[u8] = b"aaaaaaaaaaaaaaaaaaaaaaaaa\0";

const LATER: [&[u8]; 7] = [
    b"absent-user-name7\0",
    b"absent-user-name8\0",
    b"absent-user-name9\0",
    b"absent-user-namea\0",
    b"absent-user-nameb\0",
    b"absent-user-namec\0",
    b"absent-user-named\0",
];

const LAST: &[u8] = b"absent-user-namee\0";

/// The settings of the trial: the least table, which may become twice as large, since 2,192 bytes are allowed and 4,256 are not.
pub fn growing() -> Conf
    ensures { SizeFits result.passwd }
{
    let mut conf = Conf::defaults();
    conf.passwd.size = 1;
    conf.passwd.max_size = 4_096;
    conf
}

/// Whether a table becomes larger where it is full, and not beyond its limit. A caller that was there before finds its own table left,
/// and each entry once it has followed.
pub fn grows<S: Store, R: Wait>(
    alloc: Global,
    caller: &mut Caller<'_, '_, S, R>,
) -> Result<bool, NoMemory> {
    let mut late = caller.another()?;
    let mut out = Buf::new(alloc, 65_536)?;
    let is_filled = all(caller, &FIRST, 0) && counts(caller, 112, 128, 0);
    let is_grown = finds(caller, LONG, Wanted::Loaded(7)) && counts(caller, 129, 256, 1);
    let is_left = searches(&mut late, LONG, &mut out) == Some(InPlace::Odd { cycle: 1 });
    let has_followed = finds(&mut late, LONG, Wanted::Hit(7))
        && is_hit(&mut late, LONG, &mut out, 7);
    let is_filled_again = all(caller, &LATER, 8) && counts(caller, 241, 256, 1);
    let is_full = finds(caller, LAST, Wanted::Full(16, 15)) && counts(caller, 241, 256, 2);
    Ok(is_filled && is_grown && is_left && has_followed && is_filled_again && is_full)
}

// Whether lookups of these names come to insertions, numbered from this one on.
fn all<S: Store, R: Wait>(
    caller: &mut Caller<'_, '_, S, R>,
    names: &[&'static [u8]],
    first: u64,
) -> bool {
    names.iter().zip(first..).all(|(name, number)| finds(caller, name, Wanted::Loaded(number)))
}

// Whether the reply to a lookup of a name that no user has is the wanted one.
fn finds<S: Store, R: Wait>(
    caller: &mut Caller<'_, '_, S, R>,
    name: &[u8],
    wanted: Wanted,
) -> bool {
    name.len() <= KEY_LIMIT && wanted.is(&caller.find(Kind::PwName, name, 0), ABSENT)
}

// The answer of a search in place for a name.
fn searches<S: Store, R: Wait>(
    caller: &mut Caller<'_, '_, S, R>,
    name: &[u8],
    out: &mut Buf,
) -> Option<InPlace>
    requires limit { out.old.limit ≡ kept_limit }
    ensures limit { out.new.limit ≡ out.old.limit }
{
    if name.len() > KEY_LIMIT {
        return None;
    }
    Some(caller.read(Kind::PwName, name, out))
}

// Whether such a search finds the entry of this number.
fn is_hit<S: Store, R: Wait>(
    caller: &mut Caller<'_, '_, S, R>,
    name: &[u8],
    out: &mut Buf,
    wanted: u64,
) -> bool
    requires limit { out.old.limit ≡ kept_limit }
    ensures limit { out.new.limit ≡ out.old.limit }
{
    match searches(caller, name, out) {
        Some(InPlace::Hit { number, .. }) => number == wanted,
        _ => false,
    }
}

// Whether entries take `used` words of `arena`, and `failed` insertions found no room.
fn counts<S: Store, R: Wait>(
    caller: &mut Caller<'_, '_, S, R>,
    used: u64,
    arena: u64,
    failed: u64,
) -> bool {
    match caller.stats() {
        Ok(stats) => stats.used == used && stats.arena == arena && stats.addfailed == failed,
        Err(_) => false,
    }
}
