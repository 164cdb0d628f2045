// Lines that searches in place answer.
ghost use Rattle.std.specs.Prelude.{◌≡◌, ◌+◌, ◌≤◌, ◌∷◌, [], length, IfSome};
ghost use Rattle.std.specs.Bool.{OnTrue};
ghost use Rattle.nsc_model.specs.declared.kind.Kind.{Kind};
ghost use Rattle.nsc_model.specs.declared.row.Reply.{Reply};
ghost use Rattle.nsc_model.specs.Entry.{key_limit, kept_limit};
ghost use Rattle.nsc_model.specs.Kinds.{database_of};
ghost use Rattle.nsc_model.specs.Stores.{Continues, StaysCalm};
ghost use Rattle.nsc_model.specs.Wire.{Spells};
ghost use Rattle.nsc_client.specs.declared.line.LineAsks.TheVariants.{HostNamed};
ghost use Rattle.nsc_client.specs.Gate.{AreNamed, ArePasses, SeeMore};
ghost use Rattle.nsc_client.specs.GateText.{has_entry};
ghost use Rattle.nsc_client.specs.Hits.{IsFound, IsFoundAt, IsHit, Searches};
ghost use Rattle.nsc_client.specs.Replying.{KeysFit};

use crate::line::LineAsks;
use crate::replies::store_of;
use nsc_base::{Buf, u32_at};
use nsc_model::{Databases, Db, InPlace, Kind, Store};

// Where the bytes of a reply tell whether it has an entry, and what they are then.
const FOUND_AT: usize = 4;

const FOUND: u32 = 1;

/// What answers a line without a lookup.
#[derive(Clone, Copy, Debug)]
pub(crate) enum Hit {
    /// That the line is bad.
    Bad,
    /// The reply in the buffer, which is of this kind.
    Reply(Kind),
}

/// Searches in place for what a line asks, and leaves the last reply in the buffer of 65,536 bytes. `None` if a lookup is wanted.
pub(crate) fn find_hit<S: Store>(
    stores: &Databases<S>,
    passes: &mut Databases<S::Pass>,
    out: &mut Buf,
    asking: &LineAsks,
) -> Option<Hit>
    requires named { AreNamed S.Store stores.now }
    requires passes { ArePasses S.Store stores.now passes.old }
    requires limit { out.old.limit ≡ kept_limit }
    requires keys { KeysFit asking.now }
    ensures passes { ArePasses S.Store stores.now passes.new }
    ensures limit { out.new.limit ≡ out.old.limit }
    ensures seen { SeeMore S.Store passes.old passes.new }
    ensures searched { Searches S.Store passes.old passes.new 0 }
    ensures hit { IfSome result (IsHit S.Store passes.old passes.new asking.now out.new.content) }
{
    match asking {
        LineAsks::Bad => Some(Hit::Bad),
        LineAsks::One(request) => {
            let kind = request.kind;
            if finds(stores, passes, out, kind, request.key.as_slice()) {
                return Some(Hit::Reply(kind));
            }
            None
        }
        LineAsks::HostNamed(name) => hit_named(stores, passes, out, name.as_slice()),
    }
}

// A hit on a host of this name: of IPv4, or if it has none, of IPv6.
fn hit_named<S: Store>(
    stores: &Databases<S>,
    passes: &mut Databases<S::Pass>,
    out: &mut Buf,
    name: &[u8],
) -> Option<Hit>
    requires named { AreNamed S.Store stores.now }
    requires passes { ArePasses S.Store stores.now passes.old }
    requires limit { out.old.limit ≡ kept_limit }
    requires key { length name.now ≤ key_limit }
    ensures passes { ArePasses S.Store stores.now passes.new }
    ensures limit { out.new.limit ≡ out.old.limit }
    ensures seen { SeeMore S.Store passes.old passes.new }
    ensures searched { Searches S.Store passes.old passes.new 0 }
    ensures hit { IfSome result (IsHit S.Store passes.old passes.new (HostNamed name.now) out.new.content) }
{
    if !finds(stores, passes, out, Kind::HostName, name) {
        return None;
    }
    if is_found(out.bytes()) {
        return Some(Hit::Reply(Kind::HostName));
    }
    if !finds(stores, passes, out, Kind::HostName6, name) {
        return None;
    }
    Some(Hit::Reply(Kind::HostName6))
}

// Searches in place for the request of this kind and key, in the store of its database.
fn finds<S: Store>(
    stores: &Databases<S>,
    passes: &mut Databases<S::Pass>,
    out: &mut Buf,
    kind: Kind,
    key: &[u8],
) -> bool
    requires named { AreNamed S.Store stores.now }
    requires passes { ArePasses S.Store stores.now passes.old }
    requires limit { out.old.limit ≡ kept_limit }
    requires key { length key.now ≤ key_limit }
    ensures passes { ArePasses S.Store stores.now passes.new }
    ensures limit { out.new.limit ≡ out.old.limit }
    ensures seen { SeeMore S.Store passes.old passes.new }
    ensures searched { Searches S.Store passes.old passes.new 1 }
    ensures found { OnTrue result (IsFound S.Store passes.old passes.new (record { kind = kind; key = key.now }) out.new.content) }
{
    let db = Db::of(kind);
    let store = store_of(stores, db);
    store_finds(store, passes.of_mut(db), out, kind, key)
}

// Searches in place for the request of this kind and key in a store.
fn store_finds<S: Store>(
    store: &S,
    pass: &mut S::Pass,
    out: &mut Buf,
    kind: Kind,
    key: &[u8],
) -> bool
    requires pass { S.is_pass store.now pass.old }
    requires limit { out.old.limit ≡ kept_limit }
    requires kind { database_of kind ≡ S.db store.now }
    requires key { length key.now ≤ key_limit }
    ensures pass { S.is_pass store.now pass.new }
    ensures limit { out.new.limit ≡ out.old.limit }
    ensures seen { Continues (S.at pass.old).seen (S.at pass.new).seen }
    ensures searches { (S.at pass.new).searches ≡ (S.at pass.old).searches + 1 }
    ensures no_fault { StaysCalm (S.at pass.old) (S.at pass.new) }
    ensures found { OnTrue result (IsFoundAt (S.at pass.old).seen (S.at pass.new).seen (record { kind = kind; key = key.now }) out.new.content) }
{
    match store.in_place(pass, kind, key, out) {
        InPlace::Hit { .. } => true,
        InPlace::Odd { .. } | InPlace::Moved { .. } | InPlace::NoEntry => false,
    }
}

/// Whether the reply that these bytes spell has an entry.
pub(crate) fn is_found(bytes: &[u8]) -> bool
    requires { FOUND_AT + 4 ≤ length bytes.now }
    ensures { (kind : Kind) → (reply : Reply) → Spells kind reply bytes.now → result ≡ has_entry reply }
{
    u32_at(bytes, FOUND_AT) == FOUND
}
