// Lookups that are answered by the thread that accepts, if an entry is there.
ghost use Rattle.std.specs.Prelude.{◌≡◌, ◌≤◌, IfSome, None, length};
ghost use Rattle.std.specs.Bool.{OnFalse};
ghost use Rattle.nsc_base.specs.Text.{part};
ghost use Rattle.nsc_outside.specs.StreamAt.{stream_out};
ghost use Rattle.nsc_model.specs.declared.answer.Request.{Request};
ghost use Rattle.nsc_model.specs.Databases.{database_in};
ghost use Rattle.nsc_model.specs.Entry.{key_limit, kept_limit};
ghost use Rattle.nsc_model.specs.Kinds.{database_of};
ghost use Rattle.nsc_model.specs.Wire.{Look, request_of};
ghost use Rattle.nsc_wire.specs.Request.{IsKeyIn};
ghost use Rattle.nsc_sockets.specs.declared.role.Role.TheVariants as role;
ghost use Rattle.nsc_server.specs.InPlace.{Searches, ServesInPlace, TakesReply};
ghost use Rattle.nsc_server.specs.Outcomes.{OthersStay, side};
ghost use Rattle.nsc_server.specs.Passes.{AreNamed, ArePasses, OthersThan, SawMore, passes_at};
ghost use Rattle.nsc_server.specs.Requests.{closing_of};
ghost use Rattle.nsc_server.specs.Scopes.{IsKeptBack};

use crate::admitted::{Admitted, admit};
use crate::scope::{Scope, Scopes};
use crate::serve::is_absent;
use nsc_base::{Buf, Span};
use nsc_model::{Databases, Db, InPlace, Kind, Sought, Store};
use nsc_outside::Sink;
use nsc_sockets::Role;
use nsc_wire::read_request;

/// What came of a request that was looked up in place.
#[derive(Clone, Copy, Debug, PartialEq, Eq)]
pub enum ServedInPlace {
    /// An entry answered, and its whole reply was written.
    Found {
        /// The database of the entry.
        db: Db,
        /// Whether the reply is a not-found one.
        not_found: bool,
    },
    /// Nothing was written, and `serve_one` may serve the connection.
    Not {
        /// The database in which a compaction was under way, if there is one. Its table may have been left for a larger one.
        stale: Option<Db>,
    },
    /// The output failed, or took a front of the reply and no more. Nothing more may be written to it.
    Broken,
}

/// Answers a request of the socket of every user from an entry, if one is found in place. The bytes are those at hand of what the peer
/// sends; none is taken. The reply is offered to the output at once. The call takes no lock, no memory and no runtime, and waits for
/// nobody. The buffer has room for 65,536 bytes.
///
/// Nothing is written if the request is no lookup, or if no entry answers it. Nor is it while a compaction is under way, or if the scope
/// of the database leaves the lookup or keeps the reply back. If the entry was loaded again since its last use, a lookup has to set its
/// count of reloads back, and nothing is written. An output without room is left as it is.
pub fn serve_in_place<S: Store, K: Sink>(
    stores: &Databases<S>,
    scopes: Scopes,
    passes: &mut Databases<S::Pass>,
    room: &mut Buf,
    bytes: &[u8],
    conn_out: &mut K,
) -> ServedInPlace
    requires named { AreNamed S.Store stores.now }
    requires passes { ArePasses S.Store stores.now passes.old }
    requires limit { room.old.limit ≡ kept_limit }
    ensures passes { ArePasses S.Store stores.now passes.new }
    ensures limit { room.new.limit ≡ room.old.limit }
    ensures before { SawMore (passes_at S.Store passes.old) (passes_at S.Store passes.new) }
    ensures others { OthersStay (request_of bytes.now) (passes_at S.Store passes.old) (passes_at S.Store passes.new) }
    ensures served { ServesInPlace scopes bytes.now (side S.Store K.Sink passes.old conn_out.old) (side S.Store K.Sink passes.new conn_out.new) result }
{
    let Some(lookup) = lookup_in(bytes, scopes) else {
        return ServedInPlace::Not { stale: None };
    };
    let db = Db::of(lookup.kind);
    let sought = seek(stores, passes, room, lookup.kind, lookup.key.of(bytes), db);
    match sought.answer {
        InPlace::Hit { not_found, .. } => {
            if sought.is_reloaded || is_kept_back(scopes, db, room.bytes()) {
                return ServedInPlace::Not { stale: None };
            }
            offer(conn_out, room.bytes(), db, not_found)
        }
        InPlace::Odd { .. } => ServedInPlace::Not { stale: Some(db) },
        InPlace::Moved { .. } | InPlace::NoEntry => ServedInPlace::Not { stale: None },
    }
}

// A lookup, and the place of its key.
#[derive(Clone, Copy)]
struct Lookup {
    kind: Kind,
    key: Span,
}

// Reads the lookup that bytes ask for, if they ask for one that is not left.
fn lookup_in(bytes: &[u8], scopes: Scopes) -> Option<Lookup>
    ensures asks { IfSome result (λ it. request_of bytes.now ≡ Look (record { kind = it.kind; key = part bytes.now it.key })) }
    ensures key { IfSome result (λ it. IsKeyIn bytes.now it.key) }
    ensures limit { IfSome result (λ it. length (part bytes.now it.key) ≤ key_limit) }
    ensures open_to { IfSome result (λ it. closing_of scopes role.Plain (Look (record { kind = it.kind; key = part bytes.now it.key })) ≡ None) }
{
    let Ok(admitted) = admit(read_request(bytes), Role::Plain, scopes) else {
        return None;
    };
    match admitted {
        Admitted::Look { kind, key } => Some(Lookup { kind, key }),
        Admitted::Invalidate { .. } | Admitted::Stat | Admitted::ShutDown => None,
    }
}

// Whether a reply of this database is kept back.
fn is_kept_back(scopes: Scopes, db: Db, reply: &[u8]) -> bool
    ensures told { OnFalse result ((request : Request) → database_of request.kind ≡ db → IsKeptBack scopes (Look request) reply.now → ⊥) }
{
    scopes.of(db) == Scope::FoundOnly && is_absent(reply)
}

// Searches one of the databases.
fn seek<S: Store>(
    stores: &Databases<S>,
    passes: &mut Databases<S::Pass>,
    room: &mut Buf,
    kind: Kind,
    key: &[u8],
    db: Db,
) -> Sought
    requires named { AreNamed S.Store stores.now }
    requires passes { ArePasses S.Store stores.now passes.old }
    requires limit { room.old.limit ≡ kept_limit }
    requires db { database_of kind ≡ db }
    requires key { length key.now ≤ key_limit }
    ensures passes { ArePasses S.Store stores.now passes.new }
    ensures limit { room.new.limit ≡ room.old.limit }
    ensures before { SawMore (passes_at S.Store passes.old) (passes_at S.Store passes.new) }
    ensures others { OthersThan db (passes_at S.Store passes.old) (passes_at S.Store passes.new) }
    ensures answer { Searches (database_in (passes_at S.Store passes.old) db) (database_in (passes_at S.Store passes.new) db) (record { kind = kind; key = key.now }) room.new.content result.answer }
{
    match db {
        Db::Passwd => stores.passwd.seek(&mut passes.passwd, kind, key, room),
        Db::Group => stores.group.seek(&mut passes.group, kind, key, room),
        Db::Hosts => stores.hosts.seek(&mut passes.hosts, kind, key, room),
        Db::Services => stores.services.seek(&mut passes.services, kind, key, room),
    }
}

// Offers the reply of a hit to the output.
fn offer<K: Sink>(conn_out: &mut K, reply: &[u8], db: Db, not_found: bool) -> ServedInPlace
    ensures { TakesReply (stream_out K.Sink conn_out.old) (stream_out K.Sink conn_out.new) reply.now db not_found result }
{
    match conn_out.offer(reply) {
        Ok(count) if count == reply.len() => ServedInPlace::Found { db, not_found },
        Ok(0) => ServedInPlace::Not { stale: None },
        Ok(_) | Err(_) => ServedInPlace::Broken,
    }
}
