// `serve_one`: one connection, from its request to its reply.
ghost use Rattle.std.specs.Prelude.{◌≡◌, ◌^◌, ◌<◌, ◌≤◌, ℕ, List, length, IfErr, IfOk};
ghost use Rattle.std.specs.Bool.{OnFalse, OnTrue};
ghost use Rattle.nsc_outside.specs.StreamAt.{stream_in, stream_out};
ghost use Rattle.nsc_model.specs.Entry.{key_limit};
ghost use Rattle.nsc_model.specs.Kinds.{database_of, db_named};
ghost use Rattle.nsc_model.specs.Wire.{Invalidate};
ghost use Rattle.nsc_wire.specs.Request.{KeyFits, KeyIsIn, asked_by};
ghost use Rattle.nsc_server.specs.Admitted.{wire_of};
ghost use Rattle.nsc_server.specs.Made.{IsLookFaultIn, IsLookReplyIn, IsReplyIn, bytes_of};
ghost use Rattle.nsc_server.specs.Outcomes.{Answers, IsInvalidateRefusal, IsInvalidateReply, IsRefusal, IsStatReply, OthersStay, Serves, WritesReply, side};
ghost use Rattle.nsc_server.specs.Passes.{AreNamed, ArePasses, OthersThan, SawMore, passes_at, settings_of};
ghost use Rattle.nsc_server.specs.Requests.{TakesRequests};
ghost use Rattle.nsc_server.specs.Scopes.{IsKeptBack, is_absent};

use crate::admitted::{Admitted, admit};
use crate::counts::all_stats;
use crate::made::{Made, empty, look_up, reply_bytes};
use crate::request_buffer::RequestBuffer;
use crate::scope::{Scope, Scopes};
use crate::served::{Closing, Served};
use crate::statistics::stat_text;
use nsc_base::u32_at;
use nsc_model::{Databases, Db, Kind, Store};
use nsc_outside::{Sink, Source, write_all};
use nsc_sockets::Role;
use std::sync::Wait;

/// Serves one connection that came on a socket of this role, at this moment, in seconds: reads one request, no further than it
/// is needed, and writes the reply. The role is Plain or Admin. A lookup may be left to who asks, and a reply that says that there is no
/// such entry kept back, as the scope of its database says. At each outcome but `Replied`, `ShutDown` and `WriteFault` nothing was written.
pub fn serve_one<RT: AllocGlobal + Wait, S: Store, R: Source, K: Sink>(
    rt: &RT,
    stores: &Databases<S>,
    scopes: Scopes,
    passes: &mut Databases<S::Pass>,
    buffer: &mut RequestBuffer,
    conn_in: &mut R,
    conn_out: &mut K,
    role: Role,
    now: u64,
) -> Served
    requires role { TakesRequests role }
    requires named { AreNamed S.Store stores.now }
    requires passes { ArePasses S.Store stores.now passes.old }
    requires moment { now < 2 ^ 62 }
    ensures passes { ArePasses S.Store stores.now passes.new }
    ensures before { SawMore (passes_at S.Store passes.old) (passes_at S.Store passes.new) }
    ensures served { Serves (settings_of S.Store stores.now) scopes now role (stream_in R.Source conn_in.old) (stream_in R.Source conn_in.new)
        (side S.Store K.Sink passes.old conn_out.old) (side S.Store K.Sink passes.new conn_out.new) result }
{
    let wire = match buffer.read(conn_in) {
        Ok(wire) => wire,
        Err(_) => return Served::ReadFault,
    };
    match admit(wire, role, scopes) {
        Ok(admitted) => answer(
            rt,
            stores,
            scopes,
            passes,
            buffer.bytes(),
            &admitted,
            conn_out,
            now,
        ),
        Err(refused) => refused,
    }
}

// Answers an admitted request, unless the reply is kept back.
fn answer<RT: AllocGlobal + Wait, S: Store, K: Sink>(
    rt: &RT,
    stores: &Databases<S>,
    scopes: Scopes,
    passes: &mut Databases<S::Pass>,
    bytes: &[u8],
    admitted: &Admitted,
    conn_out: &mut K,
    now: u64,
) -> Served
    requires key { KeyIsIn bytes.now (wire_of admitted.now) }
    requires limit { KeyFits bytes.now (wire_of admitted.now) }
    requires named { AreNamed S.Store stores.now }
    requires passes { ArePasses S.Store stores.now passes.old }
    requires moment { now < 2 ^ 62 }
    ensures passes { ArePasses S.Store stores.now passes.new }
    ensures before { SawMore (passes_at S.Store passes.old) (passes_at S.Store passes.new) }
    ensures others { OthersStay (asked_by bytes.now (wire_of admitted.now)) (passes_at S.Store passes.old) (passes_at S.Store passes.new) }
    ensures answers { Answers (settings_of S.Store stores.now) scopes now (asked_by bytes.now (wire_of admitted.now))
        (side S.Store K.Sink passes.old conn_out.old) (side S.Store K.Sink passes.new conn_out.new) result }
{
    match make(rt, stores, passes, bytes, admitted, now) {
        Ok(made) if keeps_back(scopes, admitted, made.as_slice()) => {
            Served::Closed(Closing::NotFound)
        }
        Ok(made) => reply(conn_out, made.as_slice(), admitted.replied()),
        Err(served) => served,
    }
}

// Whether a reply to an admitted request is kept back.
fn keeps_back(scopes: Scopes, admitted: &Admitted, reply: &[u8]) -> bool
    ensures kept { OnTrue result ((bytes : List ℕ) → IsKeptBack scopes (asked_by bytes (wire_of admitted.now)) reply.now) }
    ensures told { OnFalse result ((bytes : List ℕ) → IsKeptBack scopes (asked_by bytes (wire_of admitted.now)) reply.now → ⊥) }
{
    match admitted {
        Admitted::Look { kind, .. } => {
            scopes.of(Db::of(*kind)) == Scope::FoundOnly && is_absent(reply)
        }
        Admitted::Invalidate { .. } | Admitted::Stat | Admitted::ShutDown => false,
    }
}

// Whether a reply says that there is no such entry: its second field is 0.
pub(crate) fn is_absent(reply: &[u8]) -> bool
    ensures { result ≡ is_absent reply.now }
{
    reply.len() >= 8 && u32_at(reply, 4) == 0
}

// Writes a reply, whose outcome is this one.
fn reply<K: Sink>(conn_out: &mut K, bytes: &[u8], replied: Served) -> Served
    ensures { WritesReply (stream_out K.Sink conn_out.old) (stream_out K.Sink conn_out.new) bytes.now replied result }
{
    match write_all(conn_out, bytes) {
        Ok(()) => replied,
        Err(_) => Served::WriteFault,
    }
}

// The reply to an admitted request.
fn make<RT: AllocGlobal + Wait, S: Store>(
    rt: &RT,
    stores: &Databases<S>,
    passes: &mut Databases<S::Pass>,
    bytes: &[u8],
    admitted: &Admitted,
    now: u64,
) -> Result<Made, Served>
    requires key { KeyIsIn bytes.now (wire_of admitted.now) }
    requires limit { KeyFits bytes.now (wire_of admitted.now) }
    requires named { AreNamed S.Store stores.now }
    requires passes { ArePasses S.Store stores.now passes.old }
    requires moment { now < 2 ^ 62 }
    ensures passes { ArePasses S.Store stores.now passes.new }
    ensures before { SawMore (passes_at S.Store passes.old) (passes_at S.Store passes.new) }
    ensures others { OthersStay (asked_by bytes.now (wire_of admitted.now)) (passes_at S.Store passes.old) (passes_at S.Store passes.new) }
    ensures made { IfOk result (λ made. IsReplyIn S.Store stores.now now passes.old passes.new (asked_by bytes.now (wire_of admitted.now)) made) }
    ensures refused { IfErr result (IsRefusal (settings_of S.Store stores.now) (asked_by bytes.now (wire_of admitted.now)) (passes_at S.Store passes.old) (passes_at S.Store passes.new)) }
{
    match admitted {
        Admitted::Look { kind, key } => looked(rt, stores, passes, *kind, key.of(bytes), now),
        Admitted::Invalidate { key } => emptied(rt, stores, passes, key.of(bytes)),
        Admitted::Stat => told(rt, stores, passes),
        Admitted::ShutDown => Ok(Made::Done),
    }
}

// The reply to a lookup.
fn looked<RT: AllocGlobal + Wait, S: Store>(
    rt: &RT,
    stores: &Databases<S>,
    passes: &mut Databases<S::Pass>,
    kind: Kind,
    key: &[u8],
    now: u64,
) -> Result<Made, Served>
    requires key { length key.now ≤ key_limit }
    requires named { AreNamed S.Store stores.now }
    requires passes { ArePasses S.Store stores.now passes.old }
    requires moment { now < 2 ^ 62 }
    ensures passes { ArePasses S.Store stores.now passes.new }
    ensures before { SawMore (passes_at S.Store passes.old) (passes_at S.Store passes.new) }
    ensures others { OthersThan (database_of kind) (passes_at S.Store passes.old) (passes_at S.Store passes.new) }
    ensures made { IfOk result (λ made. IsLookReplyIn S.Store stores.now now passes.old passes.new (record { kind = kind; key = key.now }) made) }
    ensures refused { IfErr result (IsLookFaultIn S.Store stores.now passes.old passes.new (record { kind = kind; key = key.now })) }
{
    let db = Db::of(kind);
    let given = look_up(rt, rt.alloc(), stores, passes, kind, key, now, db)?;
    Ok(Made::Told(reply_bytes(given)))
}

// The reply to the invalidation of the database of this name, which is empty by then.
fn emptied<RT: AllocGlobal + Wait, S: Store>(
    rt: &RT,
    stores: &Databases<S>,
    passes: &mut Databases<S::Pass>,
    name: &[u8],
) -> Result<Made, Served>
    requires { ArePasses S.Store stores.now passes.old }
    ensures passes { ArePasses S.Store stores.now passes.new }
    ensures before { SawMore (passes_at S.Store passes.old) (passes_at S.Store passes.new) }
    ensures others { OthersStay (Invalidate name.now) (passes_at S.Store passes.old) (passes_at S.Store passes.new) }
    ensures made { IfOk result (λ made. IsInvalidateReply (db_named name.now) (passes_at S.Store passes.old) (passes_at S.Store passes.new) (bytes_of made)) }
    ensures refused { IfErr result (IsInvalidateRefusal (db_named name.now) (passes_at S.Store passes.old) (passes_at S.Store passes.new)) }
{
    let Some(db) = Db::named(name) else {
        return Ok(Made::NoDatabase);
    };
    empty(rt, stores, passes, db)?;
    Ok(Made::Done)
}

// The text of the counts.
fn told<RT: AllocGlobal + Wait, S: Store>(
    rt: &RT,
    stores: &Databases<S>,
    passes: &mut Databases<S::Pass>,
) -> Result<Made, Served>
    requires { ArePasses S.Store stores.now passes.old }
    ensures passes { ArePasses S.Store stores.now passes.new }
    ensures before { SawMore (passes_at S.Store passes.old) (passes_at S.Store passes.new) }
    ensures made { IfOk result (λ made. IsStatReply (settings_of S.Store stores.now) (passes_at S.Store passes.new) (bytes_of made)) }
    ensures refused { IfErr result (λ served. served ≡ Served.NoMemory) }
{
    let stats = all_stats(rt, stores, passes)?;
    Ok(Made::Told(stat_text(rt.alloc(), &stats)?))
}
