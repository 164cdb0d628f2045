// Answers to lines of a connection to the gate.
ghost use Rattle.std.specs.Prelude.{◌≡◌, ◌<◌, ◌≤◌, ◌^◌, ◌∷◌, [], IfErr, IfOk, OnOk, length};
ghost use Rattle.std.specs.Bool.{OnTrue};
ghost use Rattle.nsc_outside.specs.StreamAt.{stream_out};
ghost use Rattle.nsc_model.specs.Entry.{kept_limit, line_limit};
ghost use Rattle.nsc_client.specs.Exchanges.{AreAnswered};
ghost use Rattle.nsc_client.specs.Gate.{AreNamed, ArePasses, IsRefusal, SeeMore, requests_of};
ghost use Rattle.nsc_client.specs.GateText.{asking_of};
ghost use Rattle.nsc_client.specs.Gathered.{GathersAnswers, IsUnserved};
ghost use Rattle.nsc_client.specs.Hits.{Searches};

use crate::answers::{answer_line, answer_to};
use crate::gate::Gated;
use crate::hits::find_hit;
use crate::line::read_line;
use crate::link::LinkFault;
use crate::pending::Pending;
use crate::spelled::write_hit;
use nsc_base::Buf;
use nsc_model::{Databases, Store};
use nsc_outside::Sink;
use std::alloc::Global;
use std::sync::Wait;

/// Answers a line of at most 1,100 bytes at this moment: the answer is pending or written. Before a lookup, which may wait, the answers
/// that are pending are written. `text` is room for an answer; what it holds is dropped.
pub(crate) fn serve_line<RT: AllocGlobal + Wait, S: Store, K: Sink>(
    rt: &RT,
    stores: &Databases<S>,
    passes: &mut Databases<S::Pass>,
    out: &mut Buf,
    text: &mut Vec<u8>,
    pending: &mut Pending,
    conn_out: &mut K,
    line: &[u8],
    now: u64,
) -> Result<(), Gated>
    requires named { AreNamed S.Store stores.now }
    requires passes { ArePasses S.Store stores.now passes.old }
    requires limit { out.old.limit ≡ kept_limit }
    requires moment { now < 2 ^ 62 }
    requires fits { length line.now ≤ line_limit }
    ensures passes { ArePasses S.Store stores.now passes.new }
    ensures limit { out.new.limit ≡ out.old.limit }
    ensures seen { SeeMore S.Store passes.old passes.new }
    ensures served { OnOk result (GathersAnswers S.Store passes.old passes.new (stream_out K.Sink conn_out.old) (stream_out K.Sink conn_out.new) pending.old pending.new (line.now ∷ [])) }
    ensures unserved { IfErr result (IsUnserved S.Store stores.now passes.old passes.new (stream_out K.Sink conn_out.old) (stream_out K.Sink conn_out.new) pending.old line.now) }
{
    if hit_text(rt.alloc(), stores, passes, out, text, line) {
        return pending.add(conn_out, text.as_slice());
    }
    pending.flush(conn_out)?;
    serve_lookup(rt, stores, passes, out, pending, conn_out, line, now)
}

// Writes the answer to a line in place of what the text holds, if no lookup is wanted. `false` if one is, or if memory is short.
fn hit_text<S: Store>(
    alloc: Global,
    stores: &Databases<S>,
    passes: &mut Databases<S::Pass>,
    out: &mut Buf,
    text: &mut Vec<u8>,
    line: &[u8],
) -> bool
    requires named { AreNamed S.Store stores.now }
    requires passes { ArePasses S.Store stores.now passes.old }
    requires limit { out.old.limit ≡ kept_limit }
    requires fits { length line.now ≤ line_limit }
    ensures passes { ArePasses S.Store stores.now passes.new }
    ensures limit { out.new.limit ≡ out.old.limit }
    ensures seen { SeeMore S.Store passes.old passes.new }
    ensures searched { Searches S.Store passes.old passes.new 0 }
    ensures answered { OnTrue result (AreAnswered S.Store passes.old passes.new (line.now ∷ []) text.new.items) }
{
    let Ok(asking) = read_line(alloc, line) else {
        return false;
    };
    let Some(hit) = find_hit(stores, passes, out, &asking) else {
        return false;
    };
    match write_hit(text, hit, out.bytes()) {
        Ok(()) => true,
        Err(_) => false,
    }
}

// Answers a line by lookups. Nothing is pending.
fn serve_lookup<RT: AllocGlobal + Wait, S: Store, K: Sink>(
    rt: &RT,
    stores: &Databases<S>,
    passes: &mut Databases<S::Pass>,
    out: &mut Buf,
    pending: &mut Pending,
    conn_out: &mut K,
    line: &[u8],
    now: u64,
) -> Result<(), Gated>
    requires named { AreNamed S.Store stores.now }
    requires passes { ArePasses S.Store stores.now passes.old }
    requires limit { out.old.limit ≡ kept_limit }
    requires empty { pending.old ≡ [] }
    requires moment { now < 2 ^ 62 }
    requires fits { length line.now ≤ line_limit }
    ensures passes { ArePasses S.Store stores.now passes.new }
    ensures limit { out.new.limit ≡ out.old.limit }
    ensures seen { SeeMore S.Store passes.old passes.new }
    ensures served { OnOk result (GathersAnswers S.Store passes.old passes.new (stream_out K.Sink conn_out.old) (stream_out K.Sink conn_out.new) [] pending.new (line.now ∷ [])) }
    ensures unserved { IfErr result (IsUnserved S.Store stores.now passes.old passes.new (stream_out K.Sink conn_out.old) (stream_out K.Sink conn_out.new) [] line.now) }
{
    match line_text(rt, rt.alloc(), stores, passes, out, line, now) {
        Ok(text) => pending.add(conn_out, text.as_slice()),
        Err(fault) => Err(Gated::Refused(fault)),
    }
}

// The line that answers a line at this moment.
fn line_text<R: Wait, S: Store>(
    rt: &R,
    alloc: Global,
    stores: &Databases<S>,
    passes: &mut Databases<S::Pass>,
    out: &mut Buf,
    line: &[u8],
    now: u64,
) -> Result<Vec<u8>, LinkFault>
    requires named { AreNamed S.Store stores.now }
    requires passes { ArePasses S.Store stores.now passes.old }
    requires limit { out.old.limit ≡ kept_limit }
    requires moment { now < 2 ^ 62 }
    requires fits { length line.now ≤ line_limit }
    ensures passes { ArePasses S.Store stores.now passes.new }
    ensures limit { out.new.limit ≡ out.old.limit }
    ensures seen { SeeMore S.Store passes.old passes.new }
    ensures answered { IfOk result (λ text. AreAnswered S.Store passes.old passes.new (line.now ∷ []) text.items) }
    ensures refused { IfErr result (IsRefusal S.Store stores.now passes.old passes.new (requests_of (asking_of line.now))) }
{
    let asking = match read_line(alloc, line) {
        Ok(asking) => asking,
        Err(_) => return Err(LinkFault::NoMemory),
    };
    let last = match answer_to(rt, alloc, stores, passes, out, &asking, now) {
        Ok(last) => last,
        Err(fault) => return Err(fault),
    };
    match answer_line(alloc, &last) {
        Ok(text) => Ok(text),
        Err(_) => Err(LinkFault::NoMemory),
    }
}
