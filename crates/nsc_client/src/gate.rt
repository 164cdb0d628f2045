// `serve_gate`: one connection to the gate, its lines answered in turn, and its outcomes.
ghost use Rattle.std.specs.Prelude.{◌≡◌, ◌<◌, ◌≤◌, ◌^◌, ◌∷◌, [], IfErr, IfOk, OnOk, drop, length};
ghost use Rattle.nsc_outside.specs.StreamAt.{stream_in, stream_out};
ghost use Rattle.nsc_model.specs.Entry.{kept_limit, line_limit};
ghost use Rattle.nsc_client.specs.Gathered.{AnswersEnded, GathersAnswers, IsStopped};
ghost use Rattle.nsc_client.specs.Gate.{AreNamed, ArePasses, SeeMore};
ghost use Rattle.nsc_client.specs.Held.{ComesOrEnds, GivesNone};
ghost use Rattle.nsc_client.specs.Serving.{AnswersAll, ServesGate, gate_over};

use crate::line::cut_at;
use crate::link::LinkFault;
use crate::pending::Pending;
use crate::reading::read_part;
use crate::serving::serve_line;
use nsc_base::Buf;
use nsc_model::{Databases, LINE_LIMIT, Store, next_count};
use nsc_outside::{Sink, Source};
use std::alloc::Global;
use std::sync::Wait;

// A line is longer than that.
const TOO_LONG: Gated = Gated::TooLongLine { length: 1101 };

/// What came of one connection to the gate.
#[derive(Clone, Copy, Debug, PartialEq, Eq)]
pub enum Gated {
    /// The input was read to its end, and each line was answered.
    Done {
        /// How many lines there were, a number that stays at 2^62.
        lines: u64,
    },
    /// A line is longer than a line may be. The lines before it were answered.
    TooLongLine {
        /// How many bytes of it were counted: 1,101.
        length: u64,
    },
    /// The input failed. The whole lines that came were answered.
    ReadFault,
    /// The output failed. A front of the answers may be written.
    WriteFault,
    /// A line was refused. The lines before it were answered.
    Refused(LinkFault),
}

/// Serves one connection to the gate at this moment, in seconds: answers each line of the input in turn. Each request of a line is
/// searched for in place, in the buffer of 65,536 bytes, and looked up where that finds nothing.
pub fn serve_gate<RT: AllocGlobal + Wait, S: Store, R: Source, K: Sink>(
    rt: &RT,
    stores: &Databases<S>,
    passes: &mut Databases<S::Pass>,
    out: &mut Buf,
    conn_in: &mut R,
    conn_out: &mut K,
    now: u64,
) -> Gated
    requires named { AreNamed S.Store stores.now }
    requires passes { ArePasses S.Store stores.now passes.old }
    requires limit { out.old.limit ≡ kept_limit }
    requires moment { now < 2 ^ 62 }
    ensures passes { ArePasses S.Store stores.now passes.new }
    ensures limit { out.new.limit ≡ out.old.limit }
    ensures seen { SeeMore S.Store passes.old passes.new }
    ensures served { ServesGate S.Store stores.now (gate_over R.Source K.Sink passes.old conn_in.old conn_out.old)
        (gate_over R.Source K.Sink passes.new conn_in.new conn_out.new) result }
{
    match serve_lines(rt, stores, passes, out, conn_in, conn_out, now) {
        Ok(lines) => Gated::Done { lines },
        Err(gated) => gated,
    }
}

// Answers each line of the input, and gives their number, which stays at 2^62.
fn serve_lines<RT: AllocGlobal + Wait, S: Store, R: Source, K: Sink>(
    rt: &RT,
    stores: &Databases<S>,
    passes: &mut Databases<S::Pass>,
    out: &mut Buf,
    conn_in: &mut R,
    conn_out: &mut K,
    now: u64,
) -> Result<u64, Gated>
    requires named { AreNamed S.Store stores.now }
    requires passes { ArePasses S.Store stores.now passes.old }
    requires limit { out.old.limit ≡ kept_limit }
    requires moment { now < 2 ^ 62 }
    ensures passes { ArePasses S.Store stores.now passes.new }
    ensures limit { out.new.limit ≡ out.old.limit }
    ensures seen { SeeMore S.Store passes.old passes.new }
    ensures answered { IfOk result (AnswersAll S.Store (gate_over R.Source K.Sink passes.old conn_in.old conn_out.old)
        (gate_over R.Source K.Sink passes.new conn_in.new conn_out.new)) }
    ensures stopped { IfErr result (ServesGate S.Store stores.now (gate_over R.Source K.Sink passes.old conn_in.old conn_out.old)
        (gate_over R.Source K.Sink passes.new conn_in.new conn_out.new)) }
{
    let Ok(mut pending) = Pending::new(rt.alloc()) else {
        return Err(Gated::Refused(LinkFault::NoMemory));
    };
    let mut text = Vec::new(rt.alloc());
    let (rest, lines) = serve_ended(
        rt,
        stores,
        passes,
        out,
        &mut text,
        &mut pending,
        conn_in,
        conn_out,
        now,
    )?;
    let last = rest.as_slice();
    if last.is_empty() {
        return Ok(lines);
    }
    serve_last(
        rt,
        stores,
        passes,
        out,
        &mut text,
        &mut pending,
        conn_out,
        last,
        now,
    )?;
    Ok(next_count(lines))
}

// Answers each line of the input that a newline ends, and gives what comes after the last one, and their number, which stays at 2^62.
// The answers that are pending are written before more is read.
fn serve_ended<RT: AllocGlobal + Wait, S: Store, R: Source, K: Sink>(
    rt: &RT,
    stores: &Databases<S>,
    passes: &mut Databases<S::Pass>,
    out: &mut Buf,
    text: &mut Vec<u8>,
    pending: &mut Pending,
    conn_in: &mut R,
    conn_out: &mut K,
    now: u64,
) -> Result<(Vec<u8>, u64), Gated>
    requires named { AreNamed S.Store stores.now }
    requires passes { ArePasses S.Store stores.now passes.old }
    requires limit { out.old.limit ≡ kept_limit }
    requires empty { pending.old ≡ [] }
    requires moment { now < 2 ^ 62 }
    ensures passes { ArePasses S.Store stores.now passes.new }
    ensures limit { out.new.limit ≡ out.old.limit }
    ensures emptied { OnOk result (pending.new ≡ []) }
    ensures seen { SeeMore S.Store passes.old passes.new }
    ensures answered { IfOk result (λ end. AnswersEnded S.Store (gate_over R.Source K.Sink passes.old conn_in.old conn_out.old)
        (gate_over R.Source K.Sink passes.new conn_in.new conn_out.new) end.1 end.0.items) }
    ensures stopped { IfErr result (ServesGate S.Store stores.now (gate_over R.Source K.Sink passes.old conn_in.old conn_out.old)
        (gate_over R.Source K.Sink passes.new conn_in.new conn_out.new)) }
{
    // The bytes that came, and from where on they are not answered.
    let mut held = Vec::new(rt.alloc());
    let mut at = 0;
    let mut lines = 0;
    for _ in rt.forever() {
        if let Some((line, _)) = cut_at(&held[at..], b'\n') {
            serve_short(rt, stores, passes, out, text, pending, conn_out, line, now)?;
            at += line.len() + 1;
            lines = next_count(lines);
        } else {
            drop_front(&mut held, at);
            at = 0;
            pending.flush(conn_out)?;
            if !read_more(conn_in, &mut held)? {
                return Ok((held, lines));
            }
        }
    }
    unreachable!()
}

// Serves the last line, and writes all answers.
fn serve_last<RT: AllocGlobal + Wait, S: Store, K: Sink>(
    rt: &RT,
    stores: &Databases<S>,
    passes: &mut Databases<S::Pass>,
    out: &mut Buf,
    text: &mut Vec<u8>,
    pending: &mut Pending,
    conn_out: &mut K,
    line: &[u8],
    now: u64,
) -> Result<(), Gated>
    requires named { AreNamed S.Store stores.now }
    requires passes { ArePasses S.Store stores.now passes.old }
    requires limit { out.old.limit ≡ kept_limit }
    requires empty { pending.old ≡ [] }
    requires moment { now < 2 ^ 62 }
    ensures passes { ArePasses S.Store stores.now passes.new }
    ensures limit { out.new.limit ≡ out.old.limit }
    ensures seen { SeeMore S.Store passes.old passes.new }
    ensures served { OnOk result (GathersAnswers S.Store passes.old passes.new (stream_out K.Sink conn_out.old) (stream_out K.Sink conn_out.new) [] [] (line.now ∷ [])) }
    ensures stopped { IfErr result (IsStopped S.Store stores.now passes.old passes.new (stream_out K.Sink conn_out.old) (stream_out K.Sink conn_out.new) [] line.now) }
{
    serve_short(rt, stores, passes, out, text, pending, conn_out, line, now)?;
    pending.flush(conn_out)
}

// Serves a line, unless it is too long.
fn serve_short<RT: AllocGlobal + Wait, S: Store, K: Sink>(
    rt: &RT,
    stores: &Databases<S>,
    passes: &mut Databases<S::Pass>,
    out: &mut Buf,
    text: &mut Vec<u8>,
    pending: &mut Pending,
    conn_out: &mut K,
    line: &[u8],
    now: u64,
) -> Result<(), Gated>
    requires named { AreNamed S.Store stores.now }
    requires passes { ArePasses S.Store stores.now passes.old }
    requires limit { out.old.limit ≡ kept_limit }
    requires moment { now < 2 ^ 62 }
    ensures passes { ArePasses S.Store stores.now passes.new }
    ensures limit { out.new.limit ≡ out.old.limit }
    ensures seen { SeeMore S.Store passes.old passes.new }
    ensures served { OnOk result (GathersAnswers S.Store passes.old passes.new (stream_out K.Sink conn_out.old) (stream_out K.Sink conn_out.new) pending.old pending.new (line.now ∷ [])) }
    ensures stopped { IfErr result (IsStopped S.Store stores.now passes.old passes.new (stream_out K.Sink conn_out.old) (stream_out K.Sink conn_out.new) pending.old line.now) }
{
    if line.len() > LINE_LIMIT {
        pending.flush(conn_out)?;
        return Err(TOO_LONG);
    }
    serve_line(rt, stores, passes, out, text, pending, conn_out, line, now)
}

// Reads more bytes after those that are held, which are the beginning of a line. `false` where the input has ended.
fn read_more<R: Source>(conn_in: &mut R, held: &mut Vec<u8>) -> Result<bool, Gated>
    ensures come { IfOk result (ComesOrEnds (stream_in R.Source conn_in.old) (stream_in R.Source conn_in.new) held.old.items held.new.items) }
    ensures fits { OnOk result (length held.old.items ≤ line_limit) }
    ensures none { IfErr result (GivesNone (stream_in R.Source conn_in.old) (stream_in R.Source conn_in.new) held.old.items) }
{
    if held.len() > LINE_LIMIT {
        return Err(TOO_LONG);
    }
    match read_part(conn_in, held) {
        Ok(more) => Ok(more),
        Err(LinkFault::Failed) => Err(Gated::ReadFault),
        Err(fault) => Err(Gated::Refused(fault)),
    }
}

// Drops `count` bytes at the front.
fn drop_front(held: &mut Vec<u8>, count: usize)
    requires { count ≤ length held.old.items }
    ensures { held.new.items ≡ drop count held.old.items }
{
    held.drain(..count);
}
