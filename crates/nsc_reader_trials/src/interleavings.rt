// All interleavings of one search with one insertion, one end, one compaction and one invalidation.
ghost use Rattle.std.specs.Prelude.{◌≡◌, IfOk, None};

use crate::bench::Bench;
use crate::crowd::{Crowd, Tally};
use crate::replies::Replies;
use crate::rows::wanting;
use crate::stage::Stage;
use nsc_base::NoMemory;
use nsc_words::Layout;
use std::alloc::Global;
use std::io;
use std::io::Print;
use std::sync::Arc;

// Two buckets, with three entries each.
const TWO_CHAINS: Layout = Layout {
    buckets: 2,
    arena: 128,
};

// Each of the first users has an entry, and the last one has none.
const ENTRIES: u32 = 6;

const LAST_USER: u32 = 6;

// Whose entry ends. It is the first of its chain.
const ENDED: u32 = 4;

/// Walks all interleavings, and prints how many there are, and with how many wrong answers. Fails for want of memory too.
pub fn show_interleavings<R: Print>(rt: &R, alloc: Global) -> io::Result<()> {
    let tally = all_orders(alloc).map_err(wanting)?;
    println!(rt;
        "interleavings: {}, wrong answers: {}",
        tally.ways(),
        tally.wrong
    )?;
    println!(rt;
        "  hits: {}, none: {}, odd: {}, moved: {}",
        tally.hits, tally.none, tally.odd, tally.moved
    )
}

// Those of the calls in each order.
fn all_orders(alloc: Global) -> Result<Tally, NoMemory> {
    let replies = Arc::new(alloc, Replies::new(alloc, 0)?)?;
    let mut all = Tally::NOTHING;
    for code in 0..256 {
        let calls = [code / 64, code / 16 % 4, code / 4 % 4, code % 4];
        if has_each(calls) {
            all.add(one_order(alloc, &replies, calls)?);
        }
    }
    Ok(all)
}

// Whether these are four different calls.
fn has_each(calls: [u32; 4]) -> bool {
    for call in 0..4 {
        if !calls.contains(&call) {
            return false;
        }
    }
    true
}

// Those of the calls in one order.
fn one_order(alloc: Global, replies: &Arc<Replies>, calls: [u32; 4]) -> Result<Tally, NoMemory> {
    let mut stage = filled(alloc, replies)?;
    make_call(&mut stage, calls[0]);
    make_call(&mut stage, calls[1]);
    make_call(&mut stage, calls[2]);
    make_call(&mut stage, calls[3]);
    stage.finish().ok_or(NoMemory)
}

// Makes one of the four calls.
fn make_call(stage: &mut Stage, call: u32)
    requires { stage.old.slide ≡ None }
    ensures { stage.new.slide ≡ None }
{
    match call {
        0 => stage.insert(ENDED, LAST_USER),
        1 => {
            stage.end(u64::from(ENDED));
            stage.unlink(0);
            stage.unlink(1);
        }
        2 => stage.compact(),
        _ => stage.invalidate(),
    }
}

// Six entries, and a search of each of their users and of one more.
fn filled(alloc: Global, replies: &Arc<Replies>) -> Result<Stage, NoMemory>
    ensures { IfOk result (λ stage. stage.slide ≡ None) }
{
    let mut bench = Bench::new(alloc, TWO_CHAINS, 0)?;
    for user in 0..ENTRIES {
        bench.insert(alloc, user)?;
    }
    let mut crowds = Vec::new(alloc);
    for user in 0..=LAST_USER {
        let reader = bench.reader(alloc, user)?;
        crowds.push(Crowd::new(alloc, user, reader, replies.clone()?)?)?;
    }
    let files = bench.files()?;
    Ok(Stage::new(alloc, bench.into_writer(), files, crowds))
}
