// A table that goes on in place of another one.
ghost use Rattle.std.specs.Prelude.{◌≡◌, ◌+◌, ◌-◌, ◌++◌, ◌<◌, None, IsSome, replicate, IfOk};
ghost use Rattle.nsc_model.specs.History.{IsPrefix};
ghost use Rattle.nsc_model.specs.Machine.{last_count};
ghost use Rattle.nsc_words.specs.Layout.{IsLayout, table_words};
ghost use Rattle.nsc_rule.specs.Plans.{IsEven, cycle_of, heads_after, succeeding};
ghost use Rattle.nsc_rule.specs.Seats.{informed, rested};

use crate::map::{Map, begin};
use crate::pass::Pass;
use crate::pen::Pen;
use nsc_base::NoMemory;
use nsc_words::{
    ADD_FAILED, CYCLE, EPOCH, HITS, LOADS, Layout, MISSES, NEGATIVE_HITS, NEGATIVE_MISSES, SOURCE,
};
use std::alloc::Global;

/// New words with no node, which can go on in place of those that the pen writes, with a pen of their own and a first pass: they have
/// the pen's history and its counts. CYCLE is odd, so their nodes are stored as in a compaction. Fails only for want of memory.
pub fn succeed(
    alloc: Global,
    map: &Map,
    pen: &mut Pen,
    layout: Layout,
) -> Result<(Map, Pen, Pass), NoMemory>
    requires map { map.now.table ≡ pen.old.table }
    requires sizes { IsLayout layout }
    requires even { IsEven pen.old.plan }
    requires room { cycle_of pen.old.plan < last_count }
    ensures same { pen.new ≡ pen.old }
    ensures map { IfOk result (λ r. r.0.layout ≡ layout) }
    ensures pen { IfOk result (λ r. r.1 ≡ record { table = r.0.table; plan = succeeding layout pen.old.plan }) }
    ensures pass { IfOk result (λ r. r.2 ≡ record { table = r.0.table; seen = pen.old.plan.seen; retired = None; searching = rested (cycle_of pen.old.plan + 1) }) }
{
    pen.learn();
    let heads = loaded_heads(map, pen);
    let words = words_behind(alloc, layout, heads)?;
    begin(alloc, layout, pen.origin(), words.as_slice())
}

// The head words that are counts, as they go on.
fn loaded_heads(map: &Map, pen: &mut Pen) -> [u64; 10]
    requires map { map.now.table ≡ pen.old.table }
    requires room { cycle_of pen.old.plan < last_count }
    ensures same { pen.new ≡ pen.old }
    ensures heads { result ≡ heads_after pen.old.plan.words }
{
    pen.learn();
    [
        pen.load(map, CYCLE) + 1,
        pen.load(map, EPOCH),
        pen.load(map, SOURCE),
        0,
        pen.load(map, LOADS),
        pen.load(map, HITS),
        pen.load(map, NEGATIVE_HITS),
        pen.load(map, MISSES),
        pen.load(map, NEGATIVE_MISSES),
        pen.load(map, ADD_FAILED),
    ]
}

// Words that begin with these, and are 0 behind them.
fn words_behind(alloc: Global, layout: Layout, heads: [u64; 10]) -> Result<Vec<u64>, NoMemory>
    requires { IsLayout layout }
    ensures { IfOk result (λ words. words.items ≡ heads ++ replicate (table_words layout - 10) 0) }
{
    let mut words = Vec::with_capacity(alloc, layout.words())?;
    words.extend_from_slice(&heads)?;
    words.resize(layout.words(), 0)?;
    Ok(words)
}

/// A pass of the newer words, which has seen all that a pass of the older ones had seen, whose pen is retired; that pass has seen their
/// whole history then. It is another one of the stock pass, which has seen this history. It takes no memory.
pub fn carry(map: &Map, old: &mut Pass, retired: &mut Pen, newer: &Map, stock: &mut Pass) -> Pass
    requires old { map.now.table ≡ old.old.table }
    requires pen { map.now.table ≡ retired.old.table }
    requires retired { IsSome retired.old.plan.retired }
    requires newer { newer.now.table ≡ stock.old.table }
    requires seen { IsPrefix retired.old.plan.seen stock.old.seen }
    ensures pen { retired.new ≡ retired.old }
    ensures stock { stock.new ≡ stock.old }
    ensures pass { result ≡ stock.old }
    ensures old { old.new ≡ record old.old { seen = retired.old.plan.seen; retired = retired.old.plan.retired; searching = informed old.old.searching (cycle_of retired.old.plan) } }
    ensures before { IsPrefix old.old.seen retired.old.plan.seen }
    ensures carried { IsPrefix old.old.seen result.seen }
{
    retired.show(map, old);
    stock.split(newer)
}
