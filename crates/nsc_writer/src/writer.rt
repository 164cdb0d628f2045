// `Writer`: the one writer of a database, its newest content and its statistics.
ghost use Rattle.std.specs.Prelude.{◌≡◌, true, ◌≤◌, ◌*◌, ◌/◌, ◌==◌, [], ◌∷◌, None, length, IfOk};
ghost use Rattle.std.specs.Arc.{arc_value};
ghost use Rattle.nsc_base.specs.Nodes.{most_words};
ghost use Rattle.nsc_model.specs.declared.record.Record.TheVariants as record_of;
ghost use Rattle.nsc_model.specs.History.{IsPrefix};
ghost use Rattle.nsc_model.specs.Machine.{last_count, new_cache};
ghost use Rattle.nsc_laws.specs.Calls.{Tells};
ghost use Rattle.nsc_words.specs.Layout.{IsLayout, table_words};
ghost use Rattle.nsc_rule.specs.Seats.{informed, rested};
ghost use Rattle.nsc_writer.specs.Writer.{new_writer, stats_of};

use nsc_base::NoMemory;
use nsc_model::{Content, Stats};
use nsc_rule::{Map, Pass, start};
use nsc_shelf::{Mark, Sheet, no_hints};
use nsc_words::{
    ADD_FAILED, CYCLE, EPOCH, FIRST_FREE, HITS, LOADS, Layout, MISSES, NEGATIVE_HITS,
    NEGATIVE_MISSES, SOURCE,
};
use std::alloc::Global;
use std::marker::Model;
use std::sync::Arc;

/// Why a call ends an entry.
#[derive(Clone, Copy, Debug, PartialEq, Eq)]
pub enum Cause {
    /// Its time is over at this moment, in seconds.
    Expired(u64),
    /// It is to be loaded again.
    Replaced,
}

/// The one writer of a database: the newest content, and the words that hold the live entries with the pen that writes them.
#[derive(Drop)]
pub struct Writer {
    pub(crate) sheet: Sheet,
    pub(crate) layout: Layout,
    pub(crate) content: Arc<Content>,
    pub(crate) live: usize,
    pub(crate) mark: Mark,
    // Places of nodes, by the hashes of their requests.
    pub(crate) hints: Vec<u32>,
}

impl Model for Writer {
    ghost use Rattle.std.specs.Arc.{arc_value};
    ghost use Rattle.nsc_writer.specs.Writer.{IsWriter, Writer, writer_of};

    ghost Value = { Writer };

    ghost view = { λ w. writer_of w.sheet w.layout (arc_value w.content) };

    ghost invariant = { λ w. IsWriter w.sheet w.layout (arc_value w.content) w.live w.mark w.hints.items };
}

impl Writer {
    /// A writer of an empty database, and a pass that has seen its history: this content as version 0. All words that its entries
    /// take until it goes over to a larger table are taken here; no other call but that takes memory. Fails only for want of it.
    pub fn new(
        alloc: Global,
        layout: Layout,
        content: Arc<Content>,
    ) -> Result<(Writer, Pass), NoMemory>
        requires { IsLayout layout }
        ensures writer { IfOk result (λ r. r.0 ≡ new_writer r.1.table layout (arc_value content)) }
        ensures pass { IfOk result (λ r. r.1.seen ≡ record_of.Change 0 (arc_value content) ∷ []) }
    {
        let (map, pen, pass) = start(alloc, layout, &content)?;
        let hints = no_hints(alloc, layout)?;
        let writer = Writer {
            sheet: Sheet::new(map, pen),
            layout,
            content,
            live: 0,
            mark: Mark::start(layout),
            hints,
        };
        Ok((writer, pass))
    }

    /// What its history tells, how many words its table has, and that it has no more entries than words for them.
    pub fn learn(&self)
        ensures told { Tells self.now.seen self.now.cache }
        ensures few { self.now.slide ≡ None → length self.now.cache.entries ≤ self.now.layout.arena }
        ensures room { self.now.layout.arena ≤ most_words }
        ensures wide { self.now.table.words ≡ table_words self.now.layout }
    {
        self.sheet.learn();
        self.sheet.map().layout();
    }

    /// The words that it writes.
    pub fn map(&self) -> &Map
        ensures { result.now ≡ record { table = self.now.table; layout = self.now.layout } }
    {
        self.sheet.map()
    }

    /// How often the database was invalidated.
    pub fn epoch(&self) -> u64
        ensures { result ≡ self.now.cache.epoch }
    {
        self.sheet.head(EPOCH)
    }

    /// The number of the newest version.
    pub fn version(&self) -> u64
        ensures { result ≡ self.now.cache.newest_version }
    {
        self.sheet.head(SOURCE)
    }

    /// A pass that has seen the whole history, and knows how often a compaction began or ended.
    pub fn pass(&mut self) -> Pass
        requires { self.old.slide ≡ None }
        ensures same { self.new ≡ self.old }
        ensures pass { result ≡ record { table = self.old.table; seen = self.old.seen; retired = None; searching = rested self.old.cache.cycle } }
    {
        self.sheet.pass()
    }

    /// The pass has seen the whole history then, which begins with what it had seen, and knows how often a compaction began or ended.
    pub fn show(&mut self, pass: &mut Pass)
        requires table { pass.old.table ≡ self.old.table }
        requires still { self.old.slide ≡ None }
        ensures same { self.new ≡ self.old }
        ensures pass { pass.new ≡ record pass.old { seen = self.old.seen; retired = None; searching = informed pass.old.searching self.old.cache.cycle } }
        ensures before { IsPrefix pass.old.seen self.old.seen }
        ensures active { pass.old.retired ≡ None }
    {
        self.sheet.show(pass);
    }

    /// Whether no entry is live.
    pub fn is_empty(&self) -> bool
        ensures { result ≡ (length self.now.cache.entries == 0) }
    {
        self.live == 0
    }

    /// What it counts. A compaction is the beginning and the end of a slide.
    pub fn stats(&self) -> Stats
        requires { self.now.slide ≡ None }
        ensures compactions { 2 * result.compactions ≡ self.now.cache.cycle }
        ensures bound { self.now.cache.cycle ≤ last_count }
        ensures within { self.now.cache.used ≤ self.now.layout.arena }
        ensures value { result ≡ stats_of self.now }
    {
        self.sheet.learn();
        Stats {
            enabled: true,
            hits: self.sheet.head(HITS),
            negative_hits: self.sheet.head(NEGATIVE_HITS),
            misses: self.sheet.head(MISSES),
            negative_misses: self.sheet.head(NEGATIVE_MISSES),
            entries: self.live as u64,
            used: self.used() as u64,
            arena: self.layout.arena as u64,
            invalidations: self.sheet.head(EPOCH),
            compactions: self.sheet.head(CYCLE) / 2,
            addfailed: self.sheet.head(ADD_FAILED),
        }
    }

    // How many entries were inserted.
    pub(crate) fn inserted(&self) -> u64
        ensures value { result ≡ self.now.cache.inserted }
        ensures bound { result ≤ last_count }
    {
        self.sheet.head(LOADS)
    }

    // How many words the entries take, with those that ended since the last compaction.
    pub(crate) fn used(&self) -> usize
        requires { self.now.slide ≡ None }
        ensures value { result ≡ self.now.cache.used }
        ensures bound { result ≤ self.now.layout.arena }
    {
        self.sheet.head(FIRST_FREE) as usize - self.layout.arena_start()
    }
}
