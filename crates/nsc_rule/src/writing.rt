// The steps of the pen that write a word.
ghost use Rattle.std.specs.Prelude.{◌≡◌, ◌≢◌, ℕ, ◌+◌, ◌<◌, ◌≤◌, true, None, Some, ◌⊎◌, slice_index};
ghost use Rattle.nsc_model.specs.History.{NoneLive, loads, newest};
ghost use Rattle.nsc_model.specs.Machine.{last_count};
ghost use Rattle.nsc_words.specs.Layout.{table_words};
ghost use Rattle.nsc_rule.specs.Plans.{IsEven, IsOdd, end_in};
ghost use Rattle.nsc_rule.specs.Strokes.{HasNode, IsFree, IsReady, MayEnd, MayUnlink, ShowsAgain};
ghost use Rattle.nsc_rule.specs.Strokes.{begun, changed, cleared, finished, invalidation_added, left, node_counted, poll_added};
ghost use Rattle.nsc_rule.specs.Strokes.{published, reloads_stored, stored};

use crate::map::Map;
use crate::pen::Pen;
use crate::view::Stroke;
use nsc_model::{Content, Ending};
use nsc_words::{CYCLE, EPOCH, FIRST_FREE, LOADS, RELOADS, SOURCE, STATE};
use std::snapshot::Snapshot;

impl Pen {
    /// Stores a word behind the nodes, where nothing counts yet.
    pub fn store(&mut self, map: &Map, at: usize, word: u64)
        requires map { map.now.table ≡ self.old.table }
        requires active { self.old.plan.retired ≡ None }
        requires free { IsFree self.old.plan at }
        ensures { self.new ≡ record self.old { plan = stored at word self.old.plan } }
    {
        self.learn();
        self.write(map, at, word, &Stroke::Plain);
    }

    /// Stores a count of lookups or of insertions that found no room: one of the places 5 to 9.
    pub fn count(&mut self, map: &Map, at: usize, word: u64)
        requires map { map.now.table ≡ self.old.table }
        requires active { self.old.plan.retired ≡ None }
        requires low { 5 ≤ at }
        requires high { at ≤ 9 }
        ensures { self.new ≡ record self.old { plan = stored at word self.old.plan } }
    {
        self.learn();
        self.write(map, at, word, &Stroke::Plain);
    }

    /// Stores how often the node at a place was reloaded without a use.
    pub fn reloads(&mut self, map: &Map, place: usize, count: u64)
        requires map { map.now.table ≡ self.old.table }
        requires active { self.old.plan.retired ≡ None }
        requires even { IsEven self.old.plan }
        requires node { HasNode self.old.plan place }
        ensures { self.new ≡ record self.old { plan = reloads_stored place count self.old.plan } }
    {
        self.learn();
        self.write(map, place + RELOADS, count, &Stroke::Reloads { place });
    }

    /// Links the node that was written behind the others: its bucket leads to it. That adds the record of its insertion.
    pub fn publish(&mut self, map: &Map, bucket: usize, at: usize)
        requires map { map.now.table ≡ self.old.table }
        requires active { self.old.plan.retired ≡ None }
        requires ready { IsReady self.old.plan bucket at }
        ensures { self.new ≡ record self.old { plan = published bucket at self.old.plan } }
    {
        self.learn();
        self.write(map, bucket, at as u64, &Stroke::Publish);
    }

    /// Puts FIRST_FREE right behind the newest node.
    pub fn first_free(&mut self, map: &Map, end: u64)
        requires map { map.now.table ≡ self.old.table }
        requires active { self.old.plan.retired ≡ None }
        requires behind { end ≡ end_in self.old.plan }
        ensures { self.new ≡ record self.old { plan = stored 3 end self.old.plan } }
    {
        self.learn();
        self.write(map, FIRST_FREE, end, &Stroke::Plain);
    }

    /// Makes LOADS count the newest node: its insertion is over. FIRST_FREE was put right before.
    pub fn loads(&mut self, map: &Map, count: u64)
        requires map { map.now.table ≡ self.old.table }
        requires active { self.old.plan.retired ≡ None }
        requires behind { slice_index self.old.plan.words 3 ≡ end_in self.old.plan }
        requires all { count ≡ loads self.old.plan.seen }
        ensures { self.new ≡ record self.old { plan = node_counted count self.old.plan } }
    {
        self.learn();
        self.write(map, LOADS, count, &Stroke::Counted);
    }

    /// Ends the usable node at a place. That adds the record of its end.
    pub fn clear_state(&mut self, map: &Map, place: usize, cause: Ending)
        requires map { map.now.table ≡ self.old.table }
        requires active { self.old.plan.retired ≡ None }
        requires even { IsEven self.old.plan }
        requires node { MayEnd self.old.plan place cause }
        ensures { self.new ≡ record self.old { plan = cleared place cause self.old.plan } }
    {
        self.learn();
        self.write(map, place + STATE, 0, &Stroke::End { place, cause });
    }

    /// Makes a word of a chain that leads to an ended node lead past it.
    pub fn unlink(&mut self, map: &Map, from: usize, to: u64)
        requires map { map.now.table ≡ self.old.table }
        requires active { self.old.plan.retired ≡ None }
        requires link { MayUnlink self.old.plan from to }
        ensures { self.new ≡ record self.old { plan = stored from to self.old.plan } }
    {
        self.learn();
        self.write(map, from, to, &Stroke::Plain);
    }

    /// Begins a compaction. No insertion is under way.
    pub fn odd(&mut self, map: &Map)
        requires map { map.now.table ≡ self.old.table }
        requires active { self.old.plan.retired ≡ None }
        requires even { IsEven self.old.plan }
        requires counted { self.old.plan.counted ≡ true }
        requires room { slice_index self.old.plan.words 0 < last_count }
        ensures { self.new ≡ record self.old { plan = begun self.old.plan } }
    {
        self.learn();
        let cycle = self.head(CYCLE);
        self.write(map, CYCLE, cycle + 1, &Stroke::Plain);
    }

    /// A newer table goes on in place of this one: CYCLE stays odd for good, and no further step writes. No insertion is under way.
    pub fn retire(&mut self, map: &Map, newer: &Map)
        requires map { map.now.table ≡ self.old.table }
        requires active { self.old.plan.retired ≡ None }
        requires even { IsEven self.old.plan }
        requires counted { self.old.plan.counted ≡ true }
        requires room { slice_index self.old.plan.words 0 < last_count }
        ensures { self.new ≡ record self.old { plan = left newer.now.table self.old.plan } }
    {
        self.learn();
        let cycle = self.head(CYCLE);
        let newer = Snapshot::of(newer);
        self.write(map, CYCLE, cycle + 1, &Stroke::Retire { newer });
    }

    /// Stores a word of a compaction: FIRST_FREE, a bucket's, or one of the arena.
    pub fn slide_word(&mut self, map: &Map, at: usize, word: u64)
        requires map { map.now.table ≡ self.old.table }
        requires active { self.old.plan.retired ≡ None }
        requires odd { IsOdd self.old.plan }
        requires place { (at ≡ 3) ⊎ (16 ≤ at) }
        requires inside { at < table_words self.old.plan.layout }
        ensures { self.new ≡ record self.old { plan = stored at word self.old.plan } }
    {
        self.learn();
        self.write(map, at, word, &Stroke::Plain);
    }

    /// Ends a compaction, once the words show the live entries again.
    pub fn even(&mut self, map: &Map)
        requires map { map.now.table ≡ self.old.table }
        requires active { self.old.plan.retired ≡ None }
        requires odd { IsOdd self.old.plan }
        requires slid { ShowsAgain self.old.plan }
        ensures { self.new ≡ record self.old { plan = finished self.old.plan } }
    {
        self.learn();
        let cycle = self.head(CYCLE);
        self.write(map, CYCLE, cycle + 1, &Stroke::Even);
    }

    /// Counts an invalidation, and adds its record. No entry is live.
    pub fn epoch(&mut self, map: &Map)
        requires map { map.now.table ≡ self.old.table }
        requires active { self.old.plan.retired ≡ None }
        requires ended { NoneLive self.old.plan.seen }
        requires room { slice_index self.old.plan.words 1 < last_count }
        ensures { self.new ≡ record self.old { plan = invalidation_added self.old.plan } }
    {
        self.learn();
        let epoch = self.head(EPOCH);
        self.write(map, EPOCH, epoch + 1, &Stroke::Invalid);
    }

    /// Adds the record of a poll that confirms the newest version.
    pub fn poll(&mut self, map: &Map)
        requires map { map.now.table ≡ self.old.table }
        requires active { self.old.plan.retired ≡ None }
        ensures { self.new ≡ record self.old { plan = poll_added self.old.plan } }
    {
        self.learn();
        let version = self.head(SOURCE);
        self.write(map, SOURCE, version, &Stroke::Poll);
    }

    /// Adds the record of a new version, which has this content.
    pub fn change(&mut self, map: &Map, content: &Content)
        requires map { map.now.table ≡ self.old.table }
        requires active { self.old.plan.retired ≡ None }
        requires new { newest self.old.plan.seen ≢ Some content.now }
        requires room { slice_index self.old.plan.words 2 < last_count }
        ensures { self.new ≡ record self.old { plan = changed content.now self.old.plan } }
    {
        self.learn();
        content.learn();
        let version = self.head(SOURCE);
        let content = Snapshot::of(content);
        self.write(map, SOURCE, version + 1, &Stroke::Change { content });
    }
}
