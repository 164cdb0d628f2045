// The words of a table, as its one pen writes them.
ghost use Rattle.std.specs.Prelude.{◌≡◌, ◌≢◌, ◌⊎◌, ◌+◌, ◌<◌, ◌≤◌, ◌==◌, if◌then◌else◌, true, None, Some, IfOk, length, slice_index};
ghost use Rattle.std.specs.Bool.{OnTrue, OnFalse};
ghost use Rattle.nsc_words.specs.declared.node.Placed.{Placed};
ghost use Rattle.nsc_words.specs.Layout.{IsLayout};
ghost use Rattle.nsc_model.specs.History.{IsPrefix, NoneLive, loads, newest};
ghost use Rattle.nsc_model.specs.Machine.{last_count, next_count};
ghost use Rattle.nsc_rule.specs.Plans.{IsEven, IsOdd, Sound, cycle_of, end_in, succeeding};
ghost use Rattle.nsc_rule.specs.Seats.{informed, rested};
ghost use Rattle.nsc_rule.specs.Strokes.{HasNode, IsReady, MayEnd, ShowsAgain, begun, changed, cleared, finished};
ghost use Rattle.nsc_rule.specs.Strokes.{invalidation_added, left, node_counted, poll_added, published, reloads_stored, stored};
ghost use Rattle.nsc_shelf.specs.Sheet.{IsEndedFront, IsPassed};

use crate::finding::Found;
use nsc_arena::Words;
use nsc_base::NoMemory;
use nsc_model::{Content, Ending, next_count};
use nsc_rule::{Map, Pass, Pen, succeed};
use nsc_words::{HEAD_WORDS, Layout, NEXT, STATE};
use std::alloc::Global;
use std::marker::Model;

/// The words that the threads of a database share, and the pen that writes them. Each word is written by a step of the pen.
#[derive(Drop)]
pub struct Sheet {
    map: Map,
    pen: Pen,
}

impl Model for Sheet {
    ghost use Rattle.std.specs.Prelude.{◌≡◌, None};
    ghost use Rattle.nsc_rule.specs.Pen.{Pen};

    ghost Value = { Pen };

    ghost view = { λ s. s.pen };

    ghost invariant = { λ s. (s.pen.table ≡ s.map.table) × (s.pen.plan.layout ≡ s.map.layout) × (s.pen.plan.retired ≡ None) };
}

impl Sheet {
    ghost use Rattle.std.specs.Prelude.{None};

    /// The words that a pen writes.
    pub fn new(map: Map, pen: Pen) -> Sheet
        requires table { pen.table ≡ map.table }
        requires layout { pen.plan.layout ≡ map.layout }
        requires active { pen.plan.retired ≡ None }
        ensures { result ≡ pen }
    {
        Sheet { map, pen }
    }

    /// What holds of the pen's plan between any two steps.
    pub fn learn(&self)
        ensures { Sound self.now.plan }
    {
        self.pen.learn();
    }

    /// A handle on the words.
    pub fn map(&self) -> &Map
        ensures { result.now ≡ record { table = self.now.table; layout = self.now.plan.layout } }
    {
        &self.map
    }

    /// A head word. It takes no step.
    pub fn head(&self, at: usize) -> u64
        requires { at < 16 }
        ensures { result ≡ slice_index self.now.plan.words at }
    {
        self.pen.head(at)
    }

    /// A pass that has seen the whole history, and knows CYCLE, with no search.
    pub fn pass(&mut self) -> Pass
        ensures same { self.new ≡ self.old }
        ensures pass { result ≡ record { table = self.old.table; seen = self.old.plan.seen; retired = None; searching = rested (cycle_of self.old.plan) } }
    {
        self.pen.pass(&self.map)
    }

    /// The pass has seen the whole history then, which begins with what it had seen, and knows CYCLE. Its search stays. It had not seen that
    /// other words go on in place of these, since none do.
    pub fn show(&mut self, pass: &mut Pass)
        requires { pass.old.table ≡ self.old.table }
        ensures same { self.new ≡ self.old }
        ensures pass { pass.new ≡ record pass.old { seen = self.old.plan.seen; retired = None; searching = informed pass.old.searching (cycle_of self.old.plan) } }
        ensures before { IsPrefix pass.old.seen self.old.plan.seen }
        ensures active { pass.old.retired ≡ None }
    {
        self.pen.show(&self.map, pass);
    }

    /// Sets a count of lookups or of insertions that found no room: one of the places 5 to 9.
    pub fn set_count(&mut self, at: usize, count: u64)
        requires low { 5 ≤ at }
        requires high { at ≤ 9 }
        ensures { self.new ≡ record self.old { plan = stored at count self.old.plan } }
    {
        self.pen.count(&self.map, at, count);
    }

    /// Counts one more of what the word at a place counts. A count stays at its end.
    pub fn count(&mut self, at: usize)
        requires low { 5 ≤ at }
        requires high { at ≤ 9 }
        ensures { self.new ≡ record self.old { plan = stored at (next_count (slice_index self.old.plan.words at)) self.old.plan } }
    {
        let count = self.head(at);
        self.set_count(at, next_count(count));
    }

    /// Counts a lookup by the word at a place, or by the one behind it where its reply is a not-found one.
    pub fn count_use(&mut self, at: usize, not_found: bool)
        requires low { 5 ≤ at }
        requires high { at ≤ 8 }
        ensures { let place = (if not_found then at + 1 else at) in self.new ≡ record self.old { plan = stored place (next_count (slice_index self.old.plan.words place)) self.old.plan } }
    {
        if not_found {
            self.count(at + 1);
        } else {
            self.count(at);
        }
    }

    /// The reloads of a node that was found count anew. Where they are 0 already, it takes no step.
    pub fn count_anew(&mut self, found: Found)
        requires even { IsEven self.old.plan }
        requires node { HasNode self.old.plan found.at }
        ensures { self.new ≡ (if found.head.reloads == 0 then self.old else record self.old { plan = reloads_stored found.at 0 self.old.plan }) }
    {
        if found.head.reloads != 0 {
            self.pen.reloads(&self.map, found.at, 0);
        }
    }

    /// Links the node that was written behind the others, which adds the record of its insertion.
    pub fn publish(&mut self, bucket: usize, at: usize)
        requires { IsReady self.old.plan bucket at }
        ensures { self.new ≡ record self.old { plan = published bucket at self.old.plan } }
    {
        self.pen.publish(&self.map, bucket, at);
    }

    /// Puts FIRST_FREE right behind the newest node.
    pub fn set_first_free(&mut self, end: u64)
        requires { end ≡ end_in self.old.plan }
        ensures { self.new ≡ record self.old { plan = stored 3 end self.old.plan } }
    {
        self.pen.first_free(&self.map, end);
    }

    /// Makes LOADS count the newest node: its insertion is over. FIRST_FREE was put right before.
    pub fn set_loads(&mut self, count: u64)
        requires behind { slice_index self.old.plan.words 3 ≡ end_in self.old.plan }
        requires all { count ≡ loads self.old.plan.seen }
        ensures { self.new ≡ record self.old { plan = node_counted count self.old.plan } }
    {
        self.pen.loads(&self.map, count);
    }

    /// Ends the usable node at a place, which adds the record of its end.
    pub fn end(&mut self, place: usize, cause: Ending)
        requires even { IsEven self.old.plan }
        requires node { MayEnd self.old.plan place cause }
        ensures { self.new ≡ record self.old { plan = cleared place cause self.old.plan } }
    {
        self.pen.clear_state(&self.map, place, cause);
    }

    /// Takes the first node of a bucket's chain out of the chain, where it ended: the bucket leads where that node led. It is false exactly
    /// where the chain has no node, or a usable one is first; then nothing changed. No insertion is under way.
    pub fn unlink(&mut self, bucket: usize) -> bool
        requires even { IsEven self.old.plan }
        requires counted { self.old.plan.counted ≡ true }
        requires bucket { bucket < self.old.plan.layout.buckets }
        ensures unlinked { OnTrue result ((gone : Placed) × IsEndedFront self.old.plan bucket gone × IsPassed bucket gone self.old self.new) }
        ensures none { OnFalse result ((gone : Placed) → IsEndedFront self.old.plan bucket gone → ⊥) }
        ensures stays { OnFalse result (self.new ≡ self.old) }
    {
        self.pen.learn();
        let from = HEAD_WORDS + bucket;
        let at = self.pen.load(&self.map, from) as usize;
        if at == 0 || self.pen.load(&self.map, at + STATE) == 1 {
            return false;
        }
        let to = self.pen.load(&self.map, at + NEXT);
        self.pen.unlink(&self.map, from, to);
        true
    }

    /// Begins a slide. No insertion is under way.
    pub fn begin(&mut self)
        requires even { IsEven self.old.plan }
        requires counted { self.old.plan.counted ≡ true }
        requires room { slice_index self.old.plan.words 0 < last_count }
        ensures { self.new ≡ record self.old { plan = begun self.old.plan } }
    {
        self.pen.odd(&self.map);
    }

    /// Sets a word of a slide: FIRST_FREE, a bucket's, or one of the arena.
    pub fn slide_word(&mut self, at: usize, word: u64)
        requires odd { IsOdd self.old.plan }
        requires place { (at ≡ 3) ⊎ (16 ≤ at) }
        requires inside { at < length self.old.plan.words }
        ensures { self.new ≡ record self.old { plan = stored at word self.old.plan } }
    {
        self.pen.learn();
        self.pen.slide_word(&self.map, at, word);
    }

    /// Ends a slide, once the words show the live entries again.
    pub fn finish(&mut self)
        requires odd { IsOdd self.old.plan }
        requires slid { ShowsAgain self.old.plan }
        ensures { self.new ≡ record self.old { plan = finished self.old.plan } }
    {
        self.pen.even(&self.map);
    }

    /// New words with no node, which can go on in place of these, and a pass of them that has seen this history: they have the history and
    /// the counts, and a slide is under way in them, by which their nodes are set. Fails only for want of memory.
    pub fn succeed(&mut self, alloc: Global, layout: Layout) -> Result<(Sheet, Pass), NoMemory>
        requires sizes { IsLayout layout }
        requires even { IsEven self.old.plan }
        requires room { cycle_of self.old.plan < last_count }
        ensures same { self.new ≡ self.old }
        ensures sheet { IfOk result (λ r. r.0 ≡ record { table = r.1.table; plan = succeeding layout self.old.plan }) }
        ensures pass { IfOk result (λ r. r.1 ≡ record { table = r.0.table; seen = self.old.plan.seen; retired = None; searching = rested (cycle_of self.old.plan + 1) }) }
    {
        let (map, pen, pass) = succeed(alloc, &self.map, &mut self.pen, layout)?;
        Ok((Sheet { map, pen }, pass))
    }

    /// These words are left, and newer ones go on in their place: CYCLE stays odd for good, and the pen writes no more. No insertion is
    /// under way.
    pub fn retire(self, newer: &Map) -> (Map, Pen)
        requires even { IsEven self.plan }
        requires counted { self.plan.counted ≡ true }
        requires room { slice_index self.plan.words 0 < last_count }
        ensures map { result.0 ≡ record { table = self.table; layout = self.plan.layout } }
        ensures pen { result.1 ≡ record self { plan = left newer.now.table self.plan } }
    {
        let Sheet { map, mut pen } = self;
        pen.retire(&map, newer);
        (map, pen)
    }

    /// Counts an invalidation, and adds its record. No entry is live.
    pub fn invalidate(&mut self)
        requires ended { NoneLive self.old.plan.seen }
        requires room { slice_index self.old.plan.words 1 < last_count }
        ensures { self.new ≡ record self.old { plan = invalidation_added self.old.plan } }
    {
        self.pen.epoch(&self.map);
    }

    /// Adds the record of a poll that confirms the newest version.
    pub fn poll(&mut self)
        ensures { self.new ≡ record self.old { plan = poll_added self.old.plan } }
    {
        self.pen.poll(&self.map);
    }

    /// Adds the record of a new version, which has this content.
    pub fn change(&mut self, content: &Content)
        requires new { newest self.old.plan.seen ≢ Some content.now }
        requires room { slice_index self.old.plan.words 2 < last_count }
        ensures { self.new ≡ record self.old { plan = changed content.now self.old.plan } }
    {
        self.pen.change(&self.map, content);
    }
}

impl Words for Sheet {
    ghost use Rattle.nsc_shelf.specs.Sheet.{is_free, with_cycle_alone};

    ghost words = { λ s. s.plan.words };

    ghost rest = { with_cycle_alone };

    ghost can_set = { is_free };

    fn len(&self) -> usize {
        self.pen.learn();
        self.map.layout().words()
    }

    fn get(&mut self, at: usize) -> u64 {
        self.pen.learn();
        self.pen.load(&self.map, at)
    }

    // A word that stands there already is not stored again: a store takes as long as many loads.
    fn set(&mut self, at: usize, value: u64) {
        self.pen.learn();
        if self.pen.load(&self.map, at) != value {
            self.pen.store(&self.map, at, value);
        }
    }
}
