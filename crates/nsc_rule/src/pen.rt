// `Pen`: the one writer's handle on the shared words.
ghost use Rattle.std.specs.Prelude.{◌≡◌, ℕ, ◌<◌, ◌≤◌, true, [], length, slice_index, slice_set, take};
ghost use Rattle.nsc_model.specs.History.{IsPrefix};
ghost use Rattle.nsc_words.specs.Laid.{Laid};
ghost use Rattle.nsc_words.specs.Layout.{table_words};
ghost use Rattle.nsc_words.specs.declared.layout.Layout.{Layout};
ghost use Rattle.nsc_rule.specs.Plans.{IsEven, Later, Sound, cycle_of, succeeding};
ghost use Rattle.nsc_rule.specs.Strokes.{after};
ghost use Rattle.nsc_rule.specs.Seats.{IsSuccessor, informed, opening_plan, plan_by, rested, writing};

use crate::map::Map;
use crate::pass::Pass;
use crate::plays::{Becomes, Copies, Hears, Learns, Looks, Moves};
use crate::view::{Origin, Stroke, View};
use atomic_table::Seat;
use nsc_words::{CYCLE, HEAD_WORDS};
use std::marker::{Brand, Model};
use std::snapshot::Snapshot;

/// The one seat that writes the words of a database. It has seen the whole history, and knows every word.
#[derive(Drop)]
pub struct Pen {
    seat: Seat<(), View>,
    // The head words, so that they are read without a step.
    heads: [u64; 16],
}

impl Model for Pen {
    ghost use Rattle.nsc_rule.specs.Pen.{IsPenAt, Pen};
    ghost use Rattle.nsc_rule.specs.Seats.{plan_by};

    ghost Value = { Pen };

    ghost view = { λ p. record { table = p.seat.table_id; plan = plan_by p.seat.me.0 } };

    ghost invariant = { λ p. IsPenAt p.seat.me p.seat.table_id.words p.heads };
}

impl Pen {
    // The pen of a seat that has just been dealt.
    pub(crate) fn new(seat: Seat<(), View>, words: &[u64]) -> Pen
        requires seat { seat.me ≡ (writing (plan_by seat.me.0), []) }
        requires sound { Sound (plan_by seat.me.0) }
        requires table { seat.table_id.words ≡ table_words (plan_by seat.me.0).layout }
        requires words { words.now ≡ (plan_by seat.me.0).words }
        ensures { result ≡ record { table = seat.table_id; plan = plan_by seat.me.0 } }
    {
        Pen {
            seat,
            heads: heads_of(words),
        }
    }

    // A table may go on from what it knows.
    pub(crate) fn origin(&self) -> Origin
        ensures { (layout : Layout) → opening_plan layout result ≡ succeeding layout self.now.plan }
    {
        Origin::After(Snapshot::of(&self.seat))
    }

    /// What holds of its plan between any two steps. Where neither an insertion nor a compaction is under way, the words as they stand
    /// hold its nodes.
    pub fn learn(&self)
        ensures sound { Sound self.now.plan }
        ensures table { self.now.table.words ≡ table_words self.now.plan.layout }
        ensures laid { self.now.plan.counted ≡ true → IsEven self.now.plan → Laid self.now.plan.words self.now.plan.layout self.now.plan.nodes }
    {
        let _ = &self.seat;
    }

    /// A head word, by its place from 0 to 15. It takes no step.
    pub fn head(&self, at: usize) -> u64
        requires { at < 16 }
        ensures { result ≡ slice_index self.now.plan.words at }
    {
        self.heads[at]
    }

    /// The word at a place.
    pub fn load(&mut self, map: &Map, at: usize) -> u64
        requires map { map.now.table ≡ self.old.table }
        requires inside { at < table_words self.old.plan.layout }
        ensures word { result ≡ slice_index self.old.plan.words at }
        ensures same { self.new ≡ self.old }
    {
        map.words().load::<Looks>(&mut self.seat, at)
    }

    /// A pass that has seen the whole history, and knows CYCLE, with no search.
    pub fn pass(&mut self, map: &Map) -> Pass
        requires { map.now.table ≡ self.old.table }
        ensures same { self.new ≡ self.old }
        ensures pass { result ≡ record { table = self.old.table; seen = self.old.plan.seen; retired = self.old.plan.retired; searching = rested (cycle_of self.old.plan) } }
    {
        Pass::new(map.words().split_seat::<Copies>(&mut self.seat))
    }

    /// The pass has seen the whole history then, which begins with what it had seen, also which table goes on in place of this one, and
    /// knows CYCLE. Its search stays. Where it had seen a table go on in place of this one, that one does.
    pub fn show(&mut self, map: &Map, pass: &mut Pass)
        requires pen { map.now.table ≡ self.old.table }
        requires pass { map.now.table ≡ pass.old.table }
        ensures same { self.new ≡ self.old }
        ensures pass { pass.new ≡ record pass.old { seen = self.old.plan.seen; retired = self.old.plan.retired; searching = informed pass.old.searching (cycle_of self.old.plan) } }
        ensures before { IsPrefix pass.old.seen self.old.plan.seen }
        ensures successor { IsSuccessor pass.old.retired self.old.plan }
    {
        self.hear(map, pass);
        let whole = self.pass(map);
        pass.take(map, whole);
    }

    // What the pass has seen begins the history, and the table that it has seen goes on in place of this one does.
    fn hear(&mut self, map: &Map, pass: &mut Pass)
        requires pen { map.now.table ≡ self.old.table }
        requires pass { map.now.table ≡ pass.old.table }
        ensures same { self.new ≡ self.old }
        ensures pass { pass.new ≡ pass.old }
        ensures before { IsPrefix pass.old.seen self.old.plan.seen }
        ensures successor { IsSuccessor pass.old.retired self.old.plan }
    {
        let words = map.words();
        let copy = pass.split(map).into_seat();
        words.join_seat::<Hears>(&mut self.seat, copy);
        words.load::<Learns>(&mut self.seat, CYCLE);
    }

    // Stores `word` at `at` in one step; `stroke` says how the plan changes.
    pub(crate) fn write(&mut self, map: &Map, at: usize, word: u64, stroke: &Stroke)
        requires map { map.now.table ≡ self.old.table }
        requires inside { at < table_words self.old.plan.layout }
        requires sound { Sound (after stroke.now at word self.old.plan) }
        requires later { Later self.old.plan (after stroke.now at word self.old.plan) }
        ensures { self.new ≡ record self.old { plan = after stroke.now at word self.old.plan } }
    {
        put::<Brand>(&mut self.seat, map, at, word, stroke);
        if at < HEAD_WORDS {
            self.heads[at] = word;
        }
    }
}

// The head words of a table.
fn heads_of(words: &[u64]) -> [u64; 16]
    requires { 16 ≤ length words.now }
    ensures { result ≡ take 16 words.now }
{
    let mut heads = [0; 16];
    heads.copy_from_slice(&words[..HEAD_WORDS]);
    heads
}

// Writes a word as the plan that is picked wants it.
fn put<J: Becomes>(seat: &mut Seat<(), View>, map: &Map, at: usize, word: u64, stroke: &Stroke)
    requires table { seat.old.table_id ≡ map.now.table }
    requires inside { at < map.now.table.words }
    requires pen { seat.old.me ≡ (writing (plan_by seat.old.me.0), []) }
    requires words { J.plan.words ≡ slice_set (plan_by seat.old.me.0).words at word }
    requires sound { Sound J.plan }
    requires later { Later (plan_by seat.old.me.0) J.plan }
    ensures table { seat.new.table_id ≡ seat.old.table_id }
    ensures pen { seat.new.me ≡ (writing J.plan, []) }
{
    let _ = stroke;
    map.words().store::<Moves<J>>(seat, at, word);
}
