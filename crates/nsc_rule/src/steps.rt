// The steps of a search, which takes no lock: each is one load. What a step tells holds where the search is steady: where CYCLE, at the
// step's moment, was what the search began with, and even. CYCLE never falls, so a last load that finds it unchanged tells that all
// steps were steady.
ghost use Rattle.std.specs.Prelude.{◌≡◌, ◌≢◌, ℕ, ◌+◌, ◌%◌, ◌<◌, ◌≤◌, ◌==◌, not, [], Some, slice_index};
ghost use Rattle.atomic_table.specs.Seated.{TableId};
ghost use Rattle.nsc_model.specs.Entry.{Entry};
ghost use Rattle.nsc_model.specs.History.{IsLive, IsPrefix};
ghost use Rattle.nsc_model.specs.Machine.{last_count};
ghost use Rattle.nsc_model.specs.declared.answer.Request.{Request};
ghost use Rattle.nsc_words.specs.Layout.{table_words};
ghost use Rattle.nsc_rule.specs.declared.view.Plan.{Plan};
ghost use Rattle.nsc_rule.specs.declared.view.View.{View};
ghost use Rattle.nsc_rule.specs.Entries.{request_bucket};
ghost use Rattle.nsc_rule.specs.Plans.{Sound};
ghost use Rattle.nsc_rule.specs.Seats.{Fits};
ghost use Rattle.nsc_rule.specs.Searches.{IsFixed, IsSteady, Lands, MayPass, NoneOlder, begun_search};

use crate::map::Map;
use crate::pass::Pass;
use crate::plays::{Searches, Tells};
use crate::view::View;
use atomic_table::Seat;
use nsc_words::CYCLE;
use std::marker::Brand;

impl Pass {
    /// Begins a search for a request, which is picked at the call: loads CYCLE, and has seen the whole history. CYCLE is odd where it had
    /// seen that another table goes on in place of these words.
    pub fn first_cycle(&mut self, map: &Map) -> u64
        ghost request: { Request }
        requires { map.now.table ≡ self.old.table }
        ensures table { self.new.table ≡ self.old.table }
        ensures retired { self.new.retired ≡ self.old.retired }
        ensures before { IsPrefix self.old.seen self.new.seen }
        ensures searching { self.new.searching ≡ begun_search map.now.layout request self.new.seen result self.old.searching }
        ensures known { self.old.searching.known ≤ result }
        ensures most { result ≤ last_count }
        ensures left { (newer : TableId) → self.old.retired ≡ Some newer → result % 2 ≡ 1 }
    {
        look::<Brand>(&mut self.seat, map, CYCLE)
    }

    /// Loads the word of the request's bucket, and goes to the node to which it leads.
    pub fn bucket(&mut self, map: &Map, bucket: usize) -> u64
        requires map { map.now.table ≡ self.old.table }
        requires bucket { bucket ≡ request_bucket map.now.layout self.old.searching.request }
        ensures table { self.new.table ≡ self.old.table }
        ensures retired { self.new.retired ≡ self.old.retired }
        ensures seen { self.new.seen ≡ self.old.seen }
        ensures lands { Lands map.now.layout self.old.searching self.new.searching result }
    {
        map.layout();
        look::<Brand>(&mut self.seat, map, bucket)
    }

    /// Loads a word, which is a fixed one of the node where the search stands.
    pub fn fixed(&mut self, map: &Map, at: usize) -> u64
        requires map { map.now.table ≡ self.old.table }
        requires inside { at < table_words map.now.layout }
        ensures pass { self.new ≡ record self.old { searching = record self.old.searching { steps = self.old.searching.steps + 1; known = self.new.searching.known } } }
        ensures known { self.old.searching.known ≤ self.new.searching.known }
        ensures fixed { IsSteady self.new.searching → (e : Entry) (index : ℕ) → self.old.searching.on ≡ Some e → at ≡ self.old.searching.place + index → IsFixed e index result }
    {
        look::<Brand>(&mut self.seat, map, at)
    }

    /// Loads the NEXT of the node where the search stands, and goes to the node to which it leads. Its entry is of another request, or was
    /// found ended.
    pub fn next(&mut self, map: &Map, at: usize) -> u64
        requires map { map.now.table ≡ self.old.table }
        requires place { at ≡ self.old.searching.place + 7 }
        requires inside { at < table_words map.now.layout }
        requires passed { MayPass self.old.searching }
        ensures table { self.new.table ≡ self.old.table }
        ensures retired { self.new.retired ≡ self.old.retired }
        ensures seen { self.new.seen ≡ self.old.seen }
        ensures lands { Lands map.now.layout self.old.searching self.new.searching result }
        ensures lower { IsSteady self.new.searching → result < self.old.searching.place }
    {
        look::<Brand>(&mut self.seat, map, at)
    }

    /// Loads the STATE of the node where the search stands, and has seen the whole history: where it is 1, the entry is live in that.
    pub fn state(&mut self, map: &Map, at: usize) -> u64
        requires map { map.now.table ≡ self.old.table }
        requires place { at ≡ self.old.searching.place + 6 }
        requires inside { at < table_words map.now.layout }
        ensures table { self.new.table ≡ self.old.table }
        ensures retired { self.new.retired ≡ self.old.retired }
        ensures before { IsPrefix self.old.seen self.new.seen }
        ensures searching { self.new.searching ≡ record self.old.searching { steps = self.old.searching.steps + 1; known = self.new.searching.known; gone = not (result == 1) } }
        ensures known { self.old.searching.known ≤ self.new.searching.known }
        ensures live { IsSteady self.new.searching → (e : Entry) → self.old.searching.on ≡ Some e → result ≡ 1 → IsLive self.new.seen e }
    {
        look::<Brand>(&mut self.seat, map, at)
    }

    /// Ends a search: loads CYCLE, and has seen the whole history. Where the search has come to 0, no live entry of the request is older
    /// than the search.
    pub fn last_cycle(&mut self, map: &Map) -> u64
        requires { map.now.table ≡ self.old.table }
        ensures table { self.new.table ≡ self.old.table }
        ensures retired { self.new.retired ≡ self.old.retired }
        ensures before { IsPrefix self.old.seen self.new.seen }
        ensures searching { self.new.searching ≡ record self.old.searching { steps = self.old.searching.steps + 1; known = result; last = result } }
        ensures first { self.old.searching.first ≤ self.old.searching.known }
        ensures known { self.old.searching.known ≤ result }
        ensures most { result ≤ last_count }
        ensures none { IsSteady self.new.searching → self.old.searching.place ≡ 0 → NoneOlder self.new.seen self.old.searching }
    {
        look::<Brand>(&mut self.seat, map, CYCLE)
    }
}

// Loads a word, which tells what is picked.
fn look<J: Tells>(seat: &mut Seat<(), View>, map: &Map, at: usize) -> u64
    requires table { seat.old.table_id ≡ map.now.table }
    requires inside { at < table_words map.now.layout }
    requires none { seat.old.me.1 ≡ [] }
    requires tells { (p : Plan) → Sound p → p.layout ≡ map.now.layout → Fits p seat.old.id seat.old.me.0 → (w : View) × Fits p seat.old.id w × J.told (slice_index p.words at) w }
    ensures table { seat.new.table_id ≡ seat.old.table_id }
    ensures none { seat.new.me.1 ≡ [] }
    ensures told { J.told result seat.new.me.0 }
{
    map.words().load::<Searches<J>>(seat, at)
}
