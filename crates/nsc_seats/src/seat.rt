// A caller's seat at one table.
ghost use Rattle.std.specs.Prelude.{◌≡◌, ◌+◌, ◌⊎◌, ◌≤◌, All, IfOk, OnErr, None, Some, IsSome, length};
ghost use Rattle.std.specs.Bool.{OnTrue};
ghost use Rattle.std.specs.Option.{is_some};
ghost use Rattle.atomic_table.specs.Seated.{TableId};
ghost use Rattle.nsc_model.specs.Entry.{key_limit, kept_limit};
ghost use Rattle.nsc_model.specs.History.{IsFit, IsPrefix, Legal};
ghost use Rattle.nsc_model.specs.InPlace.{InPlaceClause, IsOdd};
ghost use Rattle.nsc_model.specs.Machine.{last_count};
ghost use Rattle.nsc_rule.specs.Seats.{AreOne, informed};

use nsc_base::{Buf, NoMemory};
use nsc_model::{InPlace, Kind, Sought};
use nsc_reader::{search, seek};
use nsc_rule::{Map, Pass};
use nsc_writer::{Former, Writer};
use std::marker::Model;

/// A pass, with a handle on the words of its table.
#[derive(Drop)]
pub struct Seat {
    map: Map,
    pass: Pass,
}

impl Model for Seat {
    ghost use Rattle.std.specs.Prelude.{◌≡◌};
    ghost use Rattle.nsc_rule.specs.Pass.{Pass};

    ghost Value = { Pass };

    ghost view = { λ s. s.pass };

    ghost invariant = { λ s. s.map.table ≡ s.pass.table };
}

impl Seat {
    /// The seat of a pass at this table.
    pub fn new(map: Map, pass: Pass) -> Seat
        requires { map.table ≡ pass.table }
        ensures { result ≡ pass }
    {
        Seat { map, pass }
    }

    /// What it has seen is legal, and the files of its versions are within their limits.
    pub fn learn(&self)
        ensures legal { Legal self.now.seen }
        ensures fit { All IsFit self.now.seen }
    {
        self.pass.learn();
    }

    /// Another one, which has seen as much. Fails only for want of memory.
    pub fn split(&mut self) -> Result<Seat, NoMemory>
        ensures same { self.new ≡ self.old }
        ensures seat { IfOk result (λ seat. seat ≡ self.old) }
    {
        let map = self.map.share()?;
        let pass = self.pass.split(&self.map);
        Ok(Seat { map, pass })
    }

    /// Where it has seen that a table goes on in place of its own, that is this one's, which is known to have seen no less.
    pub fn agree(&mut self, left: &mut Former)
        requires { self.old.table ≡ left.old.table }
        ensures same { self.new ≡ self.old }
        ensures left { left.new ≡ left.old }
        ensures newer { (newer : TableId) → self.old.retired ≡ Some newer → newer ≡ left.old.newer.table }
        ensures before { IsPrefix self.old.seen left.old.stock.seen }
    {
        left.agree(&mut self.pass);
    }

    /// Another seat, at the table that goes on in place of this one, which has seen all that this one had seen. This one has seen the
    /// whole history of its table then. Fails only for want of memory.
    pub fn go_on(&mut self, left: &mut Former) -> Result<Seat, NoMemory>
        requires { self.old.table ≡ left.old.table }
        ensures left { left.new ≡ left.old }
        ensures former { IfOk result (λ newer. self.new ≡ record self.old { seen = left.old.seen; retired = Some left.old.newer.table; searching = informed self.old.searching left.old.cycle }) }
        ensures carried { IfOk result (λ newer. newer ≡ left.old.stock) }
        ensures table { IfOk result (λ newer. newer.table ≡ left.old.newer.table) }
        ensures whole { IfOk result (λ newer. IsPrefix left.old.seen newer.seen) }
        ensures before { IfOk result (λ newer. IsPrefix self.old.seen newer.seen) }
        ensures rested { IfOk result (λ newer. newer.searching.searches ≡ 0) }
        ensures stays { OnErr result (self.new ≡ self.old) }
    {
        let map = left.newer().share()?;
        let pass = left.carry(&mut self.pass);
        Ok(Seat { map, pass })
    }

    /// It has seen the whole history then, which begins with what it had seen, and knows CYCLE.
    pub fn show(&mut self, writer: &mut Writer)
        requires table { self.old.table ≡ writer.old.table }
        requires still { writer.old.slide ≡ None }
        ensures writer { writer.new ≡ writer.old }
        ensures seat { self.new ≡ record self.old { seen = writer.old.seen; retired = None; searching = informed self.old.searching writer.old.cache.cycle } }
        ensures before { IsPrefix self.old.seen writer.old.seen }
        ensures active { self.old.retired ≡ None }
    {
        writer.show(&mut self.pass);
    }

    /// It counts the searches of another one too, which had seen no more: it has seen that a table goes on in place of its own, and where
    /// the other one had seen that too, it is the same.
    pub fn absorb(&mut self, other: &mut Seat)
        requires other { other.old.table ≡ self.old.table }
        requires retired { IsSome self.old.retired }
        ensures seat { self.new ≡ record self.old { searching = record self.old.searching { searches = self.old.searching.searches + other.old.searching.searches } } }
        ensures same { other.new ≡ other.old }
        ensures other { IsPrefix other.old.seen self.old.seen }
        ensures one { AreOne other.old.retired self.old.retired }
    {
        let pass = other.pass.split(&other.map);
        self.pass.absorb(&self.map, pass);
    }

    /// Merges `other`, a seat at this table: `self.seen` becomes the longer history, which both histories begin, and the searches of
    /// `other` are counted in.
    pub fn meet(&mut self, other: Seat)
        requires { other.table ≡ self.old.table }
        ensures table { self.new.table ≡ self.old.table }
        ensures before { IsPrefix self.old.seen self.new.seen }
        ensures other { IsPrefix other.seen self.new.seen }
        ensures searching { self.new.searching ≡ record self.old.searching { searches = self.old.searching.searches + other.searching.searches } }
    {
        let Seat { map: _, pass } = other;
        self.pass.meet(&self.map, pass);
    }

    /// Searches its table for the live entry of the request of this kind and key, whose reply the buffer has then.
    pub fn search(&mut self, kind: Kind, key: &[u8], out: &mut Buf) -> InPlace
        requires key { length key.now ≤ key_limit }
        requires limit { out.old.limit ≡ kept_limit }
        ensures table { self.new.table ≡ self.old.table }
        ensures limit { out.new.limit ≡ out.old.limit }
        ensures before { IsPrefix self.old.seen self.new.seen }
        ensures searches { self.new.searching.searches ≡ self.old.searching.searches + 1 }
        ensures answer { InPlaceClause self.old.seen self.new.seen (record { kind = kind; key = key.now }) self.new.searching.first self.new.searching.last out.new.content result }
        ensures left { OnTrue (is_some self.old.retired) (IsOdd result) }
    {
        search(&mut self.pass, &self.map, kind, key, out)
    }

    /// Searches as `search` does, and says whether the entry that answers was loaded again since it was used last. Nothing is promised
    /// of that.
    pub fn seek(&mut self, kind: Kind, key: &[u8], out: &mut Buf) -> Sought
        requires key { length key.now ≤ key_limit }
        requires limit { out.old.limit ≡ kept_limit }
        ensures table { self.new.table ≡ self.old.table }
        ensures limit { out.new.limit ≡ out.old.limit }
        ensures before { IsPrefix self.old.seen self.new.seen }
        ensures searches { self.new.searching.searches ≡ self.old.searching.searches + 1 }
        ensures answer { InPlaceClause self.old.seen self.new.seen (record { kind = kind; key = key.now }) self.new.searching.first self.new.searching.last out.new.content result.answer }
        ensures left { OnTrue (is_some self.old.retired) (IsOdd result.answer) }
    {
        seek(&mut self.pass, &self.map, kind, key, out)
    }

    /// Loads CYCLE, as the first load of a search.
    pub fn look_at_cycle(&mut self)
        ensures table { self.new.table ≡ self.old.table }
        ensures before { IsPrefix self.old.seen self.new.seen }
        ensures searches { self.new.searching.searches ≡ self.old.searching.searches + 1 }
        ensures known { self.old.searching.known ≤ self.new.searching.last }
        ensures most { self.new.searching.last ≤ last_count }
    {
        let _cycle = self.pass.first_cycle(&self.map);
    }
}
