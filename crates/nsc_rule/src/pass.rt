// `Pass`: a reader's handle on the shared words, with its part of the history.
ghost use Rattle.std.specs.Prelude.{◌≡◌, ◌+◌, ◌⊎◌, All, Some, IsSome, [], ◌∷◌};
ghost use Rattle.atomic_table.specs.Seated.{TableId};
ghost use Rattle.nsc_model.specs.History.{IsFit, IsPrefix, Legal};
ghost use Rattle.nsc_rule.specs.Seats.{AreOne, informed, retired_by, reading, seen_by, searching_by};

use crate::map::Map;
use crate::plays::{Absorbs, Copies, Meets, Shows};
use crate::view::View;
use atomic_table::Seat;
use nsc_words::CYCLE;
use std::marker::Model;

/// A seat at the words of a database that only reads, with what it has seen of the history, which table it has seen goes
/// on in place of these words, and how far its search has come.
#[derive(Drop)]
pub struct Pass {
    pub(crate) seat: Seat<(), View>,
}

impl Model for Pass {
    ghost use Rattle.std.specs.Prelude.{◌≡◌, All, []};
    ghost use Rattle.nsc_model.specs.History.{IsFit, Legal};
    ghost use Rattle.nsc_rule.specs.Pass.{Pass};
    ghost use Rattle.nsc_rule.specs.Seats.{retired_by, reading, seen_by, searching_by};

    ghost Value = { Pass };

    ghost view = { λ p. record { table = p.seat.table_id; seen = seen_by p.seat.me.0; retired = retired_by p.seat.me.0; searching = searching_by p.seat.me.0 } };

    ghost invariant = { λ p. (p.seat.me ≡ (reading (seen_by p.seat.me.0) (retired_by p.seat.me.0) (searching_by p.seat.me.0), [])) × Legal (seen_by p.seat.me.0) × All IsFit (seen_by p.seat.me.0) };
}

impl Pass {
    // The pass of a seat that has seen this.
    pub(crate) fn new(seat: Seat<(), View>) -> Pass
        requires { (seat.me ≡ (reading (seen_by seat.me.0) (retired_by seat.me.0) (searching_by seat.me.0), [])) × Legal (seen_by seat.me.0) × All IsFit (seen_by seat.me.0) }
        ensures { result ≡ record { table = seat.table_id; seen = seen_by seat.me.0; retired = retired_by seat.me.0; searching = searching_by seat.me.0 } }
    {
        Pass { seat }
    }

    // Its seat.
    pub(crate) fn into_seat(self) -> Seat<(), View>
        ensures seat { (result.table_id ≡ self.table) × (result.me ≡ (reading self.seen self.retired self.searching, [])) }
        ensures legal { Legal self.seen }
        ensures fit { All IsFit self.seen }
    {
        self.seat
    }

    /// What it has seen is legal, and the files of its versions are within their limits.
    pub fn learn(&self)
        ensures legal { Legal self.now.seen }
        ensures fit { All IsFit self.now.seen }
    {
        let _ = &self.seat;
    }

    /// Another pass, which has seen as much and whose search has come as far.
    pub fn split(&mut self, map: &Map) -> Pass
        requires { map.now.table ≡ self.old.table }
        ensures same { self.new ≡ self.old }
        ensures pass { result ≡ self.old }
    {
        Pass::new(map.words().split_seat::<Copies>(&mut self.seat))
    }

    // It has seen what another one has seen, also whether another table goes on, and knows the later CYCLE of the two. Its search stays.
    pub(crate) fn take(&mut self, map: &Map, whole: Pass)
        requires map { map.now.table ≡ self.old.table }
        requires whole { map.now.table ≡ whole.table }
        ensures { self.new ≡ record self.old { seen = whole.seen; retired = whole.retired; searching = informed self.old.searching whole.searching.known } }
    {
        let whole = whole.into_seat();
        map.words().join_seat::<Shows>(&mut self.seat, whole);
    }

    /// Merges `other`: `self.seen` becomes the longer history, which both histories begin, and the searches of `other` are counted in.
    ///
    /// If `self` knows the table that goes on in place of these words, `self.seen` is whole and does not change.
    pub fn meet(&mut self, map: &Map, other: Pass)
        requires map { map.now.table ≡ self.old.table }
        requires other { map.now.table ≡ other.table }
        ensures table { self.new.table ≡ self.old.table }
        ensures before { IsPrefix self.old.seen self.new.seen }
        ensures other { IsPrefix other.seen self.new.seen }
        ensures either { (self.new.seen ≡ self.old.seen) ⊎ (self.new.seen ≡ other.seen) }
        ensures retired { self.new.retired ≡ self.old.retired }
        ensures whole { (newer : TableId) → self.old.retired ≡ Some newer → self.new.seen ≡ self.old.seen }
        ensures one { AreOne other.retired self.old.retired }
        ensures searching { self.new.searching ≡ record self.old.searching { searches = self.old.searching.searches + other.searching.searches } }
    {
        let words = map.words();
        let other = other.into_seat();
        words.join_seat::<Absorbs>(&mut self.seat, other);
        words.load::<Meets>(&mut self.seat, CYCLE);
    }

    /// Counts the searches of `other`, whose history begins `self.seen`: `self` knows the table that goes on in place of these words.
    pub fn absorb(&mut self, map: &Map, other: Pass)
        requires map { map.now.table ≡ self.old.table }
        requires other { map.now.table ≡ other.table }
        requires retired { IsSome self.old.retired }
        ensures pass { self.new ≡ record self.old { searching = record self.old.searching { searches = self.old.searching.searches + other.searching.searches } } }
        ensures other { IsPrefix other.seen self.old.seen }
        ensures one { AreOne other.retired self.old.retired }
    {
        self.meet(map, other);
    }
}
