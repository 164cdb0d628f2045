// Tables that were left.
ghost use Rattle.std.specs.Prelude.{◌≡◌, None, Some};
ghost use Rattle.atomic_table.specs.Seated.{TableId};
ghost use Rattle.nsc_model.specs.History.{IsPrefix};
ghost use Rattle.nsc_rule.specs.Plans.{cycle_of};
ghost use Rattle.nsc_rule.specs.Seats.{informed};

use nsc_rule::{Map, Pass, Pen, carry};
use std::marker::Model;

/// A table that was left, since a newer one goes on in its place: its words with the pen that wrote them, and a pass of the newer one.
#[derive(Drop)]
pub struct Former {
    map: Map,
    pen: Pen,
    newer: Map,
    stock: Pass,
}

impl Model for Former {
    ghost use Rattle.nsc_rule.specs.Plans.{cycle_of};
    ghost use Rattle.nsc_writer.specs.Former.{Former, IsFormer};

    ghost Value = { Former };

    ghost view = { λ f. record { table = f.pen.table; seen = f.pen.plan.seen; cycle = cycle_of f.pen.plan; newer = f.newer; stock = f.stock } };

    ghost invariant = { λ f. IsFormer f.map f.pen f.newer f.stock };
}

impl Former {
    // A table whose pen is retired, and a pass of the one that goes on, which has seen its history and made no search.
    pub(crate) fn new(map: Map, pen: Pen, newer: Map, stock: Pass) -> Former
        requires map { map.table ≡ pen.table }
        requires stock { stock.table ≡ newer.table }
        requires retired { pen.plan.retired ≡ Some newer.table }
        requires active { stock.retired ≡ None }
        requires seen { IsPrefix pen.plan.seen stock.seen }
        requires rested { stock.searching.searches ≡ 0 }
        ensures { result ≡ record { table = pen.table; seen = pen.plan.seen; cycle = cycle_of pen.plan; newer = newer; stock = stock } }
    {
        Former {
            map,
            pen,
            newer,
            stock,
        }
    }

    /// The table that goes on in its place.
    pub fn newer(&self) -> &Map
        ensures { result.now ≡ self.now.newer }
    {
        &self.newer
    }

    /// Where a pass of it has seen a table go on in its place, that is the newer one; and what it has seen, the pass of the newer one has
    /// seen too. The pass stays as it is.
    pub fn agree(&mut self, pass: &mut Pass)
        requires { pass.old.table ≡ self.old.table }
        ensures same { self.new ≡ self.old }
        ensures pass { pass.new ≡ pass.old }
        ensures newer { (newer : TableId) → pass.old.retired ≡ Some newer → newer ≡ self.old.newer.table }
        ensures before { IsPrefix pass.old.seen self.old.stock.seen }
    {
        let mut copy = pass.split(&self.map);
        self.pen.show(&self.map, &mut copy);
    }

    /// A pass of the table that goes on in its place, which has seen all that a pass of it had seen; that one has seen its whole history
    /// then, and which table goes on. It takes no memory.
    pub fn carry(&mut self, pass: &mut Pass) -> Pass
        requires { pass.old.table ≡ self.old.table }
        ensures same { self.new ≡ self.old }
        ensures pass { pass.new ≡ record pass.old { seen = self.old.seen; retired = Some self.old.newer.table; searching = informed pass.old.searching self.old.cycle } }
        ensures carried { result ≡ self.old.stock }
        ensures whole { IsPrefix self.old.seen result.seen }
        ensures table { result.table ≡ self.old.newer.table }
        ensures active { result.retired ≡ None }
        ensures rested { result.searching.searches ≡ 0 }
        ensures before { IsPrefix pass.old.seen result.seen }
    {
        carry(&self.map, pass, &mut self.pen, &self.newer, &mut self.stock)
    }
}
