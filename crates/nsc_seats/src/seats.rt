// `Seats`: a caller's handles at all tables, from the first to the present table.
ghost use Rattle.std.specs.Prelude.{◌≡◌, ◌+◌, ◌<◌, ◌≤◌, All, IfOk, OnOk, OnErr, None, Some, length, slice_index_or};
ghost use Rattle.std.specs.Bool.{OnTrue};
ghost use Rattle.std.specs.Option.{is_some};
ghost use Rattle.nsc_model.specs.Entry.{key_limit, kept_limit};
ghost use Rattle.nsc_model.specs.History.{IsFit, IsPrefix, Legal};
ghost use Rattle.nsc_model.specs.InPlace.{InPlaceClause, IsOdd};
ghost use Rattle.nsc_model.specs.Machine.{last_count};
ghost use Rattle.nsc_rule.specs.Seats.{informed};
ghost use Rattle.atomic_table.specs.Seated.{TableId};
ghost use Rattle.nsc_seats.specs.Seats.{AreAt, AreSeats, IsBefore, first_of, searches_of, seated};
ghost use Rattle.nsc_seats.specs.Tables.{IsChain};

use crate::left::Left;
use crate::seat::Seat;
use nsc_base::{Buf, NoMemory};
use nsc_model::{InPlace, Kind, Sought};
use nsc_rule::{Map, Pass};
use nsc_writer::Writer;
use std::alloc::Global;
use std::marker::Model;
use std::mem::{replace, swap};

// So often may a table become twice as large at most.
const GROWTHS: usize = 16;

/// A caller's seats at the tables of a database: one at each table that was left since it began, and one at its present table. It has
/// seen what the latter has seen.
#[derive(Drop)]
pub struct Seats {
    former: Vec<Seat>,
    present: Seat,
}

impl Model for Seats {
    ghost use Rattle.nsc_seats.specs.Seats.{AreSeats, Seats, seats_of};

    ghost Value = { Seats };

    ghost view = { λ s. seats_of s.former.items s.present };

    ghost invariant = { λ s. AreSeats s.former.items s.present };
}

impl Seats {
    /// A seat at the first table. Fails only for want of memory.
    pub fn new(alloc: Global, map: Map, pass: Pass) -> Result<Seats, NoMemory>
        requires { map.table ≡ pass.table }
        ensures { IfOk result (λ seats. seats ≡ record { table = pass.table; number = 0; present = pass.table; seen = pass.seen; retired = pass.retired; searching = pass.searching }) }
    {
        Ok(Seats {
            former: Vec::with_capacity(alloc, GROWTHS)?,
            present: Seat::new(map, pass),
        })
    }

    /// What it has seen is legal, and the files of its versions are within their limits.
    pub fn learn(&self)
        ensures legal { Legal self.now.seen }
        ensures fit { All IsFit self.now.seen }
    {
        self.present.learn();
    }

    /// It goes on to the table that is written, and has seen the whole history then, which begins with what it had seen, and knows CYCLE.
    /// For want of memory it may have gone on to a table before that one.
    pub fn follow(&mut self, left: &mut Left, writer: &mut Writer) -> Result<(), NoMemory>
        requires chain { IsChain self.old.table left.old writer.old.table }
        requires still { writer.old.slide ≡ None }
        ensures writer { writer.new ≡ writer.old }
        ensures left { left.new ≡ left.old }
        ensures table { self.new.table ≡ self.old.table }
        ensures before { IsPrefix self.old.seen self.new.seen }
        ensures searches { self.new.searching.searches ≡ self.old.searching.searches }
        ensures present { OnOk result (self.new.present ≡ writer.old.table) }
        ensures whole { OnOk result (self.new.seen ≡ writer.old.seen) }
        ensures known { OnOk result (writer.old.cache.cycle ≤ self.new.searching.known) }
        ensures fault { OnErr result (IsBefore self.new.seen left.old) }
    {
        agree(&mut self.former, &self.present, left, writer);
        go_on(&mut self.former, &mut self.present, left, writer)?;
        self.present.show(writer);
        Ok(())
    }

    /// Another caller's, which has seen as much. Fails only for want of memory.
    pub fn split(&mut self, alloc: Global) -> Result<Seats, NoMemory>
        ensures same { self.new ≡ self.old }
        ensures seats { IfOk result (λ seats. seats ≡ self.old) }
    {
        Ok(Seats {
            former: split(alloc, &mut self.former)?,
            present: self.present.split()?,
        })
    }

    /// It has seen the whole history then, of the table where it is present, which is written.
    pub fn show(&mut self, writer: &mut Writer)
        requires present { self.old.present ≡ writer.old.table }
        requires still { writer.old.slide ≡ None }
        ensures writer { writer.new ≡ writer.old }
        ensures seats { self.new ≡ record self.old { seen = writer.old.seen; retired = None; searching = informed self.old.searching writer.old.cache.cycle } }
        ensures before { IsPrefix self.old.seen writer.old.seen }
    {
        self.present.show(writer);
    }

    /// Merges `other`: `self.seen` then begins with `self.old.seen` and with `other.seen`, and the searches of `other` are counted in.
    ///
    /// `self` is then present at the newer one of both present tables.
    pub fn meet(&mut self, other: Seats)
        requires { other.table ≡ self.old.table }
        ensures table { self.new.table ≡ self.old.table }
        ensures before { IsPrefix self.old.seen self.new.seen }
        ensures other { IsPrefix other.seen self.new.seen }
        ensures searches { self.new.searching.searches ≡ self.old.searching.searches + other.searching.searches }
        ensures number { self.old.number ≤ self.new.number }
        ensures further { other.number ≤ self.new.number }
    {
        let mut other = other;
        if self.former.len() < other.former.len() {
            swap(self, &mut other);
        }
        let Seats {
            mut former,
            mut present,
        } = other;
        absorb(&mut self.former, &self.present, &mut former, &present);
        let number = former.len();
        if number < self.former.len() {
            absorb_at(&mut self.former, &self.present, number, &mut present);
        } else {
            self.present.meet(present);
        }
    }

    /// Searches the present table for the live entry of the request of this kind and key while others go on, and puts its reply into the
    /// buffer. It takes no lock, no memory and no runtime.
    pub fn search(&mut self, kind: Kind, key: &[u8], out: &mut Buf) -> InPlace
        requires key { length key.now ≤ key_limit }
        requires limit { out.old.limit ≡ kept_limit }
        ensures table { self.new.table ≡ self.old.table }
        ensures limit { out.new.limit ≡ out.old.limit }
        ensures before { IsPrefix self.old.seen self.new.seen }
        ensures searches { self.new.searching.searches ≡ self.old.searching.searches + 1 }
        ensures answer { InPlaceClause self.old.seen self.new.seen (record { kind = kind; key = key.now }) self.new.searching.first self.new.searching.last out.new.content result }
        ensures left { OnTrue (is_some self.old.retired) (IsOdd result) }
    {
        self.present.search(kind, key, out)
    }

    /// Searches as `search` does, and says whether the entry that answers was loaded again since it was used last. Nothing is promised
    /// of that.
    pub fn seek(&mut self, kind: Kind, key: &[u8], out: &mut Buf) -> Sought
        requires key { length key.now ≤ key_limit }
        requires limit { out.old.limit ≡ kept_limit }
        ensures table { self.new.table ≡ self.old.table }
        ensures limit { out.new.limit ≡ out.old.limit }
        ensures before { IsPrefix self.old.seen self.new.seen }
        ensures searches { self.new.searching.searches ≡ self.old.searching.searches + 1 }
        ensures answer { InPlaceClause self.old.seen self.new.seen (record { kind = kind; key = key.now }) self.new.searching.first self.new.searching.last out.new.content result.answer }
        ensures left { OnTrue (is_some self.old.retired) (IsOdd result.answer) }
    {
        self.present.seek(kind, key, out)
    }

    /// Loads CYCLE, so that it is known whether there are more compactions.
    pub fn look_at_cycle(&mut self)
        ensures table { self.new.table ≡ self.old.table }
        ensures present { self.new.present ≡ self.old.present }
        ensures before { IsPrefix self.old.seen self.new.seen }
        ensures searches { self.new.searching.searches ≡ self.old.searching.searches + 1 }
        ensures known { self.old.searching.known ≤ self.new.searching.last }
        ensures most { self.new.searching.last ≤ last_count }
    {
        self.present.look_at_cycle();
    }
}

// The tables of the seats are the first ones of the writer's.
fn agree(former: &mut Vec<Seat>, present: &Seat, left: &mut Left, writer: &mut Writer)
    requires seats { AreSeats former.old.items present.now }
    requires chain { IsChain (first_of former.old.items present.now) left.old writer.old.table }
    requires still { writer.old.slide ≡ None }
    ensures same { former.new.items ≡ former.old.items }
    ensures writer { writer.new ≡ writer.old }
    ensures left { left.new ≡ left.old }
    ensures fewer { length former.old.items ≤ length left.old }
    ensures present { AreAt (length former.old.items) former.old.items present.now left.old writer.old.table }
{
    for number in 0..former.len() {
        agree_at(former, present, left, writer, number);
    }
}

// The next table of the seats is the writer's, where this one is.
fn agree_at(
    former: &mut Vec<Seat>,
    present: &Seat,
    left: &mut Left,
    writer: &mut Writer,
    number: usize,
)
    requires seats { AreSeats former.old.items present.now }
    requires chain { IsChain (first_of former.old.items present.now) left.old writer.old.table }
    requires still { writer.old.slide ≡ None }
    requires within { number < length former.old.items }
    requires fewer { number ≤ length left.old }
    requires here { AreAt number former.old.items present.now left.old writer.old.table }
    ensures same { former.new.items ≡ former.old.items }
    ensures writer { writer.new ≡ writer.old }
    ensures left { left.new ≡ left.old }
    ensures fewer { number < length left.old }
    ensures next { AreAt (number + 1) former.old.items present.now left.old writer.old.table }
{
    let seat = &mut former[number];
    if number < left.tables.len() {
        seat.agree(&mut left.tables[number]);
    } else {
        // The writer would show that no table goes on in place of its own, and the seat has seen one.
        seat.show(writer);
        unreachable!();
    }
    // Only the contract names it.
    let _ = present;
}

// The present seat goes on to the table that is written.
fn go_on(
    former: &mut Vec<Seat>,
    present: &mut Seat,
    left: &mut Left,
    writer: &Writer,
) -> Result<(), NoMemory>
    requires seats { AreSeats former.old.items present.old }
    requires chain { IsChain (first_of former.old.items present.old) left.old writer.now.table }
    requires fewer { length former.old.items ≤ length left.old }
    requires here { AreAt (length former.old.items) former.old.items present.old left.old writer.now.table }
    ensures left { left.new ≡ left.old }
    ensures seats { AreSeats former.new.items present.new }
    ensures first { first_of former.new.items present.new ≡ first_of former.old.items present.old }
    ensures before { IsPrefix present.old.seen present.new.seen }
    ensures searches { searches_of former.new.items + present.new.searching.searches ≡ searches_of former.old.items + present.old.searching.searches }
    ensures present { OnOk result (present.new.table ≡ writer.now.table) }
    ensures fault { OnErr result (IsBefore present.new.seen left.old) }
{
    for number in former.len()..left.tables.len() {
        go_on_at(former, present, left, writer, number)?;
    }
    Ok(())
}

// The present seat goes on by one table, of this number.
fn go_on_at(
    former: &mut Vec<Seat>,
    present: &mut Seat,
    left: &mut Left,
    writer: &Writer,
    number: usize,
) -> Result<(), NoMemory>
    requires seats { AreSeats former.old.items present.old }
    requires chain { IsChain (first_of former.old.items present.old) left.old writer.now.table }
    requires number { number ≡ length former.old.items }
    requires within { number < length left.old }
    requires here { AreAt number former.old.items present.old left.old writer.now.table }
    ensures left { left.new ≡ left.old }
    ensures seats { AreSeats former.new.items present.new }
    ensures first { first_of former.new.items present.new ≡ first_of former.old.items present.old }
    ensures before { IsPrefix present.old.seen present.new.seen }
    ensures searches { searches_of former.new.items + present.new.searching.searches ≡ searches_of former.old.items + present.old.searching.searches }
    ensures number { OnOk result (length former.new.items ≡ number + 1) }
    ensures next { OnOk result (AreAt (number + 1) former.new.items present.new left.old writer.now.table) }
    ensures fault { OnErr result (IsBefore present.new.seen left.old) }
{
    let table = &mut left.tables[number];
    present.agree(table);
    former.reserve(1)?;
    let newer = present.go_on(table)?;
    former.push_reserved(replace(present, newer));
    // Only the contract names it.
    let _ = writer;
    Ok(())
}

// Other seats, which have seen as much as these.
fn split(alloc: Global, seats: &mut Vec<Seat>) -> Result<Vec<Seat>, NoMemory>
    ensures same { seats.new.items ≡ seats.old.items }
    ensures seats { IfOk result (λ made. made.items ≡ seats.old.items) }
{
    let mut made = Vec::with_capacity(alloc, GROWTHS)?;
    for number in 0..seats.len() {
        made.push(seats[number].split()?)?;
    }
    Ok(made)
}

// Each of these seats counts the searches of one of the others, which are not more.
fn absorb(seats: &mut Vec<Seat>, present: &Seat, others: &mut Vec<Seat>, other: &Seat)
    requires fewer { length others.old.items ≤ length seats.old.items }
    requires seats { AreSeats seats.old.items present.now }
    requires others { AreSeats others.old.items other.now }
    requires first { first_of others.old.items other.now ≡ first_of seats.old.items present.now }
    ensures seats { AreSeats seats.new.items present.now }
    ensures tables { seated seats.new.items present.now ≡ seated seats.old.items present.now }
    ensures count { length seats.new.items ≡ length seats.old.items }
    ensures same { others.new.items ≡ others.old.items }
    ensures searches { searches_of seats.new.items ≡ searches_of seats.old.items + searches_of others.old.items }
    ensures present { slice_index_or (seated seats.old.items present.now) (length others.old.items) present.now.table ≡ other.now.table }
{
    for number in 0..others.len() {
        absorb_at(seats, present, number, &mut others[number]);
    }
    // Only the contract names it.
    let _ = other;
}

// The seat of a number counts the searches of another one at its table too.
fn absorb_at(seats: &mut Vec<Seat>, present: &Seat, number: usize, other: &mut Seat)
    requires within { number < length seats.old.items }
    requires seats { AreSeats seats.old.items present.now }
    requires table { other.old.table ≡ slice_index_or (seated seats.old.items present.now) number present.now.table }
    ensures seats { AreSeats seats.new.items present.now }
    ensures tables { seated seats.new.items present.now ≡ seated seats.old.items present.now }
    ensures count { length seats.new.items ≡ length seats.old.items }
    ensures same { other.new ≡ other.old }
    ensures searches { searches_of seats.new.items ≡ searches_of seats.old.items + other.old.searching.searches }
    ensures next { (newer : TableId) → other.old.retired ≡ Some newer → newer ≡ slice_index_or (seated seats.old.items present.now) (number + 1) present.now.table }
    ensures less { IsPrefix other.old.seen present.now.seen }
{
    seats[number].absorb(other);
    // Only the contract names it.
    let _ = present;
}
