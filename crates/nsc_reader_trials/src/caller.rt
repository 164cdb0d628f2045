// `Caller`: a caller that searches in place while the writer's table grows.
ghost use Rattle.std.specs.Prelude.{◌≡◌, ◌≤◌, None, IfOk, length};
ghost use Rattle.nsc_model.specs.Entry.{key_limit};
ghost use Rattle.nsc_seats.specs.Tables.{IsChain};

use crate::crowd::Tally;
use crate::names::{USERS, absent_name, user_name};
use crate::told::Told;
use nsc_base::{Buf, NoMemory};
use nsc_model::{InPlace, KEPT_LIMIT, Kind};
use nsc_seats::{Left, Seats};
use nsc_writer::Writer;
use std::alloc::Global;
use std::marker::Model;

/// What searches of a caller answered, while its table was left, and once it had gone on.
#[derive(Clone, Copy, Debug)]
pub struct Found {
    before: Tally,
    after: Tally,
}

/// A caller who searches in place, with a buffer of its own.
#[derive(Drop)]
pub struct Caller {
    seats: Seats,
    out: Buf,
    found: Found,
}

impl Model for Caller {
    ghost use Rattle.std.specs.Prelude.{◌≡◌};
    ghost use Rattle.atomic_table.specs.Seated.{TableId};
    ghost use Rattle.nsc_model.specs.Entry.{kept_limit};

    ghost Value = { TableId };

    ghost view = { λ c. c.seats.table };

    ghost invariant = { λ c. c.out.limit ≡ kept_limit };
}

impl Caller {
    /// One who has made no search. Fails only for want of memory.
    pub fn new(alloc: Global, seats: Seats) -> Result<Caller, NoMemory>
        ensures { IfOk result (λ caller. caller ≡ seats.table) }
    {
        Ok(Caller {
            seats,
            out: Buf::new(alloc, KEPT_LIMIT)?,
            found: Found {
                before: Tally::NOTHING,
                after: Tally::NOTHING,
            },
        })
    }

    /// Another one, who has seen as much. Fails only for want of memory.
    pub fn another(&mut self, alloc: Global) -> Result<Caller, NoMemory>
        ensures same { self.new ≡ self.old }
        ensures caller { IfOk result (λ caller. caller ≡ self.old) }
    {
        let seats = self.seats.split(alloc)?;
        Caller::new(alloc, seats)
    }

    /// It goes on to the table that is written. Fails only for want of memory.
    pub fn follow(&mut self, left: &mut Left, writer: &mut Writer) -> Result<(), NoMemory>
        requires chain { IsChain self.old left.old writer.old.table }
        requires still { writer.old.slide ≡ None }
        ensures same { self.new ≡ self.old }
        ensures writer { writer.new ≡ writer.old }
        ensures left { left.new ≡ left.old }
    {
        self.seats.follow(left, writer)
    }

    /// It goes on to the table of another one, where that has gone further. Fails only for want of memory.
    pub fn meet(&mut self, alloc: Global, other: &mut Caller) -> Result<(), NoMemory>
        requires { other.old ≡ self.old }
        ensures same { self.new ≡ self.old }
        ensures other { other.new ≡ other.old }
    {
        let seats = other.seats.split(alloc)?;
        self.seats.meet(seats);
        Ok(())
    }

    /// Searches for the first entry, the newest one, whose number is this, and the one after that, which is not inserted yet.
    pub fn look(&mut self, told: &Told, newest: u64, has_gone_on: bool)
        ensures { self.new ≡ self.old }
    {
        let mut tally = Tally::NOTHING;
        self.ask(told, 0, &mut tally);
        self.ask(told, newest, &mut tally);
        self.ask(told, newest.saturating_add(1), &mut tally);
        if has_gone_on {
            self.found.after.add(tally);
        } else {
            self.found.before.add(tally);
        }
    }

    /// One search for the entry of a number.
    pub fn ask(&mut self, told: &Told, number: u64, tally: &mut Tally)
        ensures { self.new ≡ self.old }
    {
        let answer = if number < USERS {
            self.search(&user_name(number))
        } else {
            self.search(&absent_name(number))
        };
        tally.count(answer, 1, told.allows(number, answer, self.out.bytes()));
    }

    // One search for a name.
    fn search(&mut self, name: &[u8]) -> InPlace
        requires { length name.now ≤ key_limit }
        ensures { self.new ≡ self.old }
    {
        self.seats.search(Kind::PwName, name, &mut self.out)
    }

    /// What its searches answered.
    pub fn found(&self) -> Found {
        self.found
    }
}
