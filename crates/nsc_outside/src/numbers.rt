// `Numbering`: the numbers of reads, drawn together by sets of files split from one set.
ghost use Rattle.std.specs.Prelude.{◌≡◌, ◌%◌, ◌^◌, [], IfOk};
ghost use Rattle.nsc_outside.specs.Numbers.{Draws};

use atomic_table::{Play, Seat, Table, TableRule};
use nsc_base::NoMemory;
use std::alloc::Global;
use std::collections::LinkedList;
use std::marker::Model;
use std::sync::Arc;

// The rule of the word that counts reads: each number is drawn once, and none is left out. A view has the numbers that
// one set drew.
struct Numbers;

impl TableRule<(), LinkedList<u64>, ()> for Numbers {
    ghost use Rattle.std.specs.Prelude.{[]};
    ghost use Rattle.nsc_outside.specs.Numbers.{IsNumbered};

    ghost holds = { λ _ state. IsNumbered state.words state.views };

    ghost first = { λ _. [] };
}

// A set begins, and has drawn none.
struct Begin;

impl Play<(), LinkedList<u64>> for Begin {
    ghost use Rattle.std.specs.Prelude.{◌≡◌, []};

    ghost then = { λ _ _ _ after. after.0 ≡ [] };
}

// A read draws its number, the next one.
struct Draw;

impl Play<(), LinkedList<u64>> for Draw {
    ghost use Rattle.std.specs.Prelude.{◌≡◌, ◌+◌, ◌%◌, ◌^◌};
    ghost use Rattle.nsc_outside.specs.Numbers.{Draws};

    ghost then = { λ _ before made after. Draws before.0 after.0 (λ number. number % 2 ^ 64 ≡ (made + 1) % 2 ^ 64) };
}

// The numbers of reads, which sets of files draw together, from 1 on. Which one comes next is known to none of them, since
// another may draw it at any time.
#[derive(Drop)]
pub(crate) struct Numbering {
    made: Arc<Table<(), LinkedList<u64>, (), Numbers, Global>>,
    seat: Seat<(), LinkedList<u64>>,
}

impl Model for Numbering {
    ghost use Rattle.std.specs.Prelude.{◌≡◌};
    ghost use Rattle.std.specs.Arc.{arc_value};
    ghost use Rattle.nsc_outside.specs.Numbers.{Numbering};

    ghost Value = { Numbering };

    ghost view = { λ n. record { table = n.seat.table_id; numbers = n.seat.me.0 } };

    ghost invariant = { λ n. (n.seat.table_id ≡ (arc_value n.made).shared.table_id) × (n.seat.table_id.words ≡ 1) };
}

impl Numbering {
    // No number was drawn so far.
    pub(crate) fn new(alloc: Global) -> Result<Numbering, NoMemory>
        ensures { IfOk result (λ n. n.numbers ≡ []) }
    {
        let (made, seat) = Table::of_words(alloc, &[0], &())?;
        Ok(Numbering {
            made: Arc::new(alloc, made)?,
            seat,
        })
    }

    // Another handle on the same numbering, through which none was drawn.
    pub(crate) fn share(&self) -> Result<Numbering, NoMemory>
        ensures { IfOk result (λ n. n ≡ record self.now { numbers = [] }) }
    {
        let made = Arc::try_clone(&self.made)?;
        let (_, seat) = made.shared.load_new_seat::<Begin>(0);
        Ok(Numbering { made, seat })
    }

    // Draws the next number, in 64 bits.
    pub(crate) fn draw(&mut self) -> u64
        ensures draws { Draws self.old.numbers self.new.numbers (λ number. result ≡ number % 2 ^ 64) }
        ensures table { self.new.table ≡ self.old.table }
    {
        let made = self.made.shared.fetch_add::<Draw>(&mut self.seat, 0, 1);
        made.wrapping_add(1)
    }
}
