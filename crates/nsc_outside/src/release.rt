// `Release`: a flag that threads share and that is set once.
ghost use Rattle.std.specs.Prelude.{◌≡◌, true, false, IfOk, IsTrue};
ghost use Rattle.std.specs.Bool.{OnTrue};

use atomic_table::{Play, Seat, Table, TableRule};
use nsc_base::NoMemory;
use std::alloc::Global;
use std::marker::Model;
use std::sync::Arc;
use std::thread;
use std::time::{Clock, Duration};

// The rule of the flag's word. A view has whether its handle knows that the flag is set.
struct Known;

impl TableRule<(), bool, ()> for Known {
    ghost use Rattle.std.specs.Prelude.{false};
    ghost use Rattle.nsc_outside.specs.Release.{IsKnown};

    ghost holds = { λ _ state. IsKnown state.words state.views };

    ghost first = { λ _. false };
}

// A handle begins, and knows nothing.
struct Begin;

impl Play<(), bool> for Begin {
    ghost use Rattle.std.specs.Prelude.{◌≡◌, false};

    ghost then = { λ _ _ _ after. after.0 ≡ false };
}

// A handle sets the flag.
struct Set;

impl Play<(), bool> for Set {
    ghost use Rattle.std.specs.Prelude.{◌≡◌, true};

    ghost then = { λ _ _ _ after. after.0 ≡ true };
}

// A handle looks at the flag.
struct Look;

impl Play<(), bool> for Look {
    ghost use Rattle.std.specs.Prelude.{◌≡◌, ◌==◌, not, IsTrue};
    ghost use Rattle.std.specs.Bool.{OnTrue};

    ghost then = { λ _ before found after. (after.0 ≡ not (found == 0)) × OnTrue before.0 (IsTrue after.0) };
}

/// A flag that several threads share, each through a handle of its own: it is set once, and stays so. A handle that set it,
/// or found it set, finds it set from then on. When another one sets it is known to none.
#[derive(Drop)]
pub struct Release {
    word: Arc<Table<(), bool, (), Known, Global>>,
    seat: Seat<(), bool>,
}

impl Model for Release {
    ghost use Rattle.std.specs.Prelude.{◌≡◌};
    ghost use Rattle.std.specs.Arc.{arc_value};
    ghost use Rattle.nsc_outside.specs.Release.{Release};

    ghost Value = { Release };

    ghost view = { λ r. record { flag = r.seat.table_id; is_set = r.seat.me.0 } };

    ghost invariant = { λ r. (r.seat.table_id ≡ (arc_value r.word).shared.table_id) × (r.seat.table_id.words ≡ 1) };
}

// How often a wait looks before it gives up, with a turn of sleep after each look.
const TURNS: u32 = 10_000;

impl Release {
    /// A flag that is not set. Fails only for want of memory.
    pub fn new(alloc: Global) -> Result<Release, NoMemory>
        ensures { IfOk result (λ r. r.is_set ≡ false) }
    {
        let (word, seat) = Table::of_words(alloc, &[0], &())?;
        Ok(Release {
            word: Arc::new(alloc, word)?,
            seat,
        })
    }

    /// Another handle on the same flag, which knows nothing of it so far. Fails only for want of memory.
    pub fn share(&self) -> Result<Release, NoMemory>
        ensures { IfOk result (λ r. r ≡ record self.now { is_set = false }) }
    {
        let word = Arc::try_clone(&self.word)?;
        let (_, seat) = word.shared.load_new_seat::<Begin>(0);
        Ok(Release { word, seat })
    }

    /// Sets the flag.
    pub fn set(&mut self)
        ensures { self.new ≡ record self.old { is_set = true } }
    {
        self.word.shared.store::<Set>(&mut self.seat, 0, 1);
    }

    /// Whether the flag is set.
    pub fn is_set(&mut self) -> bool
        ensures told { self.new ≡ record self.old { is_set = result } }
        ensures stays { OnTrue self.old.is_set (IsTrue result) }
    {
        self.word.shared.load::<Look>(&mut self.seat, 0) != 0
    }

    /// Waits until the flag is set, for 10,000 turns of a millisecond at most, and says whether it was found set.
    pub fn wait<R: Clock>(&mut self, clock: &R) -> bool
        ensures told { self.new ≡ record self.old { is_set = result } }
        ensures stays { OnTrue self.old.is_set (IsTrue result) }
    {
        for _ in 0..TURNS {
            if self.is_set() {
                return true;
            }
            thread::sleep(clock, Duration::from_millis(1));
        }
        self.is_set()
    }
}
