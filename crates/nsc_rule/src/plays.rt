// The rule of the words, and what the steps of the seats tell.
use crate::view::{About, View};
use atomic_table::{Join, Play, Split, TableRule};
use std::marker::{Brand, PhantomData};

/// The rule of the words. Its first seat writes.
pub struct WordRule;

impl TableRule<(), View, About> for WordRule {
    ghost use Rattle.nsc_rule.specs.Seats.{IsKept, opening_view};

    ghost holds = { λ key s. IsKept key.layout s };

    ghost first = { λ key. opening_view key.layout key.origin };
}

/// Which plan a step of the pen makes.
pub trait Becomes {
    ghost use Rattle.nsc_rule.specs.declared.view.Plan.{Plan};

    ghost plan: { Plan };
}

impl Becomes for Brand {
    ghost use Rattle.nsc_rule.specs.Seats.{no_plan};

    ghost plan = { no_plan };
}

/// A step of the pen.
pub struct Moves<J: Becomes>(PhantomData<J>);

impl<J: Becomes> Play<(), View> for Moves<J> {
    ghost use Rattle.nsc_rule.specs.Seats.{WriteTells};

    ghost then = { WriteTells J.plan };
}

/// What a load of a search tells.
pub trait Tells {
    ghost use Rattle.std.specs.Prelude.{ℕ};
    ghost use Rattle.nsc_rule.specs.declared.view.View.{View};

    // Of the word and the view after.
    ghost told: { ℕ → View → Type 0 };
}

impl Tells for Brand {
    ghost told = { λ found w. Unit {0} };
}

/// A load of a search.
pub struct Searches<J: Tells>(PhantomData<J>);

impl<J: Tells> Play<(), View> for Searches<J> {
    ghost use Rattle.std.specs.Prelude.{◌≡◌};

    ghost then = { λ s me found me'. J.told found me'.0 × (me'.1 ≡ me.1) };
}

/// A load by the pen.
pub struct Looks;

impl Play<(), View> for Looks {
    ghost use Rattle.nsc_rule.specs.Seats.{LoadTells};

    ghost then = { LoadTells };
}

/// A load by the pen, which tells that what it was told of begins its history.
pub struct Learns;

impl Play<(), View> for Learns {
    ghost use Rattle.nsc_rule.specs.Seats.{LearnTells};

    ghost then = { LearnTells };
}

/// A load by another seat, which from then on has seen the longer one of what it had seen and what it was told of.
pub struct Meets;

impl Play<(), View> for Meets {
    ghost use Rattle.nsc_rule.specs.Seats.{MeetTells};

    ghost then = { MeetTells };
}

/// A new seat, which has seen as much.
pub struct Copies;

impl Split<View> for Copies {
    ghost use Rattle.nsc_rule.specs.Seats.{reader_of};

    ghost left = { λ v. v };

    ghost right = { reader_of };
}

/// A seat is told what another one has seen.
pub struct Hears;

impl Join<View> for Hears {
    ghost use Rattle.nsc_rule.specs.Seats.{told_of, nobody};

    ghost both = { told_of };

    ghost spent = { nobody };
}

/// A seat is told what another one has seen, and counts its searches too.
pub struct Absorbs;

impl Join<View> for Absorbs {
    ghost use Rattle.nsc_rule.specs.Seats.{absorbed, nobody};

    ghost both = { absorbed };

    ghost spent = { nobody };
}

/// A seat has seen what another one has seen.
pub struct Shows;

impl Join<View> for Shows {
    ghost use Rattle.nsc_rule.specs.Seats.{shown, nobody};

    ghost both = { shown };

    ghost spent = { nobody };
}
