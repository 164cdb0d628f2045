// One word that all threads change, which is always that of a sound roster.
ghost use Rattle.std.specs.Prelude.{◌≡◌, ◌<◌, ◌^◌, IfSome, IsTrue};
ghost use Rattle.nsc_roster.specs.declared.roster.TheConstants.{HELPERS};
ghost use Rattle.nsc_roster.specs.declared.roster.Roster.{Roster};
ghost use Rattle.nsc_roster.specs.declared.roster.HelperState.{HelperState};
ghost use Rattle.nsc_roster.specs.declared.roster.Charge.{Charge};
ghost use Rattle.nsc_roster.specs.Rosters.{Follows, IsSound, IsWatched, charge_digit, digit_of, word_of};

use crate::roster::{Charge, HelperState, Lent, Roster};
use std::sync::atomic::Ordering::SeqCst;
use std::sync::atomic::{AtomicIn, Rule};

// The rule of the word.
struct Watched;

impl Rule for Watched {
    ghost invariant = { IsWatched };
}

/// The roster that all threads share, in one word that changes in single steps.
#[derive(Drop)]
pub struct Watch {
    word: AtomicIn<Watched>,
}

impl Watch {
    /// Makes the roster of helpers that sleep, with the first thread in charge.
    pub fn new() -> Watch {
        Watch {
            word: AtomicIn::new(word_of(Roster::new())),
        }
    }

    /// Reads the roster as it is at this moment.
    pub fn read(&self) -> Roster
        ensures { IsSound result }
    {
        roster_of(self.word.load(SeqCst))
    }

    /// Calls the lowest helper that sleeps, and gives its number: a wake is owed to it. `None` if no helper sleeps.
    pub fn call(&self) -> Option<usize>
        ensures { IfSome result (λ helper. helper < HELPERS) }
    {
        for _ in 0..u64::MAX {
            let seen = self.read();
            let (after, helper) = seen.call()?;
            if self.change(seen, after) {
                return Some(helper);
            }
        }
        None
    }

    /// Wakes a helper that was called, and tells whether it was: else no wake was owed to it.
    pub fn rise(&self, helper: usize) -> bool
        ensures { IsTrue result → helper < HELPERS }
    {
        for _ in 0..u64::MAX {
            let seen = self.read();
            let Some(after) = seen.rise(helper) else {
                return false;
            };
            if self.change(seen, after) {
                return true;
            }
        }
        false
    }

    /// Lets an awake helper sleep, and tells whether it may: not if it is in charge, or not awake.
    pub fn rest(&self, helper: usize) -> bool
        ensures { IsTrue result → helper < HELPERS }
    {
        for _ in 0..u64::MAX {
            let seen = self.read();
            let Some(after) = seen.rest(helper) else {
                return false;
            };
            if self.change(seen, after) {
                return true;
            }
        }
        false
    }

    /// Gives the first thread's charge to a helper, and tells which. `None` if a helper has it.
    pub fn lend(&self) -> Option<Lent>
        ensures { IfSome result (λ lent. lent.helper < HELPERS) }
    {
        for _ in 0..u64::MAX {
            let seen = self.read();
            let (after, lent) = seen.lend()?;
            if self.change(seen, after) {
                return Some(lent);
            }
        }
        None
    }

    /// Gives the charge back to the first thread, with the number of the helper that had it. `None` if no helper has it.
    pub fn take_back(&self) -> Option<usize>
        ensures { IfSome result (λ helper. helper < HELPERS) }
    {
        for _ in 0..u64::MAX {
            let seen = self.read();
            let (after, helper) = seen.take_back()?;
            if self.change(seen, after) {
                return Some(helper);
            }
        }
        None
    }

    // Puts a roster in the place of the one that was seen, if that is still there.
    fn change(&self, seen: Roster, after: Roster) -> bool
        requires seen { IsSound seen }
        requires after { IsSound after }
        requires step { Follows seen after }
    {
        let (seen, after) = (word_of(seen), word_of(after));
        self.word
            .compare_exchange(seen, after, SeqCst, SeqCst)
            .is_ok()
    }
}

// The word of a roster.
fn word_of(roster: Roster) -> u64
    requires { IsSound roster }
    ensures { result ≡ word_of roster }
{
    let [first, second] = roster.helpers;
    digit_of(first) + 4 * digit_of(second) + 16 * charge_digit(roster.charge)
}

// The digit of a helper's state.
fn digit_of(state: HelperState) -> u64
    ensures { result ≡ digit_of state }
{
    match state {
        HelperState::Asleep => 0,
        HelperState::Called => 1,
        HelperState::Awake => 2,
    }
}

// The digit of a charge.
fn charge_digit(charge: Charge) -> u64
    requires { charge_digit charge < 2 ^ 32 }
    ensures { result ≡ charge_digit charge }
{
    match charge {
        Charge::First => 0,
        Charge::Helper(helper) => helper as u64 + 1,
    }
}

// The roster of a word.
fn roster_of(word: u64) -> Roster
    requires { IsWatched word }
    ensures sound { IsSound result }
    ensures exact { (roster : Roster) → IsSound roster → word ≡ word_of roster → result ≡ roster }
{
    Roster {
        helpers: [state_of(word % 4), state_of(word / 4 % 4)],
        charge: charge_of(word / 16),
    }
}

// The state of a digit.
fn state_of(digit: u64) -> HelperState
    ensures { (state : HelperState) → digit ≡ digit_of state → result ≡ state }
{
    match digit {
        0 => HelperState::Asleep,
        1 => HelperState::Called,
        _ => HelperState::Awake,
    }
}

// The charge of a digit.
fn charge_of(digit: u64) -> Charge
    ensures { (charge : Charge) → digit ≡ charge_digit charge → result ≡ charge }
{
    if digit == 0 {
        Charge::First
    } else {
        Charge::Helper((digit - 1) as usize)
    }
}
