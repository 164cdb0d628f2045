// What is true of the entries of a trial, and which answers that allows.
use nsc_model::InPlace;

// `FIRST_LOADS` entries stand in the words before the trial begins: those of the users of the same numbers.
const FIRST_LOADS: u64 = 6;

/// What a writer has done so far.
#[derive(Clone, Copy, Debug, PartialEq, Eq)]
pub struct Truth {
    /// How often a compaction began or ended.
    pub cycle: u64,
    /// How many entries were inserted.
    pub loads: u64,
    /// The numbers of those that ended: each is a bit.
    pub ended: u64,
    /// The user of the entry that is inserted in the trial.
    pub added: u32,
}

impl Truth {
    /// Six entries, none of which ended.
    pub fn first() -> Truth {
        Truth {
            cycle: 0,
            loads: FIRST_LOADS,
            ended: 0,
            added: 0,
        }
    }

    /// An entry was inserted for a user.
    pub fn add(&mut self, user: u32) {
        self.added = user;
        self.loads = self.loads.saturating_add(1);
    }

    /// The entry of a number ended.
    pub fn end(&mut self, number: u64) {
        self.ended |= bit_of(number);
    }

    /// Whether a live entry is this user's.
    pub fn has(self, user: u32) -> bool {
        for number in 0..self.loads {
            if self.is_of(number, user) && self.ended & bit_of(number) == 0 {
                return true;
            }
        }
        false
    }

    /// A compaction began, or ended.
    pub fn turn(&mut self) {
        self.cycle = self.cycle.saturating_add(1);
    }

    // Whether the entry of a number is this user's.
    fn is_of(self, number: u64, user: u32) -> bool {
        if number < FIRST_LOADS {
            number == u64::from(user)
        } else {
            number < self.loads && self.added == user
        }
    }

    /// Whether a search for a user may answer this now, if it began when the truth was `before`. Of a found entry the bytes are another
    /// question.
    pub fn allows(self, before: Truth, user: u32, answer: InPlace) -> bool {
        let is_steady = before.cycle % 2 == 0 && before.cycle == self.cycle;
        match answer {
            InPlace::Hit { number, .. } => {
                is_steady && self.is_of(number, user) && before.ended & bit_of(number) == 0
            }
            InPlace::NoEntry => is_steady && self.has_ended_all(before, user),
            InPlace::Odd { cycle } => cycle % 2 == 1 && cycle == before.cycle,
            InPlace::Moved { from, to } => {
                from % 2 == 0 && from == before.cycle && to == self.cycle && from < to
            }
        }
    }

    // Whether each entry of a user that was inserted before has ended.
    fn has_ended_all(self, before: Truth, user: u32) -> bool {
        for number in 0..before.loads {
            if before.is_of(number, user) && self.ended & bit_of(number) == 0 {
                return false;
            }
        }
        true
    }
}

// The bit of an entry.
fn bit_of(number: u64) -> u64 {
    1 << (number % 64)
}
