// `Script`: a trial by one caller, with the expected result of each step.
ghost use Rattle.nsc_model.specs.Sizes.{SizeFits};

use crate::asked::Asked;
use crate::outcome::Outcome;
use crate::wanted::Wanted;
use nsc_caller::Caller;
use nsc_model::{Conf, Stats, Store};
use nsc_outside::Release;
use std::sync::Wait;

/// One step of a trial by one caller, with what it must come to.
#[derive(Clone, Copy, Debug)]
pub enum Step {
    /// A lookup at this moment, in seconds.
    Find(Asked, u32, Wanted, &'static [u8]),
    /// A lookup through another pass, which is met then.
    Meet(Asked, u32, Wanted, &'static [u8]),
    /// The file becomes the second one.
    Change,
    /// A tick at this moment, in seconds.
    Tick(u32),
    /// An invalidation, with its number.
    Invalidate(u64),
    /// What the database counts.
    Count(Stats),
}

/// A trial by one caller.
#[derive(Clone, Copy, Debug)]
pub struct Script {
    /// What it is a trial of.
    pub name: &'static str,
    /// Whether a change of the file invalidates the database.
    pub check_files: bool,
    /// For how many seconds a found reply lives.
    pub positive: u32,
    /// After how many reloads without a use an entry is dropped.
    pub reloads: u32,
    /// Whether a name that is found is kept by number too.
    pub propagate: bool,
    /// Its steps.
    pub steps: &'static [Step],
}

impl Script {
    /// The settings that it runs under.
    pub fn conf(&self) -> Conf
        ensures { SizeFits result.passwd }
    {
        let mut conf = Conf::defaults();
        conf.passwd.check_files = self.check_files;
        conf.passwd.positive = self.positive;
        conf.passwd.propagate = self.propagate;
        conf.reloads = Some(self.reloads);
        conf
    }

    /// Takes its steps, up to the first whose result is not the right one.
    pub fn run<S: Store, R: Wait>(
        &self,
        caller: &mut Caller<'_, '_, S, R>,
        changed: &mut Release,
    ) -> Outcome {
        for (at, step) in self.steps.iter().enumerate() {
            if !is_right(step, caller, changed) {
                return Outcome::Wrong(at + 1);
            }
        }
        Outcome::Right
    }
}

// Takes a step, and says whether it came to what it must.
fn is_right<S: Store, R: Wait>(
    step: &Step,
    caller: &mut Caller<'_, '_, S, R>,
    changed: &mut Release,
) -> bool {
    match *step {
        Step::Find(asked, now, wanted, reply) => wanted.is(&asked.find(caller, now), reply),
        Step::Meet(asked, now, wanted, reply) => wanted.is(
            &asked.find_and_meet(caller, now),
            reply,
        ),
        Step::Change => {
            changed.set();
            true
        }
        Step::Tick(now) => caller.tick(now).is_ok(),
        Step::Invalidate(want) => caller.invalidate() == Ok(want),
        Step::Count(want) => caller.stats() == Ok(want),
    }
}
