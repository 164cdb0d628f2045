// `Mode`: the load or the searches that the program's words ask for, and the settings.
ghost use Rattle.std.specs.Prelude.{◌≡◌};
ghost use Rattle.nsc_model.specs.declared.kind.Db.TheVariants as db;
ghost use Rattle.nsc_model.specs.Sizes.{SizeFits};

use crate::loads::{KEPT, Load};
use crate::reads::{Reads, Took};
use nsc_base::NoMemory;
use nsc_caller::Caller;
use nsc_model::{Conf, Store};
use std::alloc::Global;
use std::sync::Wait;
use std::thread::Threads;
use std::time::Clock;

/// What the program is to do, for its time.
#[derive(Clone, Copy, Debug)]
pub enum Mode {
    /// Calls.
    Load(Load),
    /// Searches in place.
    Reads(Reads),
}

impl Mode {
    /// What these words ask for; `None` where they ask for nothing.
    pub fn of(words: &[String]) -> Option<Mode> {
        let name = words.first()?.as_str();
        match name {
            "reads" => Some(Mode::Reads(reads_of(words, false)?)),
            "asks" => Some(Mode::Reads(reads_of(words, true)?)),
            _ => Some(Mode::Load(load_of(name, words)?)),
        }
    }

    /// The settings that it runs under: entries are loaded again for ever, and there is room for them, in the largest table where
    /// entries stand before the calls.
    pub fn conf(self) -> Conf
        ensures { SizeFits result.passwd }
    {
        let mut conf = Conf::defaults();
        conf.reloads = None;
        conf.passwd.negative = KEPT;
        if self.is_filled() {
            conf.passwd.size = 65_536;
        }
        conf
    }

    // Whether entries stand before the calls.
    fn is_filled(self) -> bool {
        match self {
            Mode::Load(Load::Misses { .. }) => false,
            Mode::Load(_) | Mode::Reads(_) => true,
        }
    }

    /// How many users are in the file.
    pub fn users(self) -> u32 {
        match self {
            Mode::Load(load) => load.users(),
            Mode::Reads(_) => 0,
        }
    }

    /// Does it with this database of users, by a caller of this pass.
    pub fn run<S: Store + Sync, R: Threads + Wait + Clock + Sync>(
        self,
        rt: &R,
        alloc: Global,
        store: &S,
        pass: S::Pass,
    ) -> Result<Took, NoMemory>
    where
        S::Pass: Send,
        requires own { S.is_pass store.now pass }
        requires users { S.db store.now ≡ db.Passwd }
    {
        let caller = Caller::new(rt, alloc, store, pass);
        match self {
            Mode::Load(load) => Ok(Took::nothing(load.is_done(rt, alloc, caller)?)),
            Mode::Reads(reads) => reads.run(rt, alloc, caller),
        }
    }
}

// The load that the first of the words names.
fn load_of(name: &str, words: &[String]) -> Option<Load> {
    let load = match (name, words.len()) {
        ("hits", 4 | 5) => {
            let entries = number(&words[2])?;
            Load::Hits {
                threads: number(&words[1])?,
                entries,
                count: number(&words[3])?,
                asked: match words.get(4) {
                    Some(word) => number(word)?,
                    None => entries,
                },
            }
        }
        ("misses", 3) => Load::Misses {
            users: number(&words[1])?,
            count: number(&words[2])?,
        },
        ("ticks", 4) => Load::Ticks {
            entries: number(&words[1])?,
            count: number(&words[2])?,
            apart: u16::try_from(number(&words[3])?).ok()?,
        },
        ("compactions", 3) => Load::Compactions {
            entries: number(&words[1])?,
            count: number(&words[2])?,
        },
        _ => return None,
    };
    Some(load)
}

// The searches that the words ask for.
fn reads_of(words: &[String], by_client: bool) -> Option<Reads> {
    if words.len() > 5 {
        return None;
    }
    let rate = match words.get(4) {
        Some(word) => number(word)?,
        None => 0,
    };
    Some(Reads {
        threads: number(words.get(1)?)?,
        entries: number(words.get(2)?)?,
        count: number(words.get(3)?)?,
        rate,
        by_client,
    })
}

fn number(word: &String) -> Option<u32> {
    word.as_str().parse::<u32>().ok()
}
