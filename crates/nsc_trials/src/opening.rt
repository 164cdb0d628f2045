// A database of users opened over files for a task.
ghost use Rattle.std.specs.Prelude.{◌≡◌, None};
ghost use Rattle.nsc_database.specs.Openings.{brought_in};
ghost use Rattle.nsc_model.specs.declared.kind.Db.TheVariants as db;
ghost use Rattle.nsc_model.specs.Settings.{settings_of};
ghost use Rattle.nsc_model.specs.Sizes.{SizeFits};

use crate::outcome::Outcome;
use crate::task::Task;
use nsc_answer::Plain;
use nsc_database::{Opened, Room};
use nsc_model::{Conf, Db};
use nsc_outside::HeldFiles;
use std::alloc::Global;
use std::marker::Brand;
use std::sync::Wait;
use std::thread::Threads;
use std::time::Clock;

/// Does a task with a database of users that is opened over these files under these settings.
pub fn done<R: Threads + Wait + Clock + Clone + Drop + Send + Sync>(
    rt: &R,
    alloc: Global,
    conf: &Conf,
    mut files: HeldFiles<R>,
    task: Task,
) -> Outcome
    requires { SizeFits conf.now.passwd }
{
    let image = task.image();
    match Opened::open(alloc, &mut files, Plain, Db::Passwd, conf, image, 0) {
        Ok(opened) => done_in::<Brand, R>(rt, alloc, conf, opened, task),
        Err(_) => Outcome::NoMemory,
    }
}

// Enters a room with a database of users that was opened under these settings, and does a task there.
fn done_in<B: Room + Send, R: Threads + Wait + Clock + Clone + Drop + Send + Sync>(
    rt: &R,
    alloc: Global,
    conf: &Conf,
    opened: Opened<HeldFiles<R>, Plain>,
    task: Task,
) -> Outcome
    requires table { opened.pass.table ≡ B.table opened.db }
    requires conf { conf.now ≡ B.conf }
    requires settings { (opened.settings ≡ settings_of conf.now opened.db) × (opened.reloads ≡ conf.now.reloads) }
    requires users { opened.db ≡ db.Passwd }
    requires held { B.held ≡ None }
    requires brought { brought_in opened.begun.writer.cache.entries ≡ B.brought opened.db }
{
    let (database, pass) = opened.enter::<B>();
    task.run(rt, alloc, &database, pass)
        .unwrap_or(Outcome::NoMemory)
}
