// Four databases, opened over files in memory.
ghost use Rattle.std.specs.Prelude.{◌≡◌};
ghost use Rattle.nsc_database.specs.Openings.{brought_in};
ghost use Rattle.nsc_model.specs.declared.kind.Db.TheVariants as db_is;
ghost use Rattle.nsc_model.specs.Settings.{settings_of};
ghost use Rattle.nsc_daemon.specs.Openings.{AreTables};

use crate::connection::{Connection, serve_all};
use crate::lines::connections;
use crate::outcome::Outcome;
use nsc_base::NoMemory;
use nsc_daemon::Openings;
use nsc_database::Room;
use nsc_model::Conf;
use nsc_outside::{FileSet, MemImages};
use std::marker::Brand;
use std::sync::Wait;

/// What comes to the databases.
#[derive(Clone, Copy, Debug)]
pub enum Task<'a> {
    /// Connections to the sockets, one after another.
    Sockets(&'a [Connection<'a>]),
    /// Connections to the gate.
    Gate,
}

/// Does a task over databases that are opened over these files under the default settings.
pub fn over<R: AllocGlobal + Wait, F: FileSet + Drop>(
    rt: &R,
    mut files: F,
    task: Task<'_>,
) -> Result<Outcome, NoMemory> {
    let conf = Conf::defaults();
    let mut images = MemImages::new(rt.alloc(), 0)?;
    match Openings::open(rt.alloc(), &mut files, &conf, &mut images, 0) {
        Ok(openings) => in_room::<Brand, R, F>(rt, openings, task),
        Err(_) => Err(NoMemory),
    }
}

// Does a task once the databases are in a room.
fn in_room<B: Room, R: AllocGlobal + Wait, F: FileSet + Drop>(
    rt: &R,
    openings: Openings<F>,
    task: Task<'_>,
) -> Result<Outcome, NoMemory>
    requires names { (openings.passwd.db ≡ db_is.Passwd) × (openings.group.db ≡ db_is.Group) × (openings.hosts.db ≡ db_is.Hosts) × (openings.services.db ≡ db_is.Services) }
    requires tables { AreTables B.table openings.passwd.pass.table openings.group.pass.table openings.hosts.pass.table openings.services.pass.table }
    requires passwd { (openings.passwd.settings ≡ settings_of B.conf db_is.Passwd) × (openings.passwd.reloads ≡ B.conf.reloads) × (F.held openings.passwd.files ≡ B.held) }
    requires group { (openings.group.settings ≡ settings_of B.conf db_is.Group) × (openings.group.reloads ≡ B.conf.reloads) × (F.held openings.group.files ≡ B.held) }
    requires hosts { (openings.hosts.settings ≡ settings_of B.conf db_is.Hosts) × (openings.hosts.reloads ≡ B.conf.reloads) × (F.held openings.hosts.files ≡ B.held) }
    requires services { (openings.services.settings ≡ settings_of B.conf db_is.Services) × (openings.services.reloads ≡ B.conf.reloads) × (F.held openings.services.files ≡ B.held) }
    requires passwd_brought { brought_in openings.passwd.begun.writer.cache.entries ≡ B.brought db_is.Passwd }
    requires group_brought { brought_in openings.group.begun.writer.cache.entries ≡ B.brought db_is.Group }
    requires hosts_brought { brought_in openings.hosts.begun.writer.cache.entries ≡ B.brought db_is.Hosts }
    requires services_brought { brought_in openings.services.begun.writer.cache.entries ≡ B.brought db_is.Services }
{
    let (stores, mut passes) = openings.enter::<B>();
    match task {
        Task::Sockets(list) => serve_all(rt, &stores, &mut passes, list),
        Task::Gate => connections(rt, &stores, &mut passes),
    }
}
