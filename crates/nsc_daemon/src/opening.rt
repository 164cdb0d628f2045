// The four databases, opened and not yet shared.
ghost use Rattle.std.specs.Prelude.{◌≡◌, ◌≤◌, ◌<◌, ◌^◌, IfErr, IfOk, OnOk};
ghost use Rattle.nsc_model.specs.Exits.{IsExitOf, Serving};
ghost use Rattle.nsc_model.specs.Sizes.{SizeFits, SizesFit};
ghost use Rattle.nsc_model.specs.Settings.{settings_of};
ghost use Rattle.nsc_model.specs.declared.kind.Db.TheVariants as db_is;
ghost use Rattle.nsc_database.specs.Openings.{brought_in};
ghost use Rattle.nsc_daemon.specs.Ends.{IsOpeningFault, TellsFileLength, opening_exit};
ghost use Rattle.nsc_daemon.specs.Openings.{AreTables, IsOpenedBy};

use crate::images::image_for;
use nsc_database::{Database, DbPass, Opened, Room};
use nsc_index::Indexed;
use nsc_model::{Conf, Databases, Db, Exit};
use nsc_outside::{FileSet, ImageStore};
use nsc_sourcebook::PollFault;
use std::alloc::Global;

/// The four databases, opened, each with its first pass. They are not shared until they enter a room.
#[derive(Drop)]
pub struct Openings<F: FileSet + Drop> {
    /// The users.
    pub passwd: Opened<F, Indexed>,
    /// The groups.
    pub group: Opened<F, Indexed>,
    /// The hosts.
    pub hosts: Opened<F, Indexed>,
    /// The services.
    pub services: Opened<F, Indexed>,
}

/// Opens a database over what its files hold, with its image, if it has use for one and there is one.
fn opened<F: FileSet + Drop, I: ImageStore>(
    alloc: Global,
    files: &mut F,
    db: Db,
    conf: &Conf,
    images: &mut I,
    now: u64,
) -> Result<Opened<F, Indexed>, PollFault>
    requires sizes { SizeFits (settings_of conf.now db) }
    requires moment { now < 2 ^ 62 }
    ensures db { IfOk result (λ o. (o.db ≡ db) × (o.settings ≡ settings_of conf.now db) × (o.reloads ≡ conf.now.reloads)) }
    ensures held { IfOk result (λ o. F.held o.files ≡ F.held files.old) }
    ensures stays { OnOk result (F.held files.new ≡ F.held files.old) }
    ensures calm { OnOk result (F.faults files.new ≡ F.faults files.old) }
    ensures fault { IfErr result (λ fault. IsOpeningFault fault (F.faults files.old) (F.faults files.new)) }
    ensures length { IfErr result (λ fault. TellsFileLength fault (F.held files.old)) }
    ensures puts { I.puts images.new ≡ I.puts images.old }
    ensures failed { I.failed_puts images.new ≡ I.failed_puts images.old }
{
    let image = image_for(alloc, images, db, conf);
    let bytes = match &image {
        Some(image) => Some(image.as_slice()),
        None => None,
    };
    Opened::open(alloc, files, Indexed, db, conf, bytes, now)
}

/// The exit where the files of a database could not be read.
pub fn opening_exit(fault: PollFault) -> Exit
    ensures exits { IsExitOf Serving result }
    ensures told { result ≡ opening_exit fault }
{
    match fault {
        PollFault::NoMemory => Exit::NoMemory,
        PollFault::SourceFault { .. } => Exit::SourceFault,
        PollFault::TooLong { length, .. } => Exit::TooLong { length },
    }
}

impl<F: FileSet + Drop> Openings<F> {
    /// Opens the four databases over what their files hold, with what the images of those bring back that are cached and persistent, at
    /// this moment, in seconds. A fault is that of the first file that cannot be read, or want of memory; no database is open then.
    pub fn open<I: ImageStore>(
        alloc: Global,
        files: &mut F,
        conf: &Conf,
        images: &mut I,
        now: u64,
    ) -> Result<Openings<F>, PollFault>
        requires sizes { SizesFit conf.now }
        requires moment { now < 2 ^ 62 }
        ensures passwd { IfOk result (λ o. IsOpenedBy conf.now db_is.Passwd (F.held files.old)
            o.passwd.db o.passwd.settings o.passwd.reloads (F.held o.passwd.files)) }
        ensures group { IfOk result (λ o. IsOpenedBy conf.now db_is.Group (F.held files.old)
            o.group.db o.group.settings o.group.reloads (F.held o.group.files)) }
        ensures hosts { IfOk result (λ o. IsOpenedBy conf.now db_is.Hosts (F.held files.old)
            o.hosts.db o.hosts.settings o.hosts.reloads (F.held o.hosts.files)) }
        ensures services { IfOk result (λ o. IsOpenedBy conf.now db_is.Services (F.held files.old)
            o.services.db o.services.settings o.services.reloads (F.held o.services.files)) }
        ensures calm { OnOk result (F.faults files.new ≡ F.faults files.old) }
        ensures fault { IfErr result (λ fault. IsOpeningFault fault (F.faults files.old) (F.faults files.new)) }
        ensures length { IfErr result (λ fault. TellsFileLength fault (F.held files.old)) }
        ensures puts { OnOk result (I.puts images.new ≡ I.puts images.old) }
        ensures failed { OnOk result (I.failed_puts images.new ≡ I.failed_puts images.old) }
    {
        let passwd = opened(alloc, files, Db::Passwd, conf, images, now)?;
        let group = opened(alloc, files, Db::Group, conf, images, now)?;
        let hosts = opened(alloc, files, Db::Hosts, conf, images, now)?;
        let services = opened(alloc, files, Db::Services, conf, images, now)?;
        Ok(Openings {
            passwd,
            group,
            hosts,
            services,
        })
    }

    /// Enters a room, in which threads may share them: the databases, and the first pass of each.
    pub fn enter<B: Room>(self) -> (Databases<Database<F, Indexed, B>>, Databases<DbPass<F, B>>)
        requires names { (self.passwd.db ≡ db_is.Passwd) × (self.group.db ≡ db_is.Group) × (self.hosts.db ≡ db_is.Hosts) × (self.services.db ≡ db_is.Services) }
        requires tables { AreTables B.table self.passwd.pass.table self.group.pass.table self.hosts.pass.table self.services.pass.table }
        requires passwd { (self.passwd.settings ≡ settings_of B.conf db_is.Passwd) × (self.passwd.reloads ≡ B.conf.reloads) × (F.held self.passwd.files ≡ B.held) }
        requires group { (self.group.settings ≡ settings_of B.conf db_is.Group) × (self.group.reloads ≡ B.conf.reloads) × (F.held self.group.files ≡ B.held) }
        requires hosts { (self.hosts.settings ≡ settings_of B.conf db_is.Hosts) × (self.hosts.reloads ≡ B.conf.reloads) × (F.held self.hosts.files ≡ B.held) }
        requires services { (self.services.settings ≡ settings_of B.conf db_is.Services) × (self.services.reloads ≡ B.conf.reloads) × (F.held self.services.files ≡ B.held) }
        requires passwd_brought { brought_in self.passwd.begun.writer.cache.entries ≡ B.brought db_is.Passwd }
        requires group_brought { brought_in self.group.begun.writer.cache.entries ≡ B.brought db_is.Group }
        requires hosts_brought { brought_in self.hosts.begun.writer.cache.entries ≡ B.brought db_is.Hosts }
        requires services_brought { brought_in self.services.begun.writer.cache.entries ≡ B.brought db_is.Services }
        ensures named { (result.0.passwd.db ≡ db_is.Passwd) × (result.0.group.db ≡ db_is.Group) × (result.0.hosts.db ≡ db_is.Hosts) × (result.0.services.db ≡ db_is.Services) }
        ensures passes { (result.1.passwd.db ≡ result.0.passwd.db) × (result.1.group.db ≡ result.0.group.db) × (result.1.hosts.db ≡ result.0.hosts.db) × (result.1.services.db ≡ result.0.services.db) }
    {
        let Openings {
            passwd,
            group,
            hosts,
            services,
        } = self;
        let (passwd, passwd_pass) = passwd.enter::<B>();
        let (group, group_pass) = group.enter::<B>();
        let (hosts, hosts_pass) = hosts.enter::<B>();
        let (services, services_pass) = services.enter::<B>();
        let stores = Databases {
            passwd,
            group,
            hosts,
            services,
        };
        let passes = Databases {
            passwd: passwd_pass,
            group: group_pass,
            hosts: hosts_pass,
            services: services_pass,
        };
        (stores, passes)
    }
}
