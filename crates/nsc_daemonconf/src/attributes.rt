// Attributes of nscd.conf(5) by name, and the setting that each attribute changes.
ghost use Rattle.std.specs.Prelude.{◌≡◌, IfSome};
ghost use Rattle.std.specs.Option.{option_map};
ghost use Rattle.nsc_daemonconf.specs.Lines.{attribute_named, daemon_sets, database_sets, service_by_name};
ghost use Rattle.nsc_daemonconf.specs.Tables.{found};
ghost use Rattle.nsc_model.specs.Sizes.{SizeFits, SizesFit};

use self::Attribute::{OfDaemon, OfDatabase};
use self::DaemonAttribute::*;
use self::DbAttribute::*;
use crate::values::{reloads, size, yes_or_no};
use nsc_base::decimal;
use nsc_model::{Conf, Db, DbConf};

/// An attribute of nscd.conf(5), by what it is about.
#[derive(Clone, Copy, Debug)]
pub enum Attribute {
    /// One database, whose service stands before the value.
    OfDatabase(DbAttribute),
    /// All of the daemon.
    OfDaemon(DaemonAttribute),
}

/// An attribute of one database.
#[derive(Clone, Copy, Debug)]
pub enum DbAttribute {
    /// `enable-cache`, yes or no.
    EnableCache,
    /// `positive-time-to-live`, a decimal number.
    PositiveTimeToLive,
    /// `negative-time-to-live`, a decimal number.
    NegativeTimeToLive,
    /// `suggested-size`, a decimal number from 1 to 65,536.
    SuggestedSize,
    /// `check-files`, yes or no.
    CheckFiles,
    /// `persistent`, yes or no.
    Persistent,
    /// `shared`, yes or no.
    Shared,
    /// `max-db-size`, a decimal number.
    MaxDbSize,
    /// `auto-propagate`, yes or no.
    AutoPropagate,
}

/// An attribute of the daemon. Those that change no setting are checked all the same.
#[derive(Clone, Copy, Debug)]
pub enum DaemonAttribute {
    /// `threads`, a decimal number.
    Threads,
    /// `reload-count`, a limit of reloads.
    ReloadCount,
    /// `max-threads`, a decimal number. Changes nothing.
    MaxThreads,
    /// `debug-level`, a decimal number. Changes nothing.
    DebugLevel,
    /// `restart-interval`, a decimal number. Changes nothing.
    RestartInterval,
    /// `paranoia`, yes or no. Changes nothing.
    Paranoia,
    /// `logfile`, any word. Changes nothing.
    Logfile,
    /// `server-user`, any word. Changes nothing.
    ServerUser,
    /// `stat-user`, any word. Changes nothing.
    StatUser,
}

/// The name of the service that a line is about.
#[derive(Clone, Copy, Debug)]
pub enum ServiceName {
    /// One of the databases.
    Database(Db),
    /// Netgroups, which are not cached.
    Netgroup,
}

// Each attribute by its name.
static ATTRIBUTES: [(&[u8], Attribute); 18] = [
    (b"enable-cache", OfDatabase(EnableCache)),
    (b"positive-time-to-live", OfDatabase(PositiveTimeToLive)),
    (b"negative-time-to-live", OfDatabase(NegativeTimeToLive)),
    (b"suggested-size", OfDatabase(SuggestedSize)),
    (b"check-files", OfDatabase(CheckFiles)),
    (b"persistent", OfDatabase(Persistent)),
    (b"shared", OfDatabase(Shared)),
    (b"max-db-size", OfDatabase(MaxDbSize)),
    (b"auto-propagate", OfDatabase(AutoPropagate)),
    (b"threads", OfDaemon(Threads)),
    (b"reload-count", OfDaemon(ReloadCount)),
    (b"max-threads", OfDaemon(MaxThreads)),
    (b"debug-level", OfDaemon(DebugLevel)),
    (b"restart-interval", OfDaemon(RestartInterval)),
    (b"paranoia", OfDaemon(Paranoia)),
    (b"logfile", OfDaemon(Logfile)),
    (b"server-user", OfDaemon(ServerUser)),
    (b"stat-user", OfDaemon(StatUser)),
];

// Each service by its name.
static SERVICES: [(&[u8], ServiceName); 5] = [
    (b"passwd", ServiceName::Database(Db::Passwd)),
    (b"group", ServiceName::Database(Db::Group)),
    (b"hosts", ServiceName::Database(Db::Hosts)),
    (b"services", ServiceName::Database(Db::Services)),
    (b"netgroup", ServiceName::Netgroup),
];

// What stands beside a name in a table.
fn named<T: Copy>(table: &[(&[u8], T)], word: &[u8]) -> Option<T>
    ensures { result ≡ found table.now word.now }
{
    for (name, entry) in table {
        if word == *name {
            return Some(*entry);
        }
    }
    None
}

impl Attribute {
    /// The attribute of this name. `None` where there is none.
    pub fn named(word: &[u8]) -> Option<Attribute>
        ensures { result ≡ attribute_named word.now }
    {
        named(&ATTRIBUTES, word)
    }
}

impl DbAttribute {
    /// The settings of a database with this attribute at this value. `None` where the value is none of the attribute's.
    pub fn applied_to(self, mut conf: DbConf, value: &[u8]) -> Option<DbConf>
        ensures applied { result ≡ option_map (λ change. change conf) (database_sets self value.now) }
        ensures size { IfSome result (λ changed. SizeFits conf → SizeFits changed) }
    {
        match self {
            DbAttribute::EnableCache => conf.enabled = yes_or_no(value)?,
            DbAttribute::PositiveTimeToLive => conf.positive = decimal(value)?,
            DbAttribute::NegativeTimeToLive => conf.negative = decimal(value)?,
            DbAttribute::SuggestedSize => conf.size = size(value)?,
            DbAttribute::CheckFiles => conf.check_files = yes_or_no(value)?,
            DbAttribute::Persistent => conf.persistent = yes_or_no(value)?,
            DbAttribute::Shared => conf.shared = yes_or_no(value)?,
            DbAttribute::MaxDbSize => conf.max_size = decimal(value)?,
            DbAttribute::AutoPropagate => conf.propagate = yes_or_no(value)?,
        }
        Some(conf)
    }
}

impl DaemonAttribute {
    /// The settings of the daemon with this attribute at this value. `None` where the value is none of the attribute's.
    pub fn applied_to(self, mut conf: Conf, value: &[u8]) -> Option<Conf>
        ensures applied { result ≡ option_map (λ change. change conf) (daemon_sets self value.now) }
        ensures sizes { IfSome result (λ changed. SizesFit conf → SizesFit changed) }
    {
        match self {
            DaemonAttribute::Threads => conf.threads = decimal(value)?,
            DaemonAttribute::ReloadCount => conf.reloads = reloads(value)?,
            DaemonAttribute::MaxThreads
            | DaemonAttribute::DebugLevel
            | DaemonAttribute::RestartInterval => {
                decimal(value)?;
            }
            DaemonAttribute::Paranoia => {
                yes_or_no(value)?;
            }
            DaemonAttribute::Logfile | DaemonAttribute::ServerUser | DaemonAttribute::StatUser => {}
        }
        Some(conf)
    }
}

impl ServiceName {
    /// The service of this name. `None` where there is none.
    pub fn named(word: &[u8]) -> Option<ServiceName>
        ensures { result ≡ service_by_name word.now }
    {
        named(&SERVICES, word)
    }
}
