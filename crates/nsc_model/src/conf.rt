// `Conf` and `DbConf`: the settings of nscd.conf(5) and their defaults.
ghost use Rattle.std.specs.Prelude.{◌≡◌, ◌<◌, ◌^◌};
ghost use Rattle.nsc_model.specs.Machine.{is_outdated, life_of, room_of};
ghost use Rattle.nsc_model.specs.Settings.{cached_for, default_settings, settings_of};

use crate::answer::Answer;
use crate::kind::Db;

/// The settings of one database.
#[derive(Clone, Copy, Debug, PartialEq, Eq)]
pub struct DbConf {
    /// Whether replies are kept at all: `enable-cache`.
    pub enabled: bool,
    /// How long a found reply is kept, in seconds: `positive-time-to-live`.
    pub positive: u32,
    /// How long a not-found reply is kept, in seconds: `negative-time-to-live`.
    pub negative: u32,
    /// The number of hash buckets that is asked for, at best a prime: `suggested-size`.
    pub size: u32,
    /// Whether a change of the database's files invalidates it: `check-files`.
    pub check_files: bool,
    /// Whether its replies outlive the daemon: `persistent`.
    pub persistent: bool,
    /// Whether clients read the table themselves: `shared`.
    pub shared: bool,
    /// The most bytes that the table may take: `max-db-size`.
    pub max_size: u32,
    /// Whether a new reply goes to the related kinds of request too: `auto-propagate`.
    pub propagate: bool,
}

/// The settings of the daemon, nscd.conf(5).
#[derive(Clone, Copy, Debug, PartialEq, Eq)]
pub struct Conf {
    /// The users.
    pub passwd: DbConf,
    /// The groups.
    pub group: DbConf,
    /// The hosts.
    pub hosts: DbConf,
    /// The services.
    pub services: DbConf,
    /// After how many reloads without a use an entry is dropped; `None` for never: `reload-count`.
    pub reloads: Option<u32>,
    /// The number of threads at the start: `threads`.
    pub threads: u32,
}

impl DbConf {
    // A database that is cached, with these lives of found and not-found replies in seconds, and all else as it is by default.
    fn cached_for(positive: u32, negative: u32) -> DbConf
        ensures { result ≡ cached_for positive negative }
    {
        DbConf {
            enabled: true,
            positive,
            negative,
            size: 211,
            check_files: true,
            persistent: false,
            shared: false,
            max_size: 32 << 20,
            propagate: true,
        }
    }

    /// For how many seconds an answer is kept.
    pub fn life_of(&self, answer: &Answer) -> u64
        ensures value { result ≡ life_of self.now answer.now }
        ensures bound { result < 2 ^ 32 }
    {
        if answer.is_not_found() {
            u64::from(self.negative)
        } else {
            u64::from(self.positive)
        }
    }

    /// How many words entries may take.
    pub fn room(&self) -> usize
        ensures { result ≡ room_of self.now }
    {
        self.size as usize * 128
    }

    /// Whether the newest version is not the one that the last tick found, and such a change counts.
    pub fn is_outdated(&self, newest: u64, ticked: u64) -> bool
        ensures { result ≡ is_outdated self.now newest ticked }
    {
        self.check_files && newest != ticked
    }
}

impl Conf {
    /// The settings that hold where no line of nscd.conf(5) says otherwise.
    pub fn defaults() -> Conf
        ensures { result ≡ default_settings }
    {
        Conf {
            passwd: DbConf::cached_for(3600, 20),
            group: DbConf::cached_for(3600, 60),
            hosts: DbConf::cached_for(3600, 20),
            services: DbConf::cached_for(28_800, 20),
            reloads: Some(5),
            threads: 5,
        }
    }

    /// The settings of one database.
    pub fn of(&self, db: Db) -> DbConf
        ensures { result ≡ settings_of self.now db }
    {
        match db {
            Db::Passwd => self.passwd,
            Db::Group => self.group,
            Db::Hosts => self.hosts,
            Db::Services => self.services,
        }
    }
}
