// `Databases`: one value for each of the four databases.
use crate::kind::Db;

/// One value for each database.
#[derive(Drop)]
pub struct Databases<T> {
    /// That of the users.
    pub passwd: T,
    /// That of the groups.
    pub group: T,
    /// That of the hosts.
    pub hosts: T,
    /// That of the services.
    pub services: T,
}

impl<T> Databases<T> {
    ghost use Rattle.std.specs.Prelude.{◌≡◌};
    ghost use Rattle.std.specs.Borrow.{sem};
    ghost use Rattle.nsc_model.specs.Databases.{LendsDatabase, database_in};

    /// The value of a database.
    pub fn of_mut(&mut self, db: Db) -> &mut T
        ensures* writes_back { sem 𝓛 (LendsDatabase T.row self.entry db result) }
        ensures value { result.now ≡ database_in self.old db }
    {
        match db {
            Db::Passwd => &mut self.passwd,
            Db::Group => &mut self.group,
            Db::Hosts => &mut self.hosts,
            Db::Services => &mut self.services,
        }
    }
}
