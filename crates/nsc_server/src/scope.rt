// `Scope`: which lookups of a database are answered, and which are left to the client.
ghost use Rattle.std.specs.Prelude.{◌≡◌};
ghost use Rattle.nsc_model.specs.Kinds.{database_of};
ghost use Rattle.nsc_server.specs.Scopes.{is_left, scope_in, scopes_with, whole};

use nsc_model::{Db, Kind};

/// Which lookups of a database are answered.
#[derive(Clone, Copy, Debug, PartialEq, Eq)]
pub enum Scope {
    /// All.
    Whole,
    /// Those that find an entry, and join nothing of other services.
    FoundOnly,
    /// None.
    Left,
}

/// Which lookups of each database are answered.
#[derive(Clone, Copy, Debug, PartialEq, Eq)]
pub struct Scopes {
    /// Those of the users.
    pub passwd: Scope,
    /// Those of the groups.
    pub group: Scope,
    /// Those of the hosts.
    pub hosts: Scope,
    /// Those of the services.
    pub services: Scope,
}

impl Scopes {
    /// Answers all lookups of every database.
    pub fn whole() -> Scopes
        ensures { result ≡ whole }
    {
        Scopes {
            passwd: Scope::Whole,
            group: Scope::Whole,
            hosts: Scope::Whole,
            services: Scope::Whole,
        }
    }

    /// The scope of a database.
    pub fn of(self, db: Db) -> Scope
        ensures { result ≡ scope_in self db }
    {
        match db {
            Db::Passwd => self.passwd,
            Db::Group => self.group,
            Db::Hosts => self.hosts,
            Db::Services => self.services,
        }
    }

    /// The scopes where one database has another one.
    pub fn with(self, db: Db, scope: Scope) -> Scopes
        ensures { result ≡ scopes_with db scope self }
    {
        match db {
            Db::Passwd => Scopes {
                passwd: scope,
                ..self
            },
            Db::Group => Scopes {
                group: scope,
                ..self
            },
            Db::Hosts => Scopes {
                hosts: scope,
                ..self
            },
            Db::Services => Scopes {
                services: scope,
                ..self
            },
        }
    }

    /// Whether a lookup of this kind is left to who asks.
    pub(crate) fn leaves(self, kind: Kind) -> bool
        ensures { result ≡ is_left (scope_in self (database_of kind)) kind }
    {
        match self.of(Db::of(kind)) {
            Scope::Whole => false,
            Scope::FoundOnly => matches!(kind, Kind::InitGroups | Kind::Ai),
            Scope::Left => true,
        }
    }
}
