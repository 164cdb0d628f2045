// The lists of databases that a daemon leaves to who asks, wholly or in part.
ghost use Rattle.std.specs.Prelude.{◌≡◌, option_map};
ghost use Rattle.nsc_run.specs.Lists.{is_left, names_between, names_in, scopes_of};
ghost use Rattle.nsc_run.specs.Named.{is_whole, with_name, with_names};

use nsc_model::Db;
use nsc_server::{Scope, Scopes};

// A name that may be left, though it is of no database here.
const NETGROUP: &[u8] = b"netgroup";

// What lists have named so far.
#[derive(Clone, Copy, Debug)]
struct Named {
    scopes: Scopes,
    has_netgroup: bool,
}

/// Reads the two lists of names between commas. Databases in `found_only` tell found entries alone, those in `leave` are left, and all
/// others are whole. `netgroup` may be left too, which changes nothing: no netgroups are answered. `None` if a name is no database, or is named
/// twice.
pub fn scopes_of(found_only: Option<&str>, leave: Option<&str>) -> Option<Scopes>
    ensures { result ≡ scopes_of (option_map (λ p. p.now) found_only.entry) (option_map (λ p. p.now) leave.entry) }
{
    let none = Named {
        scopes: Scopes::whole(),
        has_netgroup: false,
    };
    let found_only = none.with_list(Scope::FoundOnly, found_only)?;
    Some(found_only.with_list(Scope::Left, leave)?.scopes)
}

impl Named {
    // Adds the names of a list, if there is one.
    fn with_list(self, scope: Scope, list: Option<&str>) -> Option<Named>
        ensures { result ≡ with_names scope (names_in (option_map (λ p. p.now) list.entry)) self }
    {
        match list {
            Some(list) => self.with_names(scope, list),
            None => Some(self),
        }
    }

    // Adds the names between the commas of a list.
    fn with_names(self, scope: Scope, list: &str) -> Option<Named>
        ensures { result ≡ with_names scope (names_between list.now) self }
    {
        let mut named = self;
        for name in list.split(',') {
            named = named.with(scope, name.as_bytes())?;
        }
        Some(named)
    }

    // Adds a name.
    fn with(self, scope: Scope, name: &[u8]) -> Option<Named>
        ensures { result ≡ with_name scope name.now self }
    {
        match Db::named(name) {
            Some(db) if is_whole(self.scopes.of(db)) => Some(Named {
                scopes: self.scopes.with(db, scope),
                ..self
            }),
            None if is_left(scope) && name == NETGROUP && !self.has_netgroup => Some(Named {
                has_netgroup: true,
                ..self
            }),
            _ => None,
        }
    }
}

// Whether no list has named a database yet.
fn is_whole(scope: Scope) -> bool
    ensures { result ≡ is_whole scope }
{
    matches!(scope, Scope::Whole)
}

/// Whether a database is left.
pub fn is_left(scope: Scope) -> bool
    ensures { result ≡ is_left scope }
{
    matches!(scope, Scope::Left)
}
