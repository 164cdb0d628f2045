// What callers are told of entries.
ghost use Rattle.std.specs.Prelude.{◌≡◌, ◌<◌};
ghost use Rattle.nsc_model.specs.Machine.{last_count};
ghost use Rattle.nsc_rule.specs.Entries.{kind_of};
ghost use Rattle.nsc_shelf.specs.Shelf.{entry_at};

use nsc_arena::Head;
use nsc_model::Kind;

/// A live entry that answered a lookup.
#[derive(Clone, Copy, Debug, PartialEq, Eq)]
pub struct Hit {
    /// Its number.
    pub number: u64,
    /// The version that its answer was made over.
    pub version: u64,
    /// Whether its reply is a not-found reply.
    pub not_found: bool,
}

/// A live entry, but for its key and its reply.
#[derive(Clone, Copy, Debug, PartialEq, Eq)]
pub struct EntryAt {
    /// Its number.
    pub number: u64,
    /// The kind of its request.
    pub kind: Kind,
    /// The version that its answer was made over.
    pub version: u64,
    /// The last moment, in seconds, at which it is not yet over.
    pub timeout: u64,
    /// How often it was reloaded without a use.
    pub reloads: u64,
    /// Whether its reply is a not-found reply.
    pub not_found: bool,
    /// The number from which on the next one is found.
    pub next: usize,
}

impl EntryAt {
    /// The entry of a node, by what was read of it.
    pub fn of(head: Head) -> EntryAt
        requires { head.number < last_count }
        ensures { result ≡ entry_at head }
    {
        EntryAt {
            number: head.number,
            kind: kind_or_any(head.kind),
            version: head.version,
            timeout: head.timeout,
            reloads: head.reloads,
            not_found: head.not_found,
            next: (head.number + 1) as usize,
        }
    }
}

// The kind of this number; the kind of users by name, where it is that of none.
fn kind_or_any(number: u32) -> Kind
    ensures { result ≡ kind_of number }
{
    match Kind::numbered(number) {
        Some(kind) => kind,
        None => Kind::PwName,
    }
}
