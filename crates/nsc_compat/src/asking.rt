// `Asking`: a compat request for one entry, by name or by id.
ghost use Rattle.std.specs.Prelude.{◌≡◌};
ghost use Rattle.nsc_compat.specs.Accounts.{names_entry};

use nsc_base::equal;
use nsc_model::Kind;

/// What a request names: an entry by its name, or by its id. No id names no entry.
#[derive(Clone, Copy)]
pub enum Naming<'k> {
    /// The entry of this name.
    Name(&'k [u8]),
    /// The entry of this id.
    Id(Option<u32>),
}

/// A request for one entry.
#[derive(Clone, Copy)]
pub struct Asking<'k> {
    /// The kind of the request.
    pub kind: Kind,
    /// The key of the request.
    pub key: &'k [u8],
    /// What the request names.
    pub wanted: Naming<'k>,
}

/// Whether the request names the entry of this name and id.
pub fn names_entry(wanted: &Naming, name: &[u8], id: u32) -> bool
    ensures { result ≡ names_entry wanted.now name.now id }
{
    match wanted {
        Naming::Name(key) => equal(name, *key),
        Naming::Id(wanted) => *wanted == Some(id),
    }
}
