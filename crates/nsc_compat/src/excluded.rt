// `Excluded`: the names that minus lines have excluded so far in a scan.
ghost use Rattle.std.specs.Prelude.{◌≡◌, [], ◌∷◌, ℕ, List, OnOk};
ghost use Rattle.nsc_model.specs.Compat.{is_excluded};
ghost use Rattle.nsc_compat.specs.Names.{SameNames};

use nsc_base::NoMemory;
use std::alloc::Global;
use std::collections::BTreeSet;
use std::marker::Model;

/// The names that minus lines have excluded so far, borrowed from the text that has them. They stand in order, so that
/// many of them make no lookup slow.
#[derive(Drop)]
pub struct Excluded<'a> {
    names: BTreeSet<&'a [u8]>,
}

impl<'a> Model for Excluded<'a> {
    ghost use Rattle.std.specs.Prelude.{List, ℕ, map};

    ghost Value = { List (List ℕ) };

    ghost view = { λ e. map (λ name. name.now) e.names.keys };
}

impl<'a> Excluded<'a> {
    /// No name. Takes no memory.
    pub fn new(alloc: Global) -> Excluded<'a>
        ensures { result ≡ [] }
    {
        Excluded {
            names: BTreeSet::new(alloc),
        }
    }

    /// Excludes a name. Fails only for want of memory.
    pub fn add(&mut self, name: &'a [u8]) -> Result<(), NoMemory>
        ensures { OnOk result (SameNames self.new (name.now ∷ self.old)) }
    {
        self.names.insert(name)?;
        Ok(())
    }

    /// Whether a name is excluded. A name counts whole.
    pub fn has(&self, name: &[u8]) -> bool
        ensures { result ≡ is_excluded self.now name.now }
    {
        self.names.contains(name)
    }
}
