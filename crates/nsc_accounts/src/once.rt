// `OnceIds`: ids in the order of arrival, without duplicates.
ghost use Rattle.std.specs.Prelude.{◌≡◌, [], OnErr, OnOk};
ghost use Rattle.nsc_accounts.specs.Once.{with_id};

use nsc_base::{Ids, NoMemory};
use std::alloc::Global;
use std::collections::BTreeSet;
use std::marker::Model;

/// Ids in the order in which they came, each once. The set beside them has the same ids, so that none is looked for along
/// the whole row.
#[derive(Drop)]
pub struct OnceIds {
    ids: Vec<u32>,
    seen: BTreeSet<u32>,
}

impl Model for OnceIds {
    ghost use Rattle.std.specs.Prelude.{List, ℕ};
    ghost use Rattle.nsc_accounts.specs.Once.{HasThose};

    ghost Value = { List ℕ };

    ghost view = { λ o. o.ids.items };

    ghost invariant = { λ o. HasThose o.seen o.ids.items };
}

impl OnceIds {
    /// No ids. Takes no memory.
    pub fn new(alloc: Global) -> OnceIds
        ensures { result ≡ [] }
    {
        OnceIds {
            ids: Vec::new(alloc),
            seen: BTreeSet::new(alloc),
        }
    }

    /// Adds an id at the end, unless it is there. Fails only for want of memory, and the ids are then as before.
    pub fn add(&mut self, id: u32) -> Result<(), NoMemory>
        ensures ok { OnOk result (self.new ≡ with_id self.old id) }
        ensures err { OnErr result (self.new ≡ self.old) }
    {
        self.ids.reserve(1)?;
        if self.seen.insert(id)? {
            self.ids.push(id).unwrap();
        }
        Ok(())
    }

    /// The ids, with no copy and no new memory.
    pub fn into_ids(self) -> Ids
        ensures { result ≡ self }
    {
        Ids::from_vec(self.ids)
    }
}
