// `StoreLink`: a link whose calls are lookups in a store of this process.
ghost use Rattle.std.specs.Prelude.{◌≡◌};
ghost use Rattle.nsc_model.specs.Stores.{reply_of};

use crate::link::{Link, LinkFault};
use nsc_base::Bytes;
use nsc_model::{Given, Kind, Store};
use std::alloc::Global;
use std::sync::Wait;

/// The link to a store of this process: a call is a lookup. It takes the passes of the store, for requests of its database.
#[derive(Drop)]
pub struct StoreLink<'s, S: Store> {
    /// The store.
    pub store: &'s S,
}

impl<'s, S: Store> Link<S::Pass> for StoreLink<'s, S> {
    ghost use Rattle.std.specs.Prelude.{◌≡◌};
    ghost use Rattle.nsc_client.specs.Lookups.{IsOfLookup};

    ghost takes = { λ link pass which. (S.is_pass link.store.now pass) × (which ≡ S.db link.store.now) };

    ghost keeps = { λ link before after request now answer. IsOfLookup S.Store link.store.now before after request now answer };

    ghost faults = { λ link. 0 };

    fn call<R: Wait>(
        &mut self,
        rt: &R,
        alloc: Global,
        pass: &mut S::Pass,
        kind: Kind,
        key: &[u8],
        now: u64,
    ) -> Result<Bytes, LinkFault> {
        let given = self.store.lookup(rt, alloc, pass, kind, key, now)?;
        Ok(reply(given))
    }
}

// The reply that a lookup gave.
fn reply(given: Given) -> Bytes
    ensures { result ≡ reply_of given }
{
    match given {
        Given::Hit { bytes, .. } | Given::Loaded { bytes, .. } | Given::Fresh { bytes, .. } => {
            bytes
        }
    }
}
