// `Lookout`: a reader that makes whole searches.
ghost use Rattle.std.specs.Prelude.{◌≡◌};

use crate::files::name_of;
use nsc_base::{Buf, NoMemory};
use nsc_model::{InPlace, KEPT_LIMIT, Kind};
use nsc_reader::search;
use nsc_rule::{Map, Pass};
use std::alloc::Global;
use std::marker::Model;

/// One who makes whole searches, with a handle on the words, a pass and a buffer of its own.
#[derive(Drop)]
pub struct Lookout {
    map: Map,
    pass: Pass,
    out: Buf,
}

impl Model for Lookout {
    ghost use Rattle.std.specs.Prelude.{◌≡◌};
    ghost use Rattle.nsc_words.specs.declared.layout.Layout.{Layout};
    ghost use Rattle.nsc_model.specs.Entry.{kept_limit};

    ghost Value = { Layout };

    ghost view = { λ l. l.map.layout };

    ghost invariant = { λ l. (l.pass.table ≡ l.map.table) × (l.out.limit ≡ kept_limit) };
}

impl Lookout {
    /// One who has made no search. Fails only for want of memory.
    pub fn new(alloc: Global, map: Map, pass: Pass) -> Result<Lookout, NoMemory>
        requires { pass.table ≡ map.table }
    {
        Ok(Lookout {
            map,
            pass,
            out: Buf::new(alloc, KEPT_LIMIT)?,
        })
    }

    /// Searches for a user.
    pub fn search(&mut self, user: u32) -> InPlace {
        let name = name_of(user);
        search(
            &mut self.pass,
            &self.map,
            Kind::PwName,
            &name,
            &mut self.out,
        )
    }

    /// What the latest search left in the buffer.
    pub fn bytes(&self) -> &[u8] {
        self.out.bytes()
    }
}
