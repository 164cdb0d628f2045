// `Caller`: a caller of a database of users, with a pass and the calls of a store.
ghost use Rattle.std.specs.Prelude.{◌≡◌, ◌≤◌, length};
ghost use Rattle.nsc_model.specs.declared.kind.Db.TheVariants as db;
ghost use Rattle.nsc_model.specs.Entry.{key_limit, kept_limit};
ghost use Rattle.nsc_model.specs.Kinds.{database_of};

use nsc_base::{Buf, Bytes, NoMemory};
use nsc_client::{Asked, LinkFault, StoreLink, ask};
use nsc_model::{CacheFault, Given, InPlace, Kind, LookupFault, Stats, Store};
use std::alloc::Global;
use std::marker::Model;
use std::sync::Wait;

/// A caller of a database of users, with a pass of its own. Contracts see which database it calls.
#[derive(Drop)]
pub struct Caller<'r, 's, S: Store, R: Wait> {
    rt: &'r R,
    alloc: Global,
    store: &'s S,
    pass: S::Pass,
}

impl<'r, 's, S: Store, R: Wait> Model for Caller<'r, 's, S, R> {
    ghost use Rattle.std.specs.Prelude.{◌≡◌};
    ghost use Rattle.nsc_model.specs.declared.kind.Db.{Db};
    ghost use Rattle.nsc_model.specs.declared.kind.Db.TheVariants as db;

    ghost Value = { Db };

    ghost view = { λ c. S.db c.store.now };

    ghost invariant = { λ c. S.is_pass c.store.now c.pass × (S.db c.store.now ≡ db.Passwd) };
}

impl<'r, 's, S: Store, R: Wait> Caller<'r, 's, S, R> {
    /// The caller of this pass.
    pub fn new(rt: &'r R, alloc: Global, store: &'s S, pass: S::Pass) -> Caller<'r, 's, S, R>
        requires own { S.is_pass store.now pass }
        requires users { S.db store.now ≡ db.Passwd }
    {
        Caller {
            rt,
            alloc,
            store,
            pass,
        }
    }

    /// Another caller of the same database. Fails only for want of memory.
    pub fn another(&self) -> Result<Caller<'r, 's, S, R>, NoMemory> {
        let pass = self.store.attach(self.rt, self.alloc)?;
        Ok(Caller::new(self.rt, self.alloc, self.store, pass))
    }

    /// Looks a user up by a kind and a key at this moment, in seconds. Fails as a lookup of the database does.
    pub fn find(&mut self, kind: Kind, key: &[u8], now: u32) -> Result<Given, LookupFault>
        requires kind { database_of kind ≡ db.Passwd }
        requires key { length key.now ≤ key_limit }
    {
        self.store.lookup(
            self.rt,
            self.alloc,
            &mut self.pass,
            kind,
            key,
            u64::from(now),
        )
    }

    /// Searches for a user by a kind and a key, beside whoever writes; a hit leaves the reply in `out`.
    pub fn read(&mut self, kind: Kind, key: &[u8], out: &mut Buf) -> InPlace
        requires kind { database_of kind ≡ db.Passwd }
        requires key { length key.now ≤ key_limit }
        requires limit { out.old.limit ≡ kept_limit }
        ensures limit { out.new.limit ≡ out.old.limit }
    {
        self.store.in_place(&mut self.pass, kind, key, out)
    }

    /// Asks for a user as a client does: beside whoever writes, and by a lookup at moment 0 where that finds nothing, which may fail as
    /// one of the database does.
    pub fn ask(&mut self, kind: Kind, key: &[u8], out: &mut Buf) -> Result<Asked, LinkFault>
        requires kind { database_of kind ≡ db.Passwd }
        requires key { length key.now ≤ key_limit }
        requires limit { out.old.limit ≡ kept_limit }
        ensures limit { out.new.limit ≡ out.old.limit }
    {
        let mut link = StoreLink { store: self.store };
        ask(
            self.rt,
            self.alloc,
            &mut self.pass,
            self.store,
            &mut link,
            out,
            kind,
            key,
            0,
        )
    }

    /// A tick at this moment, in seconds. Fails as one of the database does.
    pub fn tick(&mut self, now: u32) -> Result<(), LookupFault> {
        self.store
            .tick(self.rt, self.alloc, &mut self.pass, u64::from(now))
    }

    /// Invalidates the database, and gives the new number of invalidations. Fails where a count that it needs stands at its end.
    pub fn invalidate(&mut self) -> Result<u64, CacheFault> {
        self.store.invalidate(self.rt, &mut self.pass)
    }

    /// What the database counts. Fails only for want of memory.
    pub fn stats(&mut self) -> Result<Stats, NoMemory> {
        self.store.stats(self.rt, &mut self.pass)
    }

    /// The image of the database. Fails only for want of memory.
    pub fn save(&mut self) -> Result<Bytes, NoMemory> {
        self.store.save(self.rt, self.alloc, &mut self.pass)
    }

    /// Looks a user up through another pass, which is met then. Fails as a lookup of the database does, or for want of a pass.
    pub fn find_and_meet(&mut self, kind: Kind, key: &[u8], now: u32) -> Result<Given, LookupFault>
        requires kind { database_of kind ≡ db.Passwd }
        requires key { length key.now ≤ key_limit }
    {
        let mut other = self.store.attach(self.rt, self.alloc)?;
        let given = self
            .store
            .lookup(self.rt, self.alloc, &mut other, kind, key, u64::from(now));
        self.store.meet(&mut self.pass, other);
        given
    }
}
