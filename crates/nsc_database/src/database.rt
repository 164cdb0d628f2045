// `Database`: one database as a store that many threads call.
ghost use Rattle.std.specs.Prelude.{◌≡◌};
ghost use Rattle.nsc_database.specs.Frames.{pass_at};

use crate::base::Base;
use crate::pass::DbPass;
use crate::room::{OfGroup, OfHosts, OfPasswd, OfServices, Room};
use nsc_base::{Buf, Bytes, NoMemory};
use nsc_model::{Answerer, CacheFault, Given, InPlace, Kind, LookupFault, Sought, Stats, Store};
use nsc_outside::FileSet;
use std::alloc::Global;
use std::marker::Model;
use std::sync::Wait;

/// A database that any number of threads look up at once, each through a pass of its own.
#[derive(Drop)]
pub struct Database<F: FileSet + Drop, A: Answerer + Drop, B: Room> {
    pub(crate) bases: Bases<F, A, B>,
}

// The database that it is.
#[derive(Drop)]
pub(crate) enum Bases<F: FileSet + Drop, A: Answerer + Drop, B: Room> {
    Passwd(Base<OfPasswd, F, A, B>),
    Group(Base<OfGroup, F, A, B>),
    Hosts(Base<OfHosts, F, A, B>),
    Services(Base<OfServices, F, A, B>),
}

impl<F: FileSet + Drop, A: Answerer + Drop, B: Room> Model for Database<F, A, B> {
    ghost use Rattle.nsc_model.specs.declared.kind.Db.TheVariants as db_is;
    ghost use Rattle.nsc_database.specs.Database.{Database};
    ghost use Rattle.nsc_database.specs.declared.database.Bases.TheVariants as bases_of;

    ghost Value = { Database };

    ghost view = { λ d. elim d.bases as (λ _. Database) [ bases_of.Passwd b ↦ record { db = db_is.Passwd; settings = b.settings; reloads = b.reloads } | bases_of.Group b ↦ record { db = db_is.Group; settings = b.settings; reloads = b.reloads } | bases_of.Hosts b ↦ record { db = db_is.Hosts; settings = b.settings; reloads = b.reloads } | bases_of.Services b ↦ record { db = db_is.Services; settings = b.settings; reloads = b.reloads } ] };
}

impl<F: FileSet + Drop, A: Answerer + Drop, B: Room> Store for Database<F, A, B> {
    type Pass = DbPass<F, B>;

    ghost db = { λ d. d.db };

    ghost settings = { λ d. d.settings };

    ghost reloads = { λ d. d.reloads };

    ghost brought = { λ d. B.brought d.db };

    ghost is_pass = { λ d p. p.db ≡ d.db };

    ghost at = { λ p. pass_at p };

    ghost held = { λ d. B.held };

    fn attach<R: Wait>(&self, rt: &R, alloc: Global) -> Result<DbPass<F, B>, NoMemory> {
        match &self.bases {
            Bases::Passwd(base) => base.attach(rt, alloc),
            Bases::Group(base) => base.attach(rt, alloc),
            Bases::Hosts(base) => base.attach(rt, alloc),
            Bases::Services(base) => base.attach(rt, alloc),
        }
    }

    fn lookup<R: Wait>(
        &self,
        rt: &R,
        alloc: Global,
        pass: &mut DbPass<F, B>,
        kind: Kind,
        key: &[u8],
        now: u64,
    ) -> Result<Given, LookupFault> {
        match &self.bases {
            Bases::Passwd(base) => base.lookup(rt, alloc, pass, kind, key, now),
            Bases::Group(base) => base.lookup(rt, alloc, pass, kind, key, now),
            Bases::Hosts(base) => base.lookup(rt, alloc, pass, kind, key, now),
            Bases::Services(base) => base.lookup(rt, alloc, pass, kind, key, now),
        }
    }

    fn tick<R: Wait>(
        &self,
        rt: &R,
        alloc: Global,
        pass: &mut DbPass<F, B>,
        now: u64,
    ) -> Result<(), LookupFault> {
        match &self.bases {
            Bases::Passwd(base) => base.tick(rt, alloc, pass, now),
            Bases::Group(base) => base.tick(rt, alloc, pass, now),
            Bases::Hosts(base) => base.tick(rt, alloc, pass, now),
            Bases::Services(base) => base.tick(rt, alloc, pass, now),
        }
    }

    fn invalidate<R: Wait>(&self, rt: &R, pass: &mut DbPass<F, B>) -> Result<u64, CacheFault> {
        match &self.bases {
            Bases::Passwd(base) => base.invalidate(rt, pass),
            Bases::Group(base) => base.invalidate(rt, pass),
            Bases::Hosts(base) => base.invalidate(rt, pass),
            Bases::Services(base) => base.invalidate(rt, pass),
        }
    }

    fn in_place(&self, pass: &mut DbPass<F, B>, kind: Kind, key: &[u8], out: &mut Buf) -> InPlace {
        pass.in_place(kind, key, out)
    }

    fn seek(&self, pass: &mut DbPass<F, B>, kind: Kind, key: &[u8], out: &mut Buf) -> Sought {
        pass.seek(kind, key, out)
    }

    fn catch_up(&self, pass: &mut DbPass<F, B>) -> bool {
        match &self.bases {
            Bases::Passwd(base) => base.catch_up(pass),
            Bases::Group(base) => base.catch_up(pass),
            Bases::Hosts(base) => base.catch_up(pass),
            Bases::Services(base) => base.catch_up(pass),
        }
    }

    fn note_hits<R: Wait>(&self, rt: &R, found: u64, not_found: u64) {
        match &self.bases {
            Bases::Passwd(base) => base.note_hits(rt, found, not_found),
            Bases::Group(base) => base.note_hits(rt, found, not_found),
            Bases::Hosts(base) => base.note_hits(rt, found, not_found),
            Bases::Services(base) => base.note_hits(rt, found, not_found),
        }
    }

    fn stats<R: Wait>(&self, rt: &R, pass: &mut DbPass<F, B>) -> Result<Stats, NoMemory> {
        match &self.bases {
            Bases::Passwd(base) => base.stats(rt, pass),
            Bases::Group(base) => base.stats(rt, pass),
            Bases::Hosts(base) => base.stats(rt, pass),
            Bases::Services(base) => base.stats(rt, pass),
        }
    }

    fn save<R: Wait>(
        &self,
        rt: &R,
        alloc: Global,
        pass: &mut DbPass<F, B>,
    ) -> Result<Bytes, NoMemory> {
        match &self.bases {
            Bases::Passwd(base) => base.save(rt, alloc, pass),
            Bases::Group(base) => base.save(rt, alloc, pass),
            Bases::Hosts(base) => base.save(rt, alloc, pass),
            Bases::Services(base) => base.save(rt, alloc, pass),
        }
    }

    fn meet(&self, pass: &mut DbPass<F, B>, other: DbPass<F, B>) {
        pass.meet(other);
    }
}
