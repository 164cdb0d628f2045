// A database of which it is known which one it is.
ghost use Rattle.std.specs.Prelude.{◌≡◌, ◌≤◌, ◌<◌, ◌^◌, [], length, IfOk, IfErr, IfSome, OnErr, OnOk};
ghost use Rattle.nsc_model.specs.Entry.{key_limit};
ghost use Rattle.nsc_model.specs.History.{Legal, invalidations};
ghost use Rattle.nsc_model.specs.Reads.{IsLookedUp};
ghost use Rattle.nsc_model.specs.Settings.{settings_of};
ghost use Rattle.nsc_model.specs.Kinds.{database_of};
ghost use Rattle.nsc_model.specs.Made.{Adds, AddsByRefusedInvalidation, AddsNothing, IsInvalidation, IsOneLook};
ghost use Rattle.nsc_model.specs.Stores.{IsCounted, IsEmptied, IsFault, IsImageOf, IsInvalidateFault};
ghost use Rattle.nsc_sourcebook.specs.Book.{FitsBook};
ghost use Rattle.nsc_sourcebook.specs.Reads.{IsPart, NoneFailed};
ghost use Rattle.nsc_database.specs.Frames.{Goes, Held, LoadedLastCycle, pass_at};
ghost use Rattle.nsc_database.specs.Holds.{IsLooked, IsPollFault, IsPolled};
ghost use Rattle.nsc_database.specs.Lookups.{AreMade, IsTriedAt, given_by};
ghost use Rattle.nsc_database.specs.Made.{InsertsFor};
ghost use Rattle.nsc_database.specs.Rests.{IsFirstLoad};
ghost use Rattle.nsc_database.specs.Ticks.{EndsInTime};
ghost use Rattle.nsc_model.specs.Steady.{IsSteady};
ghost use Rattle.nsc_database.specs.Steady.{StaysSteady};

use crate::desk::Desk;
use crate::made::Made;
use crate::pass::DbPass;
use crate::room::{OfDb, Room};
use crate::shelved::Shelved;
use nsc_base::{Buf, Bytes, NoMemory};
use nsc_model::{Answerer, CacheFault, Db, DbConf, Given, Kind, LookupFault, Stats, Why};
use nsc_outside::FileSet;
use nsc_sourcebook::{Fetched, Polled};
use nsc_turns::{Answering, HitOrMiss, load, load_beside};
use nsc_writer::{Inserted, Loaded, Stamp};
use std::alloc::Global;
use std::marker::PhantomData;
use std::sync::{Mutex, Wait};

/// What a lookup inserts.
#[derive(Drop)]
pub struct Insertions {
    /// Its answer.
    pub loaded: Loaded,
    /// The answer to the request by id, for a user or a group that was found by name.
    pub beside: Option<Loaded>,
}

/// A database: its source book and its writer, each behind a lock. The book's lock is taken before the writer's.
#[derive(Drop)]
pub struct Base<D: OfDb, F: FileSet + Drop, A: Answerer, B: Room> {
    pub shelved: Mutex<Shelved<D, F, A, B>>,
    pub desk: Mutex<Desk<D, B>>,
    pub answers: A,
    pub db: Db,
    pub settings: DbConf,
    pub reloads: Option<u32>,
    pub ghost own: { db ≡ D.db },
    pub ghost conf: { (settings ≡ settings_of B.conf D.db) × (reloads ≡ B.conf.reloads) },
}

impl<D: OfDb, F: FileSet + Drop, A: Answerer + Drop, B: Room> Base<D, F, A, B> {
    /// A new pass, which has seen the whole history, with a file set of its own. Fails only for want of memory.
    pub fn attach<R: Wait>(&self, rt: &R, alloc: Global) -> Result<DbPass<F, B>, NoMemory>
        ensures db { IfOk result (λ pass. pass.db ≡ D.db) }
        ensures legal { IfOk result (λ pass. Legal pass.pass.seen) }
        ensures steady { IfOk result (λ pass. IsSteady B.held D.db pass.pass.seen) }
        ensures calm { IfOk result (λ pass. F.faults pass.files ≡ 0) }
        ensures made { IfOk result (λ pass. pass.made ≡ []) }
    {
        let mut pass = self.newcomer(rt, alloc)?;
        self.desk.lock(rt).follow(&mut pass)?;
        Ok(pass)
    }

    // A new pass, which has seen as much as the source book. Fails only for want of memory.
    fn newcomer<R: Wait>(&self, rt: &R, alloc: Global) -> Result<DbPass<F, B>, NoMemory>
        ensures db { IfOk result (λ pass. pass.db ≡ D.db) }
        ensures calm { IfOk result (λ pass. F.faults pass.files ≡ 0) }
        ensures made { IfOk result (λ pass. pass.made ≡ []) }
    {
        let reply = Buf::new(alloc, 65_536)?;
        let mut shelved = self.shelved.lock(rt);
        let pass = shelved.seats(alloc)?;
        let files = shelved.split(alloc)?;
        Ok(DbPass {
            db: self.db,
            pass,
            files,
            reply,
            made: Made::none(),
            room: PhantomData,
        })
    }

    /// Looks for the live entry of the request. Fails only for want of memory.
    pub fn look<R: Wait>(
        &self,
        rt: &R,
        pass: &mut DbPass<F, B>,
        kind: Kind,
        key: &[u8],
    ) -> Result<HitOrMiss, NoMemory>
        requires { pass.old.db ≡ D.db }
        ensures frame { Held pass.old pass.new }
        ensures looked { IfOk result (λ found. IsLooked found pass.new.pass.seen (record { kind = kind; key = key.now }) pass.new.reply.content) }
        ensures steady { IsSteady B.held D.db pass.new.pass.seen }
        ensures made { pass.new.made ≡ pass.old.made }
    {
        let mut lock = self.desk.lock(rt);
        let desk = &mut *lock;
        desk.follow(pass)?;
        Ok(desk.look(kind, key, &mut pass.reply))
    }

    /// Reads the files of the database and polls them, where `epoch` invalidations were noted before.
    pub fn poll<R: Wait>(
        &self,
        rt: &R,
        alloc: Global,
        pass: &mut DbPass<F, B>,
        epoch: u64,
    ) -> Result<Polled<A>, LookupFault>
        requires db { pass.old.db ≡ D.db }
        requires epoch { epoch ≤ invalidations pass.old.pass.seen }
        ensures frame { Goes pass.old pass.new }
        ensures polled { IfOk result (λ polled. IsPolled pass.old.pass.seen pass.new.pass.seen epoch polled) }
        ensures steady { StaysSteady B.held D.db pass.old.pass.seen pass.new.pass.seen }
        ensures files { IfOk result (λ polled. IsLookedUp D.db (F.reads pass.old.files) (F.reads pass.new.files) (F.latest pass.new.files) polled.content) }
        ensures fault { IfErr result (λ fault. IsFault fault pass.new.pass.seen (F.faults pass.old.files) (F.faults pass.new.files) (F.file_faults pass.old.files) (F.file_faults pass.new.files)) }
        ensures no_fault { OnOk result (NoneFailed F.FileSet pass.old.files pass.new.files) }
        ensures made { OnOk result (Adds IsOneLook (pass_at pass.old) (pass_at pass.new)) }
        ensures refused { OnErr result (AddsNothing (pass_at pass.old) (pass_at pass.new)) }
    {
        pass.learn();
        let mut shelved = self.shelved.lock(rt);
        match shelved.fetch(alloc, pass, &self.answers) {
            Ok(fetched) => match self.enter(rt, &mut shelved, pass, fetched, epoch) {
                Ok(polled) => Ok(polled),
                Err(CacheFault::NoMemory) => Err(LookupFault::NoMemory),
                Err(CacheFault::Spent { count }) => Err(LookupFault::Spent { count }),
            },
            Err(fault) => Err(LookupFault::from(fault)),
        }
    }

    // Enters what was fetched of the files, whose lock is taken.
    fn enter<R: Wait>(
        &self,
        rt: &R,
        shelved: &mut Shelved<D, F, A, B>,
        pass: &mut DbPass<F, B>,
        fetched: Fetched<A>,
        epoch: u64,
    ) -> Result<Polled<A>, CacheFault>
        requires db { pass.old.db ≡ D.db }
        requires fits { FitsBook shelved.old.book fetched }
        requires epoch { epoch ≤ invalidations pass.old.pass.seen }
        requires part { IsPart B.held D.db fetched.content }
        ensures frame { Held pass.old pass.new }
        ensures content { IfOk result (λ polled. polled.content ≡ fetched.content) }
        ensures polled { IfOk result (λ polled. IsPolled pass.old.pass.seen pass.new.pass.seen epoch polled) }
        ensures steady { IsSteady B.held D.db pass.new.pass.seen }
        ensures fault { IfErr result (λ fault. IsPollFault fault pass.new.pass.seen) }
        ensures made { OnOk result (Adds IsOneLook (pass_at pass.old) (pass_at pass.new)) }
        ensures refused { OnErr result (AddsNothing (pass_at pass.old) (pass_at pass.new)) }
    {
        let mut lock = self.desk.lock(rt);
        let desk = &mut *lock;
        desk.follow(pass)?;
        desk.bring(shelved)?;
        let polled = desk.poll(shelved, fetched, epoch, &mut pass.made);
        desk.show(pass);
        match polled {
            Ok(polled) => Ok(polled),
            Err(spent) => Err(CacheFault::Spent { count: spent.count }),
        }
    }

    /// Counts a miss, and tries an insertion; once more in a larger table, if it finds no room and the table may become large enough.
    /// If the entry was inserted, tries to insert what goes beside it, in the same critical section.
    ///
    /// # Errors
    ///
    /// `NoMemory`: nothing was inserted, though the table may have grown.
    pub fn keep<R: Wait>(
        &self,
        rt: &R,
        alloc: Global,
        pass: &mut DbPass<F, B>,
        insertions: Insertions,
    ) -> Result<Given, NoMemory>
        requires db { pass.old.db ≡ D.db }
        requires first { IsFirstLoad D.db pass.old.pass.seen insertions.loaded }
        requires beside { IfSome insertions.beside (IsFirstLoad D.db pass.old.pass.seen) }
        ensures frame { Held pass.old pass.new }
        ensures kept { IfOk result (IsTriedAt self.now.settings (pass_at pass.old) (pass_at pass.new) insertions.loaded) }
        ensures steady { IsSteady B.held D.db pass.new.pass.seen }
        ensures made { IfOk result (λ given. Adds (InsertsFor insertions given) (pass_at pass.old) (pass_at pass.new)) }
        ensures refused { OnErr result (AddsNothing (pass_at pass.old) (pass_at pass.new)) }
    {
        pass.learn();
        let Insertions { loaded, beside } = insertions;
        let mut lock = self.desk.lock(rt);
        let desk = &mut *lock;
        desk.follow(pass)?;
        let (said, loaded) = desk.keep(alloc, &self.settings, pass, loaded)?;
        // The pass sees the first insertion, behind which the second one goes.
        desk.show(pass);
        desk.keep_beside(said, beside.as_ref(), &mut pass.made);
        desk.show_cycle(pass);
        Ok(given_after(said, loaded.into_reply()))
    }

    /// Makes what a lookup inserts, over a polled content.
    ///
    /// # Errors
    ///
    /// `NoMemory` if memory is short for either answer.
    pub fn load(
        &self,
        alloc: Global,
        polled: &Polled<A>,
        kind: Kind,
        key: &[u8],
        now: u64,
    ) -> Result<Insertions, NoMemory>
        requires key { length key.now ≤ key_limit }
        requires kind { database_of kind ≡ D.db }
        requires moment { now < 2 ^ 62 }
        ensures { IfOk result (AreMade D.db self.now.settings polled.now now (record { kind = kind; key = key.now })) }
    {
        let answering = self.answering(polled, now);
        let ready = polled.ready();
        let loaded = load(alloc, &self.answers, ready, &answering, kind, key, 0)?;
        let beside = load_beside(alloc, &self.answers, ready, &answering, &loaded)?;
        Ok(Insertions { loaded, beside })
    }

    /// What answers over a polled content have in common, that are made at this moment, in seconds.
    pub fn answering(&self, polled: &Polled<A>, now: u64) -> Answering
        requires { now < 2 ^ 62 }
        ensures value { result ≡ record { settings = self.now.settings; stamp = polled.now.stamp; moment = now } }
        ensures soon { EndsInTime result }
    {
        answering_at(self.settings, polled.stamp(), now)
    }
}

impl<D: OfDb, F: FileSet + Drop, A: Answerer + Drop, B: Room> Base<D, F, A, B> {
    /// Ends every entry, and gives the new number of invalidations.
    pub fn invalidate<R: Wait>(&self, rt: &R, pass: &mut DbPass<F, B>) -> Result<u64, CacheFault>
        requires { pass.old.db ≡ D.db }
        ensures frame { Held pass.old pass.new }
        ensures steady { IsSteady B.held D.db pass.new.pass.seen }
        ensures done { IfOk result (λ epoch. IsEmptied pass.old.pass.seen pass.new.pass.seen epoch) }
        ensures fault { IfErr result (λ fault. IsInvalidateFault fault pass.new.pass.seen (LoadedLastCycle pass.old pass.new)) }
        ensures made { IfOk result (λ epoch. Adds (IsInvalidation epoch) (pass_at pass.old) (pass_at pass.new)) }
        ensures refused { IfErr result (AddsByRefusedInvalidation (pass_at pass.old) (pass_at pass.new)) }
    {
        let mut lock = self.desk.lock(rt);
        let desk = &mut *lock;
        desk.follow(pass)?;
        let ended = desk.invalidate(&mut pass.made);
        desk.show_cycle(pass);
        match ended {
            Ok(epoch) => Ok(epoch),
            Err(spent) => Err(CacheFault::Spent { count: spent.count }),
        }
    }

    /// The number of invalidations. Fails only for want of memory.
    pub fn note<R: Wait>(&self, rt: &R, pass: &mut DbPass<F, B>) -> Result<u64, NoMemory>
        requires { pass.old.db ≡ D.db }
        ensures frame { Held pass.old pass.new }
        ensures steady { IsSteady B.held D.db pass.new.pass.seen }
        ensures noted { IfOk result (λ epoch. epoch ≡ invalidations pass.new.pass.seen) }
        ensures made { pass.new.made ≡ pass.old.made }
    {
        let mut lock = self.desk.lock(rt);
        let desk = &mut *lock;
        desk.follow(pass)?;
        Ok(desk.epoch())
    }

    /// The image of the live entries. Fails only for want of memory.
    pub fn save<R: Wait>(
        &self,
        rt: &R,
        alloc: Global,
        pass: &mut DbPass<F, B>,
    ) -> Result<Bytes, NoMemory>
        requires { pass.old.db ≡ D.db }
        ensures frame { Held pass.old pass.new }
        ensures steady { IsSteady B.held D.db pass.new.pass.seen }
        ensures image { IfOk result (IsImageOf D.db pass.new.pass.seen) }
        ensures made { pass.new.made ≡ pass.old.made }
    {
        let mut lock = self.desk.lock(rt);
        let desk = &mut *lock;
        desk.follow(pass)?;
        desk.save(alloc, self.db)
    }

    /// What the database counts. Fails only for want of memory.
    pub fn stats<R: Wait>(&self, rt: &R, pass: &mut DbPass<F, B>) -> Result<Stats, NoMemory>
        requires { pass.old.db ≡ D.db }
        ensures frame { Held pass.old pass.new }
        ensures steady { IsSteady B.held D.db pass.new.pass.seen }
        ensures counted { IfOk result (λ stats. IsCounted self.now.settings pass.new.pass.present.words pass.new.pass.seen stats) }
        ensures enabled { IfOk result (λ stats. stats.enabled ≡ self.now.settings.enabled) }
        ensures made { pass.new.made ≡ pass.old.made }
    {
        let mut lock = self.desk.lock(rt);
        let desk = &mut *lock;
        desk.follow(pass)?;
        let counted = desk.stats();
        Ok(with_enabled(counted, self.settings.enabled))
    }
}

// What answers have in common that are made at this moment, over this version.
fn answering_at(settings: DbConf, stamp: Stamp, moment: u64) -> Answering
    requires { moment < 2 ^ 62 }
    ensures value { result ≡ record { settings = settings; stamp = stamp; moment = moment } }
    ensures soon { EndsInTime result }
{
    Answering {
        settings,
        stamp,
        moment,
    }
}

// The counts of a database that is cached, or is not.
fn with_enabled(counted: Stats, enabled: bool) -> Stats
    ensures { result ≡ record counted { enabled = enabled } }
{
    Stats {
        enabled,
        hits: counted.hits,
        negative_hits: counted.negative_hits,
        misses: counted.misses,
        negative_misses: counted.negative_misses,
        entries: counted.entries,
        used: counted.used,
        arena: counted.arena,
        invalidations: counted.invalidations,
        compactions: counted.compactions,
        addfailed: counted.addfailed,
    }
}

// What a lookup gives after its insertion, with this reply.
fn given_after(said: Inserted, bytes: Bytes) -> Given
    ensures { result ≡ given_by said bytes }
{
    let why = match said {
        Inserted::Done { number } => return Given::Loaded { bytes, number },
        Inserted::TooLarge { length } => Why::TooLarge { length },
        Inserted::Discarded { loaded, epoch } => Why::Discarded { loaded, epoch },
        Inserted::Present { number } => Why::Present { number },
        Inserted::Spent { count } => Why::Spent { count },
        Inserted::Full { need, free } => Why::Full { need, free },
    };
    Given::Fresh { bytes, why }
}
