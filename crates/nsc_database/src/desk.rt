// The writer's state, which its lock keeps: this module alone calls the writer of a shared database.
ghost use Rattle.std.specs.Prelude.{◌≡◌, ◌+◌, ◌<◌, ◌≤◌, ◌⊎◌, All, IfOk, IfErr, IfSome, OnErr, OnOk, length};
ghost use Rattle.std.specs.Option.{option_copied};
ghost use Rattle.nsc_base.specs.Nodes.{node_words};
ghost use Rattle.nsc_model.specs.Entry.{kept_limit};
ghost use Rattle.nsc_model.specs.History.{IsPrefix, NoneLive, invalidations};
ghost use Rattle.nsc_model.specs.Sizes.{SizeFits};
ghost use Rattle.nsc_seats.specs.Tables.{IsChain};
ghost use Rattle.nsc_sourcebook.specs.Book.{Fetched as Read, FitsBook};
ghost use Rattle.nsc_sourcebook.specs.Reads.{IsPart};
ghost use Rattle.nsc_model.specs.Machine.{is_outdated, last_count, room_of};
ghost use Rattle.nsc_model.specs.Made.{IsInvalidation, IsOneLook};
ghost use Rattle.nsc_model.specs.Reloads.{Reloaded};
ghost use Rattle.nsc_model.specs.Settings.{settings_of};
ghost use Rattle.nsc_model.specs.declared.store.LookupFault.TheVariants.{NoMemory as Memory};
ghost use Rattle.nsc_model.specs.Steady.{IsSteady};
ghost use Rattle.nsc_model.specs.Stores.{AreLoadedAgain, IsCounted, IsEmptied, IsImageOf, IsSpent, IsUnmoved};
ghost use Rattle.nsc_rule.specs.Seats.{informed};
ghost use Rattle.nsc_shelf.specs.Uses.{counted};
ghost use Rattle.nsc_writer.specs.Raised.{raised};
ghost use Rattle.nsc_writer.specs.Writer.{IsAnswered};
ghost use Rattle.nsc_turns.specs.Turns.{InsertsBeside};
ghost use Rattle.nsc_database.specs.Frames.{Held, LoadedLastCycle};
ghost use Rattle.nsc_database.specs.Growing.{IsGrowth};
ghost use Rattle.nsc_database.specs.Holds.{IsInserted, IsInsertedOr, IsLooked, IsPolled, LeavesFull};
ghost use Rattle.nsc_database.specs.Made.{ChecksBy, EmptiesOrStays, EndsAlone, Enters, InsertsBehind, InsertsOne, IsAny, IsNone, StopsBy};
ghost use Rattle.nsc_database.specs.Rests.{IsAtRest, IsFirstLoad, IsLoadedOf, LoadsAgain};
ghost use Rattle.nsc_database.specs.Ticks.{AreAnew, AreOver, EmptiesOutdated, IsChecked, IsDue, IsHoldFault};

use crate::made::Made;
use crate::pass::DbPass;
use crate::room::{OfDb, Room};
use crate::shelved::Shelved;
use nsc_base::{Buf, Bytes, NoMemory};
use nsc_growth::Doubling;
use nsc_image::save;
use nsc_model::{Answerer, CacheFault, Db, DbConf, Kind, LAST_COUNT, LookupFault, Spent, Stats};
use nsc_outside::FileSet;
use nsc_pruner::Due;
use nsc_seats::Left;
use nsc_sourcebook::{Fetched, Polled};
use nsc_turns::{Checked, HitOrMiss, check, insert, insert_beside, invalidate, look, renew};
use nsc_writer::{Inserted, Loaded, Writer};
use std::alloc::Global;
use std::marker::{Model, PhantomData};
use std::snapshot::Snapshot;

/// The writer of a database, the tables that it left, and the version that the last tick found, 0 before the first.
#[derive(Drop)]
pub struct Desk<D: OfDb, B: Room> {
    writer: Writer,
    left: Left,
    ticked: u64,
    of: PhantomData<D>,
    room: PhantomData<B>,
    pub ghost own: { IsChain (B.table D.db) left writer.table },
    pub ghost sizes: { SizeFits (settings_of B.conf D.db) },
}

impl<D: OfDb, B: Room> Model for Desk<D, B> {
    ghost use Rattle.nsc_model.specs.Settings.{settings_of};
    ghost use Rattle.nsc_database.specs.Rests.{Desk, IsAtRest};

    ghost Value = { Desk };

    ghost view = { λ d. record { writer = d.writer; left = d.left; ticked = d.ticked } };

    ghost invariant = { λ d. IsAtRest (settings_of B.conf D.db) (B.brought D.db) B.conf.reloads B.held D.db d.ticked d.left d.writer };
}

impl<D: OfDb, B: Room> Desk<D, B> {
    /// Makes the state of a writer that left these tables, before the first tick.
    pub fn new(writer: Writer, left: Left) -> Desk<D, B>
        requires rest { IsAtRest (settings_of B.conf D.db) (B.brought D.db) B.conf.reloads B.held D.db 0 left writer }
        requires own { IsChain (B.table D.db) left writer.table }
        requires sizes { SizeFits (settings_of B.conf D.db) }
        ensures { result ≡ record { writer = writer; left = left; ticked = 0 } }
    {
        Desk {
            writer,
            left,
            ticked: 0,
            of: PhantomData,
            room: PhantomData,
        }
    }

    /// The pass goes on to the table that is written, and has seen the whole history then, which begins with what it had seen. Each
    /// hold of the lock begins so. For want of memory it may have gone on to a table before that one.
    pub fn follow<F: FileSet + Drop>(&mut self, pass: &mut DbPass<F, B>) -> Result<(), NoMemory>
        requires { pass.old.db ≡ D.db }
        ensures same { self.new ≡ self.old }
        ensures frame { Held pass.old pass.new }
        ensures seen { OnOk result (pass.new.pass.seen ≡ self.old.writer.seen) }
        ensures present { OnOk result (pass.new.pass.present ≡ self.old.writer.table) }
        ensures steady { IsSteady B.held D.db pass.new.pass.seen }
        ensures reply { pass.new.reply ≡ pass.old.reply }
        ensures made { pass.new.made ≡ pass.old.made }
    {
        self.writer.learn();
        let followed = pass.pass.follow(&mut self.left, &mut self.writer);
        pass.learn();
        followed
    }

    /// The source book goes on to the table that is written, or to one before if memory is short. What was fetched still fits.
    pub fn bring<F: FileSet + Drop, A: Answerer>(
        &mut self,
        shelved: &mut Shelved<D, F, A, B>,
    ) -> Result<(), NoMemory>
        ensures same { self.new ≡ self.old }
        ensures fits { (fetched : Read) → FitsBook shelved.old.book fetched → FitsBook shelved.new.book fetched }
        ensures present { OnOk result (shelved.new.book.present ≡ self.old.writer.table) }
    {
        shelved.book.follow(&mut self.left, &mut self.writer)
    }

    /// Counts a lookup that made an answer anew.
    pub fn miss(&mut self, not_found: bool)
        ensures { self.new.writer ≡ record self.old.writer { misses = counted not_found self.old.writer.misses } }
    {
        self.writer.miss(not_found);
    }

    /// A pass of the table that is written has seen the whole history then, which begins with what it had seen, and knows CYCLE.
    pub fn show<F: FileSet + Drop>(&mut self, pass: &mut DbPass<F, B>)
        requires db { pass.old.db ≡ D.db }
        requires present { pass.old.pass.present ≡ self.old.writer.table }
        ensures same { self.new ≡ self.old }
        ensures frame { Held pass.old pass.new }
        ensures present { pass.new.pass.present ≡ pass.old.pass.present }
        ensures seen { pass.new.pass.seen ≡ self.old.writer.seen }
        ensures searching { pass.new.pass.searching ≡ informed pass.old.pass.searching self.old.writer.cache.cycle }
        ensures steady { IsSteady B.held D.db pass.new.pass.seen }
        ensures reloaded { Reloaded (B.brought D.db) B.conf.reloads pass.new.pass.seen }
        ensures again { LoadsAgain (room_of (settings_of B.conf D.db)) self.old.writer.cache.cycle pass.new.pass.seen }
        ensures reply { pass.new.reply ≡ pass.old.reply }
        ensures made { pass.new.made ≡ pass.old.made }
    {
        self.writer.learn();
        pass.pass.show(&mut self.writer);
        pass.learn();
    }

    /// As `show`, and the pass has loaded CYCLE. A load without the lock may show more than the lock, so the history is shown again.
    pub fn show_cycle<F: FileSet + Drop>(&mut self, pass: &mut DbPass<F, B>)
        requires db { pass.old.db ≡ D.db }
        requires present { pass.old.pass.present ≡ self.old.writer.table }
        ensures same { self.new ≡ self.old }
        ensures frame { Held pass.old pass.new }
        ensures seen { pass.new.pass.seen ≡ self.old.writer.seen }
        ensures present { pass.new.pass.present ≡ pass.old.pass.present }
        ensures cycle { last_count ≤ self.old.writer.cache.cycle → LoadedLastCycle pass.old pass.new }
        ensures steady { IsSteady B.held D.db pass.new.pass.seen }
        ensures reloaded { Reloaded (B.brought D.db) B.conf.reloads pass.new.pass.seen }
        ensures again { AreLoadedAgain (room_of (settings_of B.conf D.db)) pass.new.pass.seen ⊎ LoadedLastCycle pass.old pass.new }
        ensures made { pass.new.made ≡ pass.old.made }
    {
        self.show(pass);
        pass.look_at_cycle();
        self.show(pass);
    }

    /// The number of invalidations.
    pub fn epoch(&self) -> u64
        ensures { result ≡ invalidations self.now.writer.seen }
    {
        self.writer.learn();
        self.writer.epoch()
    }

    /// What the writer counts, in the table that it writes.
    pub fn stats(&self) -> Stats
        ensures counted { IsCounted (settings_of B.conf D.db) self.now.writer.table.words self.now.writer.seen result }
        ensures used { result.used ≡ self.now.writer.cache.used }
        ensures arena { result.arena ≡ self.now.writer.layout.arena }
    {
        self.writer.learn();
        self.writer.stats()
    }

    /// The image of the live entries. Fails only for want of memory.
    pub fn save(&mut self, alloc: Global, db: Db) -> Result<Bytes, NoMemory>
        requires { db ≡ D.db }
        ensures same { self.new ≡ self.old }
        ensures image { IfOk result (IsImageOf D.db self.old.writer.seen) }
    {
        self.writer.learn();
        save(alloc, db, &mut self.writer)
    }

    /// Looks for the live entry of the request. At a hit the buffer then has its reply; a miss has the number of invalidations.
    pub fn look(&mut self, kind: Kind, key: &[u8], reply: &mut Buf) -> HitOrMiss
        requires { kept_limit ≤ reply.old.limit }
        ensures looked { IsLooked result self.old.writer.seen (record { kind = kind; key = key.now }) reply.new.content }
        ensures limit { reply.new.limit ≡ reply.old.limit }
        ensures stays { self.new.writer.seen ≡ self.old.writer.seen }
    {
        self.writer.learn();
        look(&mut self.writer, kind, key, reply)
    }

    /// Enters that the files were looked at, after `epoch` invalidations: what was fetched becomes the newest version, or confirms
    /// it. At `Spent` a new version is needed, and the count of versions stands at its end.
    pub fn poll<F: FileSet + Drop, A: Answerer>(
        &mut self,
        shelved: &mut Shelved<D, F, A, B>,
        fetched: Fetched<A>,
        epoch: u64,
        made: &mut Made,
    ) -> Result<Polled<A>, Spent>
        requires fits { FitsBook shelved.old.book fetched }
        requires present { shelved.old.book.present ≡ self.old.writer.table }
        requires epoch { epoch ≤ invalidations self.old.writer.seen }
        requires part { IsPart B.held D.db fetched.content }
        ensures table { self.new.writer.table ≡ self.old.writer.table }
        ensures content { IfOk result (λ polled. polled.content ≡ fetched.content) }
        ensures polled { IfOk result (λ polled. IsPolled self.old.writer.seen self.new.writer.seen epoch polled) }
        ensures spent { IfErr result (λ spent. IsSpent self.new.writer.seen spent.count) }
        ensures made { OnOk result (Enters IsOneLook self.old.writer.seen self.new.writer.seen made.old made.new) }
        ensures refused { OnErr result (Enters IsNone self.old.writer.seen self.new.writer.seen made.old made.new) }
    {
        self.writer.learn();
        let before = Snapshot::of(&self.writer);
        let polled = shelved.book.poll(&mut self.writer, fetched, epoch);
        made.add(before, &self.writer);
        self.writer.learn();
        polled
    }

    /// Ends every entry, and gives the new number of invalidations. At `Spent` that number stands at its end; or every entry
    /// ended, and the count of the beginnings and the ends of slides does.
    pub fn invalidate(&mut self, made: &mut Made) -> Result<u64, Spent>
        ensures table { self.new.writer.table ≡ self.old.writer.table }
        ensures done { IfOk result (λ epoch. IsEmptied self.old.writer.seen self.new.writer.seen epoch) }
        ensures below { IfOk result (λ _. invalidations self.old.writer.seen < last_count) }
        ensures spent { IfErr result (λ spent. IsUnmoved self.new.writer.seen (last_count ≤ self.new.writer.cache.cycle) spent.count (NoneLive self.new.writer.seen)) }
        ensures made { IfOk result (λ epoch. Enters (IsInvalidation epoch) self.old.writer.seen self.new.writer.seen made.old made.new) }
        ensures refused { IfErr result (λ spent. Enters (EmptiesOrStays spent.count self.new.writer) self.old.writer.seen self.new.writer.seen made.old made.new) }
    {
        self.writer.learn();
        let before = Snapshot::of(&self.writer);
        let emptied = invalidate(&mut self.writer);
        made.add(before, &self.writer);
        emptied
    }

    /// Where the newest version is not the one that the last tick found, and that counts, every entry ends; else it says which are
    /// due at this moment, in seconds. At `NoMemory` no entry was ended; at `Spent` a count stands at its end, as at an invalidation.
    pub fn check(
        &mut self,
        alloc: Global,
        settings: &DbConf,
        limit: Option<u32>,
        now: u64,
        made: &mut Made,
    ) -> Result<Checked, LookupFault>
        requires settings { settings.now ≡ settings_of B.conf D.db }
        requires limit { limit ≡ B.conf.reloads }
        ensures table { self.new.writer.table ≡ self.old.writer.table }
        ensures checked { IfOk result (λ checked. IsChecked checked settings.now (B.brought D.db) limit now self.new.writer.seen) }
        ensures cause { IfOk result (λ checked. EmptiesOutdated checked (is_outdated settings.now self.old.writer.cache.newest_version self.old.ticked)) }
        ensures fault { IfErr result (λ fault. IsHoldFault fault self.new.writer.seen (last_count ≤ self.new.writer.cache.cycle) (NoneLive self.new.writer.seen)) }
        ensures memory { IfErr result (λ fault. fault ≡ Memory → self.new.writer ≡ self.old.writer) }
        ensures made { IfOk result (λ checked. Enters (ChecksBy checked) self.old.writer.seen self.new.writer.seen made.old made.new) }
        ensures refused { IfErr result (λ fault. Enters (StopsBy fault self.new.writer) self.old.writer.seen self.new.writer.seen made.old made.new) }
    {
        self.writer.learn();
        let newest = self.writer.version();
        let before = Snapshot::of(&self.writer);
        let checked = check(&mut self.writer, alloc, settings, limit, self.ticked, now);
        made.add(before, &self.writer);
        match checked {
            Ok(checked) => {
                self.ticked = newest;
                Ok(checked)
            }
            Err(fault) => Err(crate::tick::lookup_fault(fault)),
        }
    }

    /// Ends those that are due, unless an invalidation followed `epoch`, and loads those again that are to be. At `Spent` the count of the
    /// compactions is at its end, and the ended ones are not loaded again.
    pub fn renew(
        &mut self,
        epoch: u64,
        due: &mut [Due],
        loads: &[Option<Loaded>],
        now: u64,
        made: &mut Made,
    ) -> Result<(), Spent>
        requires noted { epoch ≤ invalidations self.old.writer.seen }
        requires due { All (IsDue (B.brought D.db) B.conf.reloads now self.old.writer.seen) due.old }
        requires loads { AreAnew self.old.writer.seen epoch due.old loads.now }
        ensures table { self.new.writer.table ≡ self.old.writer.table }
        ensures over { OnOk result (AreOver epoch self.new.writer.seen due.old) }
        ensures spent { IfErr result (λ spent. IsUnmoved self.new.writer.seen (last_count ≤ self.new.writer.cache.cycle) spent.count (AreOver epoch self.new.writer.seen due.old)) }
        ensures made { OnOk result (Enters IsAny self.old.writer.seen self.new.writer.seen made.old made.new) }
        ensures refused { OnErr result (Enters (EndsAlone self.new.writer) self.old.writer.seen self.new.writer.seen made.old made.new) }
    {
        self.writer.learn();
        if self.writer.epoch() != epoch {
            return Ok(());
        }
        let before = Snapshot::of(&self.writer);
        let renewed = renew(&mut self.writer, due, loads, now);
        made.add(before, &self.writer);
        renewed
    }

    /// Counts a miss, tries an insertion, and hands back what was to be inserted.
    pub fn insert(&mut self, loaded: Loaded, made: &mut Made) -> (Inserted, Loaded)
        requires answered { IsAnswered self.old.writer.seen loaded }
        requires new { loaded.reloads ≡ 0 }
        requires own { IsLoadedOf D.db loaded }
        ensures table { self.new.writer.table ≡ self.old.writer.table }
        ensures inserted { IsInserted self.new.writer.layout.arena (last_count ≤ self.new.writer.cache.cycle) result.0 loaded self.old.writer.seen self.new.writer.seen }
        ensures full { LeavesFull result.0 self.old.writer self.new.writer }
        ensures back { result.1 ≡ loaded }
        ensures left { self.new.left ≡ self.old.left }
        ensures made { Enters (InsertsOne result.0 loaded) self.old.writer.seen self.new.writer.seen made.old made.new }
    {
        self.writer.learn();
        let before = Snapshot::of(&self.writer);
        let inserted = insert(&mut self.writer, loaded);
        made.add(before, &self.writer);
        inserted
    }

    /// Tries an insertion that there is room for, and hands back what was to be inserted.
    pub fn insert_again(&mut self, loaded: Loaded, made: &mut Made) -> (Inserted, Loaded)
        requires answered { IsAnswered self.old.writer.seen loaded }
        requires new { loaded.reloads ≡ 0 }
        requires own { IsLoadedOf D.db loaded }
        requires room { self.old.writer.cache.used + node_words (length loaded.request.key) (length loaded.answer.bytes) ≤ self.old.writer.layout.arena }
        ensures table { self.new.writer.table ≡ self.old.writer.table }
        ensures inserted { IsInsertedOr (λ need free. ⊥) result.0 loaded self.old.writer.seen self.new.writer.seen }
        ensures back { result.1 ≡ loaded }
        ensures left { self.new.left ≡ self.old.left }
        ensures counted { self.new.writer.cache.add_failed ≡ self.old.writer.cache.add_failed }
        ensures made { Enters (InsertsOne result.0 loaded) self.old.writer.seen self.new.writer.seen made.old made.new }
    {
        self.writer.learn();
        let before = Snapshot::of(&self.writer);
        let inserted = self.writer.insert(loaded);
        made.add(before, &self.writer);
        inserted
    }

    /// Tries to insert what goes beside an entry that was inserted: `said` is what became of that entry's insertion. Nothing changes if
    /// it was refused, or if nothing goes beside it. The table does not grow, and no hit or miss is counted.
    pub fn keep_beside(&mut self, said: Inserted, beside: Option<&Loaded>, made: &mut Made)
        requires { IfSome (option_copied beside) (IsFirstLoad D.db self.old.writer.seen) }
        ensures beside { InsertsBeside said (option_copied beside.entry) self.old.writer self.new.writer }
        ensures on { IsPrefix self.old.writer.seen self.new.writer.seen }
        ensures table { self.new.writer.table ≡ self.old.writer.table }
        ensures left { self.new.left ≡ self.old.left }
        ensures ticked { self.new.ticked ≡ self.old.ticked }
        ensures made { Enters (InsertsBehind said (option_copied beside.entry)) self.old.writer.seen self.new.writer.seen made.old made.new }
    {
        self.writer.learn();
        let before = Snapshot::of(&self.writer);
        insert_beside(&mut self.writer, said, beside);
        made.add(before, &self.writer);
    }

    /// The writer goes over to a larger table, where one that it may go over to has room for `need` words beside its entries. Says
    /// whether it did. For want of memory nothing changed.
    pub fn grow(&mut self, alloc: Global, settings: &DbConf, need: u64) -> Result<bool, NoMemory>
        requires settings { settings.now ≡ settings_of B.conf D.db }
        requires full { self.old.writer.layout.arena < self.old.writer.cache.used + need }
        ensures { IsGrowth settings.now need self.old self.new result }
    {
        self.writer.learn();
        let stats = self.writer.stats();
        if stats.compactions >= LAST_COUNT / 2 {
            return Ok(false);
        }
        let layout = self.writer.map().layout();
        let next = match Doubling::new(settings.max_size).next(layout, stats.used, need) {
            Some(next) => next,
            None => return Ok(false),
        };
        match self.left.enlarge(alloc, &mut self.writer, next) {
            Ok(()) => Ok(true),
            Err(CacheFault::NoMemory) => Err(NoMemory),
            Err(CacheFault::Spent { .. }) => Ok(false),
        }
    }

    /// Counts lookups that live entries answered: of found and of not-found replies. Each number stays at 2^62.
    pub fn note_hits(&mut self, found: u64, not_found: u64)
        ensures writer { self.new.writer ≡ record self.old.writer { hits = raised found not_found self.old.writer.hits } }
        ensures left { self.new.left ≡ self.old.left }
        ensures ticked { self.new.ticked ≡ self.old.ticked }
    {
        self.writer.note_hits(found, not_found);
    }
}
