// `PlainCache`: a cache of one database, with its lookups, ticks and invalidations.
ghost use Rattle.std.specs.Prelude.{◌≡◌, ◌≤◌, ◌<◌, ◌^◌, None, Ok, length, IfOk, IfErr, IfSome, OnOk, OnErr};
ghost use Rattle.std.specs.Bool.{OnTrue};
ghost use Rattle.std.specs.Arc.{arc_value};
ghost use Rattle.nsc_model.specs.Files.{no_files};
ghost use Rattle.nsc_model.specs.Entry.{key_limit};
ghost use Rattle.nsc_model.specs.Answer.{reply_limit};
ghost use Rattle.nsc_model.specs.Answers.{answer_of};
ghost use Rattle.nsc_model.specs.Machine.{new_cache, cached, polled, kept_answer, lookup, pruned, is_outdated, checked, tick, ticked_after, ticked_by, invalidated, unchanged};
ghost use Rattle.nsc_model.specs.Events.{TurnsTo, ComesTo};
ghost use Rattle.nsc_model.specs.Faults.{FaultsBy, StopsBy, GivesUpBy};
ghost use Rattle.nsc_plain.specs.PlainCache.{HitsBy, LookupFails, TickFails, ticked_at};

use crate::db_files::DbFiles;
use crate::insertion::{Insertion, answer_beside, answer_due};
use crate::table::EntryList;
use nsc_base::{Bytes, NoMemory};
use nsc_model::{Answer, Answerer, CacheFault, Content, DbConf, Kind, LAST_COUNT, Request};
use std::alloc::Global;
use std::marker::Model;
use std::sync::Arc;

/// A cache of one database: its settings, its newest content, and its live entries as a list from the oldest on.
#[derive(Drop)]
pub struct PlainCache {
    conf: DbConf,
    reloads: Option<u32>,
    content: Arc<Content>,
    newest_version: u64,
    table: EntryList,
    epoch: u64,
    ticked: u64,
}

impl Model for PlainCache {
    ghost use Rattle.std.specs.Prelude.{◌≤◌};
    ghost use Rattle.std.specs.Arc.{arc_value};
    ghost use Rattle.nsc_model.specs.Machine.{last_count};
    ghost use Rattle.nsc_plain.specs.EntryList.{cache_with};
    ghost use Rattle.nsc_plain.specs.PlainCache.{PlainCache};

    ghost Value = { PlainCache };

    ghost view = { λ c. record {
      settings = c.conf;
      reloads = c.reloads;
      cache = cache_with (arc_value c.content) c.newest_version c.epoch c.table;
      ticked = c.ticked;
    } };

    ghost invariant = { λ c. (c.newest_version ≤ last_count) × (c.epoch ≤ last_count) };
}

impl PlainCache {
    /// An empty cache with these settings over the content in which every file is absent, at version 0. `reloads` is
    /// after how many reloads without a use an entry is dropped; `None` for never. Fails only for want of memory.
    pub fn new(alloc: Global, conf: DbConf, reloads: Option<u32>) -> Result<PlainCache, NoMemory>
        requires some { 1 ≤ conf.size }
        requires limit { conf.size ≤ 65536 }
        ensures { IfOk result (λ cache. cache ≡ record { settings = conf; reloads = reloads; cache = new_cache no_files; ticked = 0 }) }
    {
        Ok(PlainCache {
            conf,
            reloads,
            content: Arc::new(alloc, Content::none())?,
            newest_version: 0,
            table: EntryList::new(alloc),
            epoch: 0,
            ticked: 0,
        })
    }

    /// A lookup of this kind and key at this moment, in seconds, over the files as they are now: the machine's. The
    /// reply is that of the live entry of the request, or else the answer over these files, which is then kept where
    /// nothing refuses it. It has at most 2^30 bytes.
    ///
    /// At `NoMemory` the entries are as before, and a poll may have been made. At `Spent` nothing changed: a new
    /// version was needed, and the count of versions stands at its end.
    pub fn lookup<A: Answerer>(
        &mut self,
        alloc: Global,
        content: &Arc<Content>,
        answers: &A,
        kind: Kind,
        key: &[u8],
        now: u64,
    ) -> Result<Bytes, CacheFault>
        requires key { length key.now ≤ key_limit }
        requires moment { now < 2 ^ 62 }
        ensures settings { self.new.settings ≡ self.old.settings }
        ensures limit { self.new.reloads ≡ self.old.reloads }
        ensures ticked { self.new.ticked ≡ self.old.ticked }
        ensures bound { IfOk result (λ reply. length reply ≤ reply_limit) }
        ensures turn { IfOk result (λ reply. TurnsTo (lookup self.old.settings now (arc_value content.now) (record { kind = kind; key = key.now }) self.old.cache) self.new.cache reply) }
        ensures fault { IfErr result (LookupFails self.old self.new now (arc_value content.now) (record { kind = kind; key = key.now })) }
    {
        let mut files = DbFiles::new(content.clone()?);
        self.lookup_prepared(alloc, &mut files, answers, kind, key, now)
    }

    /// As `lookup`, over files that a caller keeps. Where the cache is known to have polled them, nothing is compared, and
    /// what was prepared from them for one answer serves all.
    pub fn lookup_prepared<A: Answerer>(
        &mut self,
        alloc: Global,
        files: &mut DbFiles<A>,
        answers: &A,
        kind: Kind,
        key: &[u8],
        now: u64,
    ) -> Result<Bytes, CacheFault>
        requires key { length key.now ≤ key_limit }
        requires moment { now < 2 ^ 62 }
        requires polled { OnTrue files.old.is_polled (self.old.cache.sources ≡ files.old.files) }
        ensures settings { self.new.settings ≡ self.old.settings }
        ensures limit { self.new.reloads ≡ self.old.reloads }
        ensures ticked { self.new.ticked ≡ self.old.ticked }
        ensures files { files.new.files ≡ files.old.files }
        ensures polled { OnTrue files.new.is_polled (self.new.cache.sources ≡ files.new.files) }
        ensures bound { IfOk result (λ reply. length reply ≤ reply_limit) }
        ensures turn { IfOk result (λ reply. TurnsTo (lookup self.old.settings now files.old.files (record { kind = kind; key = key.now }) self.old.cache) self.new.cache reply) }
        ensures fault { IfErr result (FaultsBy (lookup self.old.settings now files.old.files (record { kind = kind; key = key.now }) self.old.cache) files.old.files self.old.cache self.new.cache) }
    {
        if let Some(reply) = self.hit(alloc, kind, key)? {
            return Ok(reply);
        }
        self.poll(files)?;
        Ok(self.load(alloc, files, answers, kind, key, now)?)
    }

    // The reply of the live entry of the request, whose count of reloads begins anew, if there is one.
    fn hit(&mut self, alloc: Global, kind: Kind, key: &[u8]) -> Result<Option<Bytes>, NoMemory>
        ensures settings { self.new.settings ≡ self.old.settings }
        ensures limit { self.new.reloads ≡ self.old.reloads }
        ensures ticked { self.new.ticked ≡ self.old.ticked }
        ensures bound { IfOk result (λ hit. IfSome hit (λ reply. length reply ≤ reply_limit)) }
        ensures hit { IfOk result (HitsBy (cached self.old.settings (record { kind = kind; key = key.now }) self.old.cache) (record { kind = kind; key = key.now }) self.old.cache self.new.cache) }
        ensures stays { OnErr result (self.new.cache ≡ self.old.cache) }
    {
        if self.conf.enabled {
            return self.table.hit(alloc, kind, key);
        }
        Ok(None)
    }

    // Makes the files the newest version, or confirms it where they are the same; where the cache is known to have polled
    // them, nothing is compared.
    fn poll<A: Answerer>(&mut self, files: &mut DbFiles<A>) -> Result<(), CacheFault>
        requires polled { OnTrue files.old.is_polled (self.old.cache.sources ≡ files.old.files) }
        ensures settings { self.new.settings ≡ self.old.settings }
        ensures limit { self.new.reloads ≡ self.old.reloads }
        ensures ticked { self.new.ticked ≡ self.old.ticked }
        ensures files { files.new.files ≡ files.old.files }
        ensures polled { OnTrue files.new.is_polled (self.new.cache.sources ≡ files.new.files) }
        ensures sources { OnOk result (self.new.cache.sources ≡ files.new.files) }
        ensures entries { self.new.cache.entries ≡ self.old.cache.entries }
        ensures turn { OnOk result (ComesTo (polled files.old.files self.old.cache) self.new.cache) }
        ensures fault { IfErr result (GivesUpBy (polled files.old.files self.old.cache) self.old.cache self.new.cache) }
    {
        if files.is_polled() {
            return Ok(());
        }
        if files.content().is_same(&self.content) {
            files.set_polled();
            return Ok(());
        }
        if self.newest_version == LAST_COUNT {
            return Err(CacheFault::Spent { count: LAST_COUNT });
        }
        self.content = files.content().clone()?;
        self.newest_version += 1;
        files.set_polled();
        Ok(())
    }

    // The reply over the newest version, which these files are; where the database is cached, its insertion is tried.
    fn load<A: Answerer>(
        &mut self,
        alloc: Global,
        files: &mut DbFiles<A>,
        answers: &A,
        kind: Kind,
        key: &[u8],
        now: u64,
    ) -> Result<Bytes, NoMemory>
        requires key { length key.now ≤ key_limit }
        requires moment { now < 2 ^ 62 }
        requires sources { self.old.cache.sources ≡ files.old.files }
        requires new { cached self.old.settings (record { kind = kind; key = key.now }) self.old.cache ≡ None }
        ensures settings { self.new.settings ≡ self.old.settings }
        ensures limit { self.new.reloads ≡ self.old.reloads }
        ensures ticked { self.new.ticked ≡ self.old.ticked }
        ensures sources { self.new.cache.sources ≡ self.old.cache.sources }
        ensures files { files.new ≡ files.old }
        ensures bound { IfOk result (λ reply. length reply ≤ reply_limit) }
        ensures kept { OnOk result ((kept_answer self.old.settings now (record { kind = kind; key = key.now }) self.old.cache).cache ≡ self.new.cache) }
        ensures reply { IfOk result (λ reply. (answer_of self.old.cache.sources (record { kind = kind; key = key.now })).bytes ≡ reply) }
        ensures stays { OnErr result (self.new.cache ≡ self.old.cache) }
    {
        files.begin(alloc, answers);
        let answer = files.answer(alloc, answers, kind, key)?;
        let reply = Bytes::copy(alloc, answer.bytes())?;
        self.keep(alloc, files, answers, kind, key, answer, now)?;
        Ok(reply)
    }

    // Tries to insert an answer, and what goes beside it, if the database is cached. All memory is taken before anything changes.
    fn keep<A: Answerer>(
        &mut self,
        alloc: Global,
        files: &mut DbFiles<A>,
        answers: &A,
        kind: Kind,
        key: &[u8],
        answer: Answer,
        now: u64,
    ) -> Result<(), NoMemory>
        requires key { length key.now ≤ key_limit }
        requires moment { now < 2 ^ 62 }
        requires sources { self.old.cache.sources ≡ files.old.files }
        requires answer { answer ≡ answer_of self.old.cache.sources (record { kind = kind; key = key.now }) }
        requires new { cached self.old.settings (record { kind = kind; key = key.now }) self.old.cache ≡ None }
        ensures settings { self.new.settings ≡ self.old.settings }
        ensures limit { self.new.reloads ≡ self.old.reloads }
        ensures ticked { self.new.ticked ≡ self.old.ticked }
        ensures sources { self.new.cache.sources ≡ self.old.cache.sources }
        ensures files { files.new ≡ files.old }
        ensures kept { OnOk result ((kept_answer self.old.settings now (record { kind = kind; key = key.now }) self.old.cache).cache ≡ self.new.cache) }
        ensures stays { OnErr result (self.new.cache ≡ self.old.cache) }
    {
        let conf = self.conf;
        if !conf.enabled {
            return Ok(());
        }
        let beside = answer_beside(alloc, files, answers, &conf, kind, &answer)?;
        let key = Bytes::copy(alloc, key)?;
        self.table.reserve(2)?;
        let fresh = Insertion::new(Request { kind, key }, answer, 0);
        self.table
            .insert_with(&conf, now, self.newest_version, fresh, beside);
        Ok(())
    }

    /// A tick at this moment, in seconds, over the files as they are now: the machine's. Where the files changed since
    /// the last tick, and such a change counts, every entry ends. Else the entries whose time is over end, and those of
    /// them that are not dropped are loaded anew. A database that is not cached does nothing.
    ///
    /// At `NoMemory` the entries are as before, and a poll may have been made. At `Spent` the cache is as the machine
    /// leaves it where a count stands at its end.
    pub fn tick<A: Answerer>(
        &mut self,
        alloc: Global,
        content: &Arc<Content>,
        answers: &A,
        now: u64,
    ) -> Result<(), CacheFault>
        requires moment { now < 2 ^ 62 }
        ensures settings { self.new.settings ≡ self.old.settings }
        ensures limit { self.new.reloads ≡ self.old.reloads }
        ensures ticked { OnOk result (self.new.ticked ≡ ticked_by self.old.settings self.old.ticked self.new.cache) }
        ensures kept { IfErr result (λ fault. self.new.ticked ≡ ticked_at fault self.old.ticked (ticked_after self.old.settings self.old.ticked (polled (arc_value content.now) self.old.cache))) }
        ensures turn { OnOk result (ComesTo (tick self.old.settings self.old.reloads now (arc_value content.now) self.old.ticked self.old.cache) self.new.cache) }
        ensures fault { IfErr result (TickFails self.old self.new now (arc_value content.now)) }
    {
        let mut files = DbFiles::new(content.clone()?);
        self.tick_prepared(alloc, &mut files, answers, now)
    }

    /// As `tick`, over files that a caller keeps, as in `lookup_prepared`.
    pub fn tick_prepared<A: Answerer>(
        &mut self,
        alloc: Global,
        files: &mut DbFiles<A>,
        answers: &A,
        now: u64,
    ) -> Result<(), CacheFault>
        requires moment { now < 2 ^ 62 }
        requires polled { OnTrue files.old.is_polled (self.old.cache.sources ≡ files.old.files) }
        ensures settings { self.new.settings ≡ self.old.settings }
        ensures limit { self.new.reloads ≡ self.old.reloads }
        ensures ticked { OnOk result (self.new.ticked ≡ ticked_by self.old.settings self.old.ticked self.new.cache) }
        ensures kept { IfErr result (λ fault. self.new.ticked ≡ ticked_at fault self.old.ticked (ticked_after self.old.settings self.old.ticked (polled files.old.files self.old.cache))) }
        ensures files { files.new.files ≡ files.old.files }
        ensures polled { OnTrue files.new.is_polled (self.new.cache.sources ≡ files.new.files) }
        ensures turn { OnOk result (ComesTo (tick self.old.settings self.old.reloads now files.old.files self.old.ticked self.old.cache) self.new.cache) }
        ensures fault { IfErr result (FaultsBy (tick self.old.settings self.old.reloads now files.old.files self.old.ticked self.old.cache) files.old.files self.old.cache self.new.cache) }
    {
        if !self.conf.enabled {
            return Ok(());
        }
        self.poll(files)?;
        let kept = self.ticked_after();
        match self.check(alloc, files, answers, now) {
            Ok(()) => {
                self.ticked = self.newest_version;
                Ok(())
            }
            Err(CacheFault::NoMemory) => Err(CacheFault::NoMemory),
            Err(CacheFault::Spent { count }) => {
                self.ticked = kept;
                Err(CacheFault::Spent { count })
            }
        }
    }

    // After the poll of a tick: an invalidation where the files changed since the last one, and else a pruning.
    fn check<A: Answerer>(
        &mut self,
        alloc: Global,
        files: &mut DbFiles<A>,
        answers: &A,
        now: u64,
    ) -> Result<(), CacheFault>
        requires moment { now < 2 ^ 62 }
        requires sources { self.old.cache.sources ≡ files.old.files }
        ensures settings { self.new.settings ≡ self.old.settings }
        ensures limit { self.new.reloads ≡ self.old.reloads }
        ensures ticked { self.new.ticked ≡ self.old.ticked }
        ensures sources { self.new.cache.sources ≡ self.old.cache.sources }
        ensures files { files.new ≡ files.old }
        ensures turn { OnOk result (ComesTo (checked self.old.settings self.old.reloads now self.old.ticked self.old.cache) self.new.cache) }
        ensures fault { IfErr result (GivesUpBy (checked self.old.settings self.old.reloads now self.old.ticked self.old.cache) self.old.cache self.new.cache) }
    {
        if !self.is_outdated() {
            return self.prune(alloc, files, answers, now);
        }
        self.invalidate()
    }

    // Whether the files changed since the last tick, and such a change counts.
    fn is_outdated(&self) -> bool
        ensures { result ≡ is_outdated self.now.settings self.now.cache.newest_version self.now.ticked }
    {
        self.conf.is_outdated(self.newest_version, self.ticked)
    }

    // The version that a tick keeps which stops from here on: its pruning comes once the newest version is kept.
    fn ticked_after(&self) -> u64
        ensures { result ≡ ticked_after self.now.settings self.now.ticked (Ok (unchanged self.now.cache)) }
    {
        if self.is_outdated() {
            self.ticked
        } else {
            self.newest_version
        }
    }

    // The entries whose time is over end, and those of them that are not dropped are loaded anew. All memory is taken
    // before anything changes.
    fn prune<A: Answerer>(
        &mut self,
        alloc: Global,
        files: &mut DbFiles<A>,
        answers: &A,
        now: u64,
    ) -> Result<(), CacheFault>
        requires moment { now < 2 ^ 62 }
        requires sources { self.old.cache.sources ≡ files.old.files }
        ensures settings { self.new.settings ≡ self.old.settings }
        ensures limit { self.new.reloads ≡ self.old.reloads }
        ensures ticked { self.new.ticked ≡ self.old.ticked }
        ensures sources { self.new.cache.sources ≡ self.old.cache.sources }
        ensures files { files.new ≡ files.old }
        ensures turn { OnOk result (ComesTo (pruned self.old.settings self.old.reloads now self.old.cache) self.new.cache) }
        ensures fault { IfErr result (GivesUpBy (pruned self.old.settings self.old.reloads now self.old.cache) self.old.cache self.new.cache) }
    {
        let entries = self.table.entries();
        let due = answer_due(alloc, files, answers, entries, self.reloads, now)?;
        let Some(fresh) = due else {
            return Ok(());
        };
        self.table.end_due(now)?;
        self.table
            .insert_all(&self.conf, now, self.newest_version, fresh);
        Ok(())
    }

    /// An invalidation: every live entry ends. It takes no memory. At `Spent` the cache is as the machine leaves it
    /// where a count stands at its end.
    pub fn invalidate(&mut self) -> Result<(), CacheFault>
        ensures settings { self.new.settings ≡ self.old.settings }
        ensures limit { self.new.reloads ≡ self.old.reloads }
        ensures ticked { self.new.ticked ≡ self.old.ticked }
        ensures sources { self.new.cache.sources ≡ self.old.cache.sources }
        ensures turn { OnOk result (ComesTo (invalidated self.old.cache) self.new.cache) }
        ensures fault { IfErr result (StopsBy (invalidated self.old.cache) self.new.cache) }
    {
        if self.epoch == LAST_COUNT {
            return Err(CacheFault::Spent { count: LAST_COUNT });
        }
        self.epoch += 1;
        self.table.end_all()
    }
}
