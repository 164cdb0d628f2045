// `EntryList`: the live entries of a plain cache, from the oldest on.
ghost use Rattle.std.specs.Prelude.{◌≡◌, ◌≤◌, ◌<◌, ◌+◌, ◌^◌, [], ◌∷◌, None, find, length, IfOk, IfErr, IfSome, OnOk, OnErr};
ghost use Rattle.nsc_model.specs.declared.answer.Request.{Request};
ghost use Rattle.nsc_model.specs.Kinds.{is_request};
ghost use Rattle.nsc_model.specs.Answer.{reply_limit};
ghost use Rattle.std.specs.Option.{is_some};
ghost use Rattle.nsc_model.specs.Machine.{Cache, due_of, others_of, compacted, compacted_after};
ghost use Rattle.nsc_model.specs.Events.{ComesTo};
ghost use Rattle.nsc_model.specs.Faults.{StopsBy};
ghost use Rattle.nsc_plain.specs.PlainCache.{HitsIn};
ghost use Rattle.nsc_plain.specs.EntryList.{StayApart, insertions_for, is_made, entries_for, over, put, put_all, put_with, refused_in};

use crate::entries::{drop_due, find_entry, words_of};
use crate::insertion::Insertion;
use crate::kept::Kept;
use nsc_base::{Bytes, NoMemory};
use nsc_model::{CacheFault, DbConf, KEPT_LIMIT, Kind, LAST_COUNT, Request, next_count};
use std::alloc::Global;
use std::marker::Model;

/// The live entries of a cache from the oldest on, with their counts; it knows of no content.
#[derive(Drop)]
pub struct EntryList {
    entries: Vec<Kept>,
    used: usize,
    inserted: u64,
    cycle: u64,
    add_failed: u64,
}

impl Model for EntryList {
    ghost use Rattle.std.specs.Vec.{vec_capacity};
    ghost use Rattle.nsc_plain.specs.EntryList.{IsTable, EntryList};

    ghost Value = { EntryList };

    ghost view = { λ t. record { entries = t.entries.items; used = t.used; inserted = t.inserted; cycle = t.cycle; add_failed = t.add_failed; capacity = vec_capacity t.entries } };

    ghost invariant = { λ t. IsTable t.entries.items t.used t.inserted };
}

impl EntryList {
    /// No entry, and no memory for one.
    pub fn new(alloc: Global) -> EntryList
        ensures { result ≡ record { entries = []; used = 0; inserted = 0; cycle = 0; add_failed = 0; capacity = 0 } }
    {
        EntryList {
            entries: Vec::new(alloc),
            used: 0,
            inserted: 0,
            cycle: 0,
            add_failed: 0,
        }
    }

    /// The entries.
    pub fn entries(&self) -> &[Kept]
        ensures { result.now ≡ self.now.entries }
    {
        self.entries.as_slice()
    }

    /// The reply of the entry that answers the request of this kind and key, whose count of reloads begins anew, if there
    /// is one. Fails only for want of memory; then nothing changed.
    pub fn hit(&mut self, alloc: Global, kind: Kind, key: &[u8]) -> Result<Option<Bytes>, NoMemory>
        ensures bound { IfOk result (λ hit. IfSome hit (λ reply. length reply ≤ reply_limit)) }
        ensures hit { IfOk result (λ hit. HitsIn (record { kind = kind; key = key.now }) self.old self.new hit) }
        ensures stays { OnErr result (self.new ≡ self.old) }
    {
        let Some(at) = find_entry(&self.entries, kind, key) else {
            return Ok(None);
        };
        let kept = &mut self.entries[at];
        let reply = Bytes::copy(alloc, kept.entry().answer().bytes())?;
        kept.restart();
        Ok(Some(reply))
    }

    /// Takes the memory for `more` further entries.
    pub fn reserve(&mut self, more: usize) -> Result<(), NoMemory>
        ensures stays { self.new ≡ record self.old { capacity = self.new.capacity } }
        ensures room { OnOk result (length self.new.entries + more ≤ self.new.capacity) }
    {
        self.entries.reserve(more)?;
        Ok(())
    }

    /// Tries an insertion, with memory that was taken before, and says whether it was made.
    pub fn insert(&mut self, conf: &DbConf, now: u64, version: u64, fresh: Insertion) -> bool
        requires moment { now < 2 ^ 62 }
        requires memory { length self.old.entries < self.old.capacity }
        requires new { find (λ k. is_request fresh.request k.entry.request) self.old.entries ≡ None }
        ensures inserted { (cache : Cache) → put conf.now now version fresh (over cache self.old) ≡ over cache self.new }
        ensures made { (cache : Cache) → result ≡ is_made (refused_in conf.now now version fresh (over cache self.old)) }
        ensures capacity { self.old.capacity ≤ self.new.capacity }
        ensures length { length self.new.entries ≤ length self.old.entries + 1 }
        ensures requests { (request : Request) → entries_for request self.new.entries ≤ entries_for request self.old.entries + insertions_for request (fresh ∷ []) }
    {
        if fresh.reply_len() > KEPT_LIMIT || self.inserted == LAST_COUNT {
            return false;
        }
        let words = fresh.words();
        if conf.room().saturating_sub(self.used) < words {
            self.add_failed = next_count(self.add_failed);
            return false;
        }
        let kept = fresh.into_kept(conf, now, version, self.inserted);
        match self.entries.push(kept) {
            Ok(()) => {}
            Err(_) => unreachable!(),
        }
        self.used += words;
        self.inserted += 1;
        true
    }

    /// Tries an insertion, with memory that was taken before. An entry of its request may be live: then nothing changes.
    pub fn insert_absent(&mut self, conf: &DbConf, now: u64, version: u64, fresh: Insertion)
        requires moment { now < 2 ^ 62 }
        requires memory { length self.old.entries < self.old.capacity }
        ensures { (cache : Cache) → put conf.now now version fresh (over cache self.old) ≡ over cache self.new }
    {
        if self.is_live(fresh.request()) {
            return;
        }
        self.insert(conf, now, version, fresh);
    }

    /// Tries an insertion, with memory for two that was taken before. If it is made, what goes beside it is tried too, if anything does.
    pub fn insert_with(
        &mut self,
        conf: &DbConf,
        now: u64,
        version: u64,
        fresh: Insertion,
        beside: Option<Insertion>,
    )
        requires moment { now < 2 ^ 62 }
        requires memory { length self.old.entries + 2 ≤ self.old.capacity }
        requires new { find (λ k. is_request fresh.request k.entry.request) self.old.entries ≡ None }
        ensures { (cache : Cache) → put_with conf.now now version fresh beside (over cache self.old) ≡ over cache self.new }
    {
        let is_made = self.insert(conf, now, version, fresh);
        let Some(beside) = beside else {
            return;
        };
        if is_made {
            self.insert_absent(conf, now, version, beside);
        }
    }

    // Whether an entry of the request is live.
    fn is_live(&self, request: &Request) -> bool
        ensures { result ≡ is_some (find (λ k. is_request request.now k.entry.request) self.now.entries) }
    {
        find_entry(&self.entries, request.kind, request.key.as_slice()).is_some()
    }

    /// Insertions are tried, one after the other, with memory that was taken before.
    pub fn insert_all(&mut self, conf: &DbConf, now: u64, version: u64, fresh: Vec<Insertion>)
        requires moment { now < 2 ^ 62 }
        requires memory { length self.old.entries + length fresh.items ≤ self.old.capacity }
        requires apart { StayApart self.old.entries fresh.items }
        ensures { (cache : Cache) → put_all conf.now now version fresh.items (over cache self.old) ≡ over cache self.new }
    {
        for one in fresh {
            self.insert(conf, now, version, one);
        }
    }

    // A compaction: the words of ended entries are free again.
    fn compact(&mut self) -> Result<(), CacheFault>
        ensures turn { OnOk result ((cache : Cache) → ComesTo (compacted (over cache self.old)) (over cache self.new)) }
        ensures fault { IfErr result (λ fault. (cache : Cache) → StopsBy (compacted (over cache self.old)) (over cache self.new) fault) }
        ensures entries { self.new.entries ≡ self.old.entries }
        ensures capacity { self.new.capacity ≡ self.old.capacity }
    {
        if self.cycle >= LAST_COUNT {
            return Err(CacheFault::Spent { count: LAST_COUNT });
        }
        self.cycle += 2;
        self.used = words_of(&self.entries);
        Ok(())
    }

    /// The entries whose time is over leave, and then the table is compacted. Their memory stays.
    pub fn end_due(&mut self, now: u64) -> Result<(), CacheFault>
        ensures turn { OnOk result ((cache : Cache) → ComesTo (compacted (over cache (record self.old { entries = others_of now self.old.entries }))) (over cache self.new)) }
        ensures fault { IfErr result (λ fault. (cache : Cache) → StopsBy (compacted (over cache (record self.old { entries = others_of now self.old.entries }))) (over cache self.new) fault) }
        ensures memory { length self.new.entries + length (due_of now self.old.entries) ≤ self.new.capacity }
        ensures entries { self.new.entries ≡ others_of now self.old.entries }
        ensures apart { (request : Request) → entries_for request self.new.entries + entries_for request (due_of now self.old.entries) ≤ 1 }
    {
        drop_due(&mut self.entries, now);
        self.compact()
    }

    /// Every entry leaves, and where there was any, the table is compacted.
    pub fn end_all(&mut self) -> Result<(), CacheFault>
        ensures turn { OnOk result ((cache : Cache) → ComesTo (compacted_after self.old.entries (over cache (record self.old { entries = [] }))) (over cache self.new)) }
        ensures fault { IfErr result (λ fault. (cache : Cache) → StopsBy (compacted_after self.old.entries (over cache (record self.old { entries = [] }))) (over cache self.new) fault) }
    {
        if self.entries.is_empty() {
            return Ok(());
        }
        self.entries.clear();
        self.compact()
    }
}
