// `Cached`: one database of a replay, with its lookups, ticks and invalidations.
ghost use Rattle.std.specs.Prelude.{◌≡◌, ◌≤◌, ◌<◌, ◌^◌, [], ◌∷◌, None, Ok, length, map, unwrap_or, option_map, IfNone, IfSome, IfOk, IfErr, OnErr, OnOk};
ghost use Rattle.std.specs.Arc.{arc_value};
ghost use Rattle.nsc_model.specs.Files.{no_files};
ghost use Rattle.nsc_model.specs.Entry.{key_limit};
ghost use Rattle.nsc_model.specs.Answer.{reply_limit};
ghost use Rattle.nsc_model.specs.Machine.{new_cache, cached, lookup, tick, checked, polled, pruned, ticked_after, ticked_by, invalidated, due_of, room_of, unchanged};
ghost use Rattle.nsc_model.specs.declared.record.Record.TheVariants.{Change};
ghost use Rattle.nsc_model.specs.Sizes.{SizeFits};
ghost use Rattle.nsc_pruner.specs.Due.{due_from};
ghost use Rattle.nsc_turns.specs.Loads.{beside_of, loaded_of};
ghost use Rattle.nsc_turns.specs.Turns.{Completes, CompletesWith};
ghost use Rattle.nsc_replay.specs.Cached.{Faults, GivesUp, IsFresh, LooksUp, OnlyStops, looked_up, ticked_at};

use crate::prepared::Prepared;
use nsc_base::{Buf, Bytes, NoMemory};
use nsc_model::{Answerer, CacheFault, Content, DbConf, KEPT_LIMIT, Kind};
use nsc_pruner::Due;
use nsc_turns::{
    Answering, Checked, HitOrMiss, check, insert, insert_beside, invalidate, load, load_beside,
    loads, look, renew,
};
use nsc_words::Layout;
use nsc_writer::{Loaded, Stamp, Writer};
use std::alloc::Global;
use std::marker::Model;
use std::sync::Arc;

/// A database of a replay: the files that it reads, whether its writer polled them, its settings, and its writer.
#[derive(Drop)]
pub struct Cached<A: Answerer> {
    files: Prepared<A>,
    is_polled: bool,
    settings: DbConf,
    reloads: Option<u32>,
    writer: Writer,
    ticked: u64,
    reply: Buf,
}

impl<A: Answerer> Model for Cached<A> {
    ghost use Rattle.std.specs.Prelude.{◌≡◌, None};
    ghost use Rattle.std.specs.Bool.{OnTrue};
    ghost use Rattle.nsc_model.specs.Entry.{kept_limit};
    ghost use Rattle.nsc_model.specs.Machine.{room_of};
    ghost use Rattle.nsc_replay.specs.Cached.{Cached};

    ghost Value = { Cached };

    ghost view = { λ d. record { files = d.files; settings = d.settings; reloads = d.reloads; writer = d.writer; ticked = d.ticked } };

    ghost invariant = { λ d. OnTrue d.is_polled (d.writer.cache.sources ≡ d.files) × (d.writer.layout.arena ≡ room_of d.settings) × (d.writer.slide ≡ None) × (d.reply.limit ≡ kept_limit) };
}

impl<A: Answerer> Cached<A> {
    /// Every file absent, and an empty cache with these settings. All words that its entries will ever take are taken here. Fails
    /// only for want of memory.
    pub fn new(alloc: Global, settings: DbConf, reloads: Option<u32>) -> Result<Cached<A>, NoMemory>
        requires { SizeFits settings }
        ensures files { IfOk result (λ cached. cached.files ≡ no_files) }
        ensures settings { IfOk result (λ cached. (cached.settings ≡ settings) × (cached.reloads ≡ reloads)) }
        ensures cache { IfOk result (λ cached. cached.writer.cache ≡ new_cache no_files) }
        ensures history { IfOk result (λ cached. cached.writer.seen ≡ Change 0 no_files ∷ []) }
        ensures ticked { IfOk result (λ cached. cached.ticked ≡ 0) }
    {
        let layout = Layout {
            buckets: settings.size as usize,
            arena: settings.room(),
        };
        let content = Arc::new(alloc, Content::none())?;
        let (writer, _pass) = Writer::new(alloc, layout, content.clone()?)?;
        Ok(Cached {
            files: Prepared::new(content),
            is_polled: false,
            settings,
            reloads,
            writer,
            ticked: 0,
            reply: Buf::new(alloc, KEPT_LIMIT)?,
        })
    }

    /// The files that the database reads become these, and with `None` they stay.
    pub fn set_files(&mut self, content: Option<Arc<Content>>)
        ensures { self.new ≡ record self.old { files = unwrap_or (option_map (λ c. arc_value c) content) self.old.files } }
    {
        if let Some(content) = content {
            self.files = Prepared::new(content);
            self.is_polled = false;
        }
    }

    /// A lookup over the files as they are, at this moment in seconds. The reply has at most 2^30 bytes.
    ///
    /// At `NoMemory` a poll was made, or nothing at all: no entry was used, and none inserted.
    pub fn lookup(
        &mut self,
        alloc: Global,
        answers: &A,
        kind: Kind,
        key: &[u8],
        now: u64,
    ) -> Result<Bytes, CacheFault>
        requires key { length key.now ≤ key_limit }
        requires moment { now < 2 ^ 62 }
        ensures rest { self.new ≡ record self.old { writer = self.new.writer } }
        ensures bound { IfOk result (λ reply. length reply ≤ reply_limit) }
        ensures turn { IfOk result (CompletesWith (looked_up self.old now (record { kind = kind; key = key.now })) self.old.writer self.new.writer) }
        ensures fault { IfErr result (Faults (looked_up self.old now (record { kind = kind; key = key.now })) self.old.files self.old.writer self.new.writer) }
    {
        if let Some(reply) = self.hit(alloc, kind, key)? {
            return Ok(reply);
        }
        let stamp = match self.poll() {
            Ok(stamp) => stamp,
            Err(fault) => return Err(fault),
        };
        let (loaded, beside) = self.load(alloc, answers, stamp, kind, key, now)?;
        if self.settings.enabled {
            self.writer.learn();
            let (said, loaded) = insert(&mut self.writer, loaded);
            self.writer.learn();
            insert_beside(&mut self.writer, said, beside.as_ref());
            return Ok(loaded.into_reply());
        }
        Ok(loaded.into_reply())
    }

    // The reply of the live entry of the request, where the database is cached, if there is one. The memory of its copy is taken before
    // the entry is looked for, so that an entry whose reply cannot be handed out is not used.
    fn hit(&mut self, alloc: Global, kind: Kind, key: &[u8]) -> Result<Option<Bytes>, NoMemory>
        ensures rest { self.new ≡ record self.old { writer = self.new.writer } }
        ensures bound { IfOk result (λ hit. IfSome hit (λ reply. length reply ≤ reply_limit)) }
        ensures hit { IfOk result (λ hit. IfSome hit (LooksUp (record { kind = kind; key = key.now }) self.old self.new.writer)) }
        ensures none { IfOk result (λ hit. IfNone hit (cached self.old.settings (record { kind = kind; key = key.now }) self.old.writer.cache ≡ None)) }
        ensures same { IfOk result (λ hit. IfNone hit (self.new ≡ self.old)) }
        ensures unused { OnErr result (self.new ≡ self.old) }
    {
        if !self.settings.enabled {
            return Ok(None);
        }
        let mut copy = Vec::with_capacity(alloc, KEPT_LIMIT)?;
        if let HitOrMiss::Hit(_) = look(&mut self.writer, kind, key, &mut self.reply) {
            copy.extend_from_slice(self.reply.bytes()).unwrap();
            return Ok(Some(Bytes::from_vec(copy)));
        }
        Ok(None)
    }

    // Polls the files; where the writer is known to have polled them, nothing is compared.
    fn poll(&mut self) -> Result<Stamp, CacheFault>
        ensures rest { self.new ≡ record self.old { writer = self.new.writer } }
        ensures polled { OnOk result (Completes (polled self.old.files self.old.writer.cache) self.old.writer self.new.writer) }
        ensures fresh { IfOk result (λ stamp. IsFresh self.old.files stamp self.new.writer) }
        ensures fault { IfErr result (GivesUp (polled self.old.files self.old.writer.cache) self.old.writer self.new.writer) }
    {
        self.writer.learn();
        let epoch = self.writer.epoch();
        if self.is_polled {
            return Ok(self.writer.confirm(epoch));
        }
        match self.writer.record_poll(self.files.content()?, epoch) {
            Ok(stamp) => {
                self.is_polled = true;
                Ok(stamp)
            }
            Err(spent) => Err(CacheFault::Spent { count: spent.count }),
        }
    }

    // Makes the answer over the files, as it is to be inserted, and what goes beside it.
    fn load(
        &mut self,
        alloc: Global,
        answers: &A,
        stamp: Stamp,
        kind: Kind,
        key: &[u8],
        now: u64,
    ) -> Result<(Loaded, Option<Loaded>), NoMemory>
        requires key { length key.now ≤ key_limit }
        requires moment { now < 2 ^ 62 }
        ensures same { self.new ≡ self.old }
        ensures loaded { IfOk result (λ l. l.0 ≡ loaded_of (record { settings = self.old.settings; stamp = stamp; moment = now }) self.old.files (record { kind = kind; key = key.now }) 0) }
        ensures beside { IfOk result (λ l. l.1 ≡ beside_of (record { settings = self.old.settings; stamp = stamp; moment = now }) self.old.files (record { kind = kind; key = key.now })) }
    {
        let answering = Answering {
            settings: self.settings,
            stamp,
            moment: now,
        };
        let ready = self.files.lend(alloc, answers, 1)?;
        let made = load_both(alloc, answers, &ready, &answering, kind, key);
        self.files.keep(ready);
        made
    }

    /// A tick over the files as they are, at this moment in seconds.
    ///
    /// At `NoMemory` a poll was made, or nothing at all: no entry ended. At `Spent` a tick whose pruning stopped still keeps the
    /// version that it found.
    pub fn tick(&mut self, alloc: Global, answers: &A, now: u64) -> Result<(), CacheFault>
        requires { now < 2 ^ 62 }
        ensures files { self.new.files ≡ self.old.files }
        ensures settings { (self.new.settings ≡ self.old.settings) × (self.new.reloads ≡ self.old.reloads) }
        ensures ticked { OnOk result (self.new.ticked ≡ ticked_by self.old.settings self.old.ticked self.new.writer.cache) }
        ensures kept { IfErr result (λ fault. self.new.ticked ≡ ticked_at fault self.old.ticked (ticked_after self.old.settings self.old.ticked (polled self.old.files self.old.writer.cache))) }
        ensures turn { OnOk result (Completes (tick self.old.settings self.old.reloads now self.old.files self.old.ticked self.old.writer.cache) self.old.writer self.new.writer) }
        ensures fault { IfErr result (Faults (tick self.old.settings self.old.reloads now self.old.files self.old.ticked self.old.writer.cache) self.old.files self.old.writer self.new.writer) }
    {
        if !self.settings.enabled {
            return Ok(());
        }
        let stamp = match self.poll() {
            Ok(stamp) => stamp,
            Err(fault) => return Err(fault),
        };
        let kept = self.ticked_after();
        match self.check(alloc, answers, stamp, now) {
            Ok(()) => {
                self.ticked = self.writer.version();
                Ok(())
            }
            Err(CacheFault::NoMemory) => Err(CacheFault::NoMemory),
            Err(CacheFault::Spent { count }) => {
                self.ticked = kept;
                Err(CacheFault::Spent { count })
            }
        }
    }

    // The version that a tick keeps which stops from here on: its pruning comes once the newest version is kept.
    fn ticked_after(&self) -> u64
        ensures { result ≡ ticked_after self.now.settings self.now.ticked (Ok (unchanged self.now.writer.cache)) }
    {
        let newest = self.writer.version();
        if self.settings.is_outdated(newest, self.ticked) {
            self.ticked
        } else {
            newest
        }
    }

    // After the poll of a tick: every entry ends where the files changed since the last one; else those that are due end, and are
    // loaded again.
    fn check(
        &mut self,
        alloc: Global,
        answers: &A,
        stamp: Stamp,
        now: u64,
    ) -> Result<(), CacheFault>
        requires moment { now < 2 ^ 62 }
        requires fresh { IsFresh self.old.files stamp self.old.writer }
        ensures rest { self.new ≡ record self.old { writer = self.new.writer } }
        ensures turn { OnOk result (Completes (checked self.old.settings self.old.reloads now self.old.ticked self.old.writer.cache) self.old.writer self.new.writer) }
        ensures fault { IfErr result (GivesUp (checked self.old.settings self.old.reloads now self.old.ticked self.old.writer.cache) self.old.writer self.new.writer) }
    {
        let (settings, reloads, ticked) = (self.settings, self.reloads, self.ticked);
        match check(&mut self.writer, alloc, &settings, reloads, ticked, now) {
            Ok(Checked::Emptied) => Ok(()),
            Ok(Checked::Listed(due)) => self.renew(alloc, answers, stamp, due, now),
            Err(fault) => Err(fault),
        }
    }

    // Loads those again that are due.
    fn renew(
        &mut self,
        alloc: Global,
        answers: &A,
        stamp: Stamp,
        mut due: Vec<Due>,
        now: u64,
    ) -> Result<(), CacheFault>
        requires moment { now < 2 ^ 62 }
        requires fresh { IsFresh self.old.files stamp self.old.writer }
        requires due { due.items ≡ map (due_from self.old.reloads) (due_of now self.old.writer.cache.entries) }
        ensures rest { self.new ≡ record self.old { writer = self.new.writer } }
        ensures turn { OnOk result (Completes (pruned self.old.settings self.old.reloads now self.old.writer.cache) self.old.writer self.new.writer) }
        ensures fault { IfErr result (GivesUp (pruned self.old.settings self.old.reloads now self.old.writer.cache) self.old.writer self.new.writer) }
    {
        let answering = Answering {
            settings: self.settings,
            stamp,
            moment: now,
        };
        let ready = self.files.lend(alloc, answers, due.len())?;
        let anew = loads(alloc, answers, &ready, &answering, &due);
        self.files.keep(ready);
        let anew = anew?;
        self.writer.learn();
        match renew(&mut self.writer, &mut due, &anew, now) {
            Ok(()) => Ok(()),
            Err(spent) => Err(CacheFault::Spent { count: spent.count }),
        }
    }

    /// An invalidation. It takes no memory, so it never gives `NoMemory`.
    pub fn invalidate(&mut self) -> Result<(), CacheFault>
        ensures rest { self.new ≡ record self.old { writer = self.new.writer } }
        ensures turn { OnOk result (Completes (invalidated self.old.writer.cache) self.old.writer self.new.writer) }
        ensures fault { IfErr result (OnlyStops (invalidated self.old.writer.cache) self.old.writer self.new.writer) }
    {
        match invalidate(&mut self.writer) {
            Ok(_) => Ok(()),
            Err(spent) => Err(CacheFault::Spent { count: spent.count }),
        }
    }
}

// Makes the answer to a request, as it is to be inserted, and what goes beside it.
fn load_both<A: Answerer>(
    alloc: Global,
    answers: &A,
    ready: &A::Ready,
    answering: &Answering,
    kind: Kind,
    key: &[u8],
) -> Result<(Loaded, Option<Loaded>), NoMemory>
    requires key { length key.now ≤ key_limit }
    requires moment { answering.now.moment < 2 ^ 62 }
    ensures loaded { IfOk result (λ l. l.0 ≡ loaded_of answering.now (A.prepared_from ready.now) (record { kind = kind; key = key.now }) 0) }
    ensures beside { IfOk result (λ l. l.1 ≡ beside_of answering.now (A.prepared_from ready.now) (record { kind = kind; key = key.now })) }
{
    let loaded = load(alloc, answers, ready, answering, kind, key, 0)?;
    let beside = load_beside(alloc, answers, ready, answering, &loaded)?;
    Ok((loaded, beside))
}
