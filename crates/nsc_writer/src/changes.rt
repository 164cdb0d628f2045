// Polls, insertions and ends.
ghost use Rattle.std.specs.Prelude.{◌≡◌, ◌≤◌, ◌<◌, ◌+◌, ◌∷◌, None, IfNone, IfSome, IfOk, IfErr};
ghost use Rattle.std.specs.Bool.{OnTrue, OnFalse};
ghost use Rattle.std.specs.Arc.{arc_value};
ghost use Rattle.nsc_model.specs.declared.record.Record.TheVariants as record_of;
ghost use Rattle.nsc_model.specs.Entry.{Entry};
ghost use Rattle.nsc_model.specs.History.{Allows, IsLive, PolledSince};
ghost use Rattle.nsc_model.specs.Machine.{last_count, polled};
ghost use Rattle.nsc_shelf.specs.Shelf.{has_number};
ghost use Rattle.nsc_writer.specs.Loaded.{kept_of};
ghost use Rattle.nsc_writer.specs.Writer.{Inserts, IsAnswered, IsAdmitted, IsNewest, IsRefused, Polls, SaysRefused};
ghost use Rattle.nsc_writer.specs.Writer.{all_ended, ending_of, emptied_by, is_full, refusal_of, with_entry, with_failed, without_entry};

use crate::loaded::{Inserted, Loaded, Stamp};
use crate::writer::{Cause, Writer};
use nsc_arena::{Fixed, lead, place_bytes};
use nsc_model::{Content, Ending, KEPT_LIMIT, LAST_COUNT, Spent};
use nsc_shelf::{find_from, note};
use nsc_words::{ADD_FAILED, hash, node_words};
use std::sync::Arc;

impl Writer {
    /// Enters that the files were looked at: this content becomes the next version, or confirms the newest one where they are the
    /// same. The stamp has that version and this epoch, the number of invalidations before the files were read. At `Spent`
    /// nothing changed: a new version is needed, and the count of versions stands at its end.
    pub fn record_poll(&mut self, content: Arc<Content>, epoch: u64) -> Result<Stamp, Spent>
        requires epoch { epoch ≤ self.old.cache.epoch }
        requires still { self.old.slide ≡ None }
        ensures polls { Polls (polled (arc_value content) self.old.cache) epoch self.old self.new result }
        ensures newest { IfOk result (λ stamp. IsNewest (arc_value content) stamp.version self.new.cache) }
        ensures polled { IfOk result (λ stamp. PolledSince self.new.seen stamp.version stamp.epoch) }
    {
        if content.is_same(&self.content) {
            return Ok(self.confirm(epoch));
        }
        self.sheet.learn();
        let before = self.version();
        if before == LAST_COUNT {
            return Err(Spent { count: LAST_COUNT });
        }
        self.sheet.change(&content);
        self.content = content;
        Ok(Stamp {
            version: before + 1,
            epoch,
        })
    }

    /// Enters that the files were looked at by a caller who knows that their content is the newest one.
    pub fn confirm(&mut self, epoch: u64) -> Stamp
        requires epoch { epoch ≤ self.old.cache.epoch }
        requires still { self.old.slide ≡ None }
        ensures stamp { result ≡ record { version = self.old.cache.newest_version; epoch = epoch } }
        ensures history { self.new ≡ record self.old { seen = record_of.Poll self.old.cache.newest_version ∷ self.old.seen } }
        ensures polled { PolledSince self.new.seen result.version result.epoch }
    {
        let version = self.version();
        self.sheet.poll();
        Stamp { version, epoch }
    }

    // Why the insertion is refused, if it is.
    fn refusal(&mut self, loaded: &Loaded) -> Option<Inserted>
        requires { self.old.slide ≡ None }
        ensures said { SaysRefused (refusal_of self.old loaded.now) result }
        ensures why { IfSome result (λ said. IsRefused said loaded.now self.old) }
        ensures free { IfNone result (IsAdmitted self.old loaded.now) }
        ensures same { self.new ≡ self.old }
    {
        let length = loaded.answer().bytes().len();
        if length > KEPT_LIMIT {
            let length = length as u64;
            return Some(Inserted::TooLarge { length });
        }
        let noted = loaded.stamp().epoch;
        let epoch = self.epoch();
        if noted < epoch {
            return Some(Inserted::Discarded {
                loaded: noted,
                epoch,
            });
        }
        let inserted = self.inserted();
        let free = self.map().layout().arena - self.used();
        if let Some(number) = self.number_of(loaded.kind(), loaded.key()) {
            return Some(Inserted::Present { number });
        }
        if inserted == LAST_COUNT {
            return Some(Inserted::Spent { count: LAST_COUNT });
        }
        let need = node_words(loaded.key().len(), length);
        if need > free {
            return Some(Inserted::Full {
                need: need as u64,
                free: free as u64,
            });
        }
        None
    }

    /// Tries an insertion, and hands back what was to be inserted. It is refused, in this order, where its reply is longer than
    /// 65,536 bytes, where the database was invalidated after its epoch was noted, where an entry of its request is live, where
    /// no more entries can be counted, and where too few words are free. It takes no memory.
    pub fn insert(&mut self, loaded: Loaded) -> (Inserted, Loaded)
        requires answered { IsAnswered self.old.seen loaded }
        requires still { self.old.slide ≡ None }
        ensures inserted { Inserts result.0 loaded self.old self.new }
        ensures why { IsRefused result.0 loaded self.old }
        ensures back { result.1 ≡ loaded }
    {
        let said = self.insert_lent(&loaded);
        (said, loaded)
    }

    /// As `insert`, of what is lent.
    pub fn insert_lent(&mut self, loaded: &Loaded) -> Inserted
        requires answered { IsAnswered self.old.seen loaded.now }
        requires still { self.old.slide ≡ None }
        ensures inserted { Inserts result loaded.now self.old self.new }
        ensures why { IsRefused result loaded.now self.old }
    {
        if let Some(refused) = self.refusal(loaded) {
            if is_full(refused) {
                self.fail();
            }
            return refused;
        }
        let number = self.inserted();
        self.put(loaded, number);
        Inserted::Done { number }
    }

    // Counts an insertion that found no room.
    fn fail(&mut self)
        requires { self.old.slide ≡ None }
        ensures { self.new ≡ with_failed self.old }
    {
        self.sheet.count(ADD_FAILED);
    }

    // Inserts the entry of this number, which nothing refuses.
    fn put(&mut self, loaded: &Loaded, number: u64)
        requires answered { IsAnswered self.old.seen loaded.now }
        requires free { IsAdmitted self.old loaded.now }
        requires number { number ≡ self.old.cache.inserted }
        requires still { self.old.slide ≡ None }
        ensures { self.new ≡ with_entry (kept_of loaded.now self.old.cache.inserted) self.old }
    {
        let fixed = Fixed {
            number,
            kind: loaded.kind().number(),
            version: loaded.stamp().version,
            timeout: loaded.timeout(),
            reloads: loaded.reloads(),
            not_found: loaded.answer().is_not_found(),
        };
        let key = loaded.key();
        let reply = loaded.answer().bytes();
        if let Some(at) = place_bytes(&mut self.sheet, self.layout, fixed, key, reply) {
            let hash = hash(fixed.kind, key);
            let (bucket, end) = lead(&mut self.sheet, self.layout, at, hash);
            self.sheet.publish(bucket, at);
            self.sheet.set_first_free(end as u64);
            self.sheet.set_loads(number + 1);
            self.live += 1;
            note(self.layout, &mut self.hints, hash, at);
        }
    }

    /// Ends the entry of this number by this cause, which lets it end. It is false exactly where the entry is not live; then
    /// nothing changed.
    pub fn end(&mut self, number: u64, cause: Cause) -> bool
        requires allowed { (e : Entry) → IsLive self.old.seen e → e.number ≡ number → Allows (ending_of cause) e }
        requires still { self.old.slide ≡ None }
        ensures live { result ≡ has_number number self.old.cache.entries }
        ensures ended { OnTrue result (self.new ≡ without_entry number (ending_of cause) self.old) }
        ensures stays { OnFalse result (self.new ≡ self.old) }
    {
        self.end_by(number, cause.ending())
    }

    // The same for any cause.
    fn end_by(&mut self, number: u64, cause: Ending) -> bool
        requires allowed { (e : Entry) → IsLive self.old.seen e → e.number ≡ number → Allows cause e }
        requires still { self.old.slide ≡ None }
        ensures live { result ≡ has_number number self.old.cache.entries }
        ensures ended { OnTrue result (self.new ≡ without_entry number cause self.old) }
        ensures stays { OnFalse result (self.new ≡ self.old) }
    {
        let Some(found) = find_from(&mut self.sheet, self.layout, &mut self.mark, number) else {
            return false;
        };
        if found.head.number != number {
            return false;
        }
        self.sheet.end(found.at, cause);
        self.live -= 1;
        true
    }

    /// Takes the first node of a bucket's chain out of the chain, where its entry ended; buckets count from 0. False where it took none. What
    /// the database holds stays as it was.
    pub fn unlink(&mut self, bucket: usize) -> bool
        requires bucket { bucket < self.old.layout.buckets }
        requires still { self.old.slide ≡ None }
        ensures { self.new ≡ self.old }
    {
        if !self.sheet.unlink(bucket) {
            return false;
        }
        self.sheet.learn();
        true
    }

    /// Ends every entry as invalidated, and gives the new number of invalidations. At `Spent` nothing changed: that number
    /// stands at its end.
    pub fn invalidate(&mut self) -> Result<u64, Spent>
        requires { self.old.slide ≡ None }
        ensures done { IfOk result (λ epoch. (epoch ≡ self.old.cache.epoch + 1) × (self.new ≡ emptied_by self.old)) }
        ensures below { IfOk result (λ _. self.old.cache.epoch < last_count) }
        ensures spent { IfErr result (λ spent. (self.old.cache.epoch ≡ last_count) × (spent.count ≡ last_count) × (self.new ≡ self.old)) }
    {
        self.sheet.learn();
        let before = self.epoch();
        if before == LAST_COUNT {
            return Err(Spent { count: LAST_COUNT });
        }
        self.end_all();
        self.sheet.invalidate();
        Ok(before + 1)
    }

    // Ends the live entries, one after the other, as invalidated.
    fn end_all(&mut self)
        requires { self.old.slide ≡ None }
        ensures { self.new ≡ all_ended self.old }
    {
        let mut from = 0;
        'entries: while let Some(entry) = self.next(from) {
            self.learn();
            self.end_by(entry.number, Ending::Invalidated);
            from = entry.next;
        }
    }
}

// Whether an insertion found too few words free.
fn is_full(said: Inserted) -> bool
    ensures { result ≡ is_full said }
{
    matches!(said, Inserted::Full { need: _, free: _ })
}

impl Cause {
    // The same as it stands in a history.
    fn ending(self) -> Ending
        ensures { result ≡ ending_of self }
    {
        match self {
            Cause::Expired(now) => Ending::Expired { now },
            Cause::Replaced => Ending::Replaced,
        }
    }
}
