// Lookups of entries, and the list of them.
ghost use Rattle.std.specs.Prelude.{◌≡◌, ◌+◌, ◌≤◌, min, None, IfNone, IfSome, slice_index};
ghost use Rattle.nsc_model.specs.Entry.{key_limit, kept_limit};
ghost use Rattle.nsc_model.specs.Machine.{last_count, live_entry};
ghost use Rattle.nsc_rule.specs.Strokes.{stored};
ghost use Rattle.nsc_shelf.specs.Shelf.{GivesHit, IsTold, entry_from, number_of};
ghost use Rattle.nsc_shelf.specs.Uses.{counted};
ghost use Rattle.nsc_writer.specs.Raised.{raised};
ghost use Rattle.nsc_writer.specs.Writer.{IsListed, with_hit};

use crate::writer::Writer;
use nsc_arena::{head_at, walk};
use nsc_base::Buf;
use nsc_model::{Kind, LAST_COUNT};
use nsc_shelf::{EntryAt, Found, Hit, Sheet, find, find_from, read_key, read_reply};
use nsc_words::{HITS, MISSES, NEGATIVE_HITS, hash};

impl Writer {
    /// Counts a lookup that made an answer anew.
    pub fn miss(&mut self, not_found: bool)
        requires { self.old.slide ≡ None }
        ensures { self.new ≡ record self.old { misses = counted not_found self.old.misses } }
    {
        self.sheet.count_use(MISSES, not_found);
    }

    /// Counts lookups that live entries answered: of found and of not-found replies. Each number stays at 2^62.
    pub fn note_hits(&mut self, found: u64, not_found: u64)
        requires { self.old.slide ≡ None }
        ensures { self.new ≡ record self.old { hits = raised found not_found self.old.hits } }
    {
        raise(&mut self.sheet, HITS, found);
        raise(&mut self.sheet, NEGATIVE_HITS, not_found);
    }

    /// The live entry that answers the request of this kind and key, if there is one: the buffer then has its reply, its count
    /// of reloads begins anew, and a hit is counted. Its time is not looked at.
    pub fn search(&mut self, kind: Kind, key: &[u8], reply: &mut Buf) -> Option<Hit>
        requires limit { kept_limit ≤ reply.old.limit }
        requires still { self.old.slide ≡ None }
        ensures gives { GivesHit (live_entry (record { kind = kind; key = key.now }) self.old.cache.entries) result reply.new.content }
        ensures stays { IfNone result (self.new ≡ self.old) }
        ensures used { IfSome result (λ hit. self.new ≡ with_hit (record { kind = kind; key = key.now }) hit.not_found self.old) }
        ensures limit { reply.new.limit ≡ reply.old.limit }
    {
        reply.clear();
        let Some(at) = find(
            &mut self.sheet,
            self.layout,
            &mut self.hints,
            kind.number(),
            key,
        ) else {
            return None;
        };
        let head = head_at(&mut self.sheet, at);
        let found = Found { at, head };
        read_reply(&mut self.sheet, found, reply);
        self.sheet.count_anew(found);
        self.sheet.count_use(HITS, head.not_found);
        Some(Hit {
            number: head.number,
            version: head.version,
            not_found: head.not_found,
        })
    }

    // The number of the entry that answers the request of this kind and key, if there is one.
    pub(crate) fn number_of(&mut self, kind: Kind, key: &[u8]) -> Option<u64>
        requires { self.old.slide ≡ None }
        ensures number { result ≡ number_of (live_entry (record { kind = kind; key = key.now }) self.old.cache.entries) }
        ensures same { self.new ≡ self.old }
    {
        let number = kind.number();
        match walk(&mut self.sheet, self.layout, hash(number, key), number, key) {
            Some(at) => Some(head_at(&mut self.sheet, at).number),
            None => None,
        }
    }

    /// The oldest live entry whose number is at least this one, with its key and its reply in the buffers; `None` where there is none,
    /// which leaves the buffers empty. The list begins at 0, and each entry says from where on the next one is found.
    pub fn entry(&mut self, at: usize, key: &mut Buf, reply: &mut Buf) -> Option<EntryAt>
        requires key { key_limit ≤ key.old.limit }
        requires reply { kept_limit ≤ reply.old.limit }
        requires still { self.old.slide ≡ None }
        ensures entry { IsListed (entry_from at self.old.cache.entries) result key.new.content reply.new.content }
        ensures same { self.new ≡ self.old }
        ensures key { key.new.limit ≡ key.old.limit }
        ensures reply { reply.new.limit ≡ reply.old.limit }
    {
        key.clear();
        reply.clear();
        let Some(found) = find_from(&mut self.sheet, self.layout, &mut self.mark, at as u64) else {
            return None;
        };
        read_key(&mut self.sheet, found, key);
        read_reply(&mut self.sheet, found, reply);
        Some(EntryAt::of(found.head))
    }

    /// As `entry`, without its key and its reply.
    pub fn next(&mut self, at: usize) -> Option<EntryAt>
        requires { self.old.slide ≡ None }
        ensures told { IsTold (entry_from at self.old.cache.entries) result }
        ensures same { self.new ≡ self.old }
    {
        let Some(found) = find_from(&mut self.sheet, self.layout, &mut self.mark, at as u64) else {
            return None;
        };
        Some(EntryAt::of(found.head))
    }
}

// Raises the count at a head word by `more`. It stays at 2^62.
fn raise(sheet: &mut Sheet, at: usize, more: u64)
    requires low { 5 ≤ at }
    requires high { at ≤ 9 }
    ensures { sheet.new ≡ record sheet.old { plan = stored at (min (slice_index sheet.old.plan.words at + more) last_count) sheet.old.plan } }
{
    let count = sheet.head(at);
    sheet.set_count(at, raised_count(count, more));
}

// Adds `more` to a count, which stays at 2^62.
fn raised_count(count: u64, more: u64) -> u64
    ensures { result ≡ min (count + more) last_count }
{
    count.saturating_add(more).min(LAST_COUNT)
}
