// The entries whose time is over.
ghost use Rattle.std.specs.Prelude.{◌≡◌, ◌≤◌, ◌||◌, false, All, None, Some, filter, map, length, IfOk};
ghost use Rattle.nsc_model.specs.Entry.{kept_limit, key_limit};
ghost use Rattle.nsc_shelf.specs.Shelf.{IsTold, entry_from};
ghost use Rattle.nsc_model.specs.Machine.{Kept, due_of, next_count, reached};
ghost use Rattle.nsc_pruner.specs.Due.{IsOver, due_at, due_cause_of, due_from, marked_by, pruned_by};

use nsc_base::{Buf, Bytes, NoMemory};
use nsc_model::{KEPT_LIMIT, KEY_LIMIT, Kind, Request, has_reached, next_count};
use nsc_shelf::EntryAt;
use nsc_writer::{Cause, Writer};
use std::alloc::Global;
use std::marker::Model;

/// What is known of an entry whose time was over: its number and request, how often it was reloaded without a use, whether it is
/// dropped, and not reloaded, and whether it was ended since.
#[derive(Drop)]
pub struct Due {
    number: u64,
    request: Request,
    reloads: u64,
    dropped: bool,
    ended: bool,
}

impl Model for Due {
    ghost use Rattle.std.specs.Prelude.{◌≤◌, length};
    ghost use Rattle.nsc_model.specs.Entry.{key_limit};
    ghost use Rattle.nsc_pruner.specs.Due.{Due};

    ghost Value = { Due };

    ghost view = { λ d. record { number = d.number; request = d.request; reloads = d.reloads; dropped = d.dropped; ended = d.ended } };

    ghost invariant = { λ d. length d.request.key ≤ key_limit };
}

impl Due {
    /// The number of the entry.
    pub fn number(&self) -> u64
        ensures { result ≡ self.now.number }
    {
        self.number
    }

    /// The kind of its request.
    pub fn kind(&self) -> Kind
        ensures { result ≡ self.now.request.kind }
    {
        self.request.kind
    }

    /// The key of its request, at most 1,024 bytes.
    pub fn key(&self) -> &[u8]
        ensures value { result.now ≡ self.now.request.key }
        ensures bound { length result.now ≤ key_limit }
    {
        self.request.key.as_slice()
    }

    /// The count of reloads without a use for the entry that is loaded in its place: one more than its own, which stays at 2^62.
    pub fn next_reloads(&self) -> u64
        ensures { result ≡ next_count self.now.reloads }
    {
        next_count(self.reloads)
    }

    /// Whether it is dropped, and not reloaded: its reply is a not-found one, or it was reloaded often enough.
    pub fn is_dropped(&self) -> bool
        ensures { result ≡ self.now.dropped }
    {
        self.dropped
    }

    /// Whether it was ended since.
    pub fn is_ended(&self) -> bool
        ensures { result ≡ self.now.ended }
    {
        self.ended
    }

    // Says whether it was ended.
    fn mark(&mut self, ended: bool)
        ensures { self.new ≡ record self.old { ended = ended } }
    {
        self.ended = ended;
    }

    // Why it ends at this moment.
    fn cause(&self, now: u64) -> Cause
        ensures { result ≡ due_cause_of now self.now }
    {
        if self.dropped {
            Cause::Expired(now)
        } else {
            Cause::Replaced
        }
    }
}

/// The live entries whose time is over at this moment, in seconds, in rising number. One is dropped, and not reloaded, where its
/// reply is a not-found one, or where it was reloaded `limit` times or more without a use; `None` is no limit. Fails only for want of
/// memory.
pub fn expired(
    writer: &mut Writer,
    alloc: Global,
    limit: Option<u32>,
    now: u64,
) -> Result<Vec<Due>, NoMemory>
    requires { writer.old.slide ≡ None }
    ensures all { IfOk result (λ all. all.items ≡ map (due_from limit) (due_of now writer.old.cache.entries)) }
    ensures same { writer.new ≡ writer.old }
{
    writer.learn();
    let mut all = Vec::new(alloc);
    let mut key = Buf::new(alloc, KEY_LIMIT)?;
    let mut reply = Buf::new(alloc, KEPT_LIMIT)?;
    let mut from = 0;
    'entries: while let Some(entry) = writer.next(from) {
        if entry.timeout < now {
            all.push(due_at(writer, alloc, entry, limit, &mut key, &mut reply)?)?;
        }
        from = entry.next;
    }
    Ok(all)
}

// What is known of an entry whose time is over. Its key and its reply go through buffers.
fn due_at(
    writer: &mut Writer,
    alloc: Global,
    entry: EntryAt,
    limit: Option<u32>,
    key: &mut Buf,
    reply: &mut Buf,
) -> Result<Due, NoMemory>
    requires key { key.old.limit ≡ key_limit }
    requires reply { reply.old.limit ≡ kept_limit }
    requires still { writer.old.slide ≡ None }
    ensures due { IfOk result (λ due. (k : Kept) → entry_from entry.number writer.old.cache.entries ≡ Some k → IsTold (Some k) (Some entry) → due ≡ due_from limit k) }
    ensures same { writer.new ≡ writer.old }
    ensures key { key.new.limit ≡ key_limit }
    ensures reply { reply.new.limit ≡ kept_limit }
{
    let _ = writer.entry(entry.number as usize, key, reply);
    due_from(alloc, entry, key.bytes(), limit)
}

// What is known of an entry with this key, whose time is over.
fn due_from(alloc: Global, entry: EntryAt, key: &[u8], limit: Option<u32>) -> Result<Due, NoMemory>
    requires { length key.now ≤ key_limit }
    ensures { IfOk result (λ due. due ≡ due_at limit entry key.now) }
{
    let kind = entry.kind;
    let key = Bytes::copy(alloc, key)?;
    Ok(Due {
        number: entry.number,
        request: Request { kind, key },
        reloads: entry.reloads,
        dropped: entry.not_found || has_reached(limit, entry.reloads),
        ended: false,
    })
}

/// Ends those of the entries that are live still, one after the other: the dropped ones as expired at this moment, and the others
/// to be loaded again. Marks which ones it ended, and gives their count.
pub fn prune_ends(writer: &mut Writer, due: &mut [Due], now: u64) -> u64
    requires over { All (IsOver writer.old.seen now) due.old }
    requires still { writer.old.slide ≡ None }
    ensures pruned { writer.new ≡ pruned_by now due.old writer.old }
    ensures marked { due.new ≡ marked_by now due.old writer.old }
    ensures count { result ≡ length (filter (λ d. d.ended) due.new) }
{
    end_each(writer, due, now);
    ended_count(due)
}

// The same without the count.
fn end_each(writer: &mut Writer, due: &mut [Due], now: u64)
    requires over { All (IsOver writer.old.seen now) due.old }
    requires still { writer.old.slide ≡ None }
    ensures pruned { writer.new ≡ pruned_by now due.old writer.old }
    ensures marked { due.new ≡ marked_by now due.old writer.old }
{
    for one in due.iter_mut() {
        writer.learn();
        let ended = writer.end(one.number, one.cause(now));
        one.mark(ended);
    }
}

// How many of them were ended.
fn ended_count(due: &[Due]) -> u64
    ensures { result ≡ length (filter (λ d. d.ended) due.now) }
{
    let mut count = 0;
    for one in due {
        if one.ended {
            count += 1;
        }
    }
    count
}
