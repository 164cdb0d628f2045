// `Kept`: a live entry with its count of reloads without a use.
ghost use Rattle.std.specs.Prelude.{◌≡◌};
ghost use Rattle.nsc_model.specs.Kinds.{is_request};
ghost use Rattle.nsc_model.specs.Machine.{entry_words, is_due, is_dropped, next_count};

use nsc_model::{Entry, Kind, has_reached, next_count};
use nsc_words::node_words;
use std::marker::Model;

/// A live entry, and how often it was reloaded since it was last used.
#[derive(Drop)]
pub struct Kept {
    entry: Entry,
    reloads: u64,
}

impl Model for Kept {
    ghost use Rattle.nsc_model.specs.Machine.{Kept};

    ghost Value = { Kept };

    ghost view = { λ h. record { entry = h.entry; reloads = h.reloads } };
}

impl Kept {
    /// The entry, reloaded so often.
    pub fn new(entry: Entry, reloads: u64) -> Kept
        ensures { result ≡ record { entry = entry; reloads = reloads } }
    {
        Kept { entry, reloads }
    }

    /// The entry.
    pub fn entry(&self) -> &Entry
        ensures { result.now ≡ self.now.entry }
    {
        &self.entry
    }

    /// How often it was reloaded since it was last used.
    pub fn reloads(&self) -> u64
        ensures { result ≡ self.now.reloads }
    {
        self.reloads
    }

    /// Whether it answers the request of this kind and key.
    pub fn answers(&self, kind: Kind, key: &[u8]) -> bool
        ensures { result ≡ is_request (record { kind = kind; key = key.now }) self.now.entry.request }
    {
        let request = self.entry.request();
        kind.number() == request.kind.number() && key == request.key.as_slice()
    }

    /// It is used: its count of reloads begins anew.
    pub fn restart(&mut self)
        ensures { self.new ≡ record self.old { reloads = 0 } }
    {
        self.reloads = 0;
    }

    /// How many words it takes: at most 8,328.
    pub fn words(&self) -> usize
        ensures { result ≡ entry_words self.now.entry }
    {
        node_words(
            self.entry.request().key.len(),
            self.entry.answer().bytes().len(),
        )
    }

    /// Whether its time is over.
    pub fn is_due(&self, now: u64) -> bool
        ensures { result ≡ is_due now self.now }
    {
        self.entry.timeout() < now
    }

    /// Whether it is dropped once its time is over, and not reloaded.
    pub fn is_dropped(&self, limit: Option<u32>) -> bool
        ensures { result ≡ is_dropped limit self.now }
    {
        self.entry.answer().is_not_found() || has_reached(limit, self.reloads)
    }

    /// The count of one more reload; it stays at its end.
    pub fn next_reloads(&self) -> u64
        ensures { result ≡ next_count self.now.reloads }
    {
        next_count(self.reloads)
    }
}
