// Entries in a list: the entry of a request, the end of due entries, and the words in use.
ghost use Rattle.std.specs.Prelude.{◌≡◌, ◌<◌, ◌^◌, position};
ghost use Rattle.std.specs.Vec.{vec_capacity};
ghost use Rattle.nsc_model.specs.Kinds.{is_request};
ghost use Rattle.nsc_model.specs.Machine.{others_of, all_words};

use crate::kept::Kept;
use nsc_model::Kind;

/// The place of the first entry that answers the request of this kind and key.
pub fn find_entry(entries: &[Kept], kind: Kind, key: &[u8]) -> Option<usize>
    ensures { result ≡ position (λ k. is_request (record { kind = kind; key = key.now }) k.entry.request) entries.now }
{
    entries.iter().position(|kept| kept.answers(kind, key))
}

/// The entries whose time is over leave.
pub fn drop_due(entries: &mut Vec<Kept>, now: u64)
    ensures items { entries.new.items ≡ others_of now entries.old.items }
    ensures capacity { vec_capacity entries.new ≡ vec_capacity entries.old }
{
    entries.retain(|kept| !kept.is_due(now));
}

/// How many words the entries take.
pub fn words_of(entries: &[Kept]) -> usize
    requires { all_words entries.now < 2 ^ 64 }
    ensures { result ≡ all_words entries.now }
{
    entries.iter().map(|kept| kept.words()).sum()
}
