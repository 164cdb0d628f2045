//! What holds of every legal history.

ghost use Rattle.std.specs.Prelude.{◌≢◌, ℕ, List, [], ◌++◌};
ghost use Rattle.nsc_model.specs.declared.answer.Request.{Request};
ghost use Rattle.nsc_model.specs.declared.record.Record.{Record};
ghost use Rattle.nsc_model.specs.Entry.{Entry};
ghost use Rattle.nsc_model.specs.History.{Legal, IsPrefix, HasLoad, HasEnd, FromEntry};
ghost use Rattle.nsc_laws.specs.Moments.{WasLive};

/// What a legal history was at any earlier moment, from its first record on, was a legal history.
pub fn prefixes_are_legal()
    ensures { (more seen : List Record) → seen ≢ [] → Legal (more ++ seen) → Legal seen }
{}

/// An entry that a caller had not seen to end was live at some moment between the start of the caller's call and the
/// end of the history; so was the entry that a reply comes from.
pub fn replied_entries_were_live()
    ensures inserted { (seen history : List Record) (e : Entry) → Legal history → IsPrefix seen history → HasLoad history e → (HasEnd seen e.number → ⊥) → WasLive seen history e }
    ensures replied { (seen history : List Record) (request : Request) (bytes : List ℕ) → Legal history → IsPrefix seen history → (from : FromEntry seen history request bytes) → WasLive seen history from.entry_is }
{}
