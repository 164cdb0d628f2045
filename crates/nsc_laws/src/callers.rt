//! The core of a database: what its callers do in any order, and the history that this makes.

ghost use Rattle.std.specs.Prelude.{◌≡◌, ◌≢◌, ℕ, List, [], ◌∷◌, Some};
ghost use Rattle.nsc_model.specs.declared.answer.Request.{Request};
ghost use Rattle.nsc_model.specs.declared.kind.Db.{Db};
ghost use Rattle.nsc_model.specs.declared.record.Record.{Record};
ghost use Rattle.nsc_model.specs.declared.record.Record.TheVariants as record_of;
ghost use Rattle.nsc_model.specs.Content.{Content};
ghost use Rattle.nsc_model.specs.Entry.{Entry};
ghost use Rattle.nsc_model.specs.History.{Answered, Legal, version_in};
ghost use Rattle.nsc_laws.specs.Core.{Core, Move, Empty, IsMove, AreMoves, RepliesAnswer, opening};
ghost use Rattle.nsc_laws.specs.Origins.{IsAnswer, IsRunReply, IsRun, IsSourced};

/// In every run of moves from an opening, whatever its callers do and in whatever order, the history is legal, each of its
/// contents is what the database reads of some files, and an entry of the first version stands after some caller's poll of it; and
/// each reply that a caller may get is an answer to its request, between what the caller had seen at the start of its call and
/// the history at the reply.
pub fn core_runs_are_legal()
    ensures legal { (db : Db) (files : Content) (moves : List Move) (new : Core) → AreMoves db moves (opening db files) new → Legal new.history }
    ensures sourced { (db : Db) (files : Content) (moves : List Move) (new : Core) → AreMoves db moves (opening db files) new → IsSourced db new.history }
    ensures answered { (db : Db) (files : Content) (moves : List Move) (new : Core) → AreMoves db moves (opening db files) new → RepliesAnswer new }
{}

/// In every run, the versions that a caller polled have a content: so a caller that polled in its call has an answer to
/// reply, and one that polled since it noted the invalidations has an answer to insert.
pub fn polled_versions_are_held()
    ensures asked { (db : Db) (files : Content) (moves : List Move) (new : Core) → AreMoves db moves (opening db files) new → (a n : ℕ) → (new.callers a).asked ≡ Some n → (content : Content) × (version_in new.history n ≡ Some content) }
    ensures version { (db : Db) (files : Content) (moves : List Move) (new : Core) → AreMoves db moves (opening db files) new → (a n : ℕ) → (new.callers a).version ≡ Some n → (content : Content) × (version_in new.history n ≡ Some content) }
{}

/// After every run the database can be emptied: its live entries are a list, each once, in rising number.
pub fn core_can_be_emptied()
    ensures { (db : Db) (files : Content) (moves : List Move) (new : Core) → AreMoves db moves (opening db files) new → (emptied : Core) × IsMove db Empty new emptied }
{}

/// Every legal history is made by some run of moves from an opening, where each of its contents is what the database reads of
/// some files, and an entry of the first version stands after some caller's poll of it: so the runs make these histories and
/// no others. That a version was looked at since the last invalidation is of every legal history, and no premise.
pub fn legal_histories_are_run()
    ensures { (db : Db) (history : List Record) → Legal history → IsSourced db history → IsRun db history }
{}

/// So Legal has to say that a version was looked at since the last invalidation: an entry of a later version right after an
/// invalidation has its origins, and no run makes that history.
pub fn unpolled_entries_are_not_run()
    ensures sourced { (db : Db) (e : Entry) (epoch : ℕ) (before : List Record) → e.version ≢ 0 → IsSourced db before → IsSourced db (record_of.Load e ∷ record_of.Invalid epoch ∷ before) }
    ensures refuted { (db : Db) (e : Entry) (epoch : ℕ) (before : List Record) → IsRun db (record_of.Load e ∷ record_of.Invalid epoch ∷ before) → ⊥ }
{}

/// Every answer over such a history is a reply that some caller may get in a run that makes the history, for a call at whose
/// start it had seen just so much; and every such reply is an answer over the history. An answer over a version is of a caller
/// that looked at it, so not at the record that begins the history: this is so wherever the caller had seen that record.
pub fn answers_are_replied()
    ensures replied { (db : Db) (seen history : List Record) (request : Request) (bytes : List ℕ) →
        Legal history → IsSourced db history → IsAnswer seen history request bytes → IsRunReply db seen history request bytes }
    ensures answered { (db : Db) (seen history : List Record) (request : Request) (bytes : List ℕ) → IsRunReply db seen history request bytes → IsAnswer seen history request bytes }
    ensures any { (seen history : List Record) (request : Request) (bytes : List ℕ) → seen ≢ [] → Answered seen history request bytes → IsAnswer seen history request bytes }
{}
