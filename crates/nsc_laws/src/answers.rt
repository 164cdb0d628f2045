//! Each law is the contract of a function with no body.

ghost use Rattle.std.specs.Prelude.{◌≢◌, ◌↔◌, ℕ, IsTrue, List, All};
ghost use Rattle.nsc_model.specs.declared.answer.Request.{Request};
ghost use Rattle.nsc_model.specs.declared.record.Record.{Record};
ghost use Rattle.nsc_model.specs.declared.row.Looked.TheVariants.{Found};
ghost use Rattle.nsc_model.specs.declared.row.Row.{Row};
ghost use Rattle.nsc_model.specs.Answers.{answer_of, looked_up};
ghost use Rattle.nsc_model.specs.Content.{Content};
ghost use Rattle.nsc_model.specs.Files.{FilesFit};
ghost use Rattle.nsc_model.specs.Entry.{Entry};
ghost use Rattle.nsc_model.specs.History.{Answered, HasLoad, IsFit, Legal};
ghost use Rattle.nsc_model.specs.Outcomes.{reply_to};
ghost use Rattle.nsc_model.specs.Wire.{Spells};
ghost use Rattle.nsc_laws.specs.Spelled.{SpellsVersion};

/// Over all files within their limits, the answer to every request spells the reply to what the switch finds: a row of the
/// request's kind with no zero byte in its texts, or that there is none, in at most 2^30 bytes. Its mark says exactly that
/// nothing was found.
pub fn answers_spell_their_rows()
    ensures spelled { (files : Content) (request : Request) → FilesFit files → Spells request.kind (reply_to (looked_up files request)) (answer_of files request).bytes }
    ensures marked { (files : Content) (request : Request) → IsTrue (answer_of files request).not_found ↔ ((row : Row) → looked_up files request ≢ Found row) }
{}

/// In a legal history, where the files of each version are within their limits, each answer of an entry, and each reply to a call,
/// spells what the switch finds over some version of the history.
pub fn answers_in_histories_spell_their_rows()
    ensures loaded { (history : List Record) (entry : Entry) → Legal history → All IsFit history → HasLoad history entry → SpellsVersion history entry.request entry.answer.bytes }
    ensures answered { (seen history : List Record) (request : Request) (bytes : List ℕ) → Legal history → All IsFit history → Answered seen history request bytes → SpellsVersion history request bytes }
{}
