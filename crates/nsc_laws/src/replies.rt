//! The bytes of replies.

ghost use Rattle.std.specs.Prelude.{◌≡◌, ℕ, List};
ghost use Rattle.nsc_model.specs.declared.kind.Kind.{Kind};
ghost use Rattle.nsc_model.specs.declared.row.Reply.{Reply};
ghost use Rattle.nsc_model.specs.Wire.{Spells};

/// No bytes spell two replies of one kind: a client that reads the bytes of a reply learns which one was sent.
pub fn bytes_spell_one_reply()
    ensures { (kind : Kind) (a b : Reply) (bytes : List ℕ) → Spells kind a bytes → Spells kind b bytes → a ≡ b }
{}
