//! Replays, and the four histories that they make.

ghost use Rattle.std.specs.Prelude.{ℕ, List};
ghost use Rattle.nsc_model.specs.Files.{no_files};
ghost use Rattle.nsc_model.specs.declared.conf.Conf.{Conf};
ghost use Rattle.nsc_model.specs.Frames.{Finish, Frame, cut_at};
ghost use Rattle.nsc_model.specs.Replay.{first_state, play, replay};
ghost use Rattle.nsc_laws.specs.Core.{opening};
ghost use Rattle.nsc_laws.specs.Replies.{WritesInTurn};

/// In every replay, with any settings and any frames or bytes, the output is what the frames write, in order and one piece for
/// each frame that is played; a piece of a lookup is a reply after its length, which is an answer to its request over the
/// history of the request's database, whose caller had seen the whole of it before the lookup, and an entry that it comes
/// from is live at that moment. After each frame, and at a stop, the history of each database is exactly the records that
/// the event of the frame names for it, in front of what it was.
pub fn replays_are_answered()
    ensures of_frames { (settings : Conf) (frames : List Frame) (last : Finish) → WritesInTurn settings frames last first_state (λ db. opening db no_files) (play settings frames last first_state) }
    ensures of_bytes { (settings : Conf) (bytes : List ℕ) → WritesInTurn settings (cut_at 0 bytes).frames (cut_at 0 bytes).finish first_state (λ db. opening db no_files) (replay settings bytes) }
{}
