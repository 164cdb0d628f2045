// `Frame`: the frames of a replay, and their sizes.
use nsc_base::Bytes;
use nsc_model::{Db, FileId};

/// The longest input of a connection in a frame, in bytes.
pub const INPUT_LIMIT: usize = 4096;

/// A frame of a replay.
#[derive(Debug, Drop)]
pub enum Frame<'a> {
    /// The input of one connection.
    Request {
        /// Its bytes.
        input: &'a [u8],
    },
    /// A file becomes this.
    SetFile {
        /// The file.
        file: FileId,
        /// Its bytes; `None` where it is absent from now on.
        bytes: Option<Bytes>,
    },
    /// This moment is reached.
    Time {
        /// The moment, in seconds.
        moment: u64,
    },
    /// A database is invalidated.
    Invalidate {
        /// The database.
        db: Db,
    },
    /// The replay ends.
    End,
}

impl Frame<'_> {
    ghost use Rattle.std.specs.Prelude.{◌≡◌, ◌≤◌, ◌<◌};
    ghost use Rattle.std.specs.Bool.{OnFalse, OnTrue};
    ghost use Rattle.nsc_model.specs.Frames.{End, frame_size};
    ghost use Rattle.nsc_replay.specs.Frame.{FrameFits, IsFollowed, said};

    /// How many bytes the frame took.
    pub fn size(&self) -> u64
        requires { FrameFits self.now }
        ensures size { result ≡ frame_size (said self.now) }
        ensures bound { 0 < result }
        ensures limit { result ≤ 16777223 }
    {
        match self {
            Frame::Request { input } => 5 + input.len() as u64,
            Frame::SetFile { bytes: None, .. } => 3,
            Frame::SetFile {
                bytes: Some(bytes),
                ..
            } => 7 + bytes.len() as u64,
            Frame::Time { .. } => 9,
            Frame::Invalidate { .. } => 2,
            Frame::End => 1,
        }
    }

    /// Whether this is the frame that ends a replay.
    pub fn is_end(&self) -> bool
        ensures end { OnTrue result (said self.now ≡ End) }
        ensures others { OnFalse result (IsFollowed (said self.now)) }
    {
        matches!(self, Frame::End)
    }
}
