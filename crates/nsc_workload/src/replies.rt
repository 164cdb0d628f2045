// `ReplyList`: replies in the order of their requests.
use nsc_base::Bytes;
use std::marker::Model;

/// Replies in order, each of them bytes: seen in contracts as a list of lists.
#[derive(Debug, Drop)]
pub(crate) struct ReplyList {
    replies: Vec<Bytes>,
}

impl Model for ReplyList {
    ghost use Rattle.std.specs.Prelude.{List, ℕ};

    ghost Value = { List (List ℕ) };

    ghost view = { λ l. l.replies.items };
}

impl ReplyList {
    ghost use Rattle.std.specs.Prelude.{◌≡◌};

    /// The replies of a `Vec`, with no copy and no new memory.
    pub(crate) fn from_vec(replies: Vec<Bytes>) -> ReplyList
        ensures { result ≡ replies.items }
    {
        ReplyList { replies }
    }

    /// The replies, lent.
    pub(crate) fn as_slice(&self) -> &[Bytes]
        ensures { result.now ≡ self.now }
    {
        self.replies.as_slice()
    }
}
