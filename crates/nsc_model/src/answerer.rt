// `Answerer`: the trait of values that answer requests over a content.
ghost use Rattle.std.specs.Prelude.{◌≡◌, ◌≤◌, IfOk, IfSome, length};
ghost use Rattle.std.specs.Arc.{arc_value};
ghost use Rattle.nsc_model.specs.Content.{Content};
ghost use Rattle.nsc_model.specs.Answers.{answer_of};

use crate::answer::Answer;
use crate::content::Content;
use crate::kind::Kind;
use nsc_base::NoMemory;
use std::alloc::Global;
use std::sync::Arc;

/// Something that answers requests over a content, as the service switch of nsswitch.conf(5) says.
pub trait Answerer {
    /// What is made once of a content, and serves every request over it.
    type Ready: Drop;

    /// The content that something was prepared from.
    ghost prepared_from: { Self.Ready → Content };

    /// Makes ready to answer over this content. Fails only for want of memory.
    fn prepare(&self, alloc: Global, content: Arc<Content>) -> Result<Self::Ready, NoMemory>
        ensures { IfOk result (λ ready. prepared_from ready ≡ arc_value content) };

    /// The content that `ready` was prepared from.
    fn content<'a>(&self, ready: &'a Self::Ready) -> &'a Arc<Content>
        ensures { arc_value result.now ≡ prepared_from ready.now };

    /// That content once more, prepared for many answers, where that makes them quicker and there is memory for it. `None` where
    /// there is none, or where `ready` serves as well, as what this call made does. A caller asks for it where a further answer over
    /// the content is due.
    fn prepare_further(&self, alloc: Global, ready: &Self::Ready) -> Option<Self::Ready>
        ensures { IfSome result (λ made. prepared_from made ≡ prepared_from ready.now) }
    {
        let _ = alloc;
        let _ = ready;
        None
    }

    /// The answer to the request of this kind and key over the content that `ready` was prepared from. Fails only
    /// for want of memory.
    fn answer(
        &self,
        alloc: Global,
        ready: &Self::Ready,
        kind: Kind,
        key: &[u8],
    ) -> Result<Answer, NoMemory>
        ensures { IfOk result (λ answer. answer ≡ answer_of (prepared_from ready.now) (record { kind = kind; key = key.now })) };
}
