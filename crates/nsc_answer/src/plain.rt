// `Plain`: answers by a search through a content's files, and an outcome's answer.
ghost use Rattle.std.specs.Prelude.{◌≡◌, ◌≤◌, IfOk, length};
ghost use Rattle.nsc_model.specs.Answers.{marked};
ghost use Rattle.nsc_model.specs.Answer.{reply_limit};
ghost use Rattle.nsc_model.specs.Outcomes.{reply_to};
ghost use Rattle.nsc_model.specs.Wire.{IsReplyOf, spelled};

use crate::listed::Listed;
use nsc_base::NoMemory;
use nsc_model::{Answer, Answerer, Content, Kind, Looked};
use nsc_wire::{Reply, encode};
use std::alloc::Global;
use std::sync::Arc;

/// Answers over the content itself: its service lists are read once, and its files anew at each request.
#[derive(Clone, Copy, Debug)]
pub struct Plain;

impl Answerer for Plain {
    type Ready = Listed;

    ghost prepared_from = { λ ready. ready };

    fn prepare(&self, alloc: Global, content: Arc<Content>) -> Result<Listed, NoMemory> {
        Listed::of(alloc, content)
    }

    fn content<'a>(&self, ready: &'a Listed) -> &'a Arc<Content> {
        ready.content()
    }

    fn answer(
        &self,
        alloc: Global,
        ready: &Listed,
        kind: Kind,
        key: &[u8],
    ) -> Result<Answer, NoMemory> {
        let looked = ready.look(alloc, kind, key)?;
        answer_with(alloc, kind, looked)
    }
}

/// The answer that an outcome of a kind gives: its reply, and a mark where nothing was found. Fails only for want of memory.
pub fn answer_with(alloc: Global, kind: Kind, looked: Looked) -> Result<Answer, NoMemory>
    requires of_kind { IsReplyOf kind (reply_to looked) }
    requires fits { length (spelled kind (reply_to looked)) ≤ reply_limit }
    ensures { IfOk result (λ answer. answer ≡ marked kind looked) }
{
    let (reply, not_found) = match looked {
        Looked::Found(row) => (Reply::Found(row), false),
        Looked::NotFound | Looked::Unavail => (Reply::Absent, true),
    };
    let bytes = encode(alloc, kind, &reply)?;
    Ok(Answer::new(bytes, not_found))
}
