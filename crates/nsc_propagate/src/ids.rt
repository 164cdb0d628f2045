// The request by id for a row that was found by its name.
ghost use Rattle.std.specs.Prelude.{◌≡◌, ◌≤◌, List, ℕ, length, IfOk, IfSome};
ghost use Rattle.nsc_model.specs.Answers.{answer_of, request_beside};
ghost use Rattle.nsc_model.specs.Entry.{key_limit};
ghost use Rattle.nsc_model.specs.Kinds.{database_of};
ghost use Rattle.nsc_propagate.specs.Answered.{OfAnswered};

use itoa::Buffer;
use nsc_base::{Bytes, NoMemory, u32_at};
use nsc_model::{Answer, Content, Kind, Request};
use std::alloc::Global;

// The place of the uid or the gid in the reply to a request by name, in bytes.
const ID: usize = 16;

/// Makes the request by id for the row in the answer to a request by name: its kind is `PwUid` or `GrGid`, its key the decimal text
/// of the row's id. `None` if no row was found, or if the kind of the request is neither `PwName` nor `GrName`. `answer` is the answer
/// over `content` to a request of this kind.
///
/// # Errors
///
/// `NoMemory` if memory is short.
pub fn id_request(
    alloc: Global,
    content: &Content,
    kind: Kind,
    answer: &Answer,
) -> Result<Option<Request>, NoMemory>
    requires answered { (key : List ℕ) × (answer.now ≡ answer_of content.now (record { kind = kind; key = key })) }
    ensures request { OfAnswered content.now kind answer.now (λ request. IfOk result (λ id. id ≡ request_beside content.now request)) }
    ensures database { IfOk result (λ id. IfSome id (λ request. database_of request.kind ≡ database_of kind)) }
    ensures bound { IfOk result (λ id. IfSome id (λ request. length request.key ≤ key_limit)) }
{
    content.learn();
    let by_id = match kind {
        Kind::PwName => Kind::PwUid,
        Kind::GrName => Kind::GrGid,
        _ => return Ok(None),
    };
    if answer.is_not_found() {
        return Ok(None);
    }
    let id = u32_at(answer.bytes(), ID);
    let mut buffer = Buffer::new();
    let key = Bytes::copy(alloc, buffer.format(id).as_bytes())?;
    Ok(Some(Request { kind: by_id, key }))
}
