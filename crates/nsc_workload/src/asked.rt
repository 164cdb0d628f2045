// The request at each place of a workload.
ghost use Rattle.std.specs.Prelude.{◌≡◌, ◌≤◌, ◌<◌, IfOk, decimal, length};
ghost use Rattle.nsc_model.specs.Entry.{key_limit};
ghost use Rattle.nsc_model.specs.Kinds.{database_of};
ghost use Rattle.nsc_model.specs.declared.kind.Db.TheVariants as db;
ghost use Rattle.nsc_workload.specs.Workload.{request_at, request_count, user_name};

use crate::users::{put_name, put_number};
use nsc_base::{Bytes, NoMemory};
use nsc_model::{Kind, Request};
use std::alloc::Global;

/// The request of a place in the workload of a number. Fails only for want of memory.
pub(crate) fn request(alloc: Global, number: u32, place: u32) -> Result<Request, NoMemory>
    requires number { (0 < number) × (number ≤ 1000) }
    requires place { place < request_count number }
    ensures request { IfOk result (λ request. request ≡ request_at number place) }
    ensures users { IfOk result (λ request. database_of request.kind ≡ db.Passwd) }
    ensures short { IfOk result (λ request. length request.key ≤ key_limit) }
{
    let user = 7 * place % (16 * number);
    if place % 4 == 3 {
        Ok(Request {
            kind: Kind::PwUid,
            key: id(alloc, 1000 + user)?,
        })
    } else {
        Ok(Request {
            kind: Kind::PwName,
            key: name(alloc, user)?,
        })
    }
}

// A number as a text.
fn id(alloc: Global, id: u32) -> Result<Bytes, NoMemory>
    ensures text { IfOk result (λ text. text ≡ decimal id) }
    ensures short { IfOk result (λ text. length text ≤ 10) }
{
    let mut text = Vec::new(alloc);
    put_number(&mut text, id)?;
    Ok(Bytes::from_vec(text))
}

// The name of a user.
fn name(alloc: Global, user: u32) -> Result<Bytes, NoMemory>
    ensures text { IfOk result (λ text. text ≡ user_name user) }
    ensures short { IfOk result (λ text. length text ≤ 11) }
{
    let mut name = Vec::new(alloc);
    put_name(&mut name, user)?;
    Ok(Bytes::from_vec(name))
}
