//! The replies to requests for a netgroup: its triples, and whether it has one.

ghost use Rattle.std.specs.Prelude.{◌≡◌, ◌≤◌, length, IfOk};
ghost use Rattle.nsc_model.specs.Answer.{reply_limit};
ghost use Rattle.nsc_model.specs.Wire.{member_found, netgroup_found};
ghost use Rattle.nsc_wire.specs.Replies.{Gives, member_at, netgroup_at};

use crate::fault::Broken;
use crate::reading::{ended_texts, number};
use crate::reply::{VERSION, encode_fields, put_fields};
use nsc_base::{Bytes, NoMemory, Texts};
use std::alloc::Global;

// The four fields of a netgroup's reply before the texts, in bytes.
const FIELDS: usize = 16;

// The texts of a triple: host, user and domain.
const PARTS: usize = 3;

// Encodes the reply that has the triples of a netgroup: its fields, and its texts.
pub(crate) fn encode_netgroup(alloc: Global, texts: &Texts) -> Result<Bytes, NoMemory>
    requires { length (netgroup_found texts.now) ≤ reply_limit }
    ensures { IfOk result (λ bytes. bytes ≡ netgroup_found texts.now) }
{
    let run = texts.run();
    let count = texts.len() / PARTS;
    let mut out = Vec::with_capacity(alloc, FIELDS + run.len())?;
    put_fields(&mut out, &[VERSION, 1, count as u32, run.len() as u32])?;
    out.extend_from_slice(run)?;
    Ok(Bytes::from_vec(out))
}

// Encodes the reply that says whether a netgroup has a triple.
pub(crate) fn encode_member(alloc: Global, has: bool) -> Result<Bytes, NoMemory>
    ensures { IfOk result (λ bytes. bytes ≡ member_found has) }
{
    encode_fields(alloc, &[VERSION, 1, u32::from(has)])
}

// Decodes the triples of a reply, after the fields version and found.
#[tactic(auto, unfolding(crate::specs::Replies::netgroup_at))]
pub(crate) fn decode_netgroup(alloc: Global, bytes: &[u8]) -> Result<(Texts, &[u8]), Broken>
    ensures { Gives (λ x. (x.0, x.1.now)) result (netgroup_at bytes.now) }
{
    let (count, sized) = number(bytes)?;
    let (size, front) = number(sized)?;
    let (texts, rest) = ended_texts(alloc, PARTS as u64 * u64::from(count), front)?;
    if rest.len() as u64 + u64::from(size) != front.len() as u64 {
        return Err(Broken::Left(sized.len()));
    }
    Ok((texts, rest))
}

// Decodes whether a netgroup has a triple, after the fields version and found.
#[tactic(auto, unfolding(crate::specs::Replies::member_at))]
pub(crate) fn decode_member(bytes: &[u8]) -> Result<(bool, &[u8]), Broken>
    ensures { Gives (λ x. (x.0, x.1.now)) result (member_at bytes.now) }
{
    let (has, rest) = number(bytes)?;
    match has {
        1 => Ok((true, rest)),
        0 => Ok((false, rest)),
        _ => Err(Broken::Left(bytes.len())),
    }
}
