//! Replies read back from their bytes.

ghost use Rattle.std.specs.Prelude.{◌≡◌, Ok, IfOk};
ghost use Rattle.nsc_model.specs.declared.row.Reply.{Reply};
ghost use Rattle.nsc_model.specs.Wire.{Spells, shape_of};
ghost use Rattle.nsc_wire.specs.Replies.{Answers, Gives, all_fixed, decoded, ended as none_left, lacking_fields, reply_at, row_at, said_at, whole_reply};

use crate::addresses::decode_addresses;
use crate::fault::{Broken, ReplyFault};
use crate::groups::{decode_group, decode_ids};
use crate::hosts::decode_host;
use crate::netgroups::{decode_member, decode_netgroup};
use crate::reading::{fixed, fixed_fields, number};
use crate::reply::{MINUS_ONE, NOT_FOUND, VERSION};
use crate::services::decode_service;
use crate::users::decode_user;
use nsc_model::{Kind, Reply, Row, Shape};
use std::alloc::Global;

// The longest reply, in bytes.
const LIMIT: usize = 1 << 30;

/// The reply of this kind that the bytes spell. Takes memory for the texts and lists of its row alone.
pub fn decode_reply(alloc: Global, kind: Kind, bytes: &[u8]) -> Result<Reply, ReplyFault>
    // What is read is spelled so.
    ensures spelled { IfOk result (λ reply. Spells kind reply bytes.now) }
    // What is spelled so is read, unless memory is short.
    ensures only { (reply : Reply) → Spells kind reply bytes.now → Answers result (Ok reply) }
    // Where the fault is that the bytes have.
    ensures fault { Answers result (decoded kind bytes.now) }
{
    match decode_whole(alloc, kind, bytes) {
        Ok(reply) => Ok(reply),
        Err(Broken::NoMemory) => Err(ReplyFault::NoMemory),
        Err(Broken::Left(left)) => Err(ReplyFault::BadReply {
            at: bytes.len().saturating_sub(left),
        }),
    }
}

// The reply that all of the bytes spell.
#[tactic(auto, unfolding(crate::specs::Replies::whole_reply))]
fn decode_whole(alloc: Global, kind: Kind, bytes: &[u8]) -> Result<Reply, Broken>
    ensures { Gives (λ reply. reply) result (whole_reply kind bytes.now) }
{
    let (reply, rest) = decode_front(alloc, kind, bytes)?;
    ended(rest)?;
    if bytes.len() > LIMIT {
        return Err(Broken::Left(bytes.len() - LIMIT));
    }
    Ok(reply)
}

// No byte is left.
#[tactic(auto, unfolding(crate::specs::Replies::ended))]
fn ended(rest: &[u8]) -> Result<&[u8], Broken>
    ensures { Gives (λ x. x.now) result (none_left rest.now) }
{
    if !rest.is_empty() {
        return Err(Broken::Left(rest.len()));
    }
    Ok(rest)
}

// The reply at the front of the bytes, and those after it.
#[tactic(auto, unfolding(crate::specs::Replies::reply_at))]
fn decode_front(alloc: Global, kind: Kind, bytes: &[u8]) -> Result<(Reply, &[u8]), Broken>
    ensures { Gives (λ x. (x.0, x.1.now)) result (reply_at kind bytes.now) }
{
    let found = fixed(bytes, VERSION)?;
    decode_said(alloc, kind, found)
}

// What stands after the field version, and the bytes after it.
#[tactic(auto, unfolding(crate::specs::Replies::said_at))]
fn decode_said(alloc: Global, kind: Kind, bytes: &[u8]) -> Result<(Reply, &[u8]), Broken>
    ensures { Gives (λ x. (x.0, x.1.now)) result (said_at (shape_of kind) bytes.now) }
{
    let (found, rest) = number(bytes)?;
    match found {
        1 => {
            let (row, rest) = decode_row(alloc, kind, rest)?;
            Ok((Reply::Found(row), rest))
        }
        0 => {
            let rest = after_lacking(kind, NOT_FOUND, rest)?;
            Ok((Reply::Absent, rest))
        }
        MINUS_ONE => {
            let rest = after_lacking(kind, MINUS_ONE, rest)?;
            Ok((Reply::Disabled, rest))
        }
        _ => Err(Broken::Left(bytes.len())),
    }
}

// The row of a reply, after the fields version and found.
#[tactic(auto, unfolding(crate::specs::Replies::row_at))]
fn decode_row(alloc: Global, kind: Kind, bytes: &[u8]) -> Result<(Row, &[u8]), Broken>
    ensures { Gives (λ x. (x.0, x.1.now)) result (row_at (shape_of kind) bytes.now) }
{
    match kind.shape() {
        Shape::User => {
            let (user, rest) = decode_user(alloc, bytes)?;
            Ok((Row::Passwd(user), rest))
        }
        Shape::Group => {
            let (group, rest) = decode_group(alloc, bytes)?;
            Ok((Row::Group(group), rest))
        }
        Shape::Ids => {
            let (ids, rest) = decode_ids(alloc, bytes)?;
            Ok((Row::Groups(ids), rest))
        }
        Shape::Host => {
            let (host, rest) = decode_host(alloc, bytes)?;
            Ok((Row::Host(host), rest))
        }
        Shape::Addresses => {
            let (ai, rest) = decode_addresses(alloc, bytes)?;
            Ok((Row::Ai(ai), rest))
        }
        Shape::Service => {
            let (service, rest) = decode_service(alloc, bytes)?;
            Ok((Row::Service(service), rest))
        }
        Shape::Netgroup => {
            let (texts, rest) = decode_netgroup(alloc, bytes)?;
            Ok((Row::Netgroup(texts), rest))
        }
        Shape::Member => {
            let (has, rest) = decode_member(bytes)?;
            Ok((Row::Member(has), rest))
        }
    }
}

// The bytes after the fields of a reply of this kind without a row. They begin after the field found.
fn after_lacking(kind: Kind, error: u32, bytes: &[u8]) -> Result<&[u8], Broken>
    ensures { Gives (λ x. x.now) result (all_fixed (lacking_fields (shape_of kind) error) bytes.now) }
{
    match kind.shape() {
        Shape::User => fixed_fields(bytes, &[0, 0, MINUS_ONE, MINUS_ONE, 0, 0, 0]),
        Shape::Group => fixed_fields(bytes, &[0, 0, MINUS_ONE, 0]),
        Shape::Ids => fixed_fields(bytes, &[0]),
        Shape::Host => fixed_fields(bytes, &[0, 0, MINUS_ONE, MINUS_ONE, 0, error]),
        Shape::Addresses => fixed_fields(bytes, &[0, 0, 0, error]),
        Shape::Service => fixed_fields(bytes, &[0, 0, 0, MINUS_ONE]),
        Shape::Netgroup => fixed_fields(bytes, &[0, 0]),
        Shape::Member => fixed_fields(bytes, &[0]),
    }
}
