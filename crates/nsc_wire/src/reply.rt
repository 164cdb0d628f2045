// `encode`: the bytes of a reply of any kind.
ghost use Rattle.std.specs.Prelude.{◌≡◌, ◌+◌, ◌<◌, ◌≤◌, ◌++◌, length, IfOk, OnOk};
ghost use Rattle.nsc_model.specs.Answer.{reply_limit};
ghost use Rattle.nsc_model.specs.Wire.{IsReplyOf, Spells, lacking, row_found, shape_of, spelled, text};
ghost use Rattle.nsc_wire.specs.Fields.{fields};

use crate::addresses::encode_addresses;
use crate::groups::{encode_group, encode_ids};
use crate::hosts::encode_host;
use crate::netgroups::{encode_member, encode_netgroup};
use crate::services::encode_service;
use crate::users::encode_user;
use byteorder::{ByteOrder, LittleEndian};
use nsc_base::{Bytes, NoMemory};
use nsc_model::{Kind, Reply, Row, Shape};
use std::alloc::Global;

// The version of the protocol, in the first field of each request and each reply.
pub(crate) const VERSION: u32 = 2;

// A field, in bytes.
pub(crate) const FIELD: usize = 4;

// A number that is not there, or a database that is not cached.
pub(crate) const MINUS_ONE: u32 = u32::MAX;

// The error of a reply on hosts without a row: HOST_NOT_FOUND of netdb.h.
pub(crate) const NOT_FOUND: u32 = 1;

/// The bytes of a reply of this kind. A row is of the kind's shape and has no zero byte in its texts, and the bytes are
/// at most 2^30. Memory is taken once; fails only for want of it.
pub fn encode(alloc: Global, kind: Kind, reply: &Reply) -> Result<Bytes, NoMemory>
    requires of_kind { IsReplyOf kind reply.now }
    requires fits { length (spelled kind reply.now) ≤ reply_limit }
    ensures { IfOk result (λ bytes. Spells kind reply.now bytes) }
{
    match reply {
        Reply::Found(row) => encode_row(alloc, row),
        Reply::Absent => encode_lacking(alloc, kind, 0, NOT_FOUND),
        Reply::Disabled => encode_lacking(alloc, kind, MINUS_ONE, MINUS_ONE),
    }
}

// The bytes of the reply that has a row.
fn encode_row(alloc: Global, row: &Row) -> Result<Bytes, NoMemory>
    requires { length (row_found row.now) ≤ reply_limit }
    ensures { IfOk result (λ bytes. bytes ≡ row_found row.now) }
{
    match row {
        Row::Passwd(user) => encode_user(alloc, user),
        Row::Group(group) => encode_group(alloc, group),
        Row::Host(host) => encode_host(alloc, host),
        Row::Service(service) => encode_service(alloc, service),
        Row::Ai(ai) => encode_addresses(alloc, ai),
        Row::Groups(ids) => encode_ids(alloc, ids.as_slice()),
        Row::Netgroup(texts) => encode_netgroup(alloc, texts),
        Row::Member(has) => encode_member(alloc, *has),
    }
}

// The fields of a reply of this kind without a row.
fn encode_lacking(alloc: Global, kind: Kind, found: u32, error: u32) -> Result<Bytes, NoMemory>
    ensures { IfOk result (λ bytes. bytes ≡ lacking (shape_of kind) found error) }
{
    match kind.shape() {
        Shape::User => encode_fields(
            alloc,
            &[VERSION, found, 0, 0, MINUS_ONE, MINUS_ONE, 0, 0, 0],
        ),
        Shape::Group => encode_fields(alloc, &[VERSION, found, 0, 0, MINUS_ONE, 0]),
        Shape::Ids => encode_fields(alloc, &[VERSION, found, 0]),
        Shape::Host => encode_fields(
            alloc,
            &[VERSION, found, 0, 0, MINUS_ONE, MINUS_ONE, 0, error],
        ),
        Shape::Addresses => encode_fields(alloc, &[VERSION, found, 0, 0, 0, error]),
        Shape::Service => encode_fields(alloc, &[VERSION, found, 0, 0, 0, MINUS_ONE]),
        Shape::Netgroup => encode_fields(alloc, &[VERSION, found, 0, 0]),
        Shape::Member => encode_fields(alloc, &[VERSION, found, 0]),
    }
}

// A few fields, in memory that is taken once.
pub(crate) fn encode_fields(alloc: Global, numbers: &[u32]) -> Result<Bytes, NoMemory>
    requires { length numbers.now < 10 }
    ensures { IfOk result (λ bytes. bytes ≡ fields numbers.now) }
{
    let mut out = Vec::with_capacity(alloc, FIELD * numbers.len())?;
    put_fields(&mut out, numbers)?;
    Ok(Bytes::from_vec(out))
}

// How many bytes a text has with its zero byte.
pub(crate) fn text_len(text: &Bytes) -> u32
    requires { length text.now < reply_limit }
    ensures { result ≡ length text.now + 1 }
{
    (text.len() + 1) as u32
}

// Puts fields after the bytes that are there.
pub(crate) fn put_fields(out: &mut Vec<u8>, numbers: &[u32]) -> Result<(), NoMemory>
    ensures { OnOk result (out.new.items ≡ out.old.items ++ fields numbers.now) }
{
    let from = out.len();
    out.resize(from + FIELD * numbers.len(), 0)?;
    LittleEndian::write_u32_into(numbers, &mut out.as_mut_slice()[from..]);
    Ok(())
}

// Puts a text and its zero byte after the bytes that are there.
pub(crate) fn put_text(out: &mut Vec<u8>, bytes: &[u8]) -> Result<(), NoMemory>
    ensures { OnOk result (out.new.items ≡ out.old.items ++ text bytes.now) }
{
    out.extend_from_slice(bytes)?;
    Ok(out.push(0)?)
}
