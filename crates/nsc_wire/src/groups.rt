//! The replies to lookups of a group, and of the groups of a user.

ghost use Rattle.std.specs.Prelude.{◌≡◌, ◌≤◌, length, IfOk};
ghost use Rattle.nsc_model.specs.Answer.{reply_limit};
ghost use Rattle.nsc_model.specs.Wire.{group_found, ids_found};
ghost use Rattle.nsc_wire.specs.Replies.{Gives, group_at, ids_at};

use crate::fault::Broken;
use crate::reading::{after_sizes, number, numbers, size, text, texts};
use crate::reply::{FIELD, VERSION, put_fields, put_text, text_len};
use crate::texts::{put_lengths, put_texts, texts_count, texts_size};
use nsc_base::{Bytes, Ids, NoMemory};
use nsc_model::Group;
use std::alloc::Global;

// The six fields of a group's reply before the lengths of its members, in bytes.
const GROUP_FIELDS: usize = 24;

// The three fields of a list of ids before the ids, in bytes.
const IDS_FIELDS: usize = 12;

// The bytes of the reply that has a group: its fields, and its texts.
pub(crate) fn encode_group(alloc: Global, group: &Group) -> Result<Bytes, NoMemory>
    requires { length (group_found group.now) ≤ reply_limit }
    ensures { IfOk result (λ bytes. bytes ≡ group_found group.now) }
{
    let members = &group.members;
    let name = text_len(&group.name);
    let passwd = text_len(&group.passwd);
    let texts = (name + passwd) as usize + texts_size(members);
    let mut out = Vec::with_capacity(alloc, GROUP_FIELDS + texts)?;
    let fields = [VERSION, 1, name, passwd, group.gid, texts_count(members)];
    put_fields(&mut out, &fields)?;
    put_lengths(&mut out, members)?;
    put_text(&mut out, group.name.as_slice())?;
    put_text(&mut out, group.passwd.as_slice())?;
    put_texts(&mut out, members)?;
    Ok(Bytes::from_vec(out))
}

// The bytes of the reply that has the ids of a user's groups.
pub(crate) fn encode_ids(alloc: Global, ids: &[u32]) -> Result<Bytes, NoMemory>
    requires { length (ids_found ids.now) ≤ reply_limit }
    ensures { IfOk result (λ bytes. bytes ≡ ids_found ids.now) }
{
    let mut out = Vec::with_capacity(alloc, IDS_FIELDS + FIELD * ids.len())?;
    put_fields(&mut out, &[VERSION, 1, ids.len() as u32])?;
    put_fields(&mut out, ids)?;
    Ok(Bytes::from_vec(out))
}

// The group of a reply, after the fields version and found.
#[tactic(auto, unfolding(crate::specs::Replies::group_at))]
pub(crate) fn decode_group(alloc: Global, bytes: &[u8]) -> Result<(Group, &[u8]), Broken>
    ensures { Gives (λ x. (x.0, x.1.now)) result (group_at bytes.now) }
{
    let (name, rest) = size(bytes)?;
    let (passwd, rest) = size(rest)?;
    let (gid, rest) = number(rest)?;
    let (count, lengths) = number(rest)?;
    let rest = after_sizes(lengths, count)?;
    let (name, rest) = text(alloc, name, rest)?;
    let (passwd, rest) = text(alloc, passwd, rest)?;
    let (members, rest) = texts(alloc, count, lengths, rest)?;
    let group = Group {
        name,
        passwd,
        gid,
        members,
    };
    Ok((group, rest))
}

// The ids of a reply, after the fields version and found.
#[tactic(auto, unfolding(crate::specs::Replies::ids_at))]
pub(crate) fn decode_ids(alloc: Global, bytes: &[u8]) -> Result<(Ids, &[u8]), Broken>
    ensures { Gives (λ x. (x.0, x.1.now)) result (ids_at bytes.now) }
{
    let (count, rest) = number(bytes)?;
    let (ids, rest) = numbers(alloc, count, rest)?;
    Ok((Ids::from_vec(ids), rest))
}
