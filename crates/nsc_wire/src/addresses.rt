//! The replies to lookups of all addresses of a host.

ghost use Rattle.std.specs.Prelude.{◌≡◌, ◌≤◌, ◌++◌, length, map, flat_map, IfOk, OnOk};
ghost use Rattle.nsc_model.specs.Answer.{reply_limit};
ghost use Rattle.nsc_model.specs.Wire.{addresses_found};
ghost use Rattle.nsc_wire.specs.Replies.{Gives, addresses_at, found_at, founds_at};

use crate::fault::Broken;
use crate::hosts::address_size;
use crate::reading::{fixed, number, piece, size, text};
use crate::reply::{VERSION, put_fields, put_text, text_len};
use nsc_base::{Bytes, NoMemory};
use nsc_model::{Ai, Found6, Founds};
use std::alloc::Global;

// The six fields of a reply with addresses, in bytes.
const FIELDS: usize = 24;

// The bytes of the reply that has a host's addresses: its fields, the addresses, their families and the name.
pub(crate) fn encode_addresses(alloc: Global, ai: &Ai) -> Result<Bytes, NoMemory>
    requires { length (addresses_found ai.now) ≤ reply_limit }
    ensures { IfOk result (λ bytes. bytes ≡ addresses_found ai.now) }
{
    let list = ai.list.as_slice();
    let size = addresses_size(list);
    let canon = text_len(&ai.canon);
    let rest = size + list.len() + canon as usize;
    let mut out = Vec::with_capacity(alloc, FIELDS + rest)?;
    let fields = [VERSION, 1, list.len() as u32, size as u32, canon, 0];
    put_fields(&mut out, &fields)?;
    put_addresses(&mut out, list)?;
    put_families(&mut out, list)?;
    put_text(&mut out, ai.canon.as_slice())?;
    Ok(Bytes::from_vec(out))
}

// How many bytes all addresses have.
fn addresses_size(list: &[Found6]) -> usize
    requires { length (flat_map (λ f. f.address) list.now) ≤ reply_limit }
    ensures { result ≡ length (flat_map (λ f. f.address) list.now) }
{
    let mut size = 0;
    for found in list {
        size += found.address.len();
    }
    size
}

// Puts addresses after the bytes that are there.
fn put_addresses(out: &mut Vec<u8>, list: &[Found6]) -> Result<(), NoMemory>
    ensures { OnOk result (out.new.items ≡ out.old.items ++ flat_map (λ f. f.address) list.now) }
{
    for found in list {
        out.extend_from_slice(found.address.as_slice())?;
    }
    Ok(())
}

// Puts the family of each address after the bytes that are there, a byte each.
fn put_families(out: &mut Vec<u8>, list: &[Found6]) -> Result<(), NoMemory>
    ensures { OnOk result (out.new.items ≡ out.old.items ++ map (λ f. f.family) list.now) }
{
    for found in list {
        out.push(found.family)?;
    }
    Ok(())
}

// The addresses of a reply, after the fields version and found.
#[tactic(auto, unfolding(crate::specs::Replies::addresses_at))]
pub(crate) fn decode_addresses(alloc: Global, bytes: &[u8]) -> Result<(Ai, &[u8]), Broken>
    ensures { Gives (λ x. (x.0, x.1.now)) result (addresses_at bytes.now) }
{
    let (count, after_count) = number(bytes)?;
    let (length, rest) = number(after_count)?;
    let (canon, rest) = size(rest)?;
    let rest = fixed(rest, 0)?;
    let (addresses, families) = piece(rest, length as usize)?;
    let (list, others, rest) = founds(alloc, count, addresses, families)?;
    if !others.is_empty() {
        return Err(Broken::Left(after_count.len()));
    }
    let (canon, rest) = text(alloc, canon, rest)?;
    let list = Founds::from_vec(list);
    Ok((Ai { list, canon }, rest))
}

// As many addresses as the count says, each of the family that stands at its place.
fn founds<'a, 'b>(
    alloc: Global,
    count: u32,
    addresses: &'a [u8],
    families: &'b [u8],
) -> Result<(Vec<Found6>, &'a [u8], &'b [u8]), Broken>
    ensures { Gives (λ x. (x.0.items, x.1.now, x.2.now)) result (founds_at count addresses.now families.now) }
{
    let room = (count as usize).min(families.len());
    let mut list = Vec::with_capacity(alloc, room)?;
    let mut addresses = addresses;
    let mut families = families;
    for _ in 0..count {
        let (one, others, after) = found(alloc, addresses, families)?;
        list.push(one)?;
        addresses = others;
        families = after;
    }
    Ok((list, addresses, families))
}

// The first address, of the family that stands first.
#[tactic(auto, unfolding(crate::specs::Replies::found_at))]
fn found<'a, 'b>(
    alloc: Global,
    addresses: &'a [u8],
    families: &'b [u8],
) -> Result<(Found6, &'a [u8], &'b [u8]), Broken>
    ensures { Gives (λ x. (x.0, x.1.now, x.2.now)) result (found_at addresses.now families.now) }
{
    match families {
        [] => Err(Broken::Left(0)),
        [family, rest @ ..] => {
            let size = address_size(u32::from(*family)) as usize;
            if size == 0 {
                return Err(Broken::Left(families.len()));
            }
            if addresses.len() < size {
                return Err(Broken::Left(families.len()));
            }
            let (front, others) = addresses.split_at(size);
            let address = Bytes::copy(alloc, front)?;
            let family = *family;
            Ok((Found6 { family, address }, others, rest))
        }
    }
}
