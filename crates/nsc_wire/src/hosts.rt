//! The replies to lookups of a host by name or by address.

ghost use Rattle.std.specs.Prelude.{◌≡◌, ◌≤◌, length, IfOk};
ghost use Rattle.nsc_model.specs.Answer.{reply_limit};
ghost use Rattle.nsc_model.specs.Wire.{host_found};
ghost use Rattle.nsc_wire.specs.Replies.{Gives, address_size as size_of, family_at, host_at};

use crate::fault::Broken;
use crate::reading::{after_sizes, fixed_fields, number, piece, size, text, texts};
use crate::reply::{VERSION, put_fields, put_text, text_len};
use crate::texts::{put_lengths, put_texts, texts_count, texts_size};
use nsc_base::{Bytes, NoMemory};
use nsc_model::Host;
use std::alloc::Global;

// The eight fields of a host's reply, in bytes.
const FIELDS: usize = 32;

// The families of addresses.
const IPV4: u32 = 2;

const IPV6: u32 = 10;

// The bytes of the reply that has a host: its fields, its texts and its address.
pub(crate) fn encode_host(alloc: Global, host: &Host) -> Result<Bytes, NoMemory>
    requires { length (host_found host.now) ≤ reply_limit }
    ensures { IfOk result (λ bytes. bytes ≡ host_found host.now) }
{
    let aliases = &host.aliases;
    let address = host.address.as_slice();
    let name = text_len(&host.name);
    let rest = name as usize + address.len() + texts_size(aliases);
    let mut out = Vec::with_capacity(alloc, FIELDS + rest)?;
    let count = texts_count(aliases);
    let size = address.len() as u32;
    let fields = [VERSION, 1, name, count, host.family, size, 1, 0];
    put_fields(&mut out, &fields)?;
    put_text(&mut out, host.name.as_slice())?;
    put_lengths(&mut out, aliases)?;
    out.extend_from_slice(address)?;
    put_texts(&mut out, aliases)?;
    Ok(Bytes::from_vec(out))
}

// The host of a reply, after the fields version and found.
#[tactic(auto, unfolding(crate::specs::Replies::host_at))]
pub(crate) fn decode_host(alloc: Global, bytes: &[u8]) -> Result<(Host, &[u8]), Broken>
    ensures { Gives (λ x. (x.0, x.1.now)) result (host_at bytes.now) }
{
    let (name, rest) = size(bytes)?;
    let (count, rest) = number(rest)?;
    let (family, rest) = address_family(rest)?;
    let length = address_size(family);
    let rest = fixed_fields(rest, &[length, 1, 0])?;
    let (name, lengths) = text(alloc, name, rest)?;
    let rest = after_sizes(lengths, count)?;
    let (address, rest) = piece(rest, length as usize)?;
    let (aliases, rest) = texts(alloc, count, lengths, rest)?;
    let address = Bytes::copy(alloc, address)?;
    let host = Host {
        name,
        aliases,
        family,
        address,
    };
    Ok((host, rest))
}

// The family of an address, which is one of the two.
#[tactic(auto, unfolding(crate::specs::Replies::family_at))]
fn address_family(bytes: &[u8]) -> Result<(u32, &[u8]), Broken>
    ensures { Gives (λ x. (x.0, x.1.now)) result (family_at bytes.now) }
{
    let (family, rest) = number(bytes)?;
    if address_size(family) == 0 {
        return Err(Broken::Left(bytes.len()));
    }
    Ok((family, rest))
}

// How many bytes an address of this family has; 0 where it is none.
pub(crate) fn address_size(family: u32) -> u32
    ensures { result ≡ size_of family }
{
    match family {
        IPV4 => 4,
        IPV6 => 16,
        _ => 0,
    }
}
