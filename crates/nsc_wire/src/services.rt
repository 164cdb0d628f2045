//! The replies to lookups of a service by name or by port.

ghost use Rattle.std.specs.Prelude.{◌≡◌, ◌≤◌, length, IfOk};
ghost use Rattle.nsc_model.specs.Answer.{reply_limit};
ghost use Rattle.nsc_model.specs.ServiceLines.{exchanged};
ghost use Rattle.nsc_model.specs.Wire.{service_found};
ghost use Rattle.nsc_wire.specs.Replies.{Gives, port_at, service_at};

use crate::fault::Broken;
use crate::reading::{after_sizes, number, size, text, texts};
use crate::reply::{VERSION, put_fields, put_text, text_len};
use crate::texts::{put_lengths, put_texts, texts_count, texts_size};
use nsc_base::{Bytes, NoMemory};
use nsc_model::Service;
use std::alloc::Global;

// The six fields of a service's reply, in bytes.
const FIELDS: usize = 24;

// The bytes of the reply that has a service: its fields, and its texts.
pub(crate) fn encode_service(alloc: Global, service: &Service) -> Result<Bytes, NoMemory>
    requires { length (service_found service.now) ≤ reply_limit }
    ensures { IfOk result (λ bytes. bytes ≡ service_found service.now) }
{
    let aliases = &service.aliases;
    let name = text_len(&service.name);
    let proto = text_len(&service.proto);
    let texts = (name + proto) as usize + texts_size(aliases);
    let mut out = Vec::with_capacity(alloc, FIELDS + texts)?;
    let port = port_field(service.port);
    let fields = [VERSION, 1, name, proto, texts_count(aliases), port];
    put_fields(&mut out, &fields)?;
    put_text(&mut out, service.name.as_slice())?;
    put_text(&mut out, service.proto.as_slice())?;
    put_lengths(&mut out, aliases)?;
    put_texts(&mut out, aliases)?;
    Ok(Bytes::from_vec(out))
}

// The port as its field has it: its two bytes are in network order, and so exchanged.
fn port_field(port: u16) -> u32
    ensures { result ≡ exchanged port }
{
    u32::from(port.swap_bytes())
}

// The service of a reply, after the fields version and found.
#[tactic(auto, unfolding(crate::specs::Replies::service_at))]
pub(crate) fn decode_service(alloc: Global, bytes: &[u8]) -> Result<(Service, &[u8]), Broken>
    ensures { Gives (λ x. (x.0, x.1.now)) result (service_at bytes.now) }
{
    let (name, rest) = size(bytes)?;
    let (proto, rest) = size(rest)?;
    let (count, rest) = number(rest)?;
    let (port, rest) = port_of(rest)?;
    let (name, rest) = text(alloc, name, rest)?;
    let (proto, lengths) = text(alloc, proto, rest)?;
    let rest = after_sizes(lengths, count)?;
    let (aliases, rest) = texts(alloc, count, lengths, rest)?;
    let service = Service {
        name,
        proto,
        aliases,
        port,
    };
    Ok((service, rest))
}

// The port of a field, which has no more than two bytes.
#[tactic(auto, unfolding(crate::specs::Replies::port_at))]
fn port_of(bytes: &[u8]) -> Result<(u16, &[u8]), Broken>
    ensures { Gives (λ x. (x.0, x.1.now)) result (port_at bytes.now) }
{
    let (field, rest) = number(bytes)?;
    if field > u32::from(u16::MAX) {
        return Err(Broken::Left(bytes.len()));
    }
    Ok(((field as u16).swap_bytes(), rest))
}
