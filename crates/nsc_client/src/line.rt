// Reading of a line of the gate: a database, a key, and the requests for both.
ghost use Rattle.std.specs.Prelude.{◌≡◌, ◌≤◌, ◌==◌, ◌++◌, ◌∷◌, IfOk, length, MatchOption, decimal, false};
ghost use Rattle.nsc_model.specs.declared.kind.Kind.TheVariants as Kind;
ghost use Rattle.std.specs.List.{list_any};
ghost use Rattle.nsc_base.specs.Addresses.{v4_of, v6_of};
ghost use Rattle.nsc_base.specs.Text.{is_white};
ghost use Rattle.nsc_model.specs.ServiceLines.{port_of, service_key};
ghost use Rattle.nsc_model.specs.Entry.{key_limit};
ghost use Rattle.nsc_client.specs.Replying.{KeysFit};
ghost use Rattle.nsc_client.specs.GateText.{IsCutAt, asking_in, asking_of, by_address_or_name, by_id_or_name, by_port_or_name, is_key as is_a_key, one};

use itoa::Buffer;
use nsc_addr::{read_v4, read_v6};
use nsc_base::{Bytes, NoMemory, Span, decimal};
use nsc_model::{Db, KEY_LIMIT, Kind, Request, key_parts, key_port};
use std::alloc::Global;

/// What a line asks.
#[derive(Debug, Drop)]
pub(crate) enum LineAsks {
    // Nothing, since the line is bad.
    Bad,
    // One request.
    One(Request),
    // A host by name: of IPv4 and, where there is none, of IPv6.
    HostNamed(Bytes),
}

/// What a line asks: the name of a database, one blank and a key. Fails only for want of memory.
pub(crate) fn read_line(alloc: Global, line: &[u8]) -> Result<LineAsks, NoMemory>
    ensures asks { IfOk result (λ asking. asking ≡ asking_of line.now) }
    ensures fits { IfOk result KeysFit }
{
    match cut_at(line, b' ') {
        Some((name, key)) if is_key(key) => read_key(alloc, Db::named(name), key),
        _ => Ok(LineAsks::Bad),
    }
}

/// What stands before the first byte of this kind, and what stands after it. `None` where there is none.
pub(crate) fn cut_at(text: &[u8], byte: u8) -> Option<(&[u8], &[u8])>
    ensures { MatchOption result (list_any (λ b. b == byte) text.now ≡ false) (λ halves. IsCutAt byte text.now halves.0.now halves.1.now) }
{
    let (front, rest) = Span::whole(text).split_at_byte(text, byte)?;
    Some((front.of(text), rest.of(text)))
}

// Whether a key is one: not empty, without white space, and not too long.
fn is_key(key: &[u8]) -> bool
    ensures { result ≡ is_a_key key.now }
{
    !key.is_empty() && !has_white(key) && key.len() <= KEY_LIMIT
}

// Whether a text has white space: a blank or a tab.
fn has_white(text: &[u8]) -> bool
    ensures { result ≡ list_any is_white text.now }
{
    text.iter().any(|byte| matches!(*byte, b' ' | b'\t'))
}

// What a key asks of a database.
fn read_key(alloc: Global, db: Option<Db>, key: &[u8]) -> Result<LineAsks, NoMemory>
    requires { length key.now ≤ key_limit }
    ensures asks { IfOk result (λ asking. asking ≡ asking_in db key.now) }
    ensures fits { IfOk result KeysFit }
{
    match db {
        None => Ok(LineAsks::Bad),
        Some(Db::Passwd) => by_id(alloc, Kind::PwUid, Kind::PwName, key),
        Some(Db::Group) => by_id(alloc, Kind::GrGid, Kind::GrName, key),
        Some(Db::Hosts) => host(alloc, key),
        Some(Db::Services) => service(alloc, key),
    }
}

// By id where the key is a number in decimal, else by name.
fn by_id(alloc: Global, by_id: Kind, by_name: Kind, key: &[u8]) -> Result<LineAsks, NoMemory>
    ensures asks { IfOk result (λ asking. asking ≡ by_id_or_name by_id by_name key.now) }
    ensures fits { IfOk result KeysFit }
{
    let kind = match decimal(key) {
        Some(_) => by_id,
        None => by_name,
    };
    request(alloc, kind, key)
}

// By address where the key is one, else by name.
fn host(alloc: Global, key: &[u8]) -> Result<LineAsks, NoMemory>
    requires { length key.now ≤ key_limit }
    ensures asks { IfOk result (λ asking. asking ≡ by_address_or_name (v4_of key.now) (v6_of key.now) key.now) }
    ensures fits { IfOk result KeysFit }
{
    if let Some(address) = read_v4(key) {
        return request(alloc, Kind::HostAddr, &address);
    }
    if let Some(address) = read_v6(key) {
        return request(alloc, Kind::HostAddr6, &address);
    }
    Ok(LineAsks::HostNamed(Bytes::copy(alloc, key)?))
}

// By port where one stands before the last slash of the key, else by name. A port is asked for as it is sent, with its two bytes
// exchanged.
fn service(alloc: Global, key: &[u8]) -> Result<LineAsks, NoMemory>
    ensures asks { IfOk result (λ asking. asking ≡ by_port_or_name (port_of (service_key key.now).asked) (service_key key.now).proto key.now) }
    ensures fits { IfOk result KeysFit }
{
    let (asked, proto) = key_parts(key);
    match key_port(asked) {
        Some(sent) => service_on(alloc, sent, proto),
        None => request(alloc, Kind::ServName, key),
    }
}

// By a port, as it is sent, and a protocol.
fn service_on(alloc: Global, sent: u16, proto: &[u8]) -> Result<LineAsks, NoMemory>
    ensures asks { IfOk result (λ asking. asking ≡ one Kind.ServPort (decimal sent ++ 47 ∷ proto.now)) }
    ensures fits { IfOk result KeysFit }
{
    let mut digits = Buffer::new();
    let mut key = Vec::from_slice(alloc, digits.format(sent).as_bytes())?;
    key.push(b'/')?;
    key.extend_from_slice(proto)?;
    request(alloc, Kind::ServPort, key.as_slice())
}

// One request, or nothing where its key is too long.
fn request(alloc: Global, kind: Kind, key: &[u8]) -> Result<LineAsks, NoMemory>
    ensures asks { IfOk result (λ asking. asking ≡ one kind key.now) }
    ensures fits { IfOk result KeysFit }
{
    if key.len() > KEY_LIMIT {
        return Ok(LineAsks::Bad);
    }
    let key = Bytes::copy(alloc, key)?;
    Ok(LineAsks::One(Request { kind, key }))
}
