// The texts of answers, from rows.
ghost use Rattle.std.specs.Prelude.{◌≡◌, ◌≤◌, ◌++◌, ◌∷◌, drop, flat_map, length, OnOk, decimal};
ghost use Rattle.std.specs.List.{join_with_byte};
ghost use Rattle.nsc_model.specs.Wire.{IsAddress, IsHost, IsRow};
ghost use Rattle.nsc_client.specs.Sent.{CanBeSent};
ghost use Rattle.nsc_client.specs.GateText.{address_text, group_text, host_text, reply_text, row_text, service_text, user_text};

use itoa::Buffer;
use nsc_addr::{print_v4, print_v6};
use nsc_base::{Buf, NoMemory, Texts};
use nsc_model::{Group, Host, Passwd, Reply, Row, Service};

// The longest text of an address, in bytes.
const ADDRESS_LIMIT: usize = 39;

/// Puts the text that answers a line by this reply after the bytes that are there. Fails only for want of memory.
pub(crate) fn put_reply(out: &mut Vec<u8>, reply: &Reply) -> Result<(), NoMemory>
    requires { CanBeSent reply.now }
    ensures { OnOk result (out.new.items ≡ out.old.items ++ reply_text reply.now) }
{
    match reply {
        Reply::Found(row) => put_row(out, row),
        Reply::Absent | Reply::Disabled => Ok(out.extend_from_slice(b"not found")?),
    }
}

// Puts an entry.
fn put_row(out: &mut Vec<u8>, row: &Row) -> Result<(), NoMemory>
    requires { IsRow row.now }
    ensures { OnOk result (out.new.items ≡ out.old.items ++ row_text row.now) }
{
    match row {
        Row::Passwd(user) => put_user(out, user),
        Row::Group(group) => put_group(out, group),
        Row::Host(host) => put_host(out, host),
        Row::Service(service) => put_service(out, service),
        // No line asks for these.
        Row::Ai(_) | Row::Groups(_) | Row::Netgroup(_) | Row::Member(_) => Ok(()),
    }
}

// Puts name:passwd:uid:gid:gecos:dir:shell.
fn put_user(out: &mut Vec<u8>, user: &Passwd) -> Result<(), NoMemory>
    ensures { OnOk result (out.new.items ≡ out.old.items ++ user_text user.now) }
{
    out.extend_from_slice(user.name.as_slice())?;
    put_after(out, b':', user.passwd.as_slice())?;
    put_number_after(out, b':', user.uid)?;
    put_number_after(out, b':', user.gid)?;
    put_home(out, user)
}

// Puts :gecos:dir:shell.
fn put_home(out: &mut Vec<u8>, user: &Passwd) -> Result<(), NoMemory>
    ensures { OnOk result (out.new.items ≡ out.old.items ++ 58 ∷ user.now.gecos ++ 58 ∷ user.now.dir ++ 58 ∷ user.now.shell) }
{
    put_after(out, b':', user.gecos.as_slice())?;
    put_after(out, b':', user.dir.as_slice())?;
    put_after(out, b':', user.shell.as_slice())
}

// Puts name:passwd:gid:member,member.
fn put_group(out: &mut Vec<u8>, group: &Group) -> Result<(), NoMemory>
    ensures { OnOk result (out.new.items ≡ out.old.items ++ group_text group.now) }
{
    out.extend_from_slice(group.name.as_slice())?;
    put_after(out, b':', group.passwd.as_slice())?;
    put_number_after(out, b':', group.gid)?;
    out.push(b':')?;
    put_members(out, &group.members)
}

// Puts the names of members with commas between them.
fn put_members(out: &mut Vec<u8>, members: &Texts) -> Result<(), NoMemory>
    ensures { OnOk result (out.new.items ≡ out.old.items ++ join_with_byte 44 members.now) }
{
    if members.is_empty() {
        return Ok(());
    }
    out.extend_from_slice(members.get(0))?;
    put_each_after(out, b',', members, 1)
}

// Puts address name alias alias.
fn put_host(out: &mut Vec<u8>, host: &Host) -> Result<(), NoMemory>
    requires { IsHost host.now }
    ensures { OnOk result (out.new.items ≡ out.old.items ++ host_text host.now) }
{
    put_address(out, host.family, host.address.as_slice())?;
    put_after(out, b' ', host.name.as_slice())?;
    put_each_after(out, b' ', &host.aliases, 0)
}

/// Puts an address as it is printed, if it is one.
pub(crate) fn put_address(out: &mut Vec<u8>, family: u32, address: &[u8]) -> Result<(), NoMemory>
    ensures { IsAddress family address.now → OnOk result (out.new.items ≡ out.old.items ++ address_text family address.now) }
{
    let mut text = Buf::new(*out.allocator(), ADDRESS_LIMIT)?;
    if let Ok(octets) = <[u8; 4]>::try_from(address) {
        print_v4(octets, &mut text);
    }
    if let Ok(octets) = <[u8; 16]>::try_from(address) {
        print_v6(octets, &mut text);
    }
    Ok(out.extend_from_slice(text.bytes())?)
}

// Puts name port/proto alias alias.
fn put_service(out: &mut Vec<u8>, service: &Service) -> Result<(), NoMemory>
    ensures { OnOk result (out.new.items ≡ out.old.items ++ service_text service.now) }
{
    out.extend_from_slice(service.name.as_slice())?;
    put_number_after(out, b' ', u32::from(service.port))?;
    put_after(out, b'/', service.proto.as_slice())?;
    put_each_after(out, b' ', &service.aliases, 0)
}

/// Puts a separator and a text.
pub(crate) fn put_after(out: &mut Vec<u8>, separator: u8, text: &[u8]) -> Result<(), NoMemory>
    ensures { OnOk result (out.new.items ≡ out.old.items ++ separator ∷ text.now) }
{
    out.push(separator)?;
    Ok(out.extend_from_slice(text)?)
}

/// Puts a separator and a number in decimal.
pub(crate) fn put_number_after(
    out: &mut Vec<u8>,
    separator: u8,
    number: u32,
) -> Result<(), NoMemory>
    ensures { OnOk result (out.new.items ≡ out.old.items ++ separator ∷ decimal number) }
{
    let mut digits = Buffer::new();
    put_after(out, separator, digits.format(number).as_bytes())
}

// Puts the texts from a place on, each after a separator.
fn put_each_after(
    out: &mut Vec<u8>,
    separator: u8,
    texts: &Texts,
    from: usize,
) -> Result<(), NoMemory>
    requires { from ≤ length texts.now }
    ensures { OnOk result (out.new.items ≡ out.old.items ++ flat_map (λ text. separator ∷ text) (drop from texts.now)) }
{
    for at in from..texts.len() {
        put_after(out, separator, texts.get(at))?;
    }
    Ok(())
}
