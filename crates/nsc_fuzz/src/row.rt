// The rows of replies and of lines, told.
ghost use Rattle.std.specs.Prelude.{◌≡◌, ◌++◌, OnOk};
ghost use Rattle.nsc_fuzz.specs.Told.{address_told, addresses_told, group_told, host_told, row_told, service_told, user_told};

use crate::put::{put_flag, put_number, put_numbers, put_text, put_texts};
use nsc_base::NoMemory;
use nsc_model::{Ai, Found6, Group, Host, Passwd, Row, Service};

// Puts a row.
pub(crate) fn put_row(out: &mut Vec<u8>, row: &Row) -> Result<(), NoMemory>
    ensures { OnOk result (out.new.items ≡ out.old.items ++ row_told row.now) }
{
    match row {
        Row::Passwd(user) => put_user(out, user),
        Row::Group(group) => put_group(out, group),
        Row::Host(host) => put_host(out, host),
        Row::Service(service) => put_service(out, service),
        Row::Ai(ai) => put_addresses(out, ai),
        Row::Groups(ids) => put_numbers(out, ids.as_slice()),
        Row::Netgroup(texts) => put_texts(out, texts),
        Row::Member(has) => put_flag(out, *has),
    }
}

// Puts a user.
pub(crate) fn put_user(out: &mut Vec<u8>, user: &Passwd) -> Result<(), NoMemory>
    ensures { OnOk result (out.new.items ≡ out.old.items ++ user_told user.now) }
{
    put_text(out, user.name.as_slice())?;
    put_text(out, user.passwd.as_slice())?;
    put_number(out, u64::from(user.uid))?;
    put_number(out, u64::from(user.gid))?;
    put_text(out, user.gecos.as_slice())?;
    put_text(out, user.dir.as_slice())?;
    put_text(out, user.shell.as_slice())
}

// Puts a group.
pub(crate) fn put_group(out: &mut Vec<u8>, group: &Group) -> Result<(), NoMemory>
    ensures { OnOk result (out.new.items ≡ out.old.items ++ group_told group.now) }
{
    put_text(out, group.name.as_slice())?;
    put_text(out, group.passwd.as_slice())?;
    put_number(out, u64::from(group.gid))?;
    put_texts(out, &group.members)
}

// Puts a host.
pub(crate) fn put_host(out: &mut Vec<u8>, host: &Host) -> Result<(), NoMemory>
    ensures { OnOk result (out.new.items ≡ out.old.items ++ host_told host.now) }
{
    put_text(out, host.name.as_slice())?;
    put_texts(out, &host.aliases)?;
    put_number(out, u64::from(host.family))?;
    put_text(out, host.address.as_slice())
}

// Puts a service.
pub(crate) fn put_service(out: &mut Vec<u8>, service: &Service) -> Result<(), NoMemory>
    ensures { OnOk result (out.new.items ≡ out.old.items ++ service_told service.now) }
{
    put_text(out, service.name.as_slice())?;
    put_text(out, service.proto.as_slice())?;
    put_texts(out, &service.aliases)?;
    put_number(out, u64::from(service.port))
}

// Puts the addresses of a host and its name.
fn put_addresses(out: &mut Vec<u8>, ai: &Ai) -> Result<(), NoMemory>
    ensures { OnOk result (out.new.items ≡ out.old.items ++ addresses_told ai.now) }
{
    let list = ai.list.as_slice();
    put_number(out, list.len() as u64)?;
    for found in list {
        put_address(out, found)?;
    }
    put_text(out, ai.canon.as_slice())
}

// Puts an address.
#[tactic(auto, unfolding(crate::specs::Told::address_told))]
fn put_address(out: &mut Vec<u8>, found: &Found6) -> Result<(), NoMemory>
    ensures { OnOk result (out.new.items ≡ out.old.items ++ address_told found.now) }
{
    put_number(out, u64::from(found.family))?;
    put_text(out, found.address.as_slice())
}
