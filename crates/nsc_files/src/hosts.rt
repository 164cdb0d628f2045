// Lookups of hosts over the text of a hosts file: by name, by address, and all addresses.
ghost use Rattle.std.specs.Prelude.{◌≡◌, IfOk, Some};
ghost use Rattle.nsc_model.specs.Answers.{file_addresses, file_entry};
ghost use Rattle.nsc_model.specs.Files.{file_of};
ghost use Rattle.nsc_model.specs.Hosts.{host_addressed, host_named, host_of_line};

use crate::finder::Finder;
use nsc_base::NoMemory;
use nsc_model::{FileId, Looked, Row};
use nsc_nets::host_row;
use std::alloc::Global;

/// The outcome of a lookup of a host's name and a family of addresses, 2 for IPv4 and 10 for IPv6, over the text of a
/// hosts file. Fails only for want of memory.
pub fn host_by_name<F: Finder>(
    alloc: Global,
    finder: &F,
    file: FileId,
    text: &[u8],
    name: &[u8],
    family: u8,
) -> Result<Looked, NoMemory>
    requires { file_of (F.content finder.now) file ≡ Some text.now }
    ensures { IfOk result (λ looked. looked ≡ file_entry Row.Host host_of_line (host_named family name.now) (Some text.now)) }
{
    match finder.host_named(file, text, name, family) {
        Some(at) => Ok(Looked::Found(Row::Host(host_row(alloc, text, &at)?))),
        None => Ok(Looked::NotFound),
    }
}

/// The outcome of a lookup of an address, as its four or sixteen bytes, over the text of a hosts file. Bytes of another
/// length are no address, and name no host. Fails only for want of memory.
pub fn host_by_address<F: Finder>(
    alloc: Global,
    finder: &F,
    file: FileId,
    text: &[u8],
    address: &[u8],
) -> Result<Looked, NoMemory>
    requires { file_of (F.content finder.now) file ≡ Some text.now }
    ensures { IfOk result (λ looked. looked ≡ file_entry Row.Host host_of_line (host_addressed address.now) (Some text.now)) }
{
    match finder.host_addressed(file, text, address) {
        Some(at) => Ok(Looked::Found(Row::Host(host_row(alloc, text, &at)?))),
        None => Ok(Looked::NotFound),
    }
}

/// The outcome of a lookup of all addresses of a host over the text of a hosts file: those of the first entry of each
/// family. Fails only for want of memory.
pub fn addresses_by_name<F: Finder>(
    alloc: Global,
    finder: &F,
    file: FileId,
    text: &[u8],
    name: &[u8],
) -> Result<Looked, NoMemory>
    requires { file_of (F.content finder.now) file ≡ Some text.now }
    ensures { IfOk result (λ looked. looked ≡ file_addresses name.now (Some text.now)) }
{
    match finder.addresses(alloc, file, text, name)? {
        Some(ai) => Ok(Looked::Found(Row::Ai(ai))),
        None => Ok(Looked::NotFound),
    }
}
