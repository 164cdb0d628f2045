// All addresses of a host in hosts(5): the first address of each family.
ghost use Rattle.std.specs.Prelude.{◌≡◌, ◌≤◌, ◌∷◌, drop, length, IfOk};
ghost use Rattle.std.specs.Option.{option_map};
ghost use Rattle.nsc_base.specs.Text.{part};
ghost use Rattle.nsc_model.specs.Answers.{addresses_of};
ghost use Rattle.nsc_model.specs.Entries.{first_named, if_named};
ghost use Rattle.nsc_model.specs.Hosts.{host_of_line};
ghost use Rattle.nsc_nets.specs.Addresses.{found_at, founds_at, of_other_family};
ghost use Rattle.nsc_nets.specs.Hosts.{host_at};

use crate::find::called_host;
use crate::hosts::HostAt;
use nsc_base::{Bytes, Case, NoMemory, Span, line_with};
use nsc_model::{Ai, Found6, Founds};
use std::alloc::Global;

/// The addresses of the host of this name in a hosts file, hosts(5): the first of each family, in the order of the file,
/// and the canonical name of the first of these. The case of ASCII letters in names does not count. `None` where no line
/// has the name. Fails only for want of memory.
pub fn ai_of(alloc: Global, text: &[u8], name: &[u8]) -> Result<Option<Ai>, NoMemory>
    ensures { IfOk result (λ ai. ai ≡ addresses_of name.now text.now) }
{
    let mut from = 0;
    while let Some(line) = line_with(text, from, name, Case::Ignored) {
        if let Some(first) = called_host(text, line.span, name) {
            let other = other_from(text, line.next, name, first.family);
            return Ok(Some(ai_row(alloc, text, first, other)?));
        }
        from = line.next;
    }
    Ok(None)
}

// The first host of this name, from a place on, with an address of another family than this one.
fn other_from(text: &[u8], start: usize, name: &[u8], family: u8) -> Option<HostAt>
    requires { start ≤ length text.now }
    ensures { option_map (host_at text.now) result ≡ first_named host_of_line (of_other_family family name.now) (drop start text.now) }
{
    let mut from = start;
    while let Some(line) = line_with(text, from, name, Case::Ignored) {
        if let Some(other) = other_host(text, line.span, name, family) {
            return Some(other);
        }
        from = line.next;
    }
    None
}

// The entry of a line of a hosts file that has the form, this name and an address of another family than this one.
fn other_host(text: &[u8], line: Span, name: &[u8], family: u8) -> Option<HostAt>
    requires { line.to ≤ length text.now }
    ensures { option_map (host_at text.now) result ≡ if_named (of_other_family family name.now) (host_of_line (part text.now line)) }
{
    let host = called_host(text, line, name)?;
    if host.family == family {
        None
    } else {
        Some(host)
    }
}

/// The addresses of a host whose first entry stands at these places of a text, and perhaps one of the other family at others, with
/// copies of them and of the name of the first. Fails only for want of memory.
pub fn ai_row(
    alloc: Global,
    text: &[u8],
    first: HostAt,
    other: Option<HostAt>,
) -> Result<Ai, NoMemory>
    requires ordered { first.name.from ≤ first.name.to }
    requires inside { first.name.to ≤ length text.now }
    ensures { IfOk result (λ ai. ai ≡ record { list = found_at first ∷ founds_at other; canon = part text.now first.name }) }
{
    let canon = Bytes::copy(alloc, first.name.of(text))?;
    let list = listed(alloc, first, other)?;
    Ok(Ai { list, canon })
}

// One address or two.
fn listed(alloc: Global, first: HostAt, other: Option<HostAt>) -> Result<Founds, NoMemory>
    ensures { IfOk result (λ list. list ≡ found_at first ∷ founds_at other) }
{
    let mut list = Vec::new(alloc);
    list.push(address(alloc, first)?)?;
    if let Some(other) = other {
        list.push(address(alloc, other)?)?;
    }
    Ok(Founds::from_vec(list))
}

// The address of a host with its family.
fn address(alloc: Global, host: HostAt) -> Result<Found6, NoMemory>
    ensures { IfOk result (λ found. found ≡ found_at host) }
{
    let address = Bytes::copy(alloc, host.address_bytes())?;
    Ok(Found6 {
        family: host.family,
        address,
    })
}
