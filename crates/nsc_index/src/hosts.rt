// `HostIndex`: the index of a hosts file by name and by address.
ghost use Rattle.std.specs.Prelude.{◌≡◌, ◌==◌, ◌≤◌, IfOk, IfSome, filter, length};
ghost use Rattle.std.specs.Option.{option_map};
ghost use Rattle.nsc_model.specs.Answers.{addresses_of};
ghost use Rattle.nsc_model.specs.Entries.{first_named, first_of, if_named};
ghost use Rattle.nsc_model.specs.Files.{file_limit};
ghost use Rattle.nsc_model.specs.Hosts.{host_addressed, host_named, host_of_line};
ghost use Rattle.nsc_nets.specs.Hosts.{HostLiesIn, host_at};
ghost use Rattle.nsc_index.specs.Hosts.{hosts_on, is_other_than};
ghost use Rattle.nsc_index.specs.Indexes.{line_entry, on_line};

use crate::lines::line_on;
use crate::names::{NameAt, places_of_name, sorted_names};
use crate::numbers::{NumberAt, places_of_number, sorted_numbers, text_number};
use crate::words::add_words;
use nsc_base::{Case, NoMemory, equal, line_at};
use nsc_model::Ai;
use nsc_nets::{HostAt, ai_row, host_line};
use std::alloc::Global;

/// The lines of a hosts file, hosts(5), in the order of their names and aliases without regard to the case of ASCII letters, and
/// in that of numbers that their addresses give: eight bytes for a line, and twelve for each name.
#[derive(Debug, Drop)]
pub struct HostIndex {
    /// The names and aliases.
    pub names: Vec<NameAt>,
    /// The numbers of the addresses.
    pub addresses: Vec<NumberAt>,
}

impl HostIndex {
    ghost use Rattle.nsc_index.specs.Hosts.{IsHostIndex};

    /// The index of a hosts file. Fails only for want of memory.
    pub fn of(alloc: Global, text: &[u8]) -> Result<HostIndex, NoMemory>
        requires { length text.now ≤ file_limit }
        ensures { IfOk result (IsHostIndex text.now) }
    {
        let mut names = Vec::new(alloc);
        let mut addresses = Vec::new(alloc);
        let mut from = 0;
        while let Some(line) = line_at(text, from) {
            if let Some(host) = host_line(text, line.span) {
                names.push(NameAt::new(host.name, line.span))?;
                add_words(text, line.span, host.aliases, &mut names)?;
                let number = text_number(host.address_bytes());
                addresses.push(NumberAt::new(number, line.span))?;
            }
            from = line.next;
        }
        Ok(HostIndex {
            names: sorted_names(text, Case::Ignored, names)?,
            addresses: sorted_numbers(addresses)?,
        })
    }

    /// The first line that has the form, this name or alias, and an address of this family, 2 for IPv4 and 10 for IPv6, as places
    /// in the file that this is the index of. The case of ASCII letters in names does not count. `None` where there is none. Takes
    /// no memory.
    pub fn by_name(&self, text: &[u8], name: &[u8], family: u8) -> Option<HostAt>
        requires { IsHostIndex text.now self.now }
        ensures entry { option_map (host_at text.now) result ≡ first_named host_of_line (host_named family name.now) text.now }
        ensures inside { IfSome result (HostLiesIn (record { from = 0; to = length text.now })) }
    {
        for at in places_of_name(text, Case::Ignored, &self.names, name) {
            if let Some(host) = family_on(text, at.line, family) {
                return Some(host);
            }
        }
        None
    }

    /// The first line that has the form and this address, of four bytes or of sixteen, as places in the file that this is the index
    /// of. `None` where there is none, and for an address of another length. Takes no memory.
    pub fn by_address(&self, text: &[u8], address: &[u8]) -> Option<HostAt>
        requires { IsHostIndex text.now self.now }
        ensures entry { option_map (host_at text.now) result ≡ first_named host_of_line (host_addressed address.now) text.now }
        ensures inside { IfSome result (HostLiesIn (record { from = 0; to = length text.now })) }
    {
        for at in places_of_number(&self.addresses, text_number(address)) {
            if let Some(host) = address_on(text, at.line, address) {
                return Some(host);
            }
        }
        None
    }

    /// The addresses of the host of this name: the first of each family, in the order of the file that this is the index of, and
    /// the canonical name of the first of these. The case of ASCII letters in names does not count. `None` where no line has the
    /// name. Fails only for want of memory.
    pub fn addresses(&self, alloc: Global, text: &[u8], name: &[u8]) -> Result<Option<Ai>, NoMemory>
        requires { IsHostIndex text.now self.now }
        ensures { IfOk result (λ ai. ai ≡ addresses_of name.now text.now) }
    {
        let lines = places_of_name(text, Case::Ignored, &self.names, name);
        let Some(first) = other_host(text, lines, None) else {
            return Ok(None);
        };
        let other = other_host(text, lines, Some(first.family));
        Ok(Some(ai_row(alloc, text, first, other)?))
    }
}

// The first host on these lines that has an address of another family than this one, or of any where none is named.
fn other_host(text: &[u8], lines: &[NameAt], family: Option<u8>) -> Option<HostAt>
    ensures entry { option_map (host_at text.now) result ≡ first_of (filter (is_other_than family) (hosts_on text.now lines.now)) }
    ensures inside { IfSome result (HostLiesIn (record { from = 0; to = length text.now })) }
{
    for at in lines {
        if let Some(host) = other_on(text, at.line, family) {
            return Some(host);
        }
    }
    None
}

// The same on the line that begins at a place.
fn other_on(text: &[u8], place: u32, family: Option<u8>) -> Option<HostAt>
    ensures entry { option_map (host_at text.now) result ≡ if_named (is_other_than family) (on_line (line_entry host_of_line text.now) text.now place) }
    ensures inside { IfSome result (HostLiesIn (record { from = 0; to = length text.now })) }
{
    let host = host_on(text, place)?;
    if family == Some(host.family) {
        None
    } else {
        Some(host)
    }
}

// The entry of the line that begins at a place, where it has the form and an address of this family.
fn family_on(text: &[u8], place: u32, family: u8) -> Option<HostAt>
    ensures entry { option_map (host_at text.now) result ≡ if_named (λ h. h.family == family) (on_line (line_entry host_of_line text.now) text.now place) }
    ensures inside { IfSome result (HostLiesIn (record { from = 0; to = length text.now })) }
{
    let host = host_on(text, place)?;
    if host.family == family {
        Some(host)
    } else {
        None
    }
}

// The entry of the line that begins at a place, where it has the form and this address.
fn address_on(text: &[u8], place: u32, address: &[u8]) -> Option<HostAt>
    ensures entry { option_map (host_at text.now) result ≡ if_named (host_addressed address.now) (on_line (line_entry host_of_line text.now) text.now place) }
    ensures inside { IfSome result (HostLiesIn (record { from = 0; to = length text.now })) }
{
    let host = host_on(text, place)?;
    if equal(host.address_bytes(), address) {
        Some(host)
    } else {
        None
    }
}

// The entry of the line that begins at a place, where it has the form.
fn host_on(text: &[u8], place: u32) -> Option<HostAt>
    ensures entry { option_map (host_at text.now) result ≡ on_line (line_entry host_of_line text.now) text.now place }
    ensures inside { IfSome result (HostLiesIn (record { from = 0; to = length text.now })) }
{
    host_line(text, line_on(text, place)?)
}
