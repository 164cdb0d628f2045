// `ServiceIndex`: the index of a services file by name and by port.
ghost use Rattle.std.specs.Prelude.{◌≡◌, ◌≤◌, IfOk, IfSome, length};
ghost use Rattle.std.specs.Option.{option_map};
ghost use Rattle.nsc_model.specs.Entries.{first_named, if_named};
ghost use Rattle.nsc_model.specs.Files.{file_limit};
ghost use Rattle.nsc_model.specs.ServiceLines.{proto_fits, service_named, service_of_line, service_ported};
ghost use Rattle.nsc_nets.specs.Services.{ServiceLiesIn, service_at};
ghost use Rattle.nsc_index.specs.Indexes.{line_entry, on_line};

use crate::lines::line_on;
use crate::names::{NameAt, places_of_name, sorted_names};
use crate::numbers::{NumberAt, places_of_number, sorted_numbers};
use crate::words::add_words;
use nsc_base::{Case, NoMemory, equal, line_at};
use nsc_nets::{ServiceAt, service_line};
use std::alloc::Global;

/// The lines of a services file, services(5), in the order of their names and aliases, and in that of their ports: eight bytes
/// for a line, and twelve for each name.
#[derive(Debug, Drop)]
pub struct ServiceIndex {
    /// The names and aliases.
    pub names: Vec<NameAt>,
    /// The ports.
    pub ports: Vec<NumberAt>,
}

impl ServiceIndex {
    ghost use Rattle.nsc_index.specs.Services.{IsServiceIndex};

    /// The index of a services file. Fails only for want of memory.
    pub fn of(alloc: Global, text: &[u8]) -> Result<ServiceIndex, NoMemory>
        requires { length text.now ≤ file_limit }
        ensures { IfOk result (IsServiceIndex text.now) }
    {
        let mut names = Vec::new(alloc);
        let mut ports = Vec::new(alloc);
        let mut from = 0;
        while let Some(line) = line_at(text, from) {
            if let Some(service) = service_line(text, line.span) {
                names.push(NameAt::new(service.name, line.span))?;
                add_words(text, line.span, service.aliases, &mut names)?;
                ports.push(NumberAt::new(u32::from(service.port), line.span))?;
            }
            from = line.next;
        }
        Ok(ServiceIndex {
            names: sorted_names(text, Case::Counts, names)?,
            ports: sorted_numbers(ports)?,
        })
    }

    /// The first line that has the form, this name or alias, and this protocol, as places in the file that this is the index of.
    /// With an empty protocol any will do. `None` where there is none. Takes no memory.
    pub fn by_name(&self, text: &[u8], name: &[u8], proto: &[u8]) -> Option<ServiceAt>
        requires { IsServiceIndex text.now self.now }
        ensures entry { option_map (service_at text.now) result ≡ first_named service_of_line (service_named name.now proto.now) text.now }
        ensures inside { IfSome result (ServiceLiesIn (record { from = 0; to = length text.now })) }
    {
        for at in places_of_name(text, Case::Counts, &self.names, name) {
            if let Some(service) = service_on(text, at.line, proto) {
                return Some(service);
            }
        }
        None
    }

    /// The first line that has the form, this port and this protocol, as places in the file that this is the index of. With an
    /// empty protocol any will do. `None` where there is none. Takes no memory.
    pub fn by_port(&self, text: &[u8], port: u16, proto: &[u8]) -> Option<ServiceAt>
        requires { IsServiceIndex text.now self.now }
        ensures entry { option_map (service_at text.now) result ≡ first_named service_of_line (service_ported port proto.now) text.now }
        ensures inside { IfSome result (ServiceLiesIn (record { from = 0; to = length text.now })) }
    {
        for at in places_of_number(&self.ports, u32::from(port)) {
            if let Some(service) = service_on(text, at.line, proto) {
                return Some(service);
            }
        }
        None
    }
}

// The entry of the line that begins at a place, where it has the form and this protocol. With an empty protocol any will do.
fn service_on(text: &[u8], place: u32, proto: &[u8]) -> Option<ServiceAt>
    ensures entry { option_map (service_at text.now) result ≡ if_named (proto_fits proto.now) (on_line (line_entry service_of_line text.now) text.now place) }
    ensures inside { IfSome result (ServiceLiesIn (record { from = 0; to = length text.now })) }
{
    let service = service_line(text, line_on(text, place)?)?;
    if proto.is_empty() || equal(service.proto.of(text), proto) {
        Some(service)
    } else {
        None
    }
}
