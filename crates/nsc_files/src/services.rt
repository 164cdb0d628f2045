// Lookups of services over the text of a services file: by name and by port.
ghost use Rattle.std.specs.Prelude.{◌≡◌, IfOk, Some};
ghost use Rattle.nsc_model.specs.Answers.{file_entry, key_named, key_ported};
ghost use Rattle.nsc_model.specs.Files.{file_of};
ghost use Rattle.nsc_model.specs.ServiceLines.{service_key, service_of_line};

use crate::finder::Finder;
use nsc_base::NoMemory;
use nsc_model::{FileId, Looked, Row, key_parts, key_port};
use nsc_nets::service_row;
use std::alloc::Global;

/// The outcome of a lookup of a service's name over the text of a services file. The key is the name, and after its
/// last slash the protocol; without a slash, or with an empty protocol, any protocol will do. Fails only for want of
/// memory.
pub fn service_by_name<F: Finder>(
    alloc: Global,
    finder: &F,
    file: FileId,
    text: &[u8],
    key: &[u8],
) -> Result<Looked, NoMemory>
    requires { file_of (F.content finder.now) file ≡ Some text.now }
    ensures { IfOk result (λ looked. looked ≡ file_entry Row.Service service_of_line (key_named (service_key key.now)) (Some text.now)) }
{
    let (name, proto) = key_parts(key);
    match finder.service_named(file, text, name, proto) {
        Some(at) => Ok(Looked::Found(Row::Service(service_row(alloc, text, &at)?))),
        None => Ok(Looked::NotFound),
    }
}

/// The outcome of a lookup of a service's port over the text of a services file. The key is the port in decimal, with its
/// two bytes exchanged, and after its last slash the protocol as in `service_by_name`. A key that has no port names no
/// service. Fails only for want of memory.
pub fn service_by_port<F: Finder>(
    alloc: Global,
    finder: &F,
    file: FileId,
    text: &[u8],
    key: &[u8],
) -> Result<Looked, NoMemory>
    requires { file_of (F.content finder.now) file ≡ Some text.now }
    ensures { IfOk result (λ looked. looked ≡ file_entry Row.Service service_of_line (key_ported (service_key key.now)) (Some text.now)) }
{
    let (asked, proto) = key_parts(key);
    let Some(port) = key_port(asked) else {
        return Ok(Looked::NotFound);
    };
    match finder.service_ported(file, text, port, proto) {
        Some(at) => Ok(Looked::Found(Row::Service(service_row(alloc, text, &at)?))),
        None => Ok(Looked::NotFound),
    }
}
