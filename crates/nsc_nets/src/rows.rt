// Rows of hosts and services: copies of the texts of an entry of hosts(5) or services(5).
ghost use Rattle.std.specs.Prelude.{◌≡◌, ◌≤◌, length, IfOk};
ghost use Rattle.nsc_base.specs.Text.{part, words_of};
ghost use Rattle.nsc_nets.specs.Hosts.{HostLiesIn, host_at};
ghost use Rattle.nsc_nets.specs.Services.{ServiceLiesIn, service_at};

use crate::hosts::HostAt;
use crate::services::ServiceAt;
use nsc_base::{Bytes, NoMemory, Span, Texts, word_at};
use nsc_model::{Host, Service};
use std::alloc::Global;

/// The host whose entry stands at these places of a text, with copies of its texts. Fails only for want of memory.
pub fn host_row(alloc: Global, text: &[u8], at: &HostAt) -> Result<Host, NoMemory>
    requires { HostLiesIn (record { from = 0; to = length text.now }) at.now }
    ensures { IfOk result (λ host. host ≡ host_at text.now at.now) }
{
    Ok(Host {
        name: Bytes::copy(alloc, at.name.of(text))?,
        aliases: words(alloc, text, at.aliases)?,
        family: u32::from(at.family),
        address: Bytes::copy(alloc, at.address_bytes())?,
    })
}

/// The service whose entry stands at these places of a text, with copies of its texts. Fails only for want of memory.
pub fn service_row(alloc: Global, text: &[u8], at: &ServiceAt) -> Result<Service, NoMemory>
    requires { ServiceLiesIn (record { from = 0; to = length text.now }) at.now }
    ensures { IfOk result (λ service. service ≡ service_at text.now at.now) }
{
    Ok(Service {
        name: Bytes::copy(alloc, at.name.of(text))?,
        proto: Bytes::copy(alloc, at.proto.of(text))?,
        aliases: words(alloc, text, at.aliases)?,
        port: at.port,
    })
}

// The words of a part of a text, which blanks and tabs part.
fn words(alloc: Global, text: &[u8], within: Span) -> Result<Texts, NoMemory>
    requires { within.to ≤ length text.now }
    ensures { IfOk result (λ words. words ≡ words_of (part text.now within)) }
{
    let mut words = Texts::new(alloc);
    let mut from = within.from();
    while let Some(word) = word_at(text, within, from) {
        words.push(word.span.of(text))?;
        from = word.next;
    }
    Ok(words)
}
