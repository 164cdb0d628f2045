// Lookups in hosts(5) by name and by address, and in services(5) by name and by port.
ghost use Rattle.std.specs.Prelude.{◌≡◌, ◌≢◌, ◌↔◌, ◌+◌, ◌*◌, ◌<◌, ◌≤◌, ◌||◌, ◌∷◌, ◌++◌, [], decimal, drop, false, length, not, slice_index, slice_range, IfSome, IsTrue};
ghost use Rattle.std.specs.Fmt.{digit_glyph, digits};
ghost use Rattle.std.specs.Option.{option_map};
ghost use Rattle.std.specs.Str.{bytes_eq};
ghost use Rattle.nsc_base.specs.Addresses.{v4_text};
ghost use Rattle.nsc_base.specs.declared.span.Span.{Span};
ghost use Rattle.nsc_base.specs.declared.search.Case.{Case};
ghost use Rattle.nsc_base.specs.Found.{FirstOf, Lacks};
ghost use Rattle.nsc_base.specs.Text.{is_filled, line_spans, part};
ghost use Rattle.nsc_model.specs.Entries.{first_named, if_named};
ghost use Rattle.nsc_model.specs.Hosts.{host_addressed, host_has_name, host_named, host_of_line};
ghost use Rattle.nsc_model.specs.ServiceLines.{service_named, service_of_line, service_ported};
ghost use Rattle.nsc_nets.specs.Hosts.{GivesHost, HostLiesIn, HostStands, IsPadded, host_at};
ghost use Rattle.nsc_nets.specs.Services.{GivesService, ServiceLiesIn, ServiceStands, service_at};

use crate::hosts::{HostAt, formed_host, spells};
use crate::services::{ServiceAt, formed_service, service_line};
use crate::words::{before_line_remark, has_name, line_words, words_after};
use itoa::write_digits;
use memchr::memmem;
use nsc_base::{Case, Span, equal, first_line_with, word_at};

/// The first line of a hosts file, hosts(5), that has the form of an entry, this name or alias, and an address of this
/// family, 2 for IPv4 and 10 for IPv6, as places in the file. The case of ASCII letters in names does not count. `None`
/// where there is none. Takes no memory.
pub fn find_host(text: &[u8], name: &[u8], family: u8) -> Option<HostAt>
    ensures first { FirstOf (GivesHost (host_named family name.now) text.now) (line_spans text.now 0) result }
    ensures entry { option_map (host_at text.now) result ≡ first_named host_of_line (host_named family name.now) text.now }
    ensures inside { IfSome result (HostLiesIn (record { from = 0; to = length text.now })) }
    ensures padded { IfSome result (λ at. IsPadded at.family at.address) }
{
    first_line_with(text, name, Case::Ignored, |line| {
        named_host(text, line, name, family)
    })
}

/// The first line of a hosts file, hosts(5), that has the form of an entry and this address, of four bytes or of sixteen,
/// as places in the file. `None` where there is none, and for an address of another length. Takes no memory.
pub fn find_host_by_addr(text: &[u8], address: &[u8]) -> Option<HostAt>
    ensures first { FirstOf (GivesHost (host_addressed address.now) text.now) (line_spans text.now 0) result }
    ensures entry { option_map (host_at text.now) result ≡ first_named host_of_line (host_addressed address.now) text.now }
    ensures inside { IfSome result (HostLiesIn (record { from = 0; to = length text.now })) }
    ensures padded { IfSome result (λ at. IsPadded at.family at.address) }
{
    first_addressed(text, address)
}

// The first line with this address. One of IPv4 has one text, and lines that lack it are not read.
fn first_addressed(text: &[u8], address: &[u8]) -> Option<HostAt>
    ensures { FirstOf (GivesHost (host_addressed address.now) text.now) (line_spans text.now 0) result }
{
    let Ok(octets) = <[u8; 4]>::try_from(address) else {
        return first_v6(text, address);
    };
    let (bytes, start) = dotted(octets);
    first_host_with(text, &bytes[start..], address)
}

// The text of an IPv4 address, which is at the end of these bytes, from a place on.
fn dotted(octets: [u8; 4]) -> ([u8; 16], usize)
    ensures text { slice_range result.0 result.1 16 ≡ v4_text octets }
    ensures within { result.1 ≤ 16 }
{
    let [a, b, c, d] = octets;
    let mut bytes = [0; 16];
    let last = dotted_before(d, &mut bytes, 16);
    let third = dotted_before(c, &mut bytes, last);
    let second = dotted_before(b, &mut bytes, third);
    let first = dotted_before(a, &mut bytes, second);
    (bytes, first + 1)
}

// The same for an address that is not of IPv4. Where its last group has three digits or more, all its texts end with these,
// but for those that spell its last four bytes as an IPv4 address.
fn first_v6(text: &[u8], address: &[u8]) -> Option<HostAt>
    requires { length address.now ≢ 4 }
    ensures { FirstOf (GivesHost (host_addressed address.now) text.now) (line_spans text.now 0) result }
{
    if let Ok(octets) = <[u8; 16]>::try_from(address) {
        if octets[14] != 0 && lacks_dotted(text, octets) {
            return first_ending(text, address, octets[14], octets[15]);
        }
    }
    first_with_colon(text, address)
}

// Whether the last four bytes of an address are spelled nowhere as an IPv4 address.
fn lacks_dotted(text: &[u8], octets: [u8; 16]) -> bool
    ensures { IsTrue result ↔ Lacks Case.Counts (v4_text (drop 12 octets)) text.now }
{
    let (bytes, start) = dotted([octets[12], octets[13], octets[14], octets[15]]);
    memmem::find(text, &bytes[start..]).is_none()
}

// The first line with this address, of sixteen bytes, where its last two bytes are known.
fn first_ending(text: &[u8], address: &[u8], high: u8, low: u8) -> Option<HostAt>
    requires v6 { length address.now ≡ 16 }
    requires high { high ≡ slice_index address.now 14 }
    requires low { low ≡ slice_index address.now 15 }
    requires three_digits { 0 < high }
    requires dotless { Lacks Case.Counts (v4_text (drop 12 address.now)) text.now }
    ensures { FirstOf (GivesHost (host_addressed address.now) text.now) (line_spans text.now 0) result }
{
    let (digits, start) = group_digits(high, low);
    first_line_with(text, &digits[start..], Case::Ignored, |line| {
        addressed_host(text, line, address)
    })
}

// The hexadecimal digits of a group of two bytes, in lower case and with no zero before others. They are at the end of these
// bytes, from a place on.
fn group_digits(high: u8, low: u8) -> ([u8; 4], usize)
    requires { 0 < high }
    ensures text { slice_range result.0 result.1 4 ≡ digits 16 false (high * 256 + low) }
    ensures within { result.1 ≤ 4 }
{
    let digits = [
        hex_digit(high / 16),
        hex_digit(high % 16),
        hex_digit(low / 16),
        hex_digit(low % 16),
    ];
    let start = if high < 16 { 1 } else { 0 };
    (digits, start)
}

// The hexadecimal digit of a number below 16, in lower case.
fn hex_digit(n: u8) -> u8
    requires { n < 16 }
    ensures { result ≡ digit_glyph false n }
{
    if n < 10 { b'0' + n } else { b'a' + (n - 10) }
}

// The same by the colon that any text of such an address has. Lines that lack it are not read.
fn first_with_colon(text: &[u8], address: &[u8]) -> Option<HostAt>
    requires { length address.now ≢ 4 }
    ensures { FirstOf (GivesHost (host_addressed address.now) text.now) (line_spans text.now 0) result }
{
    first_line_with(text, b":", Case::Counts, |line| {
        addressed_host(text, line, address)
    })
}

// The same where the only text of an IPv4 address is written down.
fn first_host_with(text: &[u8], dotted: &[u8], address: &[u8]) -> Option<HostAt>
    requires v4 { length address.now ≡ 4 }
    requires spelled { dotted.now ≡ v4_text address.now }
    ensures { FirstOf (GivesHost (host_addressed address.now) text.now) (line_spans text.now 0) result }
{
    first_line_with(text, dotted, Case::Counts, |line| {
        addressed_host(text, line, address)
    })
}

// Writes a number of an IPv4 address before a place, and a dot before it. Gives the place of the dot.
fn dotted_before(number: u8, bytes: &mut [u8], end: usize) -> usize
    requires room { 4 ≤ end }
    requires inside { end ≤ length bytes.old }
    ensures written { drop result bytes.new ≡ 46 ∷ decimal number ++ drop end bytes.old }
    ensures size { length bytes.new ≡ length bytes.old }
    ensures near { end ≤ result + 4 }
    ensures before { result < end }
{
    let start = write_digits(u64::from(number), bytes, end);
    bytes[start - 1] = b'.';
    start - 1
}

/// The first line of a services file, services(5), that has the form of an entry, this name or alias, and this protocol,
/// as places in the file. With an empty protocol any will do. `None` where there is none. Takes no memory.
pub fn find_service(text: &[u8], name: &[u8], proto: &[u8]) -> Option<ServiceAt>
    ensures first { FirstOf (GivesService (service_named name.now proto.now) text.now) (line_spans text.now 0) result }
    ensures entry { option_map (service_at text.now) result ≡ first_named service_of_line (service_named name.now proto.now) text.now }
    ensures inside { IfSome result (ServiceLiesIn (record { from = 0; to = length text.now })) }
{
    first_line_with(text, name, Case::Counts, |line| {
        named_service(text, line, name, proto)
    })
}

/// The first line of a services file, services(5), that has the form of an entry, this port and this protocol, as places
/// in the file. With an empty protocol any will do. `None` where there is none. Takes no memory.
pub fn find_service_by_port(text: &[u8], port: u16, proto: &[u8]) -> Option<ServiceAt>
    ensures first { FirstOf (GivesService (service_ported port proto.now) text.now) (line_spans text.now 0) result }
    ensures entry { option_map (service_at text.now) result ≡ first_named service_of_line (service_ported port proto.now) text.now }
    ensures inside { IfSome result (ServiceLiesIn (record { from = 0; to = length text.now })) }
{
    let mut bytes = [b'/'; 6];
    let start = write_digits(u64::from(port), &mut bytes, 5);
    first_service_with(text, &bytes[start..], port, proto)
}

// The same where the digits of the port are written down, with a slash after them. Zeros may stand before them in a line.
fn first_service_with(text: &[u8], digits: &[u8], port: u16, proto: &[u8]) -> Option<ServiceAt>
    requires { digits.now ≡ decimal port ++ 47 ∷ [] }
    ensures { FirstOf (GivesService (service_ported port proto.now) text.now) (line_spans text.now 0) result }
{
    first_line_with(text, digits, Case::Counts, |line| {
        ported_service(text, line, port, proto)
    })
}

/// The entry of a line of a hosts file that has the form and this name or alias. A line without the name is given up
/// before its address is read.
pub fn called_host(text: &[u8], line: Span, name: &[u8]) -> Option<HostAt>
    requires { line.to ≤ length text.now }
    ensures entry { option_map (host_at text.now) result ≡ if_named (host_has_name name.now) (host_of_line (part text.now line)) }
    ensures inside { IfSome result (HostLiesIn line) }
    ensures stands { IfSome result (HostStands text.now line) }
    ensures padded { IfSome result (λ at. IsPadded at.family at.address) }
{
    let words = line_words(text, line)?;
    if !has_name(text, words.second, words.others, name, Case::Ignored) {
        return None;
    }
    formed_host(text, line, words)
}

// The entry of a line of a hosts file that has the form, this name and an address of this family.
fn named_host(text: &[u8], line: Span, name: &[u8], family: u8) -> Option<HostAt>
    requires { line.to ≤ length text.now }
    ensures entry { option_map (host_at text.now) result ≡ if_named (host_named family name.now) (host_of_line (part text.now line)) }
    ensures inside { IfSome result (HostLiesIn line) }
    ensures stands { IfSome result (HostStands text.now line) }
    ensures padded { IfSome result (λ at. IsPadded at.family at.address) }
{
    let host = called_host(text, line, name)?;
    if host.family == family {
        Some(host)
    } else {
        None
    }
}

// The entry of a line of a hosts file that has the form and this address.
fn addressed_host(text: &[u8], line: Span, address: &[u8]) -> Option<HostAt>
    requires { line.to ≤ length text.now }
    ensures entry { option_map (host_at text.now) result ≡ if_named (host_addressed address.now) (host_of_line (part text.now line)) }
    ensures inside { IfSome result (HostLiesIn line) }
    ensures stands { IfSome result (HostStands text.now line) }
    ensures padded { IfSome result (λ at. IsPadded at.family at.address) }
{
    let entry = before_line_remark(text, line);
    let first = word_at(text, entry, entry.from())?;
    if !spells(first.span.of(text), address) {
        return None;
    }
    formed_host(text, line, words_after(text, entry, first)?)
}

// The entry of a line of a services file that has the form, this name and this protocol. A line without the name is given
// up before its port is read.
fn named_service(text: &[u8], line: Span, name: &[u8], proto: &[u8]) -> Option<ServiceAt>
    requires { line.to ≤ length text.now }
    ensures entry { option_map (service_at text.now) result ≡ if_named (service_named name.now proto.now) (service_of_line (part text.now line)) }
    ensures inside { IfSome result (ServiceLiesIn line) }
    ensures stands { IfSome result (ServiceStands text.now line) }
{
    let words = line_words(text, line)?;
    if !has_name(text, words.first, words.others, name, Case::Counts) {
        return None;
    }
    let service = formed_service(text, line, words)?;
    if has_proto(text, service.proto, proto) {
        Some(service)
    } else {
        None
    }
}

// The entry of a line of a services file that has the form, this port and this protocol.
fn ported_service(text: &[u8], line: Span, port: u16, proto: &[u8]) -> Option<ServiceAt>
    requires { line.to ≤ length text.now }
    ensures entry { option_map (service_at text.now) result ≡ if_named (service_ported port proto.now) (service_of_line (part text.now line)) }
    ensures inside { IfSome result (ServiceLiesIn line) }
    ensures stands { IfSome result (ServiceStands text.now line) }
{
    let service = service_line(text, line)?;
    if service.port == port && has_proto(text, service.proto, proto) {
        Some(service)
    } else {
        None
    }
}

// Whether a protocol is the one that is asked for. Any will do where none is asked for.
fn has_proto(text: &[u8], proto: Span, asked: &[u8]) -> bool
    requires { proto.to ≤ length text.now }
    ensures { result ≡ (not (is_filled asked.now) || bytes_eq (part text.now proto) asked.now) }
{
    asked.is_empty() || equal(proto.of(text), asked)
}
