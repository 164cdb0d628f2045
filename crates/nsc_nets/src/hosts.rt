// Lines of hosts(5): the address of an entry, and the places of its names.
ghost use Rattle.std.specs.Prelude.{◌≡◌, ◌≤◌, ◌∷◌, false, drop, length, replicate, take, IfSome};
ghost use Rattle.std.specs.Option.{option_map, option_map_or};
ghost use Rattle.std.specs.Str.{bytes_eq};
ghost use Rattle.nsc_base.specs.Text.{part, word_spans};
ghost use Rattle.nsc_model.specs.Hosts.{addressed_of, host_of_line};
ghost use Rattle.nsc_nets.specs.Hosts.{HostLiesIn, HostStands, IsPadded, addressed_at, host_at, host_of_formed, own_bytes};
ghost use Rattle.nsc_nets.specs.Lines.{entry_part};
ghost use Rattle.nsc_base.specs.Words.{WordsLieIn, words_at};

use crate::words::line_words;
use nsc_addr::{read_v4, read_v6};
use nsc_base::{Span, WordsAt, has_zero_byte};

// The address family of IPv4.
const IPV4: u8 = 2;

// The address family of IPv6.
const IPV6: u8 = 10;

/// The family of a host's entry and its address, and where its names stand in a text.
#[derive(Clone, Copy, Debug, PartialEq, Eq)]
pub struct HostAt {
    /// The address family: 2 for IPv4, 10 for IPv6.
    pub family: u8,
    /// The address. One of IPv4 is in the first four bytes, and the others are 0.
    pub address: [u8; 16],
    /// The canonical name.
    pub name: Span,
    /// The further names, with the white space between them.
    pub aliases: Span,
}

impl HostAt {
    /// The bytes of the address alone, four of IPv4 and sixteen of IPv6, lent.
    pub fn address_bytes(&self) -> &[u8]
        ensures { result.now ≡ own_bytes self.now.family self.now.address }
    {
        if self.family == IPV4 {
            &self.address[..4]
        } else {
            &self.address[..]
        }
    }
}

// An address with its family. One of IPv4 is in the first four bytes, and the others are 0.
#[derive(Clone, Copy, Debug)]
struct Address {
    family: u8,
    bytes: [u8; 16],
}

/// The entry of a line of a hosts file, hosts(5), as places in the text: `address name aliases`, with blanks or tabs
/// between the words, and a remark from a `#` on. `None` where the line lacks the form: it has fewer than two words, a
/// zero byte, or a first word that spells no address. Takes no memory.
pub fn host_line(text: &[u8], line: Span) -> Option<HostAt>
    requires { line.to ≤ length text.now }
    ensures entry { option_map (host_at text.now) result ≡ host_of_line (part text.now line) }
    ensures inside { IfSome result (HostLiesIn line) }
    ensures stands { IfSome result (HostStands text.now line) }
    ensures padded { IfSome result (λ at. IsPadded at.family at.address) }
{
    formed_host(text, line, line_words(text, line)?)
}

/// The entry of a line whose words are known. `None` where the line lacks the form.
pub fn formed_host(text: &[u8], line: Span, words: WordsAt) -> Option<HostAt>
    requires inside { line.to ≤ length text.now }
    requires words_in { WordsLieIn line words }
    requires words_stand { word_spans text.now (entry_part text.now line) ≡ words.first ∷ words.second ∷ word_spans text.now words.others }
    ensures entry { option_map (host_at text.now) result ≡ host_of_formed (part text.now line) (words_at text.now words) }
    ensures inside { IfSome result (HostLiesIn line) }
    ensures stands { IfSome result (HostStands text.now line) }
    ensures padded { IfSome result (λ at. IsPadded at.family at.address) }
{
    if has_zero_byte(line.of(text)) {
        return None;
    }
    let found = read_address(words.first.of(text))?;
    let address = found.bytes;
    Some(HostAt {
        family: found.family,
        address,
        name: words.second,
        aliases: words.others,
    })
}

/// Whether a text spells this address, of four bytes or of sixteen. A text is read only in the form of addresses of this
/// length, and in the other form where it spells the address in this one.
pub fn spells(text: &[u8], address: &[u8]) -> bool
    ensures { result ≡ option_map_or (λ a. bytes_eq a.address address.now) (addressed_of text.now) false }
{
    if address.len() == 16 {
        return spells_v6(text, address);
    }
    match read_v4(text) {
        Some(v4) => v4.as_slice() == address,
        None => false,
    }
}

// Whether a text spells this address of sixteen bytes. What spells an address of IPv4 spells no other.
fn spells_v6(text: &[u8], address: &[u8]) -> bool
    requires { length address.now ≡ 16 }
    ensures { result ≡ option_map_or (λ a. bytes_eq a.address address.now) (addressed_of text.now) false }
{
    match read_v6(text) {
        Some(v6) => v6.as_slice() == address && read_v4(text).is_none(),
        None => false,
    }
}

// The address that a text spells.
fn read_address(text: &[u8]) -> Option<Address>
    ensures address { option_map addressed_at result ≡ addressed_of text.now }
    ensures padded { IfSome result (λ found. IsPadded found.family found.bytes) }
{
    if let Some(v4) = read_v4(text) {
        let bytes = widened(v4);
        return Some(Address {
            family: IPV4,
            bytes,
        });
    }
    let bytes = read_v6(text)?;
    Some(Address {
        family: IPV6,
        bytes,
    })
}

// The bytes of an IPv4 address, and zeros after them.
fn widened(v4: [u8; 4]) -> [u8; 16]
    ensures address { take 4 result ≡ v4 }
    ensures zeros { drop 4 result ≡ replicate 12 0 }
{
    let [a, b, c, d] = v4;
    [a, b, c, d, 0, 0, 0, 0, 0, 0, 0, 0, 0, 0, 0, 0]
}
