// Reading of addresses from texts: IPv4 in dotted decimal, IPv6 in the forms of RFC 4291.
ghost use Rattle.std.specs.Prelude.{◌≡◌};
ghost use Rattle.nsc_base.specs.Addresses.{v4_of, v6_of};

use std::net::{Ipv4Addr, Ipv6Addr};

/// The IPv4 address that a text spells: four decimal numbers below 256, none with a zero before other digits, and dots
/// between them. `None` where the text is anything else, also where a byte stands before or after.
pub fn read_v4(text: &[u8]) -> Option<[u8; 4]>
    ensures { result ≡ v4_of text.now }
{
    match Ipv4Addr::parse_ascii(text) {
        Ok(address) => Some(address.octets()),
        Err(_) => None,
    }
}

/// The IPv6 address that a text spells, its first byte first, as in RFC 4291, 2.2: eight groups of one to four hexadecimal
/// digits with colons between them, or fewer with one `::` that means one group or more. The last two groups may be
/// an IPv4 address. `None` where the text is anything else; no zone may stand after.
pub fn read_v6(text: &[u8]) -> Option<[u8; 16]>
    ensures { result ≡ v6_of text.now }
{
    match Ipv6Addr::parse_ascii(text) {
        Ok(address) => Some(address.octets()),
        Err(_) => None,
    }
}
