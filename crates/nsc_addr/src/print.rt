// Printing of addresses: IPv4 in dotted decimal, IPv6 in the form of RFC 5952.
ghost use Rattle.std.specs.Prelude.{◌≡◌, ◌+◌, ◌*◌, ◌<◌, ◌≤◌, ◌++◌, decimal, false, length};
ghost use Rattle.std.specs.Fmt.{digit_glyph, digits};
ghost use Rattle.nsc_base.specs.Addresses.{colon_text, longest_run, v4_text, v6_text};

use nsc_base::Buf;
use std::net::Ipv6Addr;

/// Puts an IPv4 address after what a buffer holds: its four numbers in decimal, with dots between them. The caller knows
/// that the longest such text fits, 15 bytes.
pub fn print_v4(address: [u8; 4], out: &mut Buf)
    requires { length out.old.content + 15 ≤ out.old.limit }
    ensures { out.new ≡ record { content = out.old.content ++ v4_text address; limit = out.old.limit } }
{
    let later = &address[1..];
    push_octet(address[0], out);
    for octet in later {
        out.push(b".");
        push_octet(*octet, out);
    }
}

/// Puts an IPv6 address after what a buffer holds, as RFC 5952, 4 writes it: eight groups in lower case with no zero at
/// their front, and `::` for the longest run of two zero groups or more, the first of those that are as long. No part is
/// written with dots. The caller knows that the longest such text fits, 39 bytes.
pub fn print_v6(address: [u8; 16], out: &mut Buf)
    requires { length out.old.content + 39 ≤ out.old.limit }
    ensures { out.new ≡ record { content = out.old.content ++ v6_text address; limit = out.old.limit } }
{
    let groups = Ipv6Addr::from_octets(address).segments();
    let run = longest_zeros(&groups);
    if run.count < 2 {
        push_groups(&groups, out);
    } else {
        push_groups(&groups[..run.before], out);
        out.push(b"::");
        push_groups(&groups[run.before + run.count..], out);
    }
}

/// Puts a byte in decimal, with no zero before other digits: at most three bytes.
fn push_octet(octet: u8, out: &mut Buf)
    requires { length out.old.content + 3 ≤ out.old.limit }
    ensures text { out.new ≡ record { content = out.old.content ++ decimal octet; limit = out.old.limit } }
    ensures size { length out.new.content ≤ length out.old.content + 3 }
{
    let digits = [
        b'0' + octet / 100,
        b'0' + octet / 10 % 10,
        b'0' + octet % 10,
    ];
    let zeros = match octet {
        100.. => 0,
        10.. => 1,
        _ => 2,
    };
    out.push(&digits[zeros..]);
}

/// Puts groups of 16 bits, with colons between them: at most five bytes for each, but for the first at most four.
fn push_groups(groups: &[u16], out: &mut Buf)
    requires { length out.old.content + 5 * length groups.now ≤ out.old.limit + 1 }
    ensures text { out.new ≡ record { content = out.old.content ++ colon_text groups.now; limit = out.old.limit } }
    ensures size { length out.new.content ≤ length out.old.content + 5 * length groups.now }
{
    let [first, later @ ..] = groups else {
        return;
    };
    push_group(*first, out);
    for group in later {
        out.push(b":");
        push_group(*group, out);
    }
}

/// Puts a group in hexadecimal, in lower case and with no zero before other digits: at most four bytes.
fn push_group(group: u16, out: &mut Buf)
    requires { length out.old.content + 4 ≤ out.old.limit }
    ensures text { out.new ≡ record { content = out.old.content ++ digits 16 false group; limit = out.old.limit } }
    ensures size { length out.new.content ≤ length out.old.content + 4 }
{
    let digits = [
        hex_digit(group / 0x1000),
        hex_digit(group / 0x100 % 16),
        hex_digit(group / 0x10 % 16),
        hex_digit(group % 16),
    ];
    let zeros = match group {
        0x1000.. => 0,
        0x100.. => 1,
        0x10.. => 2,
        _ => 3,
    };
    out.push(&digits[zeros..]);
}

/// The hexadecimal digit of a number below 16, in lower case.
fn hex_digit(n: u16) -> u8
    requires { n < 16 }
    ensures { result ≡ digit_glyph false n }
{
    if n < 10 {
        b'0' + n as u8
    } else {
        b'a' + (n - 10) as u8
    }
}

/// A run of groups that are 0: how many groups stand before it, and how many it has.
#[derive(Clone, Copy)]
struct Zeros {
    before: usize,
    count: usize,
}

/// The longest run of zeros; of runs that are as long the first. Where no group is 0, an empty run. It looks from the last
/// group on, so that a run further in front takes the place of one that is as long.
fn longest_zeros(groups: &[u16]) -> Zeros
    ensures before { result.before ≡ (longest_run groups.now).before }
    ensures count { result.count ≡ (longest_run groups.now).count }
    ensures within { result.before + result.count ≤ length groups.now }
{
    let mut longest = Zeros {
        before: groups.len(),
        count: 0,
    };
    let mut here = 0;
    for i in (0..groups.len()).rev() {
        here = if groups[i] == 0 { here + 1 } else { 0 };
        if longest.count <= here {
            longest = Zeros {
                before: i,
                count: here,
            };
        }
    }
    longest
}
