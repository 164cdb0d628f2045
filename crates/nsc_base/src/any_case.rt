// A needle that is looked for without regard to the case of ASCII letters.
ghost use Rattle.std.specs.Prelude.{◌≡◌, ◌<◌, ◌&&◌, length, nat_le, take, IfSome};
ghost use Rattle.std.specs.Str.{str_eq_ignore_ascii_case};
ghost use Rattle.nsc_base.specs.AnyCase.{HasNoCase, IsPartOf, NeedsNoCase, sought_text};
ghost use Rattle.nsc_base.specs.Found.{NoneBefore};
ghost use Rattle.nsc_base.specs.Text.{LiesIn, part};
ghost use Rattle.nsc_base.specs.declared.search.Case.{Case};

use crate::span::Span;
use memchr::memchr2;
use memchr::memmem::Finder;

// The letters from rare to common, as they stand in names.
const LETTERS: [u8; 26] = *b"jqxzkvwbygpfmucdlhrsnioate";

// What is looked for in place of a needle: a part of it.
#[derive(Drop)]
enum Sought<'n> {
    // A part with no letters, which is the same in either case.
    Caseless(Finder<'n>),
    // A byte, in either case.
    Either(u8),
}

impl<'n> Sought<'n> {
    // A place before which the part does not begin, in any case. `None` where it stands nowhere.
    fn first_place(&self, bytes: &[u8]) -> Option<usize>
        requires { NeedsNoCase self.now }
        ensures { NoneBefore Case.Ignored (sought_text self.now) bytes.now result }
    {
        match self {
            Sought::Caseless(finder) => finder.find(bytes),
            Sought::Either(byte) => {
                memchr2(byte.to_ascii_lowercase(), byte.to_ascii_uppercase(), bytes)
            }
        }
    }
}

/// A place before which no needle begins, where the case of ASCII letters does not count. `None` where there is no needle.
/// What is searched is a part of the needle that few lines have, and the whole needle is compared where it stands.
pub fn first_in_any_case(bytes: &[u8], needle: &[u8]) -> Option<usize>
    ensures { NoneBefore Case.Ignored needle.now bytes.now result }
{
    let (ahead, sought) = telling_part(needle);
    first_by_part(bytes, needle, ahead, &sought)
}

// The same by a part of the needle, and the place in the needle where the part begins.
fn first_by_part(bytes: &[u8], needle: &[u8], ahead: usize, sought: &Sought) -> Option<usize>
    requires part { IsPartOf needle.now ahead (sought_text sought.now) }
    requires caseless { NeedsNoCase sought.now }
    ensures { NoneBefore Case.Ignored needle.now bytes.now result }
{
    let mut from = ahead;
    while let Some(n) = sought.first_place(bytes.get(from..)?) {
        let at = from + n - ahead;
        if begins_in_any_case(&bytes[at..], needle) {
            return Some(at);
        }
        from += n + 1;
    }
    None
}

// Whether bytes begin with the needle, where the case of ASCII letters does not count.
fn begins_in_any_case(bytes: &[u8], needle: &[u8]) -> bool
    ensures { result ≡ (nat_le (length needle.now) (length bytes.now) && str_eq_ignore_ascii_case (take (length needle.now) bytes.now) needle.now) }
{
    bytes.len() >= needle.len() && bytes[..needle.len()].eq_ignore_ascii_case(needle)
}

// The part of a needle that is looked for, and the place in the needle where it begins: the longest run of bytes that are
// no letters, such as a number, or else the rarest letter.
fn telling_part(needle: &[u8]) -> (usize, Sought<'_>)
    ensures part { IsPartOf needle.now result.0 (sought_text result.1) }
    ensures caseless { NeedsNoCase result.1 }
{
    let run = longest_run(needle);
    if run.to() - run.from() < 2 {
        if let Some(place) = rarest_letter(needle) {
            return (place, Sought::Either(needle[place]));
        }
    }
    (run.from(), Sought::Caseless(Finder::new(run.of(needle))))
}

// A longest run of bytes that are no letters.
fn longest_run(needle: &[u8]) -> Span
    ensures inside { LiesIn (record { from = 0; to = length needle.now }) result }
    ensures caseless { HasNoCase (part needle.now result) }
{
    let mut longest = Span::new(0, 0);
    let mut start = 0;
    for i in 0..needle.len() {
        if needle[i].is_ascii_alphabetic() {
            start = i + 1;
        } else if longest.to() - longest.from() < i + 1 - start {
            longest = Span::new(start, i + 1);
        }
    }
    longest
}

// The place of a letter of the needle than which no other is rarer. `None` where it has no letter.
fn rarest_letter(needle: &[u8]) -> Option<usize>
    ensures { IfSome result (λ place. place < length needle.now) }
{
    for letter in LETTERS {
        let place = memchr2(letter, letter.to_ascii_uppercase(), needle);
        if place.is_some() {
            return place;
        }
    }
    None
}
