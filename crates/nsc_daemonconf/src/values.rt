// Values in nscd.conf(5): yes or no, suggested sizes, and limits of reloads.
ghost use Rattle.std.specs.Prelude.{◌≡◌, ◌≤◌, IfSome};
ghost use Rattle.nsc_daemonconf.specs.Lines.{hexadecimal_of, limit_in, reloads_of, size_in, size_of, yes_or_no as yes_or_no_of};

use nsc_base::decimal;

/// The answer that a word gives: `yes` or `no`, in small letters.
pub fn yes_or_no(word: &[u8]) -> Option<bool>
    ensures { result ≡ yes_or_no_of word.now }
{
    match word {
        b"yes" => Some(true),
        b"no" => Some(false),
        _ => None,
    }
}

/// The suggested size that a word spells: a decimal number from 1 to 65,536.
pub fn size(word: &[u8]) -> Option<u32>
    ensures size { result ≡ size_of word.now }
    ensures within { IfSome result (λ n. (1 ≤ n) × (n ≤ 65536)) }
{
    match decimal(word)? {
        number @ 1..=65_536 => Some(number),
        _ => None,
    }
}

/// The limit of reloads that a word gives: `unlimited` in letters of either case, or a number, in decimal or, after `0x`,
/// in hexadecimal. `Some(None)` where there is no limit, as at 255 and above; `None` where the word gives none of these.
pub fn reloads(word: &[u8]) -> Option<Option<u32>>
    ensures { result ≡ reloads_of word.now }
{
    if word.eq_ignore_ascii_case(b"unlimited") {
        return Some(None);
    }
    let number = decimal(word).or_else(|| hexadecimal(word))?;
    Some(limit(number))
}

// A limit of reloads: 255 and more are as many as one likes.
fn limit(number: u32) -> Option<u32>
    ensures { result ≡ limit_in number }
{
    if number < 255 { Some(number) } else { None }
}

// The number that `0x` and one to eight hexadecimal digits spell, in letters of either case.
fn hexadecimal(word: &[u8]) -> Option<u32>
    ensures { result ≡ hexadecimal_of word.now }
{
    let digits = word.strip_prefix(b"0x")?;
    if digits.is_empty() || 8 < digits.len() {
        return None;
    }
    let mut number: u32 = 0;
    for digit in digits {
        number = 16 * number + char::from(*digit).to_digit(16)?;
    }
    Some(number)
}
