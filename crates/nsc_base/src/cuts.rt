// Cuts of bytes: after white space, before a byte, before a remark; and zero bytes.
ghost use Rattle.std.specs.Prelude.{◌≡◌, ◌≤◌, ◌==◌, ◌+◌, false, true, length, MatchOption};
ghost use Rattle.std.specs.List.{after_first, before_first, list_any, position_or_len};
ghost use Rattle.nsc_base.specs.Text.{LiesIn, before_remark as without_remark, is_white, part, trimmed};

use crate::span::Span;
use memchr::memchr;

/// Whether a byte is 0.
pub fn has_zero_byte(bytes: &[u8]) -> bool
    ensures { result ≡ list_any (λ b. b == 0) bytes.now }
{
    memchr(0, bytes).is_some()
}

/// The bytes after the white space at the front: blanks and tabs.
pub fn trim_front(bytes: &[u8]) -> &[u8]
    ensures rest { result.now ≡ trimmed bytes.now }
    ensures within { length result.now ≤ length bytes.now }
{
    let mut rest = bytes;
    while let [b' ' | b'\t', more @ ..] = rest {
        rest = more;
    }
    rest
}

/// The bytes up to the first of this kind, or all of them where there is none.
pub fn before_byte(bytes: &[u8], byte: u8) -> &[u8]
    ensures front { result.now ≡ before_first (λ b. b == byte) bytes.now }
    ensures place { length result.now ≡ position_or_len (λ b. b == byte) bytes.now }
{
    match memchr(byte, bytes) {
        Some(n) => &bytes[..n],
        None => bytes,
    }
}

/// The bytes up to the remark, which begins with the first `#`, or all of them where there is none.
pub fn before_remark(bytes: &[u8]) -> &[u8]
    ensures { result.now ≡ without_remark bytes.now }
{
    before_byte(bytes, b'#')
}
