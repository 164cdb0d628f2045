//! The fields and the texts of a reply, each read from the front of the bytes, together with the bytes after it.

ghost use Rattle.std.specs.Prelude.{◌≡◌};
ghost use Rattle.nsc_wire.specs.Replies.{Gives, all_fixed, ended_text_at, ended_texts_at, fixed_at, number_at, numbers_at, piece_at, size_at, sizes_at, text_at, texts_at};

use crate::fault::Broken;
use crate::reply::FIELD;
use nsc_base::{Bytes, Texts, before_byte, u32_at};
use std::alloc::Global;

// The next `size` bytes.
#[tactic(auto, unfolding(crate::specs::Replies::piece_at))]
pub(crate) fn piece(bytes: &[u8], size: usize) -> Result<(&[u8], &[u8]), Broken>
    ensures { Gives (λ x. (x.0.now, x.1.now)) result (piece_at size bytes.now) }
{
    if bytes.len() < size {
        return Err(Broken::Left(0));
    }
    Ok(bytes.split_at(size))
}

// A field.
#[tactic(auto, unfolding(crate::specs::Replies::number_at))]
pub(crate) fn number(bytes: &[u8]) -> Result<(u32, &[u8]), Broken>
    ensures { Gives (λ x. (x.0, x.1.now)) result (number_at bytes.now) }
{
    if bytes.len() < FIELD {
        return Err(Broken::Left(0));
    }
    Ok((u32_at(bytes, 0), &bytes[FIELD..]))
}

// As many fields as the count says.
pub(crate) fn numbers(alloc: Global, count: u32, bytes: &[u8]) -> Result<(Vec<u32>, &[u8]), Broken>
    ensures { Gives (λ x. (x.0.items, x.1.now)) result (numbers_at count bytes.now) }
{
    let room = (count as usize).min(bytes.len() / FIELD);
    let mut numbers = Vec::with_capacity(alloc, room)?;
    let mut rest = bytes;
    for _ in 0..count {
        let (one, after) = number(rest)?;
        numbers.push(one)?;
        rest = after;
    }
    Ok((numbers, rest))
}

// A field that has this value, and the bytes after it.
#[tactic(auto, unfolding(crate::specs::Replies::fixed_at))]
pub(crate) fn fixed(bytes: &[u8], value: u32) -> Result<&[u8], Broken>
    ensures { Gives (λ x. x.now) result (fixed_at value bytes.now) }
{
    let (found, rest) = number(bytes)?;
    if found != value {
        return Err(Broken::Left(bytes.len()));
    }
    Ok(rest)
}

// Fields that have these values, and the bytes after them.
pub(crate) fn fixed_fields<'a>(bytes: &'a [u8], values: &[u32]) -> Result<&'a [u8], Broken>
    ensures { Gives (λ x. x.now) result (all_fixed values.now bytes.now) }
{
    let mut rest = bytes;
    for value in values {
        rest = fixed(rest, *value)?;
    }
    Ok(rest)
}

// The length of a text, which is not 0, since it counts the zero byte.
#[tactic(auto, unfolding(crate::specs::Replies::size_at))]
pub(crate) fn size(bytes: &[u8]) -> Result<(u32, &[u8]), Broken>
    ensures { Gives (λ x. (x.0, x.1.now)) result (size_at bytes.now) }
{
    let (size, rest) = number(bytes)?;
    if size == 0 {
        return Err(Broken::Left(bytes.len()));
    }
    Ok((size, rest))
}

// The bytes after the lengths of `count` texts.
pub(crate) fn after_sizes(bytes: &[u8], count: u32) -> Result<&[u8], Broken>
    ensures { Gives (λ x. x.now) result (sizes_at count bytes.now) }
{
    let mut rest = bytes;
    for _ in 0..count {
        let (_, after) = size(rest)?;
        rest = after;
    }
    Ok(rest)
}

// A text of this length, lent.
#[tactic(auto, unfolding(crate::specs::Replies::text_at))]
fn lent_text(size: u32, bytes: &[u8]) -> Result<(&[u8], &[u8]), Broken>
    ensures { Gives (λ x. (x.0.now, x.1.now)) result (text_at size bytes.now) }
{
    let (piece, rest) = piece(bytes, size as usize)?;
    let front = before_byte(piece, 0);
    if front.len() + 1 != size as usize {
        return Err(Broken::Left(bytes.len()));
    }
    Ok((front, rest))
}

// A text of this length.
pub(crate) fn text(alloc: Global, size: u32, bytes: &[u8]) -> Result<(Bytes, &[u8]), Broken>
    ensures { Gives (λ x. (x.0, x.1.now)) result (text_at size bytes.now) }
{
    let (text, rest) = lent_text(size, bytes)?;
    Ok((Bytes::copy(alloc, text)?, rest))
}

// As many texts as the count says. Their lengths are fields at the front of others.
pub(crate) fn texts<'a>(
    alloc: Global,
    count: u32,
    lengths: &[u8],
    bytes: &'a [u8],
) -> Result<(Texts, &'a [u8]), Broken>
    ensures { Gives (λ x. (x.0, x.1.now)) result (texts_at count lengths.now bytes.now) }
{
    let mut texts = Texts::new(alloc);
    let mut lengths = lengths;
    let mut rest = bytes;
    for _ in 0..count {
        let (size, others) = number(lengths)?;
        let (one, after) = lent_text(size, rest)?;
        texts.push(one)?;
        lengths = others;
        rest = after;
    }
    Ok((texts, rest))
}

// Lends the text at the front, which ends at its first zero byte.
#[tactic(auto, unfolding(crate::specs::Replies::ended_text_at))]
fn ended_text(bytes: &[u8]) -> Result<(&[u8], &[u8]), Broken>
    ensures { Gives (λ x. (x.0.now, x.1.now)) result (ended_text_at bytes.now) }
{
    let front = before_byte(bytes, 0);
    if front.len() >= bytes.len() {
        return Err(Broken::Left(0));
    }
    Ok((front, &bytes[front.len() + 1..]))
}

// Reads `count` texts, each of which ends at its first zero byte.
pub(crate) fn ended_texts(alloc: Global, count: u64, bytes: &[u8]) -> Result<(Texts, &[u8]), Broken>
    ensures { Gives (λ x. (x.0, x.1.now)) result (ended_texts_at count bytes.now) }
{
    let mut texts = Texts::new(alloc);
    let mut rest = bytes;
    for _ in 0..count {
        let (one, after) = ended_text(rest)?;
        texts.push(one)?;
        rest = after;
    }
    Ok((texts, rest))
}
