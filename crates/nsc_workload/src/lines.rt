// The lines of a workload: counts of replies, and the digest of all replies.
ghost use Rattle.std.specs.Prelude.{◌≡◌, IfOk, count_by, flat_map, not};
ghost use Rattle.sha2.specs.Sha256.{sha256};
ghost use Rattle.nsc_workload.specs.Runs.{has_row as has_row_of};
ghost use Rattle.nsc_workload.specs.Workload.{lines_of};

use itoa::Buffer;
use nsc_base::{Bytes, NoMemory};
use sha2::{Digest, Sha256};
use std::alloc::Global;

/// The lines that tell of these replies. Fails only for want of memory.
pub(crate) fn lines(alloc: Global, replies: &[Bytes]) -> Result<Vec<u8>, NoMemory>
    ensures { IfOk result (λ text. text.items ≡ lines_of (count_by has_row_of replies.now) (count_by (λ r. not (has_row_of r)) replies.now) (flat_map (λ r. r) replies.now)) }
{
    let mut buffer = Buffer::new();
    let mut text = Vec::new(alloc);
    text.extend_from_slice(b"found ")?;
    text.extend_from_slice(buffer.format(found(replies)).as_bytes())?;
    text.extend_from_slice(b"\nnot found ")?;
    text.extend_from_slice(buffer.format(missing(replies)).as_bytes())?;
    text.extend_from_slice(b"\nsha256 ")?;
    let digest = hex::encode(alloc, digest(replies))?;
    text.extend_from_slice(digest.as_bytes())?;
    text.extend_from_slice(b"\n")?;
    Ok(text)
}

// How many replies have a row.
fn found(replies: &[Bytes]) -> usize
    ensures { result ≡ count_by has_row_of replies.now }
{
    let mut count = 0;
    for reply in replies {
        if has_row(reply.as_slice()) {
            count += 1;
        }
    }
    count
}

// How many have none.
fn missing(replies: &[Bytes]) -> usize
    ensures { result ≡ count_by (λ r. not (has_row_of r)) replies.now }
{
    let mut count = 0;
    for reply in replies {
        if !has_row(reply.as_slice()) {
            count += 1;
        }
    }
    count
}

// Whether a reply has a row.
fn has_row(reply: &[u8]) -> bool
    ensures { result ≡ has_row_of reply.now }
{
    reply.len() > 4 && reply[4] == 1
}

// The digest of the replies, one after another.
fn digest(replies: &[Bytes]) -> [u8; 32]
    ensures { result ≡ sha256 (flat_map (λ r. r) replies.now) }
{
    let mut hasher = Sha256::new();
    for reply in replies {
        hasher.update(reply.as_slice());
    }
    hasher.finalize()
}
