// Comparing what a reader has with bytes that are known, while it is read.
ghost use Rattle.std.specs.Prelude.{◌≡◌, ◌++◌, IfSome};
ghost use Rattle.std.specs.Bool.{OnTrue};
ghost use Rattle.nsc_outside.specs.FileSets.{IsAllOf};

use std::io::Read;

// How many bytes are read at once: few enough to stay close to the processor until they are compared, and to cost little where a file
// is short.
const PART: usize = 32_768;

/// Whether a reader has just these bytes left. Where a read fails the answer is no.
pub(crate) fn has_just<F: Read + Drop>(mut reader: F, known: &[u8]) -> bool
    ensures { OnTrue result (IsAllOf (F.remaining reader) known.now) }
{
    let mut part = [0; PART];
    let mut rest = known;
    'parts: while let Ok(count) = reader.read(&mut part) {
        let Some(behind) = behind(rest, &part[..count]) else {
            return false;
        };
        rest = behind;
        if count == 0 {
            return rest.is_empty();
        }
    }
    false
}

// What stands behind a front, where that is the front.
fn behind<'k>(known: &'k [u8], front: &[u8]) -> Option<&'k [u8]>
    ensures { IfSome result (λ rest. known.now ≡ front.now ++ rest.now) }
{
    if front.len() > known.len() {
        return None;
    }
    let (head, rest) = known.split_at(front.len());
    if head == front { Some(rest) } else { None }
}
