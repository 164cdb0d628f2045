// What can be served of the bytes that a peer of the gate has sent.
ghost use Rattle.std.specs.Prelude.{◌≤◌, length};
ghost use Rattle.nsc_sockets.specs.WholeLines.{AreWholeLines};

use memchr::memrchr;
use nsc_model::LINE_LIMIT;

/// The most bytes of a peer that are seen ahead: a line of the gate and its newline, or a line that is too long.
pub(crate) const MOST_SEEN: usize = LINE_LIMIT + 1;

// At most `TURN` bytes of whole lines are served before others have their turn.
const TURN: usize = 256;

/// How many bytes at the front of those that were seen are served in one turn: the whole lines among the first 256, or where none ends
/// there, among all.
pub(crate) fn turn_size(seen: &[u8], has_ended: bool) -> usize
    ensures { result ≤ length seen.now }
{
    let first = seen.len().min(TURN);
    match whole_lines(&seen[..first], has_ended && seen.len() < TURN) {
        0 => whole_lines(seen, has_ended && seen.len() < MOST_SEEN),
        size => size,
    }
}

// How many bytes at the front of those that came can be served: the whole lines; and all bytes where they are one line that is too
// long already, or where no more will come.
fn whole_lines(seen: &[u8], has_ended: bool) -> usize
    ensures lines { AreWholeLines has_ended seen.now result }
    ensures bound { result ≤ length seen.now }
{
    if has_ended {
        seen.len()
    } else {
        match memrchr(b'\n', seen) {
            Some(last) => last + 1,
            None if seen.len() > LINE_LIMIT => seen.len(),
            None => 0,
        }
    }
}
