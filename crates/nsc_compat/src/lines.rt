// `LineScan`: the trait of scans over the lines of a passwd or group file, and their outcome.
ghost use Rattle.std.specs.Prelude.{◌≡◌, ◌≤◌, ◌++◌, List, [], All, IfOk, flat_map, length, map};
ghost use Rattle.nsc_base.specs.Text.{part};
ghost use Rattle.nsc_model.specs.declared.row.Looked.{Looked};
ghost use Rattle.nsc_model.specs.Compat.{Saying, sayings};
ghost use Rattle.nsc_compat.specs.Lines.{looked_or};

use nsc_base::{NoMemory, Span};
use nsc_model::Looked;
use std::alloc::Global;

/// A scan of what lines of a passwd or group file say: what it has seen so far decides with the sayings that are left.
pub trait LineScan<'t> {
    /// What it has seen.
    type Seen: Drop;

    /// What the sayings that are left come to.
    ghost comes: { Self → Self.Seen → List Saying → Looked };

    /// The outcome of what a line says, where it answers; else the lines after it decide. Fails only for want of memory.
    fn take(
        &self,
        alloc: Global,
        text: &'t [u8],
        line: Span,
        seen: &mut Self::Seen,
    ) -> Result<Option<Looked>, NoMemory>
        requires { line.to ≤ length text.now }
        ensures { IfOk result (λ outcome. (later : List Saying) → looked_or outcome (comes self.now seen.new later) ≡ comes self.now seen.old (sayings (part text.now line) ++ later)) };

    /// The outcome where no line is left.
    fn end(&self, seen: Self::Seen) -> Looked
        ensures { result ≡ comes self.now seen [] };
}

/// The outcome of a scan over these lines of a file: that of the first one that answers, and after it no line is looked at.
/// Fails only for want of memory.
pub fn scan_lines<'t, L: LineScan<'t>>(
    alloc: Global,
    scan: &L,
    mut seen: L::Seen,
    text: &'t [u8],
    lines: &[Span],
) -> Result<Looked, NoMemory>
    requires { All (λ line. line.to ≤ length text.now) lines.now }
    ensures { IfOk result (λ looked. looked ≡ L.comes scan.now seen (flat_map sayings (map (part text.now) lines.now))) }
{
    for line in lines {
        if let Some(outcome) = scan.take(alloc, text, *line, &mut seen)? {
            return Ok(outcome);
        }
    }
    Ok(scan.end(seen))
}
