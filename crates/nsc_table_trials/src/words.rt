// The print of every word of a table, once a compaction has begun.
ghost use Rattle.std.specs.Prelude.{◌≡◌, None};

// The words of a table, as a slide finds them.

use nsc_arena::Words;
use nsc_writer::Writer;
use std::io;
use std::io::Print;

/// Begins a slide, and prints every word of the table, each in a line. The writer is done with then.
pub fn show_words<R: Print>(rt: &R, mut writer: Writer) -> io::Result<()>
    requires { writer.slide ≡ None }
{
    if writer.begin_slide().is_err() {
        return println!(rt; "spent");
    }
    for at in 0..writer.len() {
        println!(rt; "word {}", writer.word(at))?;
    }
    Ok(())
}
