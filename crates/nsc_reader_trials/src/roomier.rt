// The layout of a larger table for a writer's live entries and more words.
ghost use Rattle.std.specs.Prelude.{◌≡◌, None, IfSome};
ghost use Rattle.nsc_reader_trials.specs.First.{HoldsAll};

use nsc_compactor::compact;
use nsc_growth::Doubling;
use nsc_words::Layout;
use nsc_writer::Writer;

/// The layout of the next table that takes at most `limit` bytes and has room for `need` more words, if there is one. It compacts
/// first, so that the words in use are those of live entries.
pub fn roomier(writer: &mut Writer, limit: u32, need: u64) -> Option<Layout>
    requires { writer.old.slide ≡ None }
    ensures still { writer.new.slide ≡ None }
    ensures table { writer.new.table ≡ writer.old.table }
    ensures holds { IfSome result (HoldsAll writer.new) }
{
    let Ok(_freed) = compact(writer) else {
        return None;
    };
    let live = writer.stats().used;
    let layout = writer.map().layout();
    Doubling::new(limit).next(layout, live, need)
}
