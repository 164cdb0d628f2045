// `compact`: one compaction by a writer, which frees the words of ended entries.
ghost use Rattle.std.specs.Prelude.{◌≡◌, None, IfOk, IfErr};
ghost use Rattle.nsc_model.specs.Machine.{last_count};
ghost use Rattle.nsc_compactor.specs.Compacting.{Compacts};

use nsc_arena::slide;
use nsc_model::Spent;
use nsc_writer::Writer;

/// The words of ended entries are free again; it gives their number. Each live entry is moved once, over the words of the table, and
/// it takes no memory. At `Spent` nothing changed: the count of the beginnings and the ends of slides, which goes on by two at each
/// compaction, stands at its end.
pub fn compact(writer: &mut Writer) -> Result<u64, Spent>
    requires { writer.old.slide ≡ None }
    ensures done { IfOk result (λ freed. Compacts freed writer.old writer.new) }
    ensures spent { IfErr result (λ spent. (writer.old.cache.cycle ≡ last_count) × (spent.count ≡ last_count) × (writer.new ≡ writer.old)) }
{
    let map = writer.map().layout();
    match writer.begin_slide() {
        Ok(()) => {
            let freed = slide(writer, map);
            writer.end_slide();
            Ok(freed as u64)
        }
        Err(spent) => Err(spent),
    }
}
