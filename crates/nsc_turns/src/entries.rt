// What lookups and invalidations do to the entries.
ghost use Rattle.std.specs.Prelude.{◌≡◌, ◌<◌, ◌≤◌, None, IfOk, IfErr, IfSome};
ghost use Rattle.std.specs.Option.{option_copied};
ghost use Rattle.nsc_model.specs.Entry.{kept_limit};
ghost use Rattle.nsc_model.specs.Machine.{invalidated, last_count, live_entry};
ghost use Rattle.nsc_writer.specs.Writer.{Inserts, IsAnswered, IsRefused};
ghost use Rattle.nsc_turns.specs.Turns.{InsertsBeside, Looks, Completes, Stops, missed};

use nsc_base::Buf;
use nsc_compactor::compact;
use nsc_model::{Kind, Spent};
use nsc_shelf::Hit;
use nsc_writer::{Inserted, Loaded, Writer};

/// What a look for a live entry found.
#[derive(Clone, Copy, Debug, PartialEq, Eq)]
pub enum HitOrMiss {
    /// An entry.
    Hit(Hit),
    /// None.
    Missed {
        /// The number of invalidations then.
        epoch: u64,
    },
}

/// Looks for the live entry of the request of this kind and key, whose reply the buffer has then; at a miss it gives the number of
/// invalidations.
pub fn look(writer: &mut Writer, kind: Kind, key: &[u8], reply: &mut Buf) -> HitOrMiss
    requires limit { kept_limit ≤ reply.old.limit }
    requires still { writer.old.slide ≡ None }
    ensures looks { Looks (live_entry (record { kind = kind; key = key.now }) writer.old.cache.entries) (record { kind = kind; key = key.now }) result writer.old writer.new reply.new.content }
    ensures limit { reply.new.limit ≡ reply.old.limit }
{
    match writer.search(kind, key, reply) {
        Some(hit) => HitOrMiss::Hit(hit),
        None => HitOrMiss::Missed {
            epoch: writer.epoch(),
        },
    }
}

/// Counts a miss, tries an insertion, and hands back what was to be inserted.
pub fn insert(writer: &mut Writer, loaded: Loaded) -> (Inserted, Loaded)
    requires answered { IsAnswered writer.old.seen loaded }
    requires still { writer.old.slide ≡ None }
    ensures inserted { Inserts result.0 loaded (missed loaded writer.old) writer.new }
    ensures why { IsRefused result.0 loaded (missed loaded writer.old) }
    ensures back { result.1 ≡ loaded }
{
    writer.miss(loaded.answer().is_not_found());
    writer.insert(loaded)
}

/// Tries to insert what goes beside an entry that was inserted: `said` is what became of that entry's insertion. Nothing changes if it
/// was refused, or if nothing goes beside it.
pub fn insert_beside(writer: &mut Writer, said: Inserted, beside: Option<&Loaded>)
    requires answered { IfSome (option_copied beside) (IsAnswered writer.old.seen) }
    requires still { writer.old.slide ≡ None }
    ensures { InsertsBeside said (option_copied beside.entry) writer.old writer.new }
{
    if let (Inserted::Done { number: _ }, Some(loaded)) = (said, beside) {
        writer.insert_lent(loaded);
    }
}

/// Ends every entry as invalidated, compacts where there was any, and gives the new number of invalidations. At `Spent` that number
/// stands at its end; or every entry ended, and the count of the beginnings and the ends of slides does.
pub fn invalidate(writer: &mut Writer) -> Result<u64, Spent>
    requires { writer.old.slide ≡ None }
    ensures completes { IfOk result (λ epoch. Completes (invalidated writer.old.cache) writer.old writer.new) }
    ensures epoch { IfOk result (λ epoch. epoch ≡ writer.new.cache.epoch) }
    ensures below { IfOk result (λ _. writer.old.cache.epoch < last_count) }
    ensures stops { IfErr result (λ spent. Stops (invalidated writer.old.cache) spent.count writer.old writer.new) }
{
    let is_empty = writer.is_empty();
    match writer.invalidate() {
        Ok(epoch) => {
            if is_empty {
                return Ok(epoch);
            }
            match compact(writer) {
                Ok(_) => Ok(epoch),
                Err(spent) => Err(spent),
            }
        }
        Err(spent) => Err(spent),
    }
}
