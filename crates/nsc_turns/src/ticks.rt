// What ticks do to the entries, after their poll.
ghost use Rattle.std.specs.Prelude.{◌≡◌, ◌≤◌, All, None, length, IfErr, IfSome, OnOk};
ghost use Rattle.nsc_model.specs.Machine.{is_outdated};
ghost use Rattle.nsc_pruner.specs.Due.{IsOver, marked_by, pruned_by};
ghost use Rattle.nsc_writer.specs.Writer.{IsAnswered};
ghost use Rattle.nsc_turns.specs.Ticks.{Checks, Reloads, Renews, swept_by};
ghost use Rattle.nsc_turns.specs.Turns.{Completes, Stops};

use crate::entries::invalidate;
use nsc_compactor::compact;
use nsc_model::{CacheFault, DbConf, Spent};
use nsc_pruner::{Due, expired, prune_ends};
use nsc_writer::{Loaded, Writer};
use std::alloc::Global;

/// What became of the entries once a tick had looked at the files.
#[derive(Drop)]
pub enum Checked {
    /// Every entry ended, since the files changed.
    Emptied,
    /// The files did not change, or that does not count; and these entries are due.
    Listed(Vec<Due>),
}

/// Where the newest version is not the one that the last tick found, and that counts, every entry ends; else it says which are due
/// at this moment, in seconds. At `NoMemory` nothing changed; `Spent` comes as at an invalidation.
pub fn check(
    writer: &mut Writer,
    alloc: Global,
    settings: &DbConf,
    limit: Option<u32>,
    ticked: u64,
    now: u64,
) -> Result<Checked, CacheFault>
    requires { writer.old.slide ≡ None }
    ensures { Checks (is_outdated settings.now writer.old.cache.newest_version ticked) limit now writer.old writer.new result }
{
    let newest = writer.version();
    if settings.is_outdated(newest, ticked) {
        return match invalidate(writer) {
            Ok(_) => Ok(Checked::Emptied),
            Err(spent) => Err(CacheFault::Spent { count: spent.count }),
        };
    }
    match expired(writer, alloc, limit, now) {
        Ok(due) => Ok(Checked::Listed(due)),
        Err(_) => Err(CacheFault::NoMemory),
    }
}

/// Ends those that are due and live still, and compacts where any was. Then it goes over those that it ended, one after the other:
/// what `loads` has at the place that one has in `due` is inserted, and with `None` there nothing is. One whose insertion is refused is
/// gone. At `Spent` the count of the beginnings and the ends of slides stands at its end, and nothing was inserted.
pub fn renew(
    writer: &mut Writer,
    due: &mut [Due],
    loads: &[Option<Loaded>],
    now: u64,
) -> Result<(), Spent>
    requires over { All (IsOver writer.old.seen now) due.old }
    requires answered { All (λ load. IfSome load (IsAnswered writer.old.seen)) loads.now }
    requires many { length loads.now ≤ length due.old }
    requires still { writer.old.slide ≡ None }
    ensures renews { OnOk result (Renews now due.old loads.now writer.old writer.new) }
    ensures stops { IfErr result (λ spent. Stops (swept_by now due.old writer.old) spent.count (pruned_by now due.old writer.old) writer.new) }
{
    writer.learn();
    match end_due(writer, due, now) {
        Ok(()) => {
            writer.learn();
            reload(writer, due, loads);
            Ok(())
        }
        Err(spent) => Err(spent),
    }
}

// Ends those that are due and live still, and compacts where any was.
fn end_due(writer: &mut Writer, due: &mut [Due], now: u64) -> Result<(), Spent>
    requires over { All (IsOver writer.old.seen now) due.old }
    requires still { writer.old.slide ≡ None }
    ensures marked { due.new ≡ marked_by now due.old writer.old }
    ensures completes { OnOk result (Completes (swept_by now due.old writer.old) (pruned_by now due.old writer.old) writer.new) }
    ensures stops { IfErr result (λ spent. Stops (swept_by now due.old writer.old) spent.count (pruned_by now due.old writer.old) writer.new) }
{
    let ended = prune_ends(writer, due, now);
    if ended == 0 {
        return Ok(());
    }
    match compact(writer) {
        Ok(_) => Ok(()),
        Err(spent) => Err(spent),
    }
}

// Loads those again that were ended and are to be.
fn reload(writer: &mut Writer, due: &[Due], loads: &[Option<Loaded>])
    requires answered { All (λ load. IfSome load (IsAnswered writer.old.seen)) loads.now }
    requires many { length loads.now ≤ length due.now }
    requires still { writer.old.slide ≡ None }
    ensures { Reloads due.now loads.now writer.old writer.new }
{
    writer.learn();
    for (at, load) in loads.iter().enumerate() {
        if let Some(loaded) = load {
            if due[at].is_ended() {
                writer.learn();
                let _said = writer.insert_lent(loaded);
            }
        }
    }
}
