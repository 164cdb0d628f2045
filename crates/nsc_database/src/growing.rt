// Insertions, and the larger table to which the writer goes for one that finds no room.
ghost use Rattle.std.specs.Prelude.{◌≡◌, ◌≤◌, IfOk, OnErr};
ghost use Rattle.nsc_model.specs.Machine.{last_count};
ghost use Rattle.nsc_model.specs.Settings.{settings_of};
ghost use Rattle.nsc_model.specs.Steady.{IsSteady};
ghost use Rattle.nsc_writer.specs.Writer.{IsAnswered};
ghost use Rattle.nsc_database.specs.Frames.{Held};
ghost use Rattle.nsc_database.specs.Growing.{GrowsOnce};
ghost use Rattle.nsc_database.specs.Holds.{IsKept, needed_by};
ghost use Rattle.nsc_database.specs.Made.{Enters, InsertsOne};
ghost use Rattle.nsc_database.specs.Rests.{IsLoadedOf};

use crate::desk::Desk;
use crate::pass::DbPass;
use crate::room::{OfDb, Room};
use nsc_base::NoMemory;
use nsc_model::DbConf;
use nsc_outside::FileSet;
use nsc_writer::{Inserted, Loaded};
use std::alloc::Global;

impl<D: OfDb, B: Room> Desk<D, B> {
    /// Counts a miss and tries an insertion. Where it finds no room, and the table may become large enough, the writer goes over to a
    /// larger one, the pass goes on to that, and the insertion is tried once more. Hands back what was to be inserted. For want of
    /// memory nothing was inserted, though the writer may have gone over.
    pub fn keep<F: FileSet + Drop>(
        &mut self,
        alloc: Global,
        settings: &DbConf,
        pass: &mut DbPass<F, B>,
        loaded: Loaded,
    ) -> Result<(Inserted, Loaded), NoMemory>
        requires settings { settings.now ≡ settings_of B.conf D.db }
        requires db { pass.old.db ≡ D.db }
        requires present { pass.old.pass.present ≡ self.old.writer.table }
        requires steady { IsSteady B.held D.db pass.old.pass.seen }
        requires answered { IsAnswered self.old.writer.seen loaded }
        requires new { loaded.reloads ≡ 0 }
        requires own { IsLoadedOf D.db loaded }
        ensures frame { Held pass.old pass.new }
        ensures present { IfOk result (λ kept. pass.new.pass.present ≡ self.new.writer.table) }
        ensures steady { IsSteady B.held D.db pass.new.pass.seen }
        ensures kept { IfOk result (λ kept. IsKept settings.now self.new.writer.table.words (last_count ≤ self.new.writer.cache.cycle) kept.0 loaded self.old.writer.seen self.new.writer.seen) }
        ensures back { IfOk result (λ kept. kept.1 ≡ loaded) }
        ensures once { GrowsOnce self.old self.new }
        ensures stays { OnErr result (self.new.writer.seen ≡ self.old.writer.seen) }
        ensures made { IfOk result (λ kept. Enters (InsertsOne kept.0 loaded) self.old.writer.seen self.new.writer.seen pass.old.made pass.new.made) }
        ensures refused { OnErr result (pass.new.made ≡ pass.old.made) }
    {
        pass.learn();
        let (said, loaded) = self.insert(loaded, &mut pass.made);
        let need = match needed_by(said) {
            Some(need) => need,
            None => return Ok((said, loaded)),
        };
        if !self.grow(alloc, settings, need)? {
            return Ok((said, loaded));
        }
        self.follow(pass)?;
        Ok(self.insert_again(loaded, &mut pass.made))
    }
}

// How many words an insertion needs that found no room.
fn needed_by(said: Inserted) -> Option<u64>
    ensures { result ≡ needed_by said }
{
    match said {
        Inserted::Full { need, .. } => Some(need),
        _ => None,
    }
}
