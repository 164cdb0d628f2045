// The writer's move of its live entries to a larger table.
ghost use Rattle.std.specs.Prelude.{◌≡◌, ◌≤◌, None, IfOk, IfErr};
ghost use Rattle.nsc_words.specs.Layout.{IsLayout};
ghost use Rattle.nsc_model.specs.Machine.{all_words};
ghost use Rattle.nsc_writer.specs.Enlarged.{IsEnlarged, IsStuck};

use crate::former::Former;
use crate::writer::Writer;
use nsc_model::{CacheFault, LAST_COUNT};
use nsc_shelf::{Mark, no_hints};
use nsc_words::{CYCLE, Layout};
use std::alloc::Global;
use std::mem::replace;

impl Writer {
    /// Goes over to another table, of this layout, into which the live entries fit; its words are taken anew. Entries, history and counts
    /// are as before, but for one compaction more, and the words of ended entries are free. Gives the table that was left, in which CYCLE
    /// is odd for good. At `Spent` the count of the beginnings and the ends of slides stands at its end. After a fault nothing changed.
    pub fn enlarge(&mut self, alloc: Global, layout: Layout) -> Result<Former, CacheFault>
        requires sizes { IsLayout layout }
        requires room { all_words self.old.cache.entries ≤ layout.arena }
        requires still { self.old.slide ≡ None }
        ensures enlarged { IfOk result (λ former. IsEnlarged layout self.old self.new former) }
        ensures stays { IfErr result (λ fault. self.new ≡ self.old) }
        ensures why { IfErr result (λ fault. IsStuck fault self.old) }
    {
        self.sheet.learn();
        if self.sheet.head(CYCLE) >= LAST_COUNT {
            return Err(CacheFault::Spent { count: LAST_COUNT });
        }
        let hints = no_hints(alloc, layout)?;
        let (sheet, stock) = self.sheet.copy(alloc, layout)?;
        let newer = sheet.map().share()?;
        let left = replace(&mut self.sheet, sheet);
        let (map, pen) = left.retire(&newer);
        self.layout = layout;
        self.mark = Mark::start(layout);
        self.hints = hints;
        Ok(Former::new(map, pen, newer, stock))
    }
}
