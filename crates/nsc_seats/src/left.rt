// `Left`: the older tables of a writer, and the writer's move to a larger table.
ghost use Rattle.std.specs.Prelude.{◌≡◌, ◌≤◌, ◌++◌, ◌∷◌, [], None, IfErr, OnOk, OnErr};
ghost use Rattle.atomic_table.specs.Seated.{TableId};
ghost use Rattle.nsc_words.specs.Layout.{IsLayout};
ghost use Rattle.nsc_model.specs.Machine.{all_words};
ghost use Rattle.nsc_writer.specs.Former.{Former as LeftTable};
ghost use Rattle.nsc_writer.specs.Enlarged.{IsEnlarged, IsStuck};
ghost use Rattle.nsc_seats.specs.Tables.{IsChain};

use nsc_model::CacheFault;
use nsc_words::Layout;
use nsc_writer::{Former, Writer};
use std::alloc::Global;
use std::marker::Model;

/// The tables that a writer left, the oldest first. Each goes on in the next one, and the last one in the one that it writes.
#[derive(Drop)]
pub struct Left {
    pub(crate) tables: Vec<Former>,
}

impl Model for Left {
    ghost use Rattle.std.specs.Prelude.{List};
    ghost use Rattle.nsc_writer.specs.Former.{Former};

    ghost Value = { List Former };

    ghost view = { λ l. l.tables.items };
}

impl Left {
    /// No table. It takes no memory.
    pub fn none(alloc: Global) -> Left
        ensures { result ≡ [] }
    {
        Left {
            tables: Vec::new(alloc),
        }
    }

    /// The writer goes over to another table, of this layout, into which its live entries fit, and leaves its own here. At `Spent` the
    /// count of the beginnings and the ends of slides stands at its end. After a fault nothing changed.
    pub fn enlarge(
        &mut self,
        alloc: Global,
        writer: &mut Writer,
        layout: Layout,
    ) -> Result<(), CacheFault>
        requires sizes { IsLayout layout }
        requires room { all_words writer.old.cache.entries ≤ layout.arena }
        requires still { writer.old.slide ≡ None }
        ensures enlarged { OnOk result ((former : LeftTable) × IsEnlarged layout writer.old writer.new former × (self.new ≡ self.old ++ former ∷ [])) }
        ensures chain { OnOk result ((first : TableId) → IsChain first self.old writer.old.table → IsChain first self.new writer.new.table) }
        ensures stays { OnErr result ((self.new ≡ self.old) × (writer.new ≡ writer.old)) }
        ensures why { IfErr result (λ fault. IsStuck fault writer.old) }
    {
        self.tables.reserve(1)?;
        let former = writer.enlarge(alloc, layout)?;
        self.tables.push_reserved(former);
        Ok(())
    }
}
