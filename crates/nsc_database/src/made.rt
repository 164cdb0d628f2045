// The records that the calls through a pass added to the history of its database.
ghost use Rattle.std.specs.Prelude.{◌≡◌, ◌++◌, []};
ghost use Rattle.nsc_database.specs.Made.{gained};

use nsc_base::Picked;
use nsc_model::Record;
use nsc_writer::Writer;
use std::collections::LinkedList;
use std::marker::Model;
use std::snapshot::Snapshot;

/// The records that the calls through a pass added to the history of its database. Clauses alone read the list.
#[derive(Drop)]
pub struct Made {
    records: Picked<LinkedList<Record>>,
}

impl Model for Made {
    ghost use Rattle.std.specs.Prelude.{List};
    ghost use Rattle.nsc_model.specs.declared.record.Record.{Record};

    ghost Value = { List Record };

    ghost view = { λ m. m.records.value };
}

// The writer before and after a call, and the list before it.
#[derive(Drop)]
struct Call {
    made: Snapshot<Made>,
    before: Snapshot<Writer>,
    after: Snapshot<Writer>,
}

// The records of two passes.
#[derive(Drop)]
struct Both {
    own: Snapshot<Made>,
    other: Made,
}

impl Made {
    /// Makes the list without a record.
    pub fn none() -> Made
        ensures { result ≡ [] }
    {
        Made {
            records: Picked::of(&()),
        }
    }

    /// Adds the records that the writer's history gained since `before`, if it began with that history.
    pub fn add(&mut self, before: Snapshot<Writer>, writer: &Writer)
        ensures { self.new ≡ gained before.value.seen writer.now.seen ++ self.old }
    {
        let call = Call {
            made: Snapshot::of(self),
            before,
            after: Snapshot::of(writer),
        };
        self.records = Picked::of(&call);
    }

    /// Adds the records of another pass.
    pub fn join(&mut self, other: Made)
        ensures { self.new ≡ other ++ self.old }
    {
        let both = Both {
            own: Snapshot::of(self),
            other,
        };
        self.records = Picked::of(&both);
    }
}
