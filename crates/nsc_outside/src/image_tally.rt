// `ImageTally`: the counts of a store of images: faults, puts and failed puts.
ghost use Rattle.std.specs.Prelude.{◌≡◌};
ghost use Rattle.nsc_model.specs.Reads.{Rose};
ghost use Rattle.nsc_outside.specs.FileSets.{RoseBy};
ghost use Rattle.nsc_outside.specs.ImageStores.{OthersStay};
ghost use Rattle.nsc_outside.specs.ImageTally.{db_count, no_image_counts};

use crate::files::ReadCause;
use crate::stream::Failed;
use nsc_model::Db;
use std::marker::Model;

// What a store of images counts: faults in all, and of each database the puts that succeeded and those that failed. Each count stops
// at the greatest `u64`.
#[derive(Debug, Drop)]
pub(crate) struct ImageTally {
    faults: u64,
    puts: [u64; 4],
    failed_puts: [u64; 4],
}

impl Model for ImageTally {
    ghost use Rattle.nsc_outside.specs.ImageTally.{ImageTally};

    ghost Value = { ImageTally };

    ghost view = { λ t. record { faults = t.faults; puts = t.puts; failed_puts = t.failed_puts } };
}

impl ImageTally {
    // No fault, and no put.
    pub(crate) fn new() -> ImageTally
        ensures { result ≡ no_image_counts }
    {
        ImageTally {
            faults: 0,
            puts: [0; 4],
            failed_puts: [0; 4],
        }
    }

    pub(crate) fn faults(&self) -> u64
        ensures { result ≡ self.now.faults }
    {
        self.faults
    }

    pub(crate) fn puts(&self, db: Db) -> u64
        ensures { result ≡ db_count self.now.puts db }
    {
        self.puts[db as usize]
    }

    pub(crate) fn failed_puts(&self, db: Db) -> u64
        ensures { result ≡ db_count self.now.failed_puts db }
    {
        self.failed_puts[db as usize]
    }

    // Counts why an image was not given. That memory was short is no fault.
    pub(crate) fn count_cause(&mut self, cause: ReadCause)
        ensures faults { RoseBy cause self.old.faults self.new.faults }
        ensures rest { self.new ≡ record self.old { faults = self.new.faults } }
    {
        match cause {
            ReadCause::NoMemory => {}
            ReadCause::Failed | ReadCause::TooLong { .. } => self.count_fault(),
        }
    }

    // Counts a put for this database.
    pub(crate) fn count_put(&mut self, db: Db)
        ensures put { Rose (db_count self.old.puts db) (db_count self.new.puts db) }
        ensures others { OthersStay db (db_count self.old.puts) (db_count self.new.puts) }
        ensures rest { self.new ≡ record self.old { puts = self.new.puts } }
    {
        let place = db as usize;
        self.puts[place] = self.puts[place].saturating_add(1);
    }

    // Counts a put for this database that failed.
    pub(crate) fn fail_put(&mut self, db: Db) -> Failed
        ensures faults { Rose self.old.faults self.new.faults }
        ensures failed_put { Rose (db_count self.old.failed_puts db) (db_count self.new.failed_puts db) }
        ensures others { OthersStay db (db_count self.old.failed_puts) (db_count self.new.failed_puts) }
        ensures puts { self.new.puts ≡ self.old.puts }
    {
        self.count_fault();
        let place = db as usize;
        self.failed_puts[place] = self.failed_puts[place].saturating_add(1);
        Failed
    }

    fn count_fault(&mut self)
        ensures faults { Rose self.old.faults self.new.faults }
        ensures rest { self.new ≡ record self.old { faults = self.new.faults } }
    {
        self.faults = self.faults.saturating_add(1);
    }
}
