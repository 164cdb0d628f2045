// `Tally`: the counts of a set of files: faults and reads.
ghost use Rattle.std.specs.Prelude.{◌≡◌};
ghost use Rattle.nsc_model.specs.Reads.{Rose};
ghost use Rattle.nsc_outside.specs.FileSets.{RoseBy, ChangesOnly};
ghost use Rattle.nsc_outside.specs.Tally.{count_of, no_counts};

use crate::files::ReadCause;
use nsc_model::FileId;
use std::marker::Model;

// What a set of files counts: faults in all, and of each file faults and reads. Each count stops at the greatest `u64`.
#[derive(Debug, Drop)]
pub(crate) struct Tally {
    faults: u64,
    file_faults: [u64; 8],
    reads: [u64; 8],
}

impl Model for Tally {
    ghost use Rattle.nsc_outside.specs.Tally.{Tally};

    ghost Value = { Tally };

    ghost view = { λ t. record { faults = t.faults; file_faults = t.file_faults; reads = t.reads } };
}

impl Tally {
    // No fault, and no read.
    pub(crate) fn new() -> Tally
        ensures { result ≡ no_counts }
    {
        Tally {
            faults: 0,
            file_faults: [0; 8],
            reads: [0; 8],
        }
    }

    pub(crate) fn faults(&self) -> u64
        ensures { result ≡ self.now.faults }
    {
        self.faults
    }

    pub(crate) fn file_faults(&self, file: FileId) -> u64
        ensures { result ≡ count_of self.now.file_faults file }
    {
        self.file_faults[file as usize]
    }

    pub(crate) fn reads(&self, file: FileId) -> u64
        ensures { result ≡ count_of self.now.reads file }
    {
        self.reads[file as usize]
    }

    // Counts a read of this file that had an answer.
    pub(crate) fn count_read(&mut self, file: FileId)
        ensures faults { self.new.faults ≡ self.old.faults }
        ensures file_faults { self.new.file_faults ≡ self.old.file_faults }
        ensures read { Rose (count_of self.old.reads file) (count_of self.new.reads file) }
        ensures others { ChangesOnly file (count_of self.old.reads) (count_of self.new.reads) }
    {
        let place = file as usize;
        self.reads[place] = self.reads[place].saturating_add(1);
    }

    // Counts why a read had no answer. That memory was short is no fault.
    pub(crate) fn count_cause(&mut self, cause: ReadCause)
        ensures faults { RoseBy cause self.old.faults self.new.faults }
        ensures file_faults { self.new.file_faults ≡ self.old.file_faults }
        ensures reads { self.new.reads ≡ self.old.reads }
    {
        match cause {
            ReadCause::NoMemory => {}
            ReadCause::Failed | ReadCause::TooLong { .. } => self.count_fault(),
        }
    }

    // The same of this file.
    pub(crate) fn count_file_cause(&mut self, file: FileId, cause: ReadCause)
        ensures faults { RoseBy cause self.old.faults self.new.faults }
        ensures file_faults { RoseBy cause (count_of self.old.file_faults file) (count_of self.new.file_faults file) }
        ensures others { ChangesOnly file (count_of self.old.file_faults) (count_of self.new.file_faults) }
        ensures reads { self.new.reads ≡ self.old.reads }
    {
        match cause {
            ReadCause::NoMemory => {}
            ReadCause::Failed | ReadCause::TooLong { .. } => self.count_file_fault(file),
        }
    }

    fn count_fault(&mut self)
        ensures faults { Rose self.old.faults self.new.faults }
        ensures rest { self.new ≡ record self.old { faults = self.new.faults } }
    {
        self.faults = self.faults.saturating_add(1);
    }

    fn count_file_fault(&mut self, file: FileId)
        ensures faults { Rose self.old.faults self.new.faults }
        ensures file_faults { Rose (count_of self.old.file_faults file) (count_of self.new.file_faults file) }
        ensures others { ChangesOnly file (count_of self.old.file_faults) (count_of self.new.file_faults) }
        ensures reads { self.new.reads ≡ self.old.reads }
    {
        self.count_fault();
        let place = file as usize;
        self.file_faults[place] = self.file_faults[place].saturating_add(1);
    }
}
