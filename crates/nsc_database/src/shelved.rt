// The source book of a database, which its lock keeps.
ghost use Rattle.std.specs.Prelude.{◌≡◌, IfOk, IfErr, OnOk};
ghost use Rattle.nsc_sourcebook.specs.Book.{FitsBook};
ghost use Rattle.nsc_sourcebook.specs.Reads.{IsFetched, NoneFailed, NotFetched};

use crate::pass::DbPass;
use crate::room::{OfDb, Room};
use nsc_base::NoMemory;
use nsc_model::Answerer;
use nsc_outside::FileSet;
use nsc_seats::Seats;
use nsc_sourcebook::{Fetched, PollFault, SourceBook};
use std::alloc::Global;
use std::marker::PhantomData;

/// The source book of a database.
#[derive(Drop)]
pub struct Shelved<D: OfDb, F: FileSet + Drop, A: Answerer, B: Room> {
    pub book: SourceBook<F, A>,
    pub of: PhantomData<D>,
    pub room: PhantomData<B>,
    pub ghost own: { (book.table ≡ B.table D.db) × (book.db ≡ D.db) × (book.held ≡ B.held) },
}

impl<D: OfDb, F: FileSet + Drop, A: Answerer, B: Room> Shelved<D, F, A, B> {
    /// The seats of another caller, which has seen as much as the source book. Fails only for want of memory.
    pub fn seats(&mut self, alloc: Global) -> Result<Seats, NoMemory>
        ensures { IfOk result (λ seats. seats.table ≡ B.table D.db) }
    {
        self.book.seats(alloc)
    }

    /// A file set that is split from the kept one. Fails only for want of memory.
    pub fn split(&self, alloc: Global) -> Result<F, NoMemory>
        ensures calm { IfOk result (λ set. F.faults set ≡ 0) }
        ensures held { IfOk result (λ set. F.held set ≡ B.held) }
    {
        self.book.split(alloc)
    }

    /// Reads the files of the database through the file set of the pass. At each fault the newest version stays.
    pub fn fetch(
        &self,
        alloc: Global,
        pass: &mut DbPass<F, B>,
        answers: &A,
    ) -> Result<Fetched<A>, PollFault>
        requires { pass.old.db ≡ D.db }
        ensures pass { (pass.new.db ≡ pass.old.db) × (pass.new.pass ≡ pass.old.pass) }
        ensures made { pass.new.made ≡ pass.old.made }
        ensures fits { IfOk result (λ f. FitsBook self.now.book f) }
        ensures fetched { IfOk result (λ f. IsFetched F.FileSet D.db pass.old.files pass.new.files f.content) }
        ensures no_fault { OnOk result (NoneFailed F.FileSet pass.old.files pass.new.files) }
        ensures fault { IfErr result (NotFetched F.FileSet pass.old.files pass.new.files) }
    {
        self.book.fetch(alloc, &mut pass.files, answers)
    }
}
