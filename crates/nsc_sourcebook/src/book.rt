// `SourceBook`: the newest content of a database, and the fetch and poll of its files.
ghost use Rattle.std.specs.Prelude.{◌≡◌, ◌≤◌, ◌∷◌, [], None, Some, IfOk, IfErr, IfSome, MatchResult, OnOk, OnErr};
ghost use Rattle.std.specs.Bool.{OnTrue, OnFalse};
ghost use Rattle.std.specs.Arc.{arc_value};
ghost use Rattle.nsc_model.specs.declared.record.Record.TheVariants as record_of;
ghost use Rattle.nsc_model.specs.Content.{Content};
ghost use Rattle.nsc_model.specs.History.{PolledSince, version_in};
ghost use Rattle.nsc_model.specs.Machine.{new_cache, polled};
ghost use Rattle.nsc_model.specs.Reads.{NoneFell};
ghost use Rattle.nsc_words.specs.Layout.{IsLayout};
ghost use Rattle.nsc_writer.specs.Writer.{IsNewest, Polls, new_writer};
ghost use Rattle.nsc_seats.specs.Tables.{IsChain};
ghost use Rattle.nsc_sourcebook.specs.Reads.{IsFetched, NoneFailed, NotFetched};
ghost use Rattle.nsc_sourcebook.specs.Book.{Fetched as Read, FitsBook, PollsBook};
ghost use Rattle.nsc_sourcebook.specs.declared.fault.PollFault.TheVariants.{NoMemory as Memory};

use crate::comparing::are_still;
use crate::fault::PollFault;
use crate::reading::read_files;
use nsc_base::NoMemory;
use nsc_model::{Answerer, Content, Db, Spent};
use nsc_outside::FileSet;
use nsc_seats::{Left, Seats};
use nsc_words::Layout;
use nsc_writer::{Stamp, Writer};
use std::alloc::Global;
use std::marker::Model;
use std::sync::Arc;

/// A content that was read, made ready for answers.
#[derive(Drop)]
pub struct Fetched<A: Answerer> {
    ready: Arc<A::Ready>,
    kept: Arc<A::Ready>,
    content: Arc<Content>,
    // The number of the version that it was found equal to.
    version: Option<u64>,
}

impl<A: Answerer> Model for Fetched<A> {
    ghost use Rattle.std.specs.Prelude.{◌≡◌};
    ghost use Rattle.std.specs.Arc.{arc_value};
    ghost use Rattle.nsc_sourcebook.specs.Book.{Fetched};

    ghost Value = { Fetched };

    ghost view = { λ f. record { content = arc_value f.content; version = f.version } };

    ghost invariant = { λ f. (A.prepared_from (arc_value f.ready) ≡ arc_value f.content) × (A.prepared_from (arc_value f.kept) ≡ arc_value f.content) };
}

/// A content that was polled, made ready for answers.
#[derive(Drop)]
pub struct Polled<A: Answerer> {
    ready: Arc<A::Ready>,
    stamp: Stamp,
}

impl<A: Answerer> Model for Polled<A> {
    ghost use Rattle.std.specs.Arc.{arc_value};
    ghost use Rattle.nsc_sourcebook.specs.Book.{Polled};

    ghost Value = { Polled };

    ghost view = { λ p. record { content = A.prepared_from (arc_value p.ready); stamp = p.stamp } };
}

impl<A: Answerer> Polled<A> {
    /// What was made ready of the content.
    pub fn ready(&self) -> &A::Ready
        ensures { A.prepared_from result.now ≡ self.now.content }
    {
        &self.ready
    }

    /// The version that the content is, with the number of invalidations before it was read.
    pub fn stamp(&self) -> Stamp
        ensures { result ≡ self.now.stamp }
    {
        self.stamp
    }
}

/// The versions of a database's files: the newest content, made ready for answers, with its number. It has no other files than
/// those that the database reads.
#[derive(Drop)]
pub struct SourceBook<F: FileSet + Drop, A: Answerer> {
    files: F,
    db: Db,
    ready: Arc<A::Ready>,
    version: u64,
    seats: Seats,
}

impl<F: FileSet + Drop, A: Answerer> Model for SourceBook<F, A> {
    ghost use Rattle.std.specs.Arc.{arc_value};
    ghost use Rattle.nsc_sourcebook.specs.Book.{IsVersionOf, SourceBook};

    ghost Value = { SourceBook };

    ghost view = { λ b. record { db = b.db; table = b.seats.table; present = b.seats.present; seen = b.seats.seen; newest = A.prepared_from (arc_value b.ready); held = F.held b.files } };

    ghost invariant = { λ b. IsVersionOf b.db b.seats.seen b.version (A.prepared_from (arc_value b.ready)) };
}

impl<F: FileSet + Drop, A: Answerer> SourceBook<F, A> {
    /// Reads the files of a database through this set as version 0, prepares them for many answers, and keeps a handle that is split
    /// from it. It gives the book, the writer of the database, and the seats of a caller that has seen its history.
    pub fn new(
        alloc: Global,
        layout: Layout,
        files: &mut F,
        answers: &A,
        db: Db,
    ) -> Result<(SourceBook<F, A>, Writer, Seats), PollFault>
        requires { IsLayout layout }
        ensures book { IfOk result (λ r. (r.0.db ≡ db) × (r.0.table ≡ r.2.table)) }
        ensures held { IfOk result (λ r. (r.0.held ≡ F.held files.old) × (F.held files.new ≡ F.held files.old)) }
        ensures writer { IfOk result (λ r. r.1 ≡ new_writer r.2.table layout r.0.newest) }
        ensures seats { IfOk result (λ r. r.2.seen ≡ record_of.Change 0 r.0.newest ∷ []) }
        ensures fetched { IfOk result (λ r. IsFetched F.FileSet db files.old files.new r.0.newest) }
        ensures no_fault { OnOk result (NoneFailed F.FileSet files.old files.new) }
        ensures fault { IfErr result (NotFetched F.FileSet files.old files.new) }
    {
        let content = Arc::new(alloc, read_files(alloc, files, db)?)?;
        let ready = Arc::new(alloc, prepared_further(alloc, answers, content.clone()?)?)?;
        let files = files.split(alloc)?;
        let (writer, pass) = Writer::new(alloc, layout, content)?;
        let mut seats = Seats::new(alloc, writer.map().share()?, pass)?;
        let book = SourceBook {
            files,
            db,
            ready,
            version: 0,
            seats: seats.split(alloc)?,
        };
        Ok((book, writer, seats))
    }

    /// What was made ready of the newest content.
    pub fn ready(&self) -> &A::Ready
        ensures { A.prepared_from result.now ≡ self.now.newest }
    {
        &self.ready
    }

    /// The seats of another caller, which has seen as much as the book. Fails only for want of memory.
    pub fn seats(&mut self, alloc: Global) -> Result<Seats, NoMemory>
        ensures same { self.new ≡ self.old }
        ensures table { IfOk result (λ seats. seats.table ≡ self.old.table) }
    {
        self.seats.split(alloc)
    }

    /// It goes on to the table that is written, and has seen the whole history then; what was fetched may still be entered. For want of
    /// memory it may have gone on to a table before that one.
    pub fn follow(&mut self, left: &mut Left, writer: &mut Writer) -> Result<(), NoMemory>
        requires chain { IsChain self.old.table left.old writer.old.table }
        requires still { writer.old.slide ≡ None }
        ensures writer { writer.new ≡ writer.old }
        ensures left { left.new ≡ left.old }
        ensures book { self.new ≡ record self.old { seen = self.new.seen; present = self.new.present } }
        ensures fits { (fetched : Read) → FitsBook self.old fetched → FitsBook self.new fetched }
        ensures present { OnOk result (self.new.present ≡ writer.old.table) }
    {
        self.seats.learn();
        let followed = self.seats.follow(left, writer);
        self.seats.learn();
        followed
    }

    /// A file set that is split from the kept one. Fails only for want of memory.
    pub fn split(&self, alloc: Global) -> Result<F, NoMemory>
        ensures calm { IfOk result (λ set. F.faults set ≡ 0) }
        ensures held { IfOk result (λ set. F.held set ≡ self.now.held) }
    {
        self.files.split(alloc)
    }

    /// Reads the files of the database through this set, in rising number, and makes them ready for answers. Where they are the
    /// newest content, that is handed on prepared for many answers, with the number of its version. What the set can compare while it
    /// reads is not kept then.
    #[tactic(auto, using(crate::proofs::Each::fetched_since, crate::proofs::Each::not_fetched_since))]
    pub fn fetch(&self, alloc: Global, files: &mut F, answers: &A) -> Result<Fetched<A>, PollFault>
        ensures fits { IfOk result (λ f. FitsBook self.now f) }
        ensures fetched { IfOk result (λ f. IsFetched F.FileSet self.now.db files.old files.new f.content) }
        ensures no_fault { OnOk result (NoneFailed F.FileSet files.old files.new) }
        ensures fault { IfErr result (NotFetched F.FileSet files.old files.new) }
        ensures held { F.held files.new ≡ F.held files.old }
    {
        if self.is_still_newest(alloc, files, answers) {
            return Ok(self.again(alloc, answers)?);
        }
        self.fetch_whole(alloc, files, answers)
    }

    // The same by one read of each file that keeps its bytes.
    fn fetch_whole(
        &self,
        alloc: Global,
        files: &mut F,
        answers: &A,
    ) -> Result<Fetched<A>, PollFault>
        ensures fits { IfOk result (λ f. FitsBook self.now f) }
        ensures fetched { IfOk result (λ f. IsFetched F.FileSet self.now.db files.old files.new f.content) }
        ensures no_fault { OnOk result (NoneFailed F.FileSet files.old files.new) }
        ensures fault { IfErr result (NotFetched F.FileSet files.old files.new) }
        ensures held { F.held files.new ≡ F.held files.old }
    {
        let content = read_files(alloc, files, self.db)?;
        if self.has_newest(answers, &content) {
            return Ok(self.again(alloc, answers)?);
        }
        Ok(made_ready(alloc, answers, content)?)
    }

    // Whether the files are found to be the newest content, by one read of each that keeps nothing.
    fn is_still_newest(&self, alloc: Global, files: &mut F, answers: &A) -> bool
        ensures fetched { OnTrue result (IsFetched F.FileSet self.now.db files.old files.new self.now.newest) }
        ensures kept { NoneFell (F.reads files.old) (F.reads files.new) }
        ensures no_fault { NoneFailed F.FileSet files.old files.new }
        ensures held { F.held files.new ≡ F.held files.old }
    {
        are_still(alloc, files, self.db, answers.content(&self.ready))
    }

    // Whether this is the newest content.
    fn has_newest(&self, answers: &A, content: &Content) -> bool
        ensures { OnTrue result (content.now ≡ self.now.newest) }
    {
        content.is_same(answers.content(&self.ready))
    }

    // The newest content once more, as it was made ready: prepared further, where that serves its later answers better, and memory
    // suffices for it.
    fn again(&self, alloc: Global, answers: &A) -> Result<Fetched<A>, NoMemory>
        ensures content { IfOk result (λ f. f.content ≡ self.now.newest) }
        ensures fits { IfOk result (λ f. FitsBook self.now f) }
    {
        let ready = match answers.prepare_further(alloc, &self.ready) {
            Some(further) => Arc::new(alloc, further)?,
            None => self.ready.clone()?,
        };
        Ok(Fetched {
            kept: ready.clone()?,
            ready,
            content: answers.content(&self.ready).clone()?,
            version: Some(self.version),
        })
    }

    /// Enters in the writer that the files were looked at: what was fetched becomes the newest version, or confirms it. It is not
    /// compared with the newest one where it was found equal to a version and the writer still has that one. The epoch is the
    /// number of invalidations before they were read. At `Spent` book and writer are as before: a new version is needed, and the
    /// count of versions stands at its end.
    pub fn poll(
        &mut self,
        writer: &mut Writer,
        fetched: Fetched<A>,
        epoch: u64,
    ) -> Result<Polled<A>, Spent>
        requires present { self.old.present ≡ writer.old.table }
        requires fits { FitsBook self.old fetched }
        requires epoch { epoch ≤ writer.old.cache.epoch }
        requires still { writer.old.slide ≡ None }
        ensures polls { PollsBook fetched epoch self.old self.new writer.old writer.new result }
        ensures newest { IfOk result (λ p. IsNewest p.content p.stamp.version writer.new.cache) }
        ensures polled { IfOk result (λ p. PolledSince writer.new.seen p.stamp.version p.stamp.epoch) }
    {
        let Fetched {
            ready,
            kept,
            content,
            version,
        } = fetched;
        let stamp = self.enter(writer, content, version, epoch)?;
        writer.learn();
        self.seats.show(writer);
        self.version = stamp.version;
        self.ready = kept;
        Ok(Polled { ready, stamp })
    }

    // Enters in the writer that the files were looked at, with this content. Nothing is compared where it was found equal to a
    // version, and that is the newest one.
    fn enter(
        &mut self,
        writer: &mut Writer,
        content: Arc<Content>,
        version: Option<u64>,
        epoch: u64,
    ) -> Result<Stamp, Spent>
        requires present { self.old.present ≡ writer.old.table }
        requires named { IfSome version (λ n. version_in self.old.seen n ≡ Some (arc_value content)) }
        requires epoch { epoch ≤ writer.old.cache.epoch }
        requires still { writer.old.slide ≡ None }
        ensures polls { Polls (polled (arc_value content) writer.old.cache) epoch writer.old writer.new result }
        ensures newest { IfOk result (λ stamp. IsNewest (arc_value content) stamp.version writer.new.cache) }
        ensures polled { IfOk result (λ stamp. PolledSince writer.new.seen stamp.version stamp.epoch) }
        ensures book { self.new ≡ record self.old { seen = self.new.seen } }
        ensures spent { OnErr result (self.new ≡ self.old) }
    {
        if let Some(version) = version {
            if self.is_newest_of(writer, version) {
                return Ok(writer.confirm(epoch));
            }
        }
        writer.record_poll(content, epoch)
    }

    // Whether a version that was seen is the writer's newest one: then its content is.
    fn is_newest_of(&mut self, writer: &mut Writer, version: u64) -> bool
        requires present { self.old.present ≡ writer.old.table }
        requires still { writer.old.slide ≡ None }
        ensures newest { OnTrue result ((content : Content) → version_in self.old.seen version ≡ Some content → writer.old.cache.sources ≡ content) }
        ensures writer { writer.new ≡ writer.old }
        ensures book { self.new ≡ record self.old { seen = self.new.seen } }
        ensures other { OnFalse result (self.new ≡ self.old) }
    {
        if writer.version() != version {
            return false;
        }
        writer.learn();
        self.seats.learn();
        self.seats.show(writer);
        true
    }
}

// A content, prepared for many answers where memory suffices for that.
fn prepared_further<A: Answerer>(
    alloc: Global,
    answers: &A,
    content: Arc<Content>,
) -> Result<A::Ready, NoMemory>
    ensures { IfOk result (λ ready. A.prepared_from ready ≡ arc_value content) }
{
    let ready = answers.prepare(alloc, content)?;
    Ok(answers.prepare_further(alloc, &ready).unwrap_or(ready))
}

// A content that is not known to be the newest one, made ready for answers.
fn made_ready<A: Answerer>(
    alloc: Global,
    answers: &A,
    content: Content,
) -> Result<Fetched<A>, PollFault>
    ensures { MatchResult result (λ f. f ≡ record { content = content; version = None }) (λ fault. fault ≡ Memory) }
{
    let content = Arc::new(alloc, content)?;
    let ready = Arc::new(alloc, answers.prepare(alloc, content.clone()?)?)?;
    Ok(Fetched {
        kept: ready.clone()?,
        ready,
        content,
        version: None,
    })
}
