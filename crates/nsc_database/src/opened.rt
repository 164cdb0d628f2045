// `Opened`: a database that is opened and that threads do not share yet.
ghost use Rattle.std.specs.Prelude.{◌≡◌, ◌≤◌, ◌<◌, ◌^◌, [], None, IfOk, IfErr, OnOk, option_map};
ghost use Rattle.nsc_model.specs.Entry.{kept_limit};
ghost use Rattle.nsc_model.specs.Settings.{settings_of};
ghost use Rattle.nsc_model.specs.Sizes.{SizeFits};
ghost use Rattle.nsc_database.specs.Openings.{Begins, BringsReloads, IsBroughtBack, brought_in};
ghost use Rattle.nsc_database.specs.Rests.{IsNew};
ghost use Rattle.nsc_writer.specs.Writer.{IsNewest};
ghost use Rattle.nsc_model.specs.Steady.{IsSteady};
ghost use Rattle.nsc_sourcebook.specs.Reads.{IsFetched, IsPart, NoneFailed, NotFetched};

use crate::base::Base;
use crate::database::{Bases, Database};
use crate::desk::Desk;
use crate::made::Made;
use crate::pass::DbPass;
use crate::room::{OfDb, Room};
use crate::shelved::Shelved;
use nsc_base::{Buf, NoMemory};
use nsc_image::{restore, verify};
use nsc_model::{Answerer, Conf, Db, DbConf};
use nsc_outside::FileSet;
use nsc_seats::{Left, Seats};
use nsc_sourcebook::{PollFault, SourceBook};
use nsc_words::Layout;
use nsc_writer::Writer;
use std::alloc::Global;
use std::marker::{Model, PhantomData};
use std::sync::Mutex;

// The writer of a database that was opened. It may lie behind a lock from now on.
#[derive(Drop)]
struct Begun {
    writer: Writer,
    db: Db,
    settings: DbConf,
    reloads: Option<u32>,
}

impl Model for Begun {
    ghost use Rattle.std.specs.Prelude.{None, []};
    ghost use Rattle.nsc_database.specs.Openings.{Begun, brought_in};
    ghost use Rattle.nsc_database.specs.Rests.{IsAtRest};

    ghost Value = { Begun };

    ghost view = { λ b. record { writer = b.writer; db = b.db; settings = b.settings; reloads = b.reloads } };

    ghost invariant = { λ b. IsAtRest b.settings (brought_in b.writer.cache.entries) b.reloads None b.db 0 [] b.writer };
}

/// A database that has been opened, with its first pass. It has no room so far, in which threads may share it.
#[derive(Drop)]
pub struct Opened<F: FileSet + Drop, A: Answerer + Drop> {
    book: SourceBook<F, A>,
    begun: Begun,
    left: Left,
    pub pass: Seats,
    pub files: F,
    reply: Buf,
    answers: A,
    pub db: Db,
    pub settings: DbConf,
    pub reloads: Option<u32>,
    pub ghost tied: { (book.table ≡ pass.table) × (book.db ≡ db) × (begun.writer.table ≡ pass.table) },
    pub ghost begins: { (begun.db ≡ db) × (begun.settings ≡ settings) × (begun.reloads ≡ reloads) },
    pub ghost newest: { IsNewest book.newest 0 begun.writer.cache },
    pub ghost sizes: { SizeFits settings },
    pub ghost none: { left ≡ [] },
    pub ghost buffer: { reply.limit ≡ kept_limit },
    pub ghost held: { book.held ≡ F.held files },
    pub ghost part: { IsPart (F.held files) db book.newest },
    pub ghost seen: { pass.seen ≡ begun.writer.seen },
}

impl<F: FileSet + Drop, A: Answerer + Drop> Opened<F, A> {
    /// Opens a database at this moment, in seconds: its files are read through this set as version 0. Its cache has what an image brings
    /// back, where one is handed over that is an image of the database, and the database is cached and persistent; else it is empty. The
    /// set of the first pass is split from this one.
    pub fn open(
        alloc: Global,
        files: &mut F,
        answers: A,
        db: Db,
        conf: &Conf,
        image: Option<&[u8]>,
        now: u64,
    ) -> Result<Opened<F, A>, PollFault>
        requires sizes { SizeFits (settings_of conf.now db) }
        requires moment { now < 2 ^ 62 }
        ensures db { IfOk result (λ o. (o.db ≡ db) × (o.settings ≡ settings_of conf.now db) × (o.reloads ≡ conf.now.reloads)) }
        ensures fetched { IfOk result (λ o. IsFetched F.FileSet db files.old files.new o.book.newest) }
        ensures begins { IfOk result (λ o. Begins o.settings now db (option_map (λ b. b.now) image.entry) o.book.newest o.pass.seen) }
        ensures back { IfOk result (λ o. BringsReloads o.settings now db (option_map (λ b. b.now) image.entry) o.book.newest o.begun.writer.cache.entries) }
        ensures held { IfOk result (λ o. F.held o.files ≡ F.held files.old) }
        ensures stays { OnOk result (F.held files.new ≡ F.held files.old) }
        ensures no_fault { OnOk result (NoneFailed F.FileSet files.old files.new) }
        ensures fault { IfErr result (NotFetched F.FileSet files.old files.new) }
    {
        let settings = conf.of(db);
        let layout = Layout {
            buckets: settings.size as usize,
            arena: settings.room(),
        };
        let reply = Buf::new(alloc, 65_536)?;
        let own = files.split(alloc)?;
        let (book, mut writer, mut pass) = SourceBook::new(alloc, layout, files, &answers, db)?;
        bring_back(
            alloc,
            db,
            &book,
            &answers,
            &settings,
            image,
            now,
            &mut writer,
        )?;
        let mut left = Left::none(alloc);
        pass.follow(&mut left, &mut writer)?;
        let reloads = conf.reloads;
        let begun = Begun {
            writer,
            db,
            settings,
            reloads,
        };
        Ok(Opened {
            book,
            begun,
            left,
            pass,
            files: own,
            reply,
            answers,
            db,
            settings,
            reloads,
        })
    }

    /// Enters a room, whose first words for this database are its own: from then on threads may share it.
    pub fn enter<B: Room>(self) -> (Database<F, A, B>, DbPass<F, B>)
        requires table { self.pass.table ≡ B.table self.db }
        requires conf { (self.settings ≡ settings_of B.conf self.db) × (self.reloads ≡ B.conf.reloads) }
        requires held { F.held self.files ≡ B.held }
        requires brought { brought_in self.begun.writer.cache.entries ≡ B.brought self.db }
        ensures database { result.0 ≡ record { db = self.db; settings = self.settings; reloads = self.reloads } }
        ensures pass { (result.1.db ≡ self.db) × (result.1.pass.seen ≡ self.pass.seen) }
        ensures steady { IsSteady B.held self.db result.1.pass.seen }
        ensures made { result.1.made ≡ [] }
    {
        let Opened {
            book,
            begun,
            left,
            pass,
            files,
            reply,
            answers,
            db,
            settings,
            reloads,
        } = self;
        begun.writer.learn();
        let parts = Parts {
            book,
            begun,
            left,
            answers,
            db,
            settings,
            reloads,
        };
        let bases = match db {
            Db::Passwd => Bases::Passwd(parts.base()),
            Db::Group => Bases::Group(parts.base()),
            Db::Hosts => Bases::Hosts(parts.base()),
            Db::Services => Bases::Services(parts.base()),
        };
        let pass = DbPass {
            db,
            pass,
            files,
            reply,
            made: Made::none(),
            room: PhantomData,
        };
        (Database { bases }, pass)
    }
}

// Inserts what an image brings back into the cache of a new writer.
fn bring_back<F: FileSet + Drop, A: Answerer>(
    alloc: Global,
    db: Db,
    book: &SourceBook<F, A>,
    answers: &A,
    settings: &DbConf,
    image: Option<&[u8]>,
    now: u64,
    writer: &mut Writer,
) -> Result<(), NoMemory>
    requires new { IsNew writer.old book.now.newest settings.now }
    requires moment { now < 2 ^ 62 }
    ensures brought { OnOk result (IsBroughtBack settings.now now db (option_map (λ b. b.now) image.entry) book.now.newest writer.old writer.new) }
    ensures newest { OnOk result (IsNewest book.now.newest 0 writer.new.cache) }
    ensures table { OnOk result (writer.new.table ≡ writer.old.table) }
    ensures still { OnOk result (writer.new.slide ≡ None) }
{
    let Some(bytes) = image else {
        return Ok(());
    };
    if !(settings.enabled && settings.persistent) {
        return Ok(());
    }
    let Ok(image) = verify(bytes, db) else {
        return Ok(());
    };
    let _kept = restore(alloc, &image, book.ready(), answers, settings, now, writer)?;
    Ok(())
}

// What a database is made of.
#[derive(Drop)]
struct Parts<F: FileSet + Drop, A: Answerer + Drop> {
    book: SourceBook<F, A>,
    begun: Begun,
    left: Left,
    answers: A,
    db: Db,
    settings: DbConf,
    reloads: Option<u32>,
}

impl<F: FileSet + Drop, A: Answerer + Drop> Parts<F, A> {
    // The database of which it is known which one it is.
    fn base<D: OfDb, B: Room>(self) -> Base<D, F, A, B>
        requires db { (self.db ≡ D.db) × (self.book.db ≡ D.db) }
        requires tables { (self.book.table ≡ B.table D.db) × (self.begun.writer.table ≡ B.table D.db) × (self.left ≡ []) }
        requires conf { (self.settings ≡ settings_of B.conf D.db) × (self.reloads ≡ B.conf.reloads) }
        requires begins { (self.begun.db ≡ D.db) × (self.begun.settings ≡ self.settings) × (self.begun.reloads ≡ self.reloads) }
        requires newest { IsNewest self.book.newest 0 self.begun.writer.cache }
        requires part { IsPart B.held D.db self.book.newest }
        requires sizes { SizeFits self.settings }
        requires held { self.book.held ≡ B.held }
        requires brought { brought_in self.begun.writer.cache.entries ≡ B.brought D.db }
        ensures { (result.settings ≡ self.settings) × (result.reloads ≡ self.reloads) }
    {
        let Parts {
            book,
            begun,
            left,
            answers,
            db,
            settings,
            reloads,
        } = self;
        let Begun {
            writer,
            db: _,
            settings: _,
            reloads: _,
        } = begun;
        Base {
            shelved: Mutex::new(Shelved {
                book,
                of: PhantomData,
                room: PhantomData,
            }),
            desk: Mutex::new(Desk::new(writer, left)),
            answers,
            db,
            settings,
            reloads,
        }
    }
}
