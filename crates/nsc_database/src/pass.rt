// `DbPass`: a caller's pass: reader's handles at the tables, a file set, a reply buffer.
ghost use Rattle.std.specs.Prelude.{◌≡◌, ◌+◌, ◌++◌, ◌≤◌, All, length};
ghost use Rattle.std.specs.Bool.{OnTrue};
ghost use Rattle.std.specs.Option.{is_some};
ghost use Rattle.nsc_model.specs.Entry.{key_limit, kept_limit};
ghost use Rattle.nsc_model.specs.History.{IsFit, IsPrefix, Legal};
ghost use Rattle.nsc_model.specs.InPlace.{IsOdd};
ghost use Rattle.nsc_model.specs.Machine.{last_count};
ghost use Rattle.nsc_model.specs.Stores.{Continues};

use crate::made::Made;
use crate::room::Room;
use nsc_base::Buf;
use nsc_model::{Db, InPlace, Kind, Sought};
use nsc_outside::FileSet;
use nsc_seats::Seats;
use std::marker::PhantomData;

/// A caller's pass of a database: its seats at the tables, which have seen a part of the history, a file set of its own, a buffer
/// for replies, and the records that its calls added to the history.
#[derive(Drop)]
pub struct DbPass<F: FileSet + Drop, B: Room> {
    pub(crate) db: Db,
    pub(crate) pass: Seats,
    pub(crate) files: F,
    pub(crate) reply: Buf,
    pub(crate) made: Made,
    pub(crate) room: PhantomData<B>,
    pub ghost own: { pass.table ≡ B.table db },
    pub ghost buffer: { reply.limit ≡ kept_limit },
    pub ghost held: { F.held files ≡ B.held },
}

impl<F: FileSet + Drop, B: Room> DbPass<F, B> {
    ghost use Rattle.nsc_database.specs.Frames.{AnswersInPlace, Held};

    /// What it has seen is legal, and the files of its versions are within their limits.
    pub fn learn(&self)
        ensures legal { Legal self.now.pass.seen }
        ensures fit { All IsFit self.now.pass.seen }
    {
        self.pass.learn();
    }

    /// Searches for the live entry of the request of this kind and key while others go on, and puts its reply into the buffer. It
    /// takes no lock, no memory and no runtime.
    pub(crate) fn in_place(&mut self, kind: Kind, key: &[u8], out: &mut Buf) -> InPlace
        requires key { length key.now ≤ key_limit }
        requires limit { out.old.limit ≡ kept_limit }
        ensures db { self.new.db ≡ self.old.db }
        ensures files { self.new.files ≡ self.old.files }
        ensures made { self.new.made ≡ self.old.made }
        ensures limit { out.new.limit ≡ out.old.limit }
        ensures seen { Continues self.old.pass.seen self.new.pass.seen }
        ensures searches { self.new.pass.searching.searches ≡ self.old.pass.searching.searches + 1 }
        ensures answer { AnswersInPlace self.old self.new (record { kind = kind; key = key.now }) out.new.content result }
        ensures left { OnTrue (is_some self.old.pass.retired) (IsOdd result) }
    {
        let answer = self.pass.search(kind, key, out);
        self.pass.learn();
        answer
    }

    /// Searches as `in_place` does, and says whether the entry that answers was loaded again since it was used last.
    pub(crate) fn seek(&mut self, kind: Kind, key: &[u8], out: &mut Buf) -> Sought
        requires key { length key.now ≤ key_limit }
        requires limit { out.old.limit ≡ kept_limit }
        ensures db { self.new.db ≡ self.old.db }
        ensures files { self.new.files ≡ self.old.files }
        ensures made { self.new.made ≡ self.old.made }
        ensures limit { out.new.limit ≡ out.old.limit }
        ensures seen { Continues self.old.pass.seen self.new.pass.seen }
        ensures searches { self.new.pass.searching.searches ≡ self.old.pass.searching.searches + 1 }
        ensures answer { AnswersInPlace self.old self.new (record { kind = kind; key = key.now }) out.new.content result.answer }
        ensures left { OnTrue (is_some self.old.pass.retired) (IsOdd result.answer) }
    {
        let sought = self.pass.seek(kind, key, out);
        self.pass.learn();
        sought
    }

    /// Loads CYCLE, so that it is known whether there are more compactions.
    pub(crate) fn look_at_cycle(&mut self)
        ensures frame { Held self.old self.new }
        ensures present { self.new.pass.present ≡ self.old.pass.present }
        ensures reply { self.new.reply ≡ self.old.reply }
        ensures made { self.new.made ≡ self.old.made }
        ensures searches { self.new.pass.searching.searches ≡ self.old.pass.searching.searches + 1 }
        ensures known { self.old.pass.searching.known ≤ self.new.pass.searching.last }
        ensures most { self.new.pass.searching.last ≤ last_count }
    {
        self.pass.look_at_cycle();
        self.pass.learn();
    }

    /// It has seen, then, all that it and the other one had seen.
    pub(crate) fn meet(&mut self, other: DbPass<F, B>)
        requires { other.db ≡ self.old.db }
        ensures db { self.new.db ≡ self.old.db }
        ensures files { self.new.files ≡ self.old.files }
        ensures made { self.new.made ≡ other.made ++ self.old.made }
        ensures searches { self.old.pass.searching.searches ≤ self.new.pass.searching.searches }
        ensures before { IsPrefix self.old.pass.seen self.new.pass.seen }
        ensures other { IsPrefix other.pass.seen self.new.pass.seen }
        ensures legal { Legal self.new.pass.seen }
        ensures fit { All IsFit self.new.pass.seen }
    {
        let DbPass {
            db: _,
            pass,
            files: _,
            reply: _,
            made,
            room: _,
        } = other;
        self.made.join(made);
        self.pass.meet(pass);
        self.learn();
    }
}
