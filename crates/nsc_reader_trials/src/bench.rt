// `Bench`: a writer of a database of users, and the files of its answers.
ghost use Rattle.std.specs.Prelude.{◌≡◌, None};
ghost use Rattle.nsc_words.specs.Layout.{IsLayout};

use crate::files::{files_of, name_of};
use crate::loading::insert_user;
use crate::lookout::Lookout;
use crate::reader::Reader;
use nsc_base::NoMemory;
use nsc_compactor::compact;
use nsc_model::{Content, Kind};
use nsc_words::Layout;
use nsc_writer::{Cause, Writer};
use std::alloc::Global;
use std::marker::Model;
use std::sync::Arc;

/// A writer of a database of users, and the files that it answers over.
#[derive(Drop)]
pub struct Bench {
    writer: Writer,
    files: Arc<Content>,
}

impl Model for Bench {
    ghost use Rattle.std.specs.Prelude.{◌≡◌, None};
    ghost use Rattle.nsc_words.specs.declared.layout.Layout.{Layout};

    ghost Value = { Layout };

    ghost view = { λ b. b.writer.layout };

    ghost invariant = { λ b. b.writer.slide ≡ None };
}

impl Bench {
    /// No entry, over the first files, whose comments have at most `longest` letters. Fails only for want of memory.
    pub fn new(alloc: Global, layout: Layout, longest: u32) -> Result<Bench, NoMemory>
        requires { IsLayout layout }
    {
        let files = Arc::new(alloc, files_of(alloc, 0, longest)?)?;
        let (writer, _pass) = Writer::new(alloc, layout, files.clone()?)?;
        Ok(Bench { writer, files })
    }

    /// A reader of a user, which has seen the whole history. Fails only for want of memory.
    pub fn reader(&mut self, alloc: Global, user: u32) -> Result<Reader, NoMemory> {
        let map = self.writer.map().share()?;
        let pass = self.writer.pass();
        Reader::new(alloc, map, pass, Kind::PwName, &name_of(user))
    }

    /// One who makes whole searches, and has seen the whole history. Fails only for want of memory.
    pub fn lookout(&mut self, alloc: Global) -> Result<Lookout, NoMemory> {
        let map = self.writer.map().share()?;
        let pass = self.writer.pass();
        Lookout::new(alloc, map, pass)
    }

    /// The files have this content from the next insertion on.
    pub fn change(&mut self, files: Arc<Content>) {
        self.files = files;
    }

    /// Inserts the answer for a user over the newest files: its number, or `None` where that is refused. Fails only for want of memory.
    pub fn insert(&mut self, alloc: Global, user: u32) -> Result<Option<u64>, NoMemory> {
        insert_user(alloc, &mut self.writer, &self.files, user)
    }

    /// Ends the entry of a number, and says whether it was live.
    pub fn end(&mut self, number: u64) -> bool {
        self.writer.end(number, Cause::Replaced)
    }

    /// Takes the ended entry at the front of a bucket's chain out of it, and says whether there was one.
    pub fn unlink(&mut self, bucket: usize) -> bool {
        bucket < self.writer.map().layout().buckets && self.writer.unlink(bucket)
    }

    /// Makes one whole compaction, and says whether it may be counted.
    pub fn compact(&mut self) -> bool {
        compact(&mut self.writer).is_ok()
    }

    /// The newest files. Fails only for want of memory.
    pub fn files(&self) -> Result<Arc<Content>, NoMemory> {
        Ok(self.files.clone()?)
    }

    /// The writer as it is now.
    pub fn into_writer(self) -> Writer
        ensures { result.slide ≡ None }
    {
        self.writer
    }
}
