// A writer whose stores let searches go on between them.
ghost use Rattle.std.specs.Prelude.{◌≡◌, None};

use crate::crowd::{Crowd, Tally};
use crate::loading::insert_user;
use crate::truth::Truth;
use nsc_arena::{Words, slide};
use nsc_base::NoMemory;
use nsc_model::Content;
use nsc_writer::{Cause, Writer};
use std::alloc::Global;
use std::marker::Model;
use std::sync::Arc;

/// A writer, and the searches of each user, which take any number of steps before each of its stores that a search can find. Of an
/// insertion that is the one that links the node.
#[derive(Drop)]
pub struct Stage {
    alloc: Global,
    writer: Writer,
    files: Arc<Content>,
    crowds: Vec<Crowd>,
    truth: Truth,
    // Whether memory was short.
    is_cut_off: bool,
}

impl Model for Stage {
    ghost use Rattle.nsc_writer.specs.Writer.{Writer};

    ghost Value = { Writer };

    ghost view = { λ s. s.writer };
}

impl Stage {
    /// These searches beside a writer of six entries, none of which ended.
    pub fn new(alloc: Global, writer: Writer, files: Arc<Content>, crowds: Vec<Crowd>) -> Stage
        ensures { result ≡ writer }
    {
        Stage {
            alloc,
            writer,
            files,
            crowds,
            truth: Truth::first(),
            is_cut_off: false,
        }
    }

    // The searches go on.
    fn look(&mut self)
        ensures { self.new ≡ self.old }
    {
        for crowd in self.crowds.iter_mut() {
            if crowd.go_on(self.alloc, self.truth).is_err() {
                self.is_cut_off = true;
            }
        }
    }

    /// Inserts an entry of a user who has none that is live, or else of another one.
    pub fn insert(&mut self, user: u32, other: u32)
        requires { self.old.slide ≡ None }
        ensures { self.new.slide ≡ None }
    {
        let added = if self.truth.has(user) { other } else { user };
        self.look();
        match insert_user(self.alloc, &mut self.writer, &self.files, added) {
            Ok(Some(_)) => self.truth.add(added),
            Ok(None) => {}
            Err(_) => self.is_cut_off = true,
        }
    }

    /// Ends the entry of a number, where it is live.
    pub fn end(&mut self, number: u64)
        requires { self.old.slide ≡ None }
        ensures { self.new.slide ≡ None }
    {
        self.look();
        if self.writer.end(number, Cause::Replaced) {
            self.truth.end(number);
        }
    }

    /// Takes an ended entry at the front of a bucket's chain out of it.
    pub fn unlink(&mut self, bucket: usize)
        requires { self.old.slide ≡ None }
        ensures { self.new.slide ≡ None }
    {
        self.look();
        if bucket < self.writer.map().layout().buckets {
            self.writer.unlink(bucket);
        }
    }

    /// Ends each entry, and counts an invalidation.
    pub fn invalidate(&mut self)
        requires { self.old.slide ≡ None }
        ensures { self.new.slide ≡ None }
    {
        for number in 0..self.truth.loads {
            self.end(number);
        }
        self.look();
        if self.writer.invalidate().is_err() {
            self.is_cut_off = true;
        }
    }

    /// Makes one whole compaction.
    pub fn compact(&mut self)
        requires { self.old.slide ≡ None }
        ensures { self.new.slide ≡ None }
    {
        let map = self.writer.map().layout();
        self.look();
        match self.writer.begin_slide() {
            Ok(()) => {
                self.truth.turn();
                slide(self, map);
                self.look();
                self.writer.end_slide();
                self.truth.turn();
            }
            Err(_) => self.is_cut_off = true,
        }
    }

    /// Lets each search go on to its end: in how many ways they came to their answers. `None` where memory was short.
    pub fn finish(self) -> Option<Tally> {
        let mut all = Tally::NOTHING;
        for crowd in self.crowds {
            all.add(crowd.end(self.alloc, self.truth));
        }
        if self.is_cut_off { None } else { Some(all) }
    }
}

impl Words for Stage {
    ghost use Rattle.std.specs.Prelude.{None, ◌==◌, ◌||◌, nat_le};
    ghost use Rattle.nsc_shelf.specs.Shelf.{slide_words};
    ghost use Rattle.nsc_writer.specs.Slide.{without_words};

    ghost words = { λ w. slide_words w.slide };

    ghost rest = { λ w. without_words w };

    ghost can_set = { λ w at. (at == 3) || nat_le 16 at };

    fn len(&self) -> usize {
        self.writer.len()
    }

    fn get(&mut self, at: usize) -> u64 {
        self.writer.get(at)
    }

    fn set(&mut self, at: usize, value: u64) {
        self.look();
        self.writer.set(at, value);
    }
}
