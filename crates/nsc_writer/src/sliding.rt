// The slide of the entries: whoever moves them reads and writes the words of the table one by one.
ghost use Rattle.std.specs.Prelude.{◌≡◌, ◌≤◌, ◌<◌, ◌⊎◌, ◌+◌, None, Some, length, slice_index, slice_set, IfOk, IfErr};
ghost use Rattle.nsc_model.specs.Machine.{all_words, last_count};
ghost use Rattle.nsc_shelf.specs.Shelf.{slide_words};
ghost use Rattle.nsc_writer.specs.Slide.{IsBegun, IsSlid};

use crate::writer::Writer;
use nsc_arena::Words;
use nsc_model::{LAST_COUNT, Spent};
use nsc_shelf::{Mark, forget};
use nsc_words::CYCLE;

impl Writer {
    /// Begins a slide of the entries: the count of its beginnings and ends is odd until it ends, and the words of the table may be
    /// read and set. They hold nodes of the live entries, and of those that ended since the last slide. At `Spent` nothing changed:
    /// the count stands at its end. Neither this call nor those of the slide take memory.
    pub fn begin_slide(&mut self) -> Result<(), Spent>
        requires { self.old.slide ≡ None }
        ensures begun { IfOk result (λ _. IsBegun self.old self.new) }
        ensures spent { IfErr result (λ spent. (self.old.cache.cycle ≡ last_count) × (spent.count ≡ last_count) × (self.new ≡ self.old)) }
    {
        self.sheet.learn();
        if self.sheet.head(CYCLE) >= LAST_COUNT {
            return Err(Spent { count: LAST_COUNT });
        }
        self.sheet.begin();
        Ok(())
    }

    /// A word of the slide that is under way, by its number in the whole table.
    pub fn word(&mut self, at: usize) -> u64
        requires { at < length (slide_words self.old.slide) }
        ensures word { result ≡ slice_index (slide_words self.old.slide) at }
        ensures same { self.new ≡ self.old }
    {
        self.sheet.get(at)
    }

    /// Sets a word of the slide that is under way: FIRST_FREE, a bucket, or a word of the arena.
    pub fn slide_word(&mut self, at: usize, word: u64)
        requires inside { at < length (slide_words self.old.slide) }
        requires open { (at ≡ 3) ⊎ (16 ≤ at) }
        ensures { self.new ≡ record self.old { slide = Some (slice_set (slide_words self.old.slide) at word) } }
    {
        self.sheet.slide_word(at, word);
    }

    /// Ends the slide, whose words hold nodes of the live entries alone: the words of those that ended are free again.
    pub fn end_slide(&mut self)
        requires { IsSlid self.old }
        ensures { self.new ≡ record self.old { cache = record self.old.cache { cycle = self.old.cache.cycle + 1; used = all_words self.old.cache.entries }; slide = None } }
    {
        self.sheet.finish();
        self.mark = Mark::start(self.layout);
        forget(&mut self.hints);
    }
}

impl Words for Writer {
    ghost use Rattle.std.specs.Prelude.{None, ◌==◌, ◌||◌, nat_le};
    ghost use Rattle.nsc_shelf.specs.Shelf.{slide_words};
    ghost use Rattle.nsc_writer.specs.Slide.{without_words};

    ghost words = { λ w. slide_words w.slide };

    ghost rest = { λ w. without_words w };

    ghost can_set = { λ w at. (at == 3) || nat_le 16 at };

    fn len(&self) -> usize {
        if self.sheet.head(CYCLE) % 2 == 0 {
            0
        } else {
            self.sheet.len()
        }
    }

    fn get(&mut self, at: usize) -> u64 {
        self.word(at)
    }

    fn set(&mut self, at: usize, value: u64) {
        self.slide_word(at, value);
    }
}
