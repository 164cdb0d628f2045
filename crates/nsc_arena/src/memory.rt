// `Words`: the trait of a table's words under one caller; and `VecWords`, words in a `Vec`.
ghost use Rattle.std.specs.Prelude.{◌≡◌, ◌<◌, replicate, length, slice_index, slice_set, true, IfOk};

use nsc_base::NoMemory;
use std::alloc::Global;
use std::marker::Model;

/// The words of a table, which one caller reads and writes: all that is known of its memory. A place is a word's number from 0 on.
/// What is not words stays as it is (`rest`: the value with its words taken out), and says which words may be set (`can_set`).
pub trait Words {
    ghost use Rattle.std.specs.Prelude.{ℕ, List, Bool};

    ghost words: { Self → List ℕ };

    ghost rest: { Self → Self };

    ghost can_set: { Self → ℕ → Bool };

    /// How many words there are.
    fn len(&self) -> usize
        ensures { result ≡ length (words self.now) };

    /// The word at a place.
    fn get(&mut self, at: usize) -> u64
        requires { at < length (words self.old) }
        ensures value { result ≡ slice_index (words self.old) at }
        ensures same { words self.new ≡ words self.old }
        ensures rest { rest self.new ≡ rest self.old };

    /// Sets the word at a place, which is one that may be set.
    fn set(&mut self, at: usize, value: u64)
        requires inside { at < length (words self.old) }
        requires open { can_set (rest self.old) at ≡ true }
        ensures set { words self.new ≡ slice_set (words self.old) at value }
        ensures rest { rest self.new ≡ rest self.old };
}

/// Words in memory of one owner, each of which may be set.
#[derive(Debug, Drop)]
pub struct VecWords {
    words: Vec<u64>,
}

impl Model for VecWords {
    ghost use Rattle.std.specs.Prelude.{List, ℕ};

    ghost Value = { List ℕ };

    ghost view = { λ w. w.words.items };
}

impl VecWords {
    /// Words that are 0. Fails only for want of memory.
    pub fn new(alloc: Global, len: usize) -> Result<VecWords, NoMemory>
        ensures { IfOk result (λ words. words ≡ replicate len 0) }
    {
        Ok(VecWords {
            words: vec![in alloc; 0; len]?,
        })
    }
}

impl Words for VecWords {
    ghost use Rattle.std.specs.Prelude.{[], true};

    ghost words = { λ w. w };

    ghost rest = { λ w. [] };

    ghost can_set = { λ w at. true };

    fn len(&self) -> usize {
        self.words.len()
    }

    fn get(&mut self, at: usize) -> u64 {
        self.words[at]
    }

    fn set(&mut self, at: usize, value: u64) {
        self.words[at] = value;
    }
}
