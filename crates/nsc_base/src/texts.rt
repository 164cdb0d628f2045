// `Texts`: owned texts in one run of bytes.
ghost use Rattle.std.specs.Prelude.{◌≡◌, ◌==◌, ◌-◌, ◌<◌, ◌≤◌, ◌++◌, ◌∷◌, [], filter, flat_map, length, slice_index, slice_index_or, slice_range, IfOk, OnErr, OnOk};
ghost use Rattle.std.specs.List.{list_any};
ghost use Rattle.std.specs.Str.{bytes_eq};
ghost use Rattle.nsc_base.specs.Text.{fields_of, is_filled};
ghost use Rattle.nsc_base.specs.Texts.{ended};

use crate::memory::NoMemory;
use std::alloc::Global;
use std::marker::Model;

/// Texts that are owned, each of them bytes: seen in contracts as a list of lists. They stand in one run of bytes, so that
/// memory is taken for the run and not for each text.
#[derive(Debug, Drop)]
pub struct Texts {
    // The texts one after another, each with a zero byte behind it.
    run: Vec<u8>,
    // Where each text ends, behind its zero byte.
    ends: Vec<usize>,
}

impl Model for Texts {
    ghost use Rattle.std.specs.Prelude.{List, ℕ};
    ghost use Rattle.nsc_base.specs.Texts.{IsRun, texts_ended};

    ghost Value = { List (List ℕ) };

    ghost view = { λ t. texts_ended t.run.items 0 t.ends.items };

    ghost invariant = { λ t. IsRun t.run.items t.ends.items };
}

impl Texts {
    /// No text. Takes no memory.
    pub fn new(alloc: Global) -> Texts
        ensures { result ≡ [] }
    {
        Texts {
            run: Vec::new(alloc),
            ends: Vec::new(alloc),
        }
    }

    /// The pieces of a text between its bytes `cut`, without the empty ones. Fails only for want of memory.
    pub fn split(alloc: Global, text: &[u8], cut: u8) -> Result<Texts, NoMemory>
        ensures { IfOk result (λ texts. texts ≡ filter is_filled (fields_of cut text.now)) }
    {
        let mut run = Vec::new(alloc);
        run.resize(text.len() + 1, 0)?;
        let mut ends = Vec::new(alloc);
        let mut begun = 0;
        let mut to = 0;
        for at in 0..text.len() {
            let byte = text[at];
            if byte != cut {
                run[to] = byte;
                to += 1;
            } else if begun < to {
                to += 1;
                ends.push(to)?;
                begun = to;
            }
        }
        if begun < to {
            to += 1;
            ends.push(to)?;
        }
        run.truncate(to);
        Ok(Texts { run, ends })
    }

    /// Puts a copy of a text behind those that are there. Fails only for want of memory, and then puts nothing.
    pub fn push(&mut self, text: &[u8]) -> Result<(), NoMemory>
        ensures added { OnOk result (self.new ≡ self.old ++ text.now ∷ []) }
        ensures unchanged { OnErr result (self.new ≡ self.old) }
    {
        self.run.reserve(text.len() + 1)?;
        self.ends.reserve(1)?;
        self.run.extend_from_slice(text).unwrap();
        self.run.push(0).unwrap();
        self.ends.push(self.run.len()).unwrap();
        Ok(())
    }

    /// How many texts there are.
    pub fn len(&self) -> usize
        ensures { result ≡ length self.now }
    {
        self.ends.len()
    }

    /// Whether there is no text.
    pub fn is_empty(&self) -> bool
        ensures { result ≡ (length self.now == 0) }
    {
        self.ends.is_empty()
    }

    /// The text of a place, lent.
    pub fn get(&self, at: usize) -> &[u8]
        requires { at < length self.now }
        ensures { result.now ≡ slice_index_or self.now at [] }
    {
        let from = begin_of(self.ends.as_slice(), at);
        let end = self.ends[at];
        before_zero(self.run.as_slice(), from, end)
    }

    /// Whether this is one of the texts.
    pub fn contains(&self, text: &[u8]) -> bool
        ensures { result ≡ list_any (λ one. bytes_eq one text.now) self.now }
    {
        for at in 0..self.len() {
            if self.get(at) == text {
                return true;
            }
        }
        false
    }

    /// All texts one after another, each with a zero byte behind it, lent.
    pub fn run(&self) -> &[u8]
        ensures { result.now ≡ flat_map ended self.now }
    {
        self.run.as_slice()
    }
}

// Where a text begins: where the text before it ends.
fn begin_of(ends: &[usize], at: usize) -> usize
    requires { at < length ends.now }
    ensures { result ≡ slice_index (0 ∷ ends.now) at }
{
    if at == 0 { 0 } else { ends[at - 1] }
}

// The text that begins at a place, without the zero byte before its end.
fn before_zero(run: &[u8], from: usize, end: usize) -> &[u8]
    requires ordered { from < end }
    requires inside { end ≤ length run.now }
    ensures { result.now ≡ slice_range run.now from (end - 1) }
{
    &run[from..end - 1]
}
