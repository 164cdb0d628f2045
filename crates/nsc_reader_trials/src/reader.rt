// `Reader`: a reader of one request, whose search goes step by step.
ghost use Rattle.std.specs.Prelude.{◌≡◌, ◌≤◌, length};
ghost use Rattle.nsc_model.specs.Entry.{key_limit};

use nsc_base::{Buf, Bytes, NoMemory, equal};
use nsc_model::{InPlace, KEPT_LIMIT, Kind};
use nsc_reader::Walk;
use nsc_rule::{Map, Pass};
use std::alloc::Global;
use std::marker::Model;

// A search in these trials takes fewer steps.
const MOST_STEPS: u32 = 100_000;

/// A reader of one request, with a handle on the words, a pass and a buffer of its own. Its search goes step by step.
#[derive(Drop)]
pub struct Reader {
    map: Map,
    pass: Pass,
    walk: Walk,
    key: Bytes,
    out: Buf,
    answer: Option<InPlace>,
}

impl Model for Reader {
    ghost use Rattle.std.specs.Prelude.{◌≡◌, ◌≤◌, Option, length};
    ghost use Rattle.nsc_model.specs.Entry.{key_limit, kept_limit};
    ghost use Rattle.nsc_model.specs.declared.in_place.InPlace.{InPlace};
    ghost use Rattle.nsc_reader.specs.Stages.{HasCome, answer_in, asked};

    ghost Value = { Option InPlace };

    ghost view = { λ r. r.answer };

    ghost invariant = { λ r. (r.pass.table ≡ r.map.table) × (length r.key ≤ key_limit) × (r.out.limit ≡ kept_limit)
        × (r.answer ≡ answer_in r.walk.progress) × HasCome r.map.layout (asked r.walk.kind r.key) r.out.content r.pass r.walk.progress };
}

impl Reader {
    /// A reader that has taken no step. Fails only for want of memory.
    pub fn new(
        alloc: Global,
        map: Map,
        pass: Pass,
        kind: Kind,
        key: &[u8],
    ) -> Result<Reader, NoMemory>
        requires table { pass.table ≡ map.table }
        requires key { length key.now ≤ key_limit }
    {
        Ok(Reader {
            map,
            pass,
            walk: Walk::new(kind),
            key: Bytes::copy(alloc, key)?,
            out: Buf::new(alloc, KEPT_LIMIT)?,
            answer: None,
        })
    }

    /// A reader that has come as far, with a pass and a buffer of its own. Fails only for want of memory.
    pub fn twin(&mut self, alloc: Global) -> Result<Reader, NoMemory> {
        let mut out = Buf::new(alloc, KEPT_LIMIT)?;
        out.push(self.out.bytes());
        Ok(Reader {
            map: self.map.share()?,
            pass: self.pass.split(&self.map),
            walk: self.walk,
            key: Bytes::copy(alloc, self.key.as_slice())?,
            out,
            answer: self.answer,
        })
    }

    /// Whether another reader of the same user has come to the same.
    pub fn is_like(&self, other: &Reader) -> bool {
        self.walk == other.walk && equal(self.bytes(), other.bytes())
    }

    /// Takes one step, where it has not answered, and gives the answer that it has then.
    pub fn step(&mut self) -> Option<InPlace>
        ensures { result ≡ self.new }
    {
        if self.answer.is_none() {
            self.answer = self.walk.step(
                &mut self.pass,
                &self.map,
                self.key.as_slice(),
                &mut self.out,
            );
        }
        self.answer
    }

    /// Takes `steps` steps, or fewer if it answers before.
    pub fn take(&mut self, steps: u32) {
        for _ in 0..steps {
            self.step();
        }
    }

    /// Goes on until it answers, and says how many steps that took.
    pub fn finish(&mut self) -> u32 {
        for steps in 0..MOST_STEPS {
            if self.answer.is_some() {
                return steps;
            }
            self.step();
        }
        MOST_STEPS
    }

    /// Its answer; `None` before its last step.
    pub fn answer(&self) -> Option<InPlace>
        ensures { result ≡ self.now }
    {
        self.answer
    }

    /// What its buffer holds.
    pub fn bytes(&self) -> &[u8] {
        self.out.bytes()
    }
}
