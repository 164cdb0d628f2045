// `Chains`: the numbers of lines in hash buckets, each bucket a chain of rows.
ghost use Rattle.std.specs.Prelude.{◌≡◌, ◌+◌, ◌<◌, ◌≤◌, ◌^◌, ℕ, IfOk, filter, length, map, replicate, slice_index, vec_len};
ghost use Rattle.nsc_index.specs.Numbers.{has_number};
ghost use Rattle.nsc_index.specs.Chains.{AreHeads, AreNexts, bucket};

use crate::numbers::NumberAt;
use nsc_base::NoMemory;
use std::alloc::Global;
use std::marker::Model;

/// Numbers with the lines that they are of, each found without a look at most of the others: fourteen bytes for each. They lie in half
/// as many buckets as there are numbers, and each bucket is a chain from one to the next. Where all lie in one bucket, a search walks
/// over all of them.
#[derive(Debug, Drop)]
pub struct Chains {
    rows: Vec<NumberAt>,
    // The first row of each bucket, and after each row the next one of its bucket: a place in `rows`, or its end.
    heads: Vec<u32>,
    nexts: Vec<u32>,
}

impl Model for Chains {
    ghost use Rattle.std.specs.Prelude.{List};
    ghost use Rattle.nsc_index.specs.declared.numbers.NumberAt.{NumberAt};

    ghost Value = { List NumberAt };

    ghost use Rattle.nsc_index.specs.Chains.{AreChained};

    ghost view = { λ c. c.rows.items };

    ghost invariant = { AreChained };
}

impl Chains {
    /// Numbers, each in the chain of its bucket. Fails only for want of memory.
    pub fn of(alloc: Global, mut rows: Vec<NumberAt>) -> Result<Chains, NoMemory>
        requires { length rows.items < 2 ^ 32 }
        ensures { IfOk result (λ chains. chains ≡ rows.items) }
    {
        let count = rows.len();
        rows.shrink_to_fit();
        let mut heads = filled(alloc, count as u32, count.div_ceil(2).max(1))?;
        let mut nexts = filled(alloc, 0, count)?;
        link(&rows, &mut heads, &mut nexts);
        Ok(Chains { rows, heads, nexts })
    }

    /// The places of the lines of a number, in the order in which they were given. Fails only for want of memory.
    pub fn lines_of(&self, alloc: Global, number: u32) -> Result<Vec<u32>, NoMemory>
        ensures { IfOk result (λ lines. lines.items ≡ map (λ at. at.line) (filter (has_number number) self.now)) }
    {
        let mut lines = Vec::new(alloc);
        let mut at = self.heads[bucket_of(number, self.heads.len())] as usize;
        while at < self.rows.len() {
            let row = self.rows[at];
            if row.number == number {
                lines.push(row.line)?;
            }
            at = self.nexts[at] as usize;
        }
        Ok(lines)
    }
}

// `count` numbers that are all `number`: a fill of memory at one go.
fn filled(alloc: Global, number: u32, count: usize) -> Result<Vec<u32>, NoMemory>
    ensures items { IfOk result (λ numbers. numbers.items ≡ replicate count number) }
    ensures len { IfOk result (λ numbers. vec_len numbers ≡ count) }
{
    let mut numbers = Vec::with_capacity(alloc, count)?;
    numbers.resize(count, number)?;
    Ok(numbers)
}

// The bucket of a number, of `count` buckets.
#[tactic(auto, unfolding(crate::specs::Chains::bucket))]
fn bucket_of(number: u32, count: usize) -> usize
    requires some { 0 < count }
    requires fits { count < 2 ^ 32 }
    ensures bucket { result ≡ bucket count number }
    ensures inside { result < count }
{
    let mixed = number.wrapping_mul(0x9E37_79B1);
    (u64::from(mixed) * count as u64 / 0x1_0000_0000) as usize
}

// Links rows from the last to the first, so that each chain rises: each row comes in front of its bucket's chain.
fn link(rows: &[NumberAt], heads: &mut [u32], nexts: &mut [u32])
    requires count { length rows.now < 2 ^ 32 }
    requires some { 0 < length heads.old }
    requires fits { length heads.old < 2 ^ 32 }
    requires empty { (b : ℕ) → b < length heads.old → slice_index heads.old b ≡ length rows.now }
    requires room { length nexts.old ≡ length rows.now }
    ensures heads { AreHeads (length heads.new) rows.now heads.new 0 }
    ensures nexts { AreNexts (length heads.new) rows.now nexts.new 0 }
{
    let mut at = rows.len();
    while at > 0 {
        at -= 1;
        let bucket = bucket_of(rows[at].number, heads.len());
        nexts[at] = heads[bucket];
        heads[bucket] = at as u32;
    }
}
