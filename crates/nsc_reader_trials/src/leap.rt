// An entry for which a table doubles more than once.
use crate::grower::Grower;
use crate::names::files_with;
use nsc_model::CacheFault;
use nsc_words::Layout;
use std::alloc::Global;
use std::sync::Arc;

// Three doublings make 1,024 words of the 128, and an entry takes 896 with a comment of `LETTERS` letters.
const FIRST: Layout = Layout {
    buckets: 1,
    arena: 128,
};

const LETTERS: u32 = 7_051;

// A table may have eight buckets and 1,024 words.
const LIMIT: u32 = 8_384;

/// What became of two such entries, and how the table is laid out after each.
#[derive(Clone, Copy, Debug)]
pub struct Leap {
    first: Option<u64>,
    then: Layout,
    second: Option<u64>,
    last: Layout,
}

/// Inserts two entries. No table has room for both.
pub fn leaps(alloc: Global) -> Result<Leap, CacheFault> {
    let files = Arc::new(alloc, files_with(alloc, LETTERS)?)?;
    let (mut grower, _) = Grower::new(alloc, FIRST, files, LIMIT)?;
    let first = grower.insert(alloc, 0)?;
    let then = grower.layout();
    let second = grower.insert(alloc, 1)?;
    Ok(Leap {
        first,
        then,
        second,
        last: grower.layout(),
    })
}
