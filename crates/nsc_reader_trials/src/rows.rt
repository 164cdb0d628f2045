// Searches whose steps stand between those of a writer, each at a place that is chosen.
use crate::bench::Bench;
use crate::reader::Reader;
use nsc_base::NoMemory;
use nsc_model::InPlace;
use nsc_words::Layout;
use std::alloc::Global;
use std::io;
use std::io::Print;

// One bucket, so that all entries are in one chain.
const ONE_CHAIN: Layout = Layout {
    buckets: 1,
    arena: 128,
};

// A search loads CYCLE, the word of the bucket, and then the first word of the entry there, which never changes.
const ON_FIRST: u32 = 3;

// Where the key of the first entry is another one, it loads NEXT after that, and stands on the second.
const ON_SECOND: u32 = 4;

// What a reader answered, with how many bytes, and after how many more steps.
#[derive(Clone, Copy, Debug, PartialEq, Eq)]
struct Seen {
    answer: Option<InPlace>,
    bytes: usize,
    steps: u32,
}

impl Seen {
    // Lets a reader go on to its end.
    fn of(reader: &mut Reader) -> Seen {
        let steps = reader.finish();
        Seen {
            answer: reader.answer(),
            bytes: reader.bytes().len(),
            steps,
        }
    }
}

// What two readers answered, and whether the writer's calls came to what they must.
#[derive(Clone, Copy, Debug, PartialEq, Eq)]
struct Row {
    first: Seen,
    second: Seen,
    is_right: bool,
}

/// Makes each row, and prints what the readers answered. Fails for want of memory too.
pub fn show_rows<R: Print>(rt: &R, alloc: Global) -> io::Result<()> {
    show(rt, "a whole compaction", compacted(alloc))?;
    show(rt, "a compaction under way", compacting(alloc))?;
    show(rt, "an unlinked entry", unlinked(alloc))
}

// A whole compaction while the first reader stands on an entry. The second one begins after it.
fn compacted(alloc: Global) -> Result<Row, NoMemory> {
    let (mut bench, mut first) = filled(alloc, 1, 0)?;
    let mut second = bench.reader(alloc, 0)?;
    first.take(ON_FIRST);
    let is_right = bench.compact();
    Ok(Row {
        first: Seen::of(&mut first),
        second: Seen::of(&mut second),
        is_right,
    })
}

// A compaction begins while the first reader stands on an entry. The second one begins then, and both end before it does.
fn compacting(alloc: Global) -> Result<Row, NoMemory> {
    let (mut bench, mut first) = filled(alloc, 1, 0)?;
    let mut second = bench.reader(alloc, 0)?;
    first.take(ON_FIRST);
    let mut writer = bench.into_writer();
    let is_right = writer.begin_slide().is_ok();
    Ok(Row {
        first: Seen::of(&mut first),
        second: Seen::of(&mut second),
        is_right,
    })
}

// Two entries are ended and taken out of the chain while the first reader, of the third one, stands on the second. The other reader
// begins after that.
fn unlinked(alloc: Global) -> Result<Row, NoMemory> {
    let (mut bench, mut first) = filled(alloc, 3, 0)?;
    let mut second = bench.reader(alloc, 0)?;
    first.take(ON_SECOND);
    let is_right = takes_two_out(&mut bench);
    Ok(Row {
        first: Seen::of(&mut first),
        second: Seen::of(&mut second),
        is_right,
    })
}

// Ends the entries 2 and 1 and takes them out of the chain, which has no other that ended.
fn takes_two_out(bench: &mut Bench) -> bool {
    let are_ended = bench.end(2) && bench.end(1);
    let are_out = bench.unlink(0) && bench.unlink(0);
    are_ended && are_out && !bench.unlink(0)
}

// A writer of `entries` entries, and a reader of one of them.
fn filled(alloc: Global, entries: u32, user: u32) -> Result<(Bench, Reader), NoMemory> {
    let mut bench = Bench::new(alloc, ONE_CHAIN, 0)?;
    for entry in 0..entries {
        bench.insert(alloc, entry)?;
    }
    let reader = bench.reader(alloc, user)?;
    Ok((bench, reader))
}

// Prints a row.
fn show<R: Print>(rt: &R, name: &str, row: Result<Row, NoMemory>) -> io::Result<()> {
    match row {
        Ok(row) => {
            println!(rt; "{name}, calls as they must be: {}", row.is_right)?;
            println!(rt; "  {:?}", row.first)?;
            println!(rt; "  {:?}", row.second)
        }
        Err(e) => Err(wanting(e)),
    }
}

/// Want of memory, as an error of output.
pub fn wanting(_e: NoMemory) -> io::Error {
    io::Error::from(io::ErrorKind::OutOfMemory)
}
