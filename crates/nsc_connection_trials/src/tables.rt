//! Connections to the sockets, each over a database of its own, and after it one that asks for root.
use crate::connection::{Calls, Connection, GOOD};
use crate::four::{Task, over};
use crate::growing::Growing;
use crate::outcome::Outcome;
use crate::texts::{ABSENT, ASK_ROOT, ROOT_BASH, ROOT_LINE};
use nsc_base::{Bytes, NoMemory};
use nsc_model::FileId;
use nsc_outside::MemFiles;
use nsc_server::Served;
use std::alloc::Global;
use std::sync::Wait;

// How many bytes a file has at most.
const LIMIT: usize = 16_777_216;

// The files that a lookup of a user reads, in their order, with the number of the read: the ten before it open the databases.
const READS: [(u64, FileId); 3] = [
    (11, FileId::Switch),
    (12, FileId::Passwd),
    (13, FileId::ExtraPasswd),
];

/// Files in which passwd has these bytes, however many, and no other one is there.
pub fn users(alloc: Global, bytes: Bytes) -> Result<MemFiles, NoMemory> {
    MemFiles::new(alloc)?.with_file(alloc, FileId::Passwd, Some(bytes))
}

/// Those in which root is the one user.
pub fn root(alloc: Global) -> Result<MemFiles, NoMemory> {
    users(alloc, Bytes::copy(alloc, ROOT_LINE)?)
}

// Whether the outcomes of a connection, and then of one that asks for root, are the right ones, over new databases.
fn is_right<R: AllocGlobal + Wait>(rt: &R, connection: Connection<'_>) -> Result<bool, NoMemory> {
    let outcome = over(rt, root(rt.alloc())?, Task::Sockets(&[connection, GOOD]))?;
    Ok(outcome == Outcome::Right)
}

/// A source of single bytes whose call 1 to 17 fails, and one whose call 18 would: the request has 17 bytes.
pub fn failing_reads<R: AllocGlobal + Wait>(rt: &R) -> Result<Outcome, NoMemory> {
    for failing in 1..=18 {
        let mut connection = GOOD;
        connection.reads = Calls {
            by_byte: true,
            failing,
        };
        if failing < 18 {
            connection.served = Served::ReadFault;
            connection.sent = b"";
        }
        if !is_right(rt, connection)? {
            return Ok(Outcome::Wrong(failing as usize));
        }
    }
    Ok(Outcome::Right)
}

/// A request that ends after 0 to 16 bytes.
pub fn cut_requests<R: AllocGlobal + Wait>(rt: &R) -> Result<Outcome, NoMemory> {
    for have in 0..17 {
        let mut connection = GOOD;
        connection.sends = front(ASK_ROOT, have);
        connection.served = Served::Ended { have };
        connection.sent = b"";
        if !is_right(rt, connection)? {
            return Ok(Outcome::Wrong(have + 1));
        }
    }
    Ok(Outcome::Right)
}

/// A sink of single bytes whose call 1 to 64 fails: what was written before it has gone.
pub fn failing_writes<R: AllocGlobal + Wait>(rt: &R) -> Result<Outcome, NoMemory> {
    for written in 0..64 {
        let mut connection = GOOD;
        connection.writes = Calls {
            by_byte: true,
            failing: written as u64 + 1,
        };
        connection.served = Served::WriteFault;
        connection.sent = front(ROOT_BASH, written);
        if !is_right(rt, connection)? {
            return Ok(Outcome::Wrong(written + 1));
        }
    }
    Ok(Outcome::Right)
}

// The first `count` of these bytes, or all if there are no more.
fn front(bytes: &'static [u8], count: usize) -> &'static [u8] {
    bytes.get(..count).unwrap_or(bytes)
}

/// Files of which one cannot be read, once, in a lookup.
pub fn failing_files<R: AllocGlobal + Wait>(rt: &R) -> Result<Outcome, NoMemory> {
    let alloc = rt.alloc();
    for (place, (read, file)) in READS.into_iter().enumerate() {
        let files = root(alloc)?.failing_at(alloc, Vec::from_slice(alloc, &[read])?)?;
        let mut connection = GOOD;
        connection.served = Served::SourceFault { file };
        connection.sent = b"";
        if over(rt, files, Task::Sockets(&[connection, GOOD]))? != Outcome::Right {
            return Ok(Outcome::Wrong(place + 1));
        }
    }
    Ok(Outcome::Right)
}

/// As many empty lines as a file may have.
pub fn longest_file<R: AllocGlobal + Wait>(rt: &R) -> Result<Outcome, NoMemory> {
    let alloc = rt.alloc();
    let files = users(alloc, Bytes::from_vec(vec![in alloc; b'\n'; LIMIT]?))?;
    let mut connection = GOOD;
    connection.sent = ABSENT;
    over(rt, files, Task::Sockets(&[connection]))
}

/// A file that has a byte more than it may once the databases are open: it is refused at each lookup.
pub fn growing_file<R: AllocGlobal + Wait>(rt: &R) -> Result<Outcome, NoMemory> {
    let alloc = rt.alloc();
    let files = Growing {
        files: root(alloc)?,
        later: users(alloc, Bytes::from_vec(vec![in alloc; b'\n'; LIMIT + 1]?))?,
    };
    let mut connection = GOOD;
    connection.served = Served::TooLong {
        file: FileId::Passwd,
        length: LIMIT as u64 + 1,
    };
    connection.sent = b"";
    over(rt, files, Task::Sockets(&[connection, connection]))
}
