//! Requests that are read to their end, refused, or orders, one after another; and the forms of a user's line.
use crate::connection::{Connection, GOOD, WELL};
use crate::four::{Task, over};
use crate::outcome::Outcome;
use crate::tables::{root, users};
use crate::texts::ABSENT;
use nsc_base::{Bytes, NoMemory};
use nsc_server::{Closing, Served};
use std::sync::Wait;

// A request, whether it comes on the socket of the administrator, what comes of it, and what is sent.
#[derive(Clone, Copy, Debug)]
struct Row {
    sends: &'static [u8],
    is_admin: bool,
    served: Served,
    sent: &'static [u8],
}

const ROWS: [Row; 15] = [
    // An empty key.
    Row {
        sends: b"\x02\0\0\0\0\0\0\0\0\0\0\0",
        is_admin: false,
        served: Served::Replied,
        sent: ABSENT,
    },
    // A key length of 1,025 and of -1.
    Row {
        sends: b"\x02\0\0\0\0\0\0\0\x01\x04\0\0",
        is_admin: false,
        served: Served::Closed(Closing::BadLength(1025)),
        sent: b"",
    },
    Row {
        sends: b"\x02\0\0\0\0\0\0\0\xff\xff\xff\xff",
        is_admin: false,
        served: Served::Closed(Closing::BadLength(-1)),
        sent: b"",
    },
    // Version 1.
    Row {
        sends: b"\x01\0\0\0\0\0\0\0\x05\0\0\0root\0",
        is_admin: false,
        served: Served::Closed(Closing::BadVersion(1)),
        sent: b"",
    },
    // The types 22 and -1.
    Row {
        sends: b"\x02\0\0\0\x16\0\0\0\x05\0\0\0root\0",
        is_admin: false,
        served: Served::Closed(Closing::BadType(22)),
        sent: b"",
    },
    Row {
        sends: b"\x02\0\0\0\xff\xff\xff\xff\x05\0\0\0root\0",
        is_admin: false,
        served: Served::Closed(Closing::BadType(-1)),
        sent: b"",
    },
    // The descriptor of a database's memory, and a netgroup.
    Row {
        sends: b"\x02\0\0\0\x0b\0\0\0\x07\0\0\0passwd\0",
        is_admin: false,
        served: Served::Closed(Closing::Descriptor),
        sent: b"",
    },
    Row {
        sends: b"\x02\0\0\0\x13\0\0\0\x02\0\0\0a\0",
        is_admin: false,
        served: Served::Closed(Closing::Netgroup),
        sent: b"",
    },
    // Orders of everyone: to invalidate, for the counts, and to end.
    Row {
        sends: b"\x02\0\0\0\x0a\0\0\0\x07\0\0\0passwd\0",
        is_admin: false,
        served: Served::Closed(Closing::RoleDenied),
        sent: b"",
    },
    Row {
        sends: b"\x02\0\0\0\x09\0\0\0\0\0\0\0",
        is_admin: false,
        served: Served::Closed(Closing::RoleDenied),
        sent: b"",
    },
    Row {
        sends: b"\x02\0\0\0\x08\0\0\0\0\0\0\0",
        is_admin: false,
        served: Served::Closed(Closing::RoleDenied),
        sent: b"",
    },
    // Those of the administrator: to invalidate users, again, what is no database, and to end.
    Row {
        sends: b"\x02\0\0\0\x0a\0\0\0\x07\0\0\0passwd\0",
        is_admin: true,
        served: Served::Replied,
        sent: b"\0\0\0\0",
    },
    Row {
        sends: b"\x02\0\0\0\x0a\0\0\0\x07\0\0\0passwd\0",
        is_admin: true,
        served: Served::Replied,
        sent: b"\0\0\0\0",
    },
    Row {
        sends: b"\x02\0\0\0\x0a\0\0\0\x07\0\0\0shadow\0",
        is_admin: true,
        served: Served::Replied,
        sent: b"\x16\0\0\0",
    },
    Row {
        sends: b"\x02\0\0\0\x08\0\0\0\0\0\0\0",
        is_admin: true,
        served: Served::ShutDown,
        sent: b"\0\0\0\0",
    },
];

/// Each of the requests, and after it one that asks for root.
pub fn requests<R: AllocGlobal + Wait>(rt: &R) -> Result<Outcome, NoMemory> {
    for (place, row) in ROWS.iter().enumerate() {
        let mut connection = GOOD;
        connection.sends = row.sends;
        connection.is_admin = row.is_admin;
        connection.served = row.served;
        connection.sent = row.sent;
        let files = root(rt.alloc())?;
        if over(rt, files, Task::Sockets(&[connection, GOOD]))? != Outcome::Right {
            return Ok(Outcome::Wrong(place + 1));
        }
    }
    Ok(Outcome::Right)
}

/// A key of as many bytes as it may have, and no zero byte.
pub fn longest_key<R: AllocGlobal + Wait>(rt: &R) -> Result<Outcome, NoMemory> {
    let alloc = rt.alloc();
    let mut sends = Vec::from_slice(alloc, b"\x02\0\0\0\0\0\0\0\0\x04\0\0")?;
    sends.resize(12 + 1024, b'a')?;
    let connection = Connection {
        sends: sends.as_slice(),
        is_admin: false,
        reads: WELL,
        writes: WELL,
        served: Served::Replied,
        sent: ABSENT,
    };
    over(rt, root(alloc)?, Task::Sockets(&[connection, GOOD]))
}

// A line of users, the request for one of them, and the reply.
#[derive(Clone, Copy, Debug)]
struct Line {
    text: &'static [u8],
    sends: &'static [u8],
    sent: &'static [u8],
}

// Asks for the user `a`, and for the one whose name is `a` and a blank.
const ASK: &[u8] = b"\x02\0\0\0\0\0\0\0\x02\0\0\0a\0";

const ASK_BLANK: &[u8] = b"\x02\0\0\0\0\0\0\0\x03\0\0\0a \0";

const LINES: [Line; 11] = [
    Line {
        text: b"a:x:1:2:g:/h",
        sends: ASK,
        sent: ABSENT,
    },
    Line {
        text: b"a:x:1:2:g:/h:/s:",
        sends: ASK,
        sent: ABSENT,
    },
    Line {
        text: b":x:1:2:::",
        sends: ASK,
        sent: ABSENT,
    },
    Line {
        text: b"a:x::2:::",
        sends: ASK,
        sent: ABSENT,
    },
    Line {
        text: b"a:x:-1:2:::",
        sends: ASK,
        sent: ABSENT,
    },
    Line {
        text: b"a:x:4294967296:0:::",
        sends: ASK,
        sent: ABSENT,
    },
    Line {
        text: b"a\0:x:1:2:::",
        sends: ASK,
        sent: ABSENT,
    },
    Line {
        text: b"a:x:4294967295:0:::",
        sends: ASK,
        sent: b"\x02\0\0\0\x01\0\0\0\x02\0\0\0\x02\0\0\0\xff\xff\xff\xff\0\0\0\0\x01\0\0\0\x01\0\0\0\x01\0\0\0a\0x\0\0\0\0",
    },
    Line {
        text: b"a:x:007:2:::",
        sends: ASK,
        sent: b"\x02\0\0\0\x01\0\0\0\x02\0\0\0\x02\0\0\0\x07\0\0\0\x02\0\0\0\x01\0\0\0\x01\0\0\0\x01\0\0\0a\0x\0\0\0\0",
    },
    Line {
        text: b"  a:x:1:2:::",
        sends: ASK,
        sent: b"\x02\0\0\0\x01\0\0\0\x02\0\0\0\x02\0\0\0\x01\0\0\0\x02\0\0\0\x01\0\0\0\x01\0\0\0\x01\0\0\0a\0x\0\0\0\0",
    },
    Line {
        text: b"a :x:1:2:::",
        sends: ASK_BLANK,
        sent: b"\x02\0\0\0\x01\0\0\0\x03\0\0\0\x02\0\0\0\x01\0\0\0\x02\0\0\0\x01\0\0\0\x01\0\0\0\x01\0\0\0a \0x\0\0\0\0",
    },
];

/// Each of the lines, alone in its file.
pub fn lines<R: AllocGlobal + Wait>(rt: &R) -> Result<Outcome, NoMemory> {
    let alloc = rt.alloc();
    for (place, line) in LINES.iter().enumerate() {
        let mut connection = GOOD;
        connection.sends = line.sends;
        connection.sent = line.sent;
        let files = users(alloc, Bytes::copy(alloc, line.text)?)?;
        if over(rt, files, Task::Sockets(&[connection]))? != Outcome::Right {
            return Ok(Outcome::Wrong(place + 1));
        }
    }
    Ok(Outcome::Right)
}
