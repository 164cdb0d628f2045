// The files of the trials.

use nsc_base::{Bytes, NoMemory};
use nsc_model::{Content, FileId};
use nsc_outside::{HeldFiles, Hold, Release};
use std::alloc::Global;
use std::time::Clock;

const FIRST: [(FileId, &[u8]); 4] = [
    (FileId::Passwd, b"root:x:0:0:root:/root:/bin/bash\n"),
    (FileId::Group, b"root:x:0:\n"),
    (FileId::Hosts, b"127.0.0.1 localhost\n"),
    (FileId::Services, b"ssh 22/tcp\n"),
];

const SECOND: [(FileId, &[u8]); 4] = [
    (
        FileId::Passwd,
        b"root:x:0:0:root:/root:/bin/sh\neve:x:7:7::/:\n",
    ),
    (FileId::Group, b"root:x:0:eve\nstaff:x:50:\n"),
    (
        FileId::Hosts,
        b"127.0.0.1 localhost\n127.0.0.2 localhost db\n",
    ),
    (FileId::Services, b"ssh 222/tcp\nhttp 80/tcp\n"),
];

/// A set of files in which there are one user, one group, one host and one service, and of which those reads wait. Once the flag is
/// set these are others, and each file has one entry more. The configuration has these bytes.
pub fn files<R: Clock + Clone + Drop>(
    clock: R,
    alloc: Global,
    changed: Release,
    hold: Hold,
    conf: &[u8],
) -> Result<HeldFiles<R>, NoMemory> {
    HeldFiles::new(clock, alloc, content(alloc, FIRST)?)?
        .changing(alloc, content(alloc, SECOND)?, changed)?
        .holding(alloc, hold)?
        .configured(alloc, Bytes::copy(alloc, conf)?)
}

// The content with these files; one that is longer than a file may be is absent.
fn content(alloc: Global, files: [(FileId, &[u8]); 4]) -> Result<Content, NoMemory> {
    let mut content = Content::none();
    for (file, bytes) in files {
        if bytes.len() <= Content::LIMIT {
            content.set(file, Some(Bytes::copy(alloc, bytes)?));
        }
    }
    Ok(content)
}
