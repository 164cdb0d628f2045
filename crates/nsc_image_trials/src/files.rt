// The users of the trials.

use nsc_base::{Bytes, NoMemory};
use nsc_model::{Content, FileId};
use std::alloc::Global;

const USERS: &[u8] =
    b"root:x:0:0:root:/root:/bin/bash\nann:x:1000:1000:Ann,,,:/home/ann:/bin/sh\nroot:x:7:7:::\n";

/// A content in which passwd has them, and every other file is absent.
pub fn users(alloc: Global) -> Result<Content, NoMemory> {
    let mut content = Content::none();
    if USERS.len() <= Content::LIMIT {
        content.set(FileId::Passwd, Some(Bytes::copy(alloc, USERS)?));
    }
    Ok(content)
}
