// The users of the trials: by each version of the file others, and with other comments.

use nsc_base::{Bytes, NoMemory};
use nsc_model::{Content, FileId};
use std::alloc::Global;
use std::fmt::Write;

/// Users have numbers below this.
pub const USERS: u32 = 40;

// A comment has fewer letters than this.
const LONGEST: u32 = 180;

/// The name of the user of a number.
pub fn name_of(alloc: Global, user: u32) -> Result<String, NoMemory> {
    Ok(format!(in alloc; "u{user}")?)
}

/// The files of a version. Of three users one is not there, and the length of a comment goes by the user and the version.
pub fn files_of(alloc: Global, version: u32) -> Result<Content, NoMemory> {
    let mut text = String::new(alloc);
    for user in 0..USERS {
        if (user + version % 3) % 3 != 0 {
            write!(text, "u{user}:x:1000:1000:")?;
            for _ in 0..(user * 37 + version % LONGEST * 11) % LONGEST {
                text.push('g')?;
            }
            text.push_str(":/home:/bin/sh\n")?;
        }
    }
    let mut content = Content::none();
    if text.len() <= Content::LIMIT {
        content.set(FileId::Passwd, Some(Bytes::copy(alloc, text.as_bytes())?));
    }
    Ok(content)
}
