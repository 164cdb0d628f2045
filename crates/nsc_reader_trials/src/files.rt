// The names of the trials' users, and the content of each version.
ghost use Rattle.std.specs.Prelude.{◌≡◌, length};

// The users of the trials.
use nsc_base::{Bytes, NoMemory};
use nsc_model::{Content, FileId};
use std::alloc::Global;
use std::fmt::Write;

/// Users have numbers below this.
pub const USERS: u32 = 10;

/// How many contents there are: later versions have them in turn.
pub const CONTENTS: u32 = 4;

/// The name of the user of a number, by its last digit.
pub fn name_of(user: u32) -> [u8; 2]
    ensures { length result ≡ 2 }
{
    [b'u', b'0' + (user % 10) as u8]
}

/// The files of a version: every user, in a group that goes by the version, with a comment of at most this many letters.
pub fn files_of(alloc: Global, version: u32, longest: u32) -> Result<Content, NoMemory> {
    let turn = version % CONTENTS;
    let mut text = String::new(alloc);
    for user in 0..USERS {
        write!(text, "u{user}:x:{user}:{turn}:")?;
        for _ in 0..(user * 37 + turn * 11) % longest.saturating_add(1) {
            text.push('g')?;
        }
        text.push_str(":/:\n")?;
    }
    let mut content = Content::none();
    if text.len() <= Content::LIMIT {
        content.set(FileId::Passwd, Some(Bytes::copy(alloc, text.as_bytes())?));
    }
    Ok(content)
}
