// Names for the trials of growth: users, and names that the files do not have.
ghost use Rattle.std.specs.Prelude.{◌≡◌, length};

// The names that are looked up where a table grows.
use nsc_base::{Bytes, NoMemory};
use nsc_model::{Content, FileId};
use std::alloc::Global;
use std::fmt::Write;

/// The files have users of the numbers below this. Above stand the numbers of names that they do not have.
pub const USERS: u64 = 4;

// A name that the files do not have is so long.
const LENGTH: usize = 920;

/// The name of a user.
pub fn user_name(number: u64) -> [u8; 2]
    ensures { length result ≡ 2 }
{
    [b'u', b'0' + (number % 10) as u8]
}

/// A name that the files do not have. It ends with eight digits.
pub fn absent_name(number: u64) -> [u8; 920]
    ensures { length result ≡ 920 }
{
    let mut name = [b'n'; LENGTH];
    let mut rest = number;
    for digit in 1..=8 {
        name[LENGTH - digit] = b'0' + (rest % 10) as u8;
        rest /= 10;
    }
    name
}

/// The files: every user has a comment of `letters` letters. Fails only for want of memory.
pub fn files_with(alloc: Global, letters: u32) -> Result<Content, NoMemory> {
    let mut text = String::new(alloc);
    for user in 0..USERS {
        write!(text, "u{user}:x:{user}:0:")?;
        for _ in 0..letters {
            text.push(letter_of(user))?;
        }
        text.push_str(":/:\n")?;
    }
    let mut content = Content::none();
    if text.len() <= Content::LIMIT {
        content.set(FileId::Passwd, Some(Bytes::copy(alloc, text.as_bytes())?));
    }
    Ok(content)
}

// The letter of a user's comment.
fn letter_of(user: u64) -> char {
    match user {
        0 => 'a',
        1 => 'b',
        2 => 'c',
        _ => 'd',
    }
}
