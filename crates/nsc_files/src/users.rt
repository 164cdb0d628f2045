// Lookups of users over the text of a passwd file: by name and by user id.
ghost use Rattle.std.specs.Prelude.{◌≡◌, IfOk, Some};
ghost use Rattle.nsc_model.specs.Answers.{file_entry, user_named, user_numbered};
ghost use Rattle.nsc_model.specs.Files.{file_of};
ghost use Rattle.nsc_model.specs.Users.{user_of_line};

use crate::finder::Finder;
use nsc_accounts::user_row;
use nsc_base::{NoMemory, decimal};
use nsc_model::{FileId, Looked, Row};
use std::alloc::Global;

/// The outcome of a lookup of a user's name over the text of a passwd file. Fails only for want of memory.
pub fn user_by_name<F: Finder>(
    alloc: Global,
    finder: &F,
    file: FileId,
    text: &[u8],
    name: &[u8],
) -> Result<Looked, NoMemory>
    requires { file_of (F.content finder.now) file ≡ Some text.now }
    ensures { IfOk result (λ looked. looked ≡ file_entry Row.Passwd user_of_line (user_named name.now) (Some text.now)) }
{
    match finder.user_named(alloc, file, text, name)? {
        Some(at) => Ok(Looked::Found(Row::Passwd(user_row(alloc, text, &at)?))),
        None => Ok(Looked::NotFound),
    }
}

/// The outcome of a lookup of a user's id, as a key in decimal, over the text of a passwd file. A key that is no number
/// names no user. Fails only for want of memory.
pub fn user_by_id<F: Finder>(
    alloc: Global,
    finder: &F,
    file: FileId,
    text: &[u8],
    key: &[u8],
) -> Result<Looked, NoMemory>
    requires { file_of (F.content finder.now) file ≡ Some text.now }
    ensures { IfOk result (λ looked. looked ≡ file_entry Row.Passwd user_of_line (user_numbered key.now) (Some text.now)) }
{
    let Some(uid) = decimal(key) else {
        return Ok(Looked::NotFound);
    };
    match finder.user_numbered(alloc, file, text, uid)? {
        Some(at) => Ok(Looked::Found(Row::Passwd(user_row(alloc, text, &at)?))),
        None => Ok(Looked::NotFound),
    }
}
