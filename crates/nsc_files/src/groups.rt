// Lookups of groups over the text of a group file: by name, by id, and of a user's groups.
ghost use Rattle.std.specs.Prelude.{◌≡◌, IfOk, Some};
ghost use Rattle.nsc_model.specs.Answers.{file_entry, file_ids, found_ids, group_named, group_numbered};
ghost use Rattle.nsc_model.specs.Files.{file_of};
ghost use Rattle.nsc_model.specs.Groups.{group_of_line};

use crate::finder::Finder;
use nsc_accounts::group_row;
use nsc_base::{Ids, NoMemory, decimal};
use nsc_model::{FileId, Looked, Row};
use std::alloc::Global;

/// The outcome of a lookup of a group's name over the text of a group file. Fails only for want of memory.
pub fn group_by_name<F: Finder>(
    alloc: Global,
    finder: &F,
    file: FileId,
    text: &[u8],
    name: &[u8],
) -> Result<Looked, NoMemory>
    requires { file_of (F.content finder.now) file ≡ Some text.now }
    ensures { IfOk result (λ looked. looked ≡ file_entry Row.Group group_of_line (group_named name.now) (Some text.now)) }
{
    match finder.group_named(alloc, file, text, name)? {
        Some(at) => Ok(Looked::Found(Row::Group(group_row(alloc, text, &at)?))),
        None => Ok(Looked::NotFound),
    }
}

/// The outcome of a lookup of a group's id, as a key in decimal, over the text of a group file. A key that is no number
/// names no group. Fails only for want of memory.
pub fn group_by_id<F: Finder>(
    alloc: Global,
    finder: &F,
    file: FileId,
    text: &[u8],
    key: &[u8],
) -> Result<Looked, NoMemory>
    requires { file_of (F.content finder.now) file ≡ Some text.now }
    ensures { IfOk result (λ looked. looked ≡ file_entry Row.Group group_of_line (group_numbered key.now) (Some text.now)) }
{
    let Some(gid) = decimal(key) else {
        return Ok(Looked::NotFound);
    };
    match finder.group_numbered(alloc, file, text, gid)? {
        Some(at) => Ok(Looked::Found(Row::Group(group_row(alloc, text, &at)?))),
        None => Ok(Looked::NotFound),
    }
}

/// The outcome of a lookup of the groups of a user over the text of a group file: their ids, and not found where there
/// is none. Fails only for want of memory.
pub fn groups_of_user<F: Finder>(
    alloc: Global,
    finder: &F,
    file: FileId,
    text: &[u8],
    user: &[u8],
) -> Result<Looked, NoMemory>
    requires { file_of (F.content finder.now) file ≡ Some text.now }
    ensures { IfOk result (λ looked. looked ≡ file_ids user.now (Some text.now)) }
{
    Ok(outcome_of(finder.groups_of(alloc, file, text, user)?))
}

// No id is not found.
fn outcome_of(ids: Ids) -> Looked
    ensures { result ≡ found_ids ids }
{
    if ids.is_empty() {
        Looked::NotFound
    } else {
        Looked::Found(Row::Groups(ids))
    }
}
