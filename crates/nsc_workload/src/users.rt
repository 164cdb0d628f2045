// The users of a workload as lines of passwd(5).
ghost use Rattle.std.specs.Prelude.{◌≡◌, ◌≤◌, ◌+◌, ◌++◌, IfOk, OnOk, decimal, vec_len};
ghost use Rattle.nsc_model.specs.Files.{file_limit};
ghost use Rattle.nsc_workload.specs.Workload.{files_of, user_line, user_name, users as users_of};

use itoa::Buffer;
use nsc_base::{Bytes, NoMemory};
use nsc_model::{Content, FileId};
use std::alloc::Global;

/// The content in which passwd(5) has eight users for each of the number, and every other file is absent. Fails only for want
/// of memory.
pub(crate) fn content(alloc: Global, number: u32) -> Result<Content, NoMemory>
    requires { number ≤ 1000 }
    ensures { IfOk result (λ content. content ≡ files_of number) }
{
    let lines = users(alloc, 8 * number)?;
    let mut content = Content::none();
    content.set(FileId::Passwd, Some(Bytes::from_vec(lines)));
    Ok(content)
}

// The lines of as many users.
fn users(alloc: Global, count: u32) -> Result<Vec<u8>, NoMemory>
    requires { count ≤ 8000 }
    ensures lines { IfOk result (λ lines. lines.items ≡ users_of count) }
    ensures fits { IfOk result (λ lines. vec_len lines ≤ file_limit) }
{
    let mut lines = Vec::new(alloc);
    for user in 0..count {
        put_user(&mut lines, user)?;
    }
    Ok(lines)
}

// Puts the line of a user after those that are there. It has at most 64 bytes.
fn put_user(lines: &mut Vec<u8>, user: u32) -> Result<(), NoMemory>
    requires { user ≤ 8000 }
    ensures line { OnOk result (lines.new.items ≡ lines.old.items ++ user_line user) }
    ensures short { OnOk result (vec_len lines.new ≤ vec_len lines.old + 64) }
{
    put_name(lines, user)?;
    lines.extend_from_slice(b":x:")?;
    put_number(lines, 1000 + user)?;
    lines.extend_from_slice(b":100::/home/")?;
    put_name(lines, user)?;
    lines.extend_from_slice(b":/bin/sh\n")?;
    Ok(())
}

/// Puts the name of a user after the bytes that are there.
#[tactic(auto, unfolding(crate::specs::Workload::user_name))]
pub(crate) fn put_name(text: &mut Vec<u8>, user: u32) -> Result<(), NoMemory>
    ensures name { OnOk result (text.new.items ≡ text.old.items ++ user_name user) }
    ensures short { OnOk result (vec_len text.new ≤ vec_len text.old + 11) }
{
    text.extend_from_slice(b"u")?;
    put_number(text, user)
}

/// Puts a number after the bytes that are there.
pub(crate) fn put_number(text: &mut Vec<u8>, number: u32) -> Result<(), NoMemory>
    ensures number { OnOk result (text.new.items ≡ text.old.items ++ decimal number) }
    ensures short { OnOk result (vec_len text.new ≤ vec_len text.old + 10) }
{
    let mut buffer = Buffer::new();
    text.extend_from_slice(buffer.format(number).as_bytes())?;
    Ok(())
}
