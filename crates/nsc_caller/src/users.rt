// A content with a passwd file and no other file.
use nsc_base::{Bytes, NoMemory};
use nsc_model::{Content, FileId};
use std::alloc::Global;

/// The content in which passwd has these bytes, and every other file is absent; passwd too, where it is longer than a file may be.
/// Fails only for want of memory.
pub fn users_of(alloc: Global, bytes: &[u8]) -> Result<Content, NoMemory> {
    let mut content = Content::none();
    if bytes.len() <= Content::LIMIT {
        content.set(FileId::Passwd, Some(Bytes::copy(alloc, bytes)?));
    }
    Ok(content)
}
