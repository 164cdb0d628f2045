// `Replies`: the contents of the files by version, with the reply for each user.
use crate::files::{CONTENTS, USERS, files_of, name_of};
use nsc_answer::Plain;
use nsc_base::{Bytes, NoMemory, equal};
use nsc_model::{Answerer, Content, Kind};
use std::alloc::Global;
use std::sync::Arc;

/// The contents that the files have in turn, with the reply for each user over each of them.
#[derive(Drop)]
pub struct Replies {
    contents: Vec<Arc<Content>>,
    replies: Vec<Bytes>,
}

impl Replies {
    /// Those of comments of at most `longest` letters. Fails only for want of memory.
    pub fn new(alloc: Global, longest: u32) -> Result<Replies, NoMemory> {
        let mut contents = Vec::new(alloc);
        let mut replies = Vec::new(alloc);
        for version in 0..CONTENTS {
            let content = Arc::new(alloc, files_of(alloc, version, longest)?)?;
            let ready = Plain.prepare(alloc, content.clone()?)?;
            for user in 0..USERS {
                let answer = Plain.answer(alloc, &ready, Kind::PwName, &name_of(user))?;
                replies.push(answer.into_bytes())?;
            }
            contents.push(content)?;
        }
        Ok(Replies { contents, replies })
    }

    /// The files of a version. Fails only for want of memory.
    pub fn files(&self, version: u64) -> Result<Option<Arc<Content>>, NoMemory> {
        match self.contents.get((version % u64::from(CONTENTS)) as usize) {
            Some(content) => Ok(Some(content.clone()?)),
            None => Ok(None),
        }
    }

    /// Whether these bytes are the reply for a user over a version.
    pub fn is_reply(&self, version: u64, user: u32, bytes: &[u8]) -> bool {
        let turn = (version % u64::from(CONTENTS)) as u32;
        match self.replies.get((turn * USERS + user % USERS) as usize) {
            Some(reply) => equal(reply.as_slice(), bytes),
            None => false,
        }
    }
}
