// `Told`: the replies over one content for users and for absent names.
use crate::names::{USERS, absent_name, user_name};
use nsc_answer::Plain;
use nsc_base::{Bytes, NoMemory, equal};
use nsc_model::{Answerer, Content, InPlace, Kind};
use std::alloc::Global;
use std::sync::Arc;

/// The replies over one content: one for each user, and one for each name that the files do not have.
#[derive(Drop)]
pub struct Told {
    users: Vec<Bytes>,
    absent: Bytes,
}

impl Told {
    /// Those over this content. Fails only for want of memory.
    pub fn new(alloc: Global, files: &Arc<Content>) -> Result<Told, NoMemory> {
        let ready = Plain.prepare(alloc, files.clone()?)?;
        let mut users = Vec::new(alloc);
        for user in 0..USERS {
            let answer = Plain.answer(alloc, &ready, Kind::PwName, &user_name(user))?;
            users.push(answer.into_bytes())?;
        }
        let answer = Plain.answer(alloc, &ready, Kind::PwName, &absent_name(USERS))?;
        let absent = answer.into_bytes();
        Ok(Told { users, absent })
    }

    /// Whether a search for the entry of this number may answer so, with these bytes: only a found entry leaves some.
    pub fn allows(&self, number: u64, answer: InPlace, bytes: &[u8]) -> bool {
        let InPlace::Hit {
            number: found,
            version,
            not_found,
        } = answer
        else {
            return bytes.is_empty();
        };
        found == number && version == 0 && self.is_reply(number, not_found, bytes)
    }

    // Whether these bytes are the reply for a number.
    fn is_reply(&self, number: u64, not_found: bool, bytes: &[u8]) -> bool {
        match self.users.get(number as usize) {
            Some(reply) => !not_found && equal(reply.as_slice(), bytes),
            None => not_found && equal(self.absent.as_slice(), bytes),
        }
    }
}
