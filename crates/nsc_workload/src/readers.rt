// Readers that ask as the gate does: in place first, and by a lookup where that finds nothing.
ghost use Rattle.std.specs.Prelude.{◌≡◌, ◌<◌, IfOk, length};
ghost use Rattle.nsc_model.specs.Entry.{kept_limit};
ghost use Rattle.nsc_workload.specs.Runs.{asked_count};
ghost use Rattle.nsc_workload.specs.Workload.{request_count};

use crate::asked::request;
use crate::assignment::Assignment;
use crate::fixed_files::{FixedFiles, OfContent};
use crate::replies::ReplyList;
use nsc_base::{Buf, Bytes, NoMemory};
use nsc_client::{Asked, StoreLink, ask};
use nsc_database::{DbPass, Room};
use nsc_model::Store;
use std::alloc::Global;
use std::sync::Wait;

// How many of the first requests a reader asks.
const ASKED: u32 = 64;

// The room for what a search finds: the longest reply that is kept.
const ROOM: usize = 65_536;

impl<C: OfContent, B: Room> Assignment<'_, C, B> {
    /// What a reader is answered to the first 64 requests in order, by a pass of its own. Fails only for want of memory.
    pub(crate) fn answers<R: Wait>(&self, rt: &R, alloc: Global) -> Result<ReplyList, NoMemory>
        ensures { IfOk result (λ answers. length answers ≡ asked_count) }
    {
        let mut pass = self.database.attach(rt, alloc)?;
        let mut found = Buf::new(alloc, ROOM)?;
        let mut answers = Vec::new(alloc);
        for place in 0..ASKED {
            answers.push(self.answer(rt, alloc, &mut pass, &mut found, place)?)?;
        }
        Ok(ReplyList::from_vec(answers))
    }

    // What the request of a place is answered at moment 0.
    fn answer<R: Wait>(
        &self,
        rt: &R,
        alloc: Global,
        pass: &mut DbPass<FixedFiles<C>, B>,
        found: &mut Buf,
        place: u32,
    ) -> Result<Bytes, NoMemory>
        requires place { place < request_count self.now.number }
        requires pass { pass.old.db ≡ self.now.database.now.db }
        requires found { found.old.limit ≡ kept_limit }
        ensures pass { pass.new.db ≡ pass.old.db }
        ensures found { found.new.limit ≡ found.old.limit }
    {
        let asked = request(alloc, self.number, place)?;
        let mut link = StoreLink {
            store: self.database,
        };
        let key = asked.key.as_slice();
        match ask(
            rt,
            alloc,
            pass,
            self.database,
            &mut link,
            found,
            asked.kind,
            key,
            0,
        ) {
            Ok(Asked::InPlace { .. }) => Bytes::copy(alloc, found.bytes()),
            Ok(Asked::Linked { bytes, .. }) => Ok(bytes),
            Err(_) => Err(NoMemory),
        }
    }
}
