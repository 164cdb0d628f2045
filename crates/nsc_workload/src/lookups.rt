// The lookups of one worker: the replies to consecutive requests.
ghost use Rattle.std.specs.Prelude.{◌≡◌, ◌≤◌, ◌<◌, ◌+◌, IfOk};
ghost use Rattle.nsc_model.specs.Stores.{reply_of};
ghost use Rattle.nsc_workload.specs.Runs.{replies_from};
ghost use Rattle.nsc_workload.specs.Workload.{answer_at, request_count};

use crate::asked::request;
use crate::assignment::Assignment;
use crate::fixed_files::{FixedFiles, OfContent};
use crate::replies::ReplyList;
use nsc_base::{Bytes, NoMemory};
use nsc_database::{DbPass, Room};
use nsc_model::{Given, Store};
use std::alloc::Global;
use std::sync::Wait;

impl<C: OfContent, B: Room> Assignment<'_, C, B> {
    /// The replies to as many requests in order, from one on, by a pass of their own. Fails only for want of memory.
    #[tactic(auto, using(crate::proofs::Joined::next))]
    pub(crate) fn replies<R: Wait>(
        &self,
        rt: &R,
        alloc: Global,
        from: u32,
        count: u32,
    ) -> Result<ReplyList, NoMemory>
        requires { from + count ≤ request_count self.now.number }
        ensures { IfOk result (λ replies. replies ≡ replies_from self.now.number from count) }
    {
        let mut pass = self.database.attach(rt, alloc)?;
        let mut replies = Vec::new(alloc);
        for turn in 0..count {
            let place = from + turn;
            replies.push(self.reply(rt, alloc, &mut pass, place)?)?;
        }
        Ok(ReplyList::from_vec(replies))
    }

    // The reply to the request of a place, looked up at moment 0. No file is ever at fault, so that only memory may be short.
    fn reply<R: Wait>(
        &self,
        rt: &R,
        alloc: Global,
        pass: &mut DbPass<FixedFiles<C>, B>,
        place: u32,
    ) -> Result<Bytes, NoMemory>
        requires place { place < request_count self.now.number }
        requires pass { pass.old.db ≡ self.now.database.now.db }
        ensures pass { pass.new.db ≡ pass.old.db }
        ensures reply { IfOk result (λ reply. reply ≡ (answer_at self.now.number place).bytes) }
    {
        let asked = request(alloc, self.number, place)?;
        let key = asked.key.as_slice();
        match self.database.lookup(rt, alloc, pass, asked.kind, key, 0) {
            Ok(given) => Ok(bytes_of(given)),
            Err(_) => Err(NoMemory),
        }
    }
}

// The reply that a lookup gave.
fn bytes_of(given: Given) -> Bytes
    ensures { result ≡ reply_of given }
{
    match given {
        Given::Hit { bytes, .. } | Given::Loaded { bytes, .. } | Given::Fresh { bytes, .. } =>
            bytes,
    }
}
