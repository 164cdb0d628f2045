// The threads of a workload: workers, two readers and a ticker, and their replies.
ghost use Rattle.std.specs.Prelude.{◌≡◌, ◌≤◌, ◌<◌, ◌++◌, All, IfOk, OnOk, Some, length, map, sum_by, vec_len};
ghost use Rattle.nsc_workload.specs.Runs.{AreRead, AreShares, CountsDiffering, IsRead, IsShare, asked_count, differing_of, reader_count, replies_from};
ghost use Rattle.nsc_workload.specs.Workload.{request_count};

use crate::replies::ReplyList;
use nsc_base::{Bytes, NoMemory};
use std::alloc::Global;
use std::sync::Wait;
use std::thread;
use std::thread::Threads;

/// What the threads of a workload do.
pub(crate) trait Work {
    ghost use Rattle.std.specs.Prelude.{ℕ};

    // The number that the workload is made from.
    ghost number: { Self → ℕ };

    // How many workers there are.
    ghost workers: { Self → ℕ };

    /// How many workers there are.
    fn count(&self) -> u32
        ensures count { result ≡ workers self.now }
        ensures some { 0 < result };

    /// The replies of a worker; `None` where memory was short.
    fn share<R: Wait>(&self, rt: &R, alloc: Global, worker: usize) -> Option<ReplyList>
        requires { worker < workers self.now }
        ensures { IsShare (number self.now) (workers self.now) worker result };

    /// What a reader is answered to the first requests, in order; `None` where memory was short.
    fn read<R: Wait>(&self, rt: &R, alloc: Global) -> Option<ReplyList>
        ensures { IsRead result };

    /// Ticks. Fails only for want of memory.
    fn tick<R: Wait>(&self, rt: &R, alloc: Global) -> Result<(), NoMemory>;
}

/// What the threads of a workload were answered.
#[derive(Drop)]
pub(crate) struct Replies {
    /// The replies to all requests, in order.
    pub(crate) all: Vec<Bytes>,
    /// How many answers of the readers differ from the reply to the same request.
    pub(crate) differing: u64,
}

/// The replies to all requests in order. The workers look them up, each in a thread of its own, while another thread ticks and two read.
/// Fails only for want of memory.
pub(crate) fn all_replies<W: Work + Sync, R: Threads + Wait + Sync>(
    rt: &R,
    alloc: Global,
    work: &W,
) -> Result<Replies, NoMemory>
    ensures all { IfOk result (λ replies. replies.all.items ≡ replies_from (W.number work.now) 0 (request_count (W.number work.now))) }
    ensures differing { IfOk result (λ replies. CountsDiffering replies.all.items replies.differing) }
{
    let (shares, (ticked, answers)) = thread::join(
        rt,
        || shares(rt, alloc, work),
        || thread::join(rt, || work.tick(rt, alloc), || answers(rt, alloc, work)),
    );
    ticked?;
    let shares = shares?;
    let answers = answers?;
    let all = gathered(alloc, work, shares.as_slice())?;
    let differing = all_differing(all.as_slice(), answers.as_slice());
    Ok(Replies { all, differing })
}

// How many threads read.
const READERS: usize = 2;

// What each reader is answered. Fails only for want of memory.
fn answers<W: Work + Sync, R: Threads + Wait + Sync>(
    rt: &R,
    alloc: Global,
    work: &W,
) -> Result<Vec<ReplyList>, NoMemory>
    ensures len { IfOk result (λ answers. vec_len answers ≡ reader_count) }
    ensures each { IfOk result (λ answers. All (λ a. length a ≡ asked_count) answers.items) }
{
    let given = read_by_each(rt, alloc, work)?;
    all_given(alloc, given)
}

// What each reader is answered, where it is.
fn read_by_each<W: Work + Sync, R: Threads + Wait + Sync>(
    rt: &R,
    alloc: Global,
    work: &W,
) -> Result<Vec<Option<ReplyList>>, NoMemory>
    ensures len { IfOk result (λ given. vec_len given ≡ reader_count) }
    ensures each { IfOk result (λ given. AreRead given.items) }
{
    let given = thread::map_indices(
        rt,
        alloc,
        READERS,
        &|_reader: usize|
            ensures { IsRead result }
        { work.read(rt, alloc) },
    )?;
    Ok(given)
}

// All of these, where none is wanting.
fn all_given(alloc: Global, given: Vec<Option<ReplyList>>) -> Result<Vec<ReplyList>, NoMemory>
    ensures { IfOk result (λ all. map Some all.items ≡ given.items) }
{
    let mut all = Vec::new(alloc);
    for texts in given {
        match texts {
            Some(texts) => all.push(texts)?,
            None => return Err(NoMemory),
        }
    }
    Ok(all)
}

// How many answers of all readers differ from the reply to the same request.
fn all_differing(replies: &[Bytes], answers: &[ReplyList]) -> u64
    requires readers { length answers.now ≡ reader_count }
    requires asked { All (λ a. length a ≡ asked_count) answers.now }
    ensures { result ≡ sum_by (λ a. differing_of replies.now a) answers.now }
{
    let mut count: u64 = 0;
    for texts in answers {
        count += differing(replies, texts.as_slice());
    }
    count
}

// How many answers of a reader differ from the reply to the same request.
fn differing(replies: &[Bytes], answers: &[Bytes]) -> u64
    ensures { result ≡ differing_of replies.now answers.now }
{
    replies
        .iter()
        .zip(answers)
        .filter(|pair| pair.0 != pair.1)
        .count() as u64
}

// What each worker gives, in order.
fn shares<W: Work + Sync, R: Threads + Wait + Sync>(
    rt: &R,
    alloc: Global,
    work: &W,
) -> Result<Vec<Option<ReplyList>>, NoMemory>
    ensures len { IfOk result (λ shares. vec_len shares ≡ W.workers work.now) }
    ensures each { IfOk result (λ shares. AreShares (W.number work.now) (W.workers work.now) shares.items) }
{
    let count = work.count() as usize;
    let shares = thread::map_indices(
        rt,
        alloc,
        count,
        &|worker: usize|
            requires { worker < W.workers work.now }
            ensures { IsShare (W.number work.entry.now) (W.workers work.entry.now) worker result }
        { work.share(rt, alloc, worker) },
    )?;
    Ok(shares)
}

// The replies of all workers as one list.
fn gathered<W: Work>(
    alloc: Global,
    work: &W,
    shares: &[Option<ReplyList>],
) -> Result<Vec<Bytes>, NoMemory>
    requires len { length shares.now ≡ W.workers work.now }
    requires each { AreShares (W.number work.now) (W.workers work.now) shares.now }
    ensures { IfOk result (λ replies. replies.items ≡ replies_from (W.number work.now) 0 (request_count (W.number work.now))) }
{
    let _count = work.count();
    let mut replies = Vec::new(alloc);
    for share in shares {
        match share {
            Some(texts) => put_copies(alloc, &mut replies, texts.as_slice())?,
            None => return Err(NoMemory),
        }
    }
    Ok(replies)
}

// Puts copies of texts after those that are there.
fn put_copies(alloc: Global, out: &mut Vec<Bytes>, texts: &[Bytes]) -> Result<(), NoMemory>
    ensures { OnOk result (out.new.items ≡ out.old.items ++ texts.now) }
{
    for text in texts {
        out.push(Bytes::copy(alloc, text.as_slice())?)?;
    }
    Ok(())
}
