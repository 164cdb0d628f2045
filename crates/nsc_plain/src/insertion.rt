// `Insertion`: an answer to be inserted for a request, its request by id, or a due entry.
ghost use Rattle.std.specs.Prelude.{◌≡◌, ◌≤◌, ◌<◌, ◌+◌, ◌^◌, [], length, map, IfOk, IfSome, MatchOption};
ghost use Rattle.nsc_base.specs.Nodes.{node_words};
ghost use Rattle.nsc_model.specs.Entry.{key_limit, kept_limit};
ghost use Rattle.nsc_model.specs.Machine.{made_entry, due_of, reloaded_of};
ghost use Rattle.std.specs.Prelude.{List, ℕ};
ghost use Rattle.nsc_model.specs.Answers.{answer_of};
ghost use Rattle.nsc_propagate.specs.Answered.{OfAnswered};
ghost use Rattle.nsc_plain.specs.Insertion.{anew, beside};

use crate::db_files::DbFiles;
use crate::kept::Kept;
use nsc_base::{Bytes, NoMemory};
use nsc_model::{Answer, Answerer, DbConf, Entry, Kind, Request};
use nsc_propagate::id_request;
use nsc_words::node_words;
use std::alloc::Global;
use std::marker::Model;

/// A request with its answer, that is to be inserted with this count of reloads. Its key has at most 1,024
/// bytes.
#[derive(Drop)]
pub struct Insertion {
    request: Request,
    answer: Answer,
    reloads: u64,
}

impl Model for Insertion {
    ghost use Rattle.std.specs.Prelude.{◌≤◌, length};
    ghost use Rattle.nsc_model.specs.Entry.{key_limit};
    ghost use Rattle.nsc_plain.specs.Insertion.{Insertion};

    ghost Value = { Insertion };

    ghost view = { λ a. record { request = a.request; answer = a.answer; reloads = a.reloads } };

    ghost invariant = { λ a. length a.request.key ≤ key_limit };
}

impl Insertion {
    /// The request with its answer, reloaded so often.
    pub fn new(request: Request, answer: Answer, reloads: u64) -> Insertion
        requires { length request.key ≤ key_limit }
        ensures { result ≡ record { request = request; answer = answer; reloads = reloads } }
    {
        Insertion {
            request,
            answer,
            reloads,
        }
    }

    /// The request.
    pub fn request(&self) -> &Request
        ensures { result.now ≡ self.now.request }
    {
        &self.request
    }

    /// How long the reply is.
    pub fn reply_len(&self) -> usize
        ensures { result ≡ length self.now.answer.bytes }
    {
        self.answer.bytes().len()
    }

    /// How many words its entry takes: at most 8,328.
    pub fn words(&self) -> usize
        requires { length self.now.answer.bytes ≤ kept_limit }
        ensures { result ≡ node_words (length self.now.request.key) (length self.now.answer.bytes) }
    {
        node_words(self.request.key.len(), self.answer.bytes().len())
    }

    /// Its entry, of this number and over this version, from this moment on.
    pub fn into_kept(self, conf: &DbConf, now: u64, version: u64, number: u64) -> Kept
        requires reply { length self.answer.bytes ≤ kept_limit }
        requires moment { now < 2 ^ 62 }
        ensures { result ≡ record { entry = made_entry conf.now now number version self.request self.answer; reloads = self.reloads } }
    {
        let timeout = now + conf.life_of(&self.answer);
        let entry = Entry::new(number, self.request, version, self.answer, timeout);
        Kept::new(entry, self.reloads)
    }
}

/// Makes what is inserted beside the answer to a request by name: the answer to the request by id for the row that was found. `None` if
/// `auto-propagate` is off, or if there is no such request.
///
/// # Errors
///
/// `NoMemory` if memory is short.
pub fn answer_beside<A: Answerer>(
    alloc: Global,
    files: &mut DbFiles<A>,
    answers: &A,
    conf: &DbConf,
    kind: Kind,
    answer: &Answer,
) -> Result<Option<Insertion>, NoMemory>
    requires answered { (key : List ℕ) × (answer.now ≡ answer_of files.old.files (record { kind = kind; key = key })) }
    ensures stays { files.new ≡ files.old }
    ensures beside { OfAnswered files.old.files kind answer.now (λ request. IfOk result (λ made. made ≡ beside conf.now files.old.files request)) }
{
    if !conf.propagate {
        return Ok(None);
    }
    let Some(request) = id_request(alloc, files.content(), kind, answer)? else {
        return Ok(None);
    };
    let answer = files.answer(alloc, answers, request.kind, request.key.as_slice())?;
    Ok(Some(Insertion::new(request, answer, 0)))
}

/// What is to be inserted for the entries whose time is over and that are reloaded, in their order; `None` where the
/// time of no entry is over.
pub fn answer_due<A: Answerer>(
    alloc: Global,
    files: &mut DbFiles<A>,
    answers: &A,
    entries: &[Kept],
    limit: Option<u32>,
    now: u64,
) -> Result<Option<Vec<Insertion>>, NoMemory>
    ensures stays { files.new ≡ files.old }
    ensures due { IfOk result (λ due. MatchOption due (due_of now entries.now ≡ []) (λ all. 0 < length (due_of now entries.now))) }
    ensures all { IfOk result (λ due. IfSome due (λ all. all.items ≡ map (anew files.old.files) (reloaded_of limit (due_of now entries.now)))) }
{
    let mut is_any = false;
    let mut all = Vec::new(alloc);
    for kept in entries {
        if kept.is_due(now) {
            is_any = true;
            if !kept.is_dropped(limit) {
                all.push(answer_again(alloc, files, answers, kept)?)?;
            }
        }
    }
    Ok(is_any.then_some(all))
}

// What is to be inserted where this entry is reloaded.
fn answer_again<A: Answerer>(
    alloc: Global,
    files: &mut DbFiles<A>,
    answers: &A,
    kept: &Kept,
) -> Result<Insertion, NoMemory>
    ensures stays { files.new ≡ files.old }
    ensures again { IfOk result (λ again. again ≡ anew files.old.files kept.now) }
{
    let request = kept.entry().request();
    files.begin(alloc, answers);
    let answer = files.answer(alloc, answers, request.kind, request.key.as_slice())?;
    let key = Bytes::copy(alloc, request.key.as_slice())?;
    let kind = request.kind;
    Ok(Insertion::new(Request { kind, key }, answer, kept.next_reloads()))
}
