// All searches of one user that may stand between two stores of a writer.
use crate::reader::Reader;
use crate::replies::Replies;
use crate::truth::Truth;
use nsc_base::NoMemory;
use nsc_model::InPlace;
use std::alloc::Global;
use std::sync::Arc;

// A search takes fewer steps.
const MOST_STEPS: u32 = 1_000;

// A search that has taken as many steps as others of its rank, and in how many ways it comes there.
#[derive(Drop)]
struct Member {
    reader: Reader,
    began: Option<Truth>,
    ways: u128,
}

/// In how many ways searches came to each answer.
#[derive(Clone, Copy, Debug, PartialEq, Eq)]
pub struct Tally {
    /// They found an entry.
    pub hits: u128,
    /// They found none.
    pub none: u128,
    /// A compaction was under way.
    pub odd: u128,
    /// One began.
    pub moved: u128,
    /// The answer must not come.
    pub wrong: u128,
}

impl Tally {
    /// No way.
    pub const NOTHING: Tally = Tally {
        hits: 0,
        none: 0,
        odd: 0,
        moved: 0,
        wrong: 0,
    };

    /// Those of another one, too.
    pub fn add(&mut self, other: Tally) {
        self.hits = self.hits.saturating_add(other.hits);
        self.none = self.none.saturating_add(other.none);
        self.odd = self.odd.saturating_add(other.odd);
        self.moved = self.moved.saturating_add(other.moved);
        self.wrong = self.wrong.saturating_add(other.wrong);
    }

    /// How many ways there are.
    pub fn ways(self) -> u128 {
        self.hits
            .saturating_add(self.none)
            .saturating_add(self.odd)
            .saturating_add(self.moved)
    }

    /// An answer that is reached in `ways` ways.
    pub fn count(&mut self, answer: InPlace, ways: u128, is_right: bool) {
        let kind = match answer {
            InPlace::Hit { .. } => &mut self.hits,
            InPlace::NoEntry => &mut self.none,
            InPlace::Odd { .. } => &mut self.odd,
            InPlace::Moved { .. } => &mut self.moved,
        };
        *kind = kind.saturating_add(ways);
        if !is_right {
            self.wrong = self.wrong.saturating_add(ways);
        }
    }
}

/// The searches for one user, by how many steps they have taken. Two that have come to the same, and began at the same truth, are one.
#[derive(Drop)]
pub struct Crowd {
    user: u32,
    ranks: Vec<Vec<Member>>,
    replies: Arc<Replies>,
    tally: Tally,
}

impl Crowd {
    /// One search, which has taken no step. Fails only for want of memory.
    pub fn new(
        alloc: Global,
        user: u32,
        reader: Reader,
        replies: Arc<Replies>,
    ) -> Result<Crowd, NoMemory> {
        let mut first = Vec::new(alloc);
        first.push(Member {
            reader,
            began: None,
            ways: 1,
        })?;
        let mut ranks = Vec::new(alloc);
        ranks.push(first)?;
        Ok(Crowd {
            user,
            ranks,
            replies,
            tally: Tally::NOTHING,
        })
    }

    /// Before the next store of the writer each search takes any number of steps, or none. Fails only for want of memory.
    pub fn go_on(&mut self, alloc: Global, truth: Truth) -> Result<(), NoMemory> {
        let mut ranks = Vec::new(alloc);
        let mut come = Vec::new(alloc);
        let old = std::mem::replace(&mut self.ranks, Vec::new(alloc));
        for rank in old {
            let mut members = rank;
            for member in come {
                put(&mut members, member)?;
            }
            come = self.stepped(alloc, truth, &mut members)?;
            ranks.push(members)?;
        }
        for _ in 0..MOST_STEPS {
            if come.is_empty() {
                break;
            }
            let mut members = come;
            come = self.stepped(alloc, truth, &mut members)?;
            ranks.push(members)?;
        }
        self.ranks = ranks;
        Ok(())
    }

    // What each of these becomes by one more step.
    fn stepped(
        &mut self,
        alloc: Global,
        truth: Truth,
        members: &mut Vec<Member>,
    ) -> Result<Vec<Member>, NoMemory> {
        let mut come = Vec::new(alloc);
        for member in members.iter_mut() {
            let mut next = member.twin(alloc)?;
            if next.began.is_none() {
                next.began = Some(truth);
            }
            match next.reader.step() {
                Some(answer) => self.judge(truth, &next, answer),
                None => put(&mut come, next)?,
            }
        }
        Ok(come)
    }

    /// The writer is done, and each search goes on to its end.
    pub fn end(mut self, alloc: Global, truth: Truth) -> Tally {
        let ranks = std::mem::replace(&mut self.ranks, Vec::new(alloc));
        for rank in ranks {
            for member in rank {
                let mut last = member;
                if last.began.is_none() {
                    last.began = Some(truth);
                }
                last.reader.finish();
                if let Some(answer) = last.reader.answer() {
                    self.judge(truth, &last, answer);
                }
            }
        }
        self.tally
    }

    // Counts an answer, and whether it may come.
    fn judge(&mut self, truth: Truth, member: &Member, answer: InPlace) {
        let bytes = member.reader.bytes();
        let are_right = match answer {
            InPlace::Hit { version, .. } => self.replies.is_reply(version, self.user, bytes),
            _ => bytes.is_empty(),
        };
        let may_come = match member.began {
            Some(before) => truth.allows(before, self.user, answer),
            None => false,
        };
        self.tally.count(answer, member.ways, are_right && may_come);
    }
}

impl Member {
    // The same once more. Fails only for want of memory.
    fn twin(&mut self, alloc: Global) -> Result<Member, NoMemory> {
        Ok(Member {
            reader: self.reader.twin(alloc)?,
            began: self.began,
            ways: self.ways,
        })
    }
}

// Adds one that comes. Fails only for want of memory.
fn put(members: &mut Vec<Member>, member: Member) -> Result<(), NoMemory> {
    for other in members.iter_mut() {
        if other.began == member.began && other.reader.is_like(&member.reader) {
            other.ways = other.ways.saturating_add(member.ways);
            return Ok(());
        }
    }
    members.push(member)?;
    Ok(())
}
