// `Calls`: pseudo-random calls of a writer, each told in a line.
ghost use Rattle.std.specs.Prelude.{◌≡◌};

use crate::dice::{below, dice_of};
use crate::files::{USERS, files_of, name_of};
use nsc_answer::Plain;
use nsc_base::{Buf, NoMemory};
use nsc_compactor::compact;
use nsc_model::{Answerer, Conf, Content, DbConf, KEPT_LIMIT, KEY_LIMIT, Kind};
use nsc_turns::{Answering, insert, load};
use nsc_words::Layout;
use nsc_writer::{Cause, Inserted, Writer};
use rand_pcg::Pcg32;
use std::alloc::Global;
use std::marker::Model;
use std::sync::Arc;

// How the table is laid out: few buckets, so that chains are long, and so few words that they are used up.
const LAYOUT: Layout = Layout {
    buckets: 4,
    arena: 512,
};

/// A writer of a database of users, and what is called of it by chance.
#[derive(Drop)]
pub struct Calls {
    writer: Writer,
    settings: DbConf,
    files: Arc<Content>,
    version: u32,
    // The number of the newest entry.
    latest: u64,
    reply: Buf,
    dice: Pcg32,
}

impl Model for Calls {
    ghost use Rattle.std.specs.Prelude.{◌≡◌, ℕ, None};
    ghost use Rattle.nsc_model.specs.Entry.{kept_limit};

    ghost Value = { ℕ };

    ghost view = { λ c. c.version };

    ghost invariant = { λ c. (c.writer.slide ≡ None) × (c.reply.limit ≡ kept_limit) };
}

impl Calls {
    /// No entry, over the first files. Fails only for want of memory.
    pub fn new(alloc: Global, seed: u32) -> Result<Calls, NoMemory> {
        let files = Arc::new(alloc, files_of(alloc, 0)?)?;
        let (writer, _pass) = Writer::new(alloc, LAYOUT, files.clone()?)?;
        Ok(Calls {
            writer,
            settings: Conf::defaults().passwd,
            files,
            version: 0,
            latest: 0,
            reply: Buf::new(alloc, KEPT_LIMIT)?,
            dice: dice_of(seed),
        })
    }

    /// The writer as it is now.
    pub fn into_writer(self) -> Writer
        ensures { result.slide ≡ None }
    {
        self.writer
    }

    /// Makes a call at this moment, in seconds, and tells what came of it. Fails only for want of memory.
    pub fn make(&mut self, alloc: Global, now: u32) -> Result<String, NoMemory> {
        let user = below(&mut self.dice, USERS);
        match below(&mut self.dice, 200) {
            0..=79 => self.insert(alloc, user, now),
            80..=149 => self.search(alloc, user),
            150..=189 => self.end(alloc),
            190..=193 => self.change(alloc),
            194..=198 => self.compact(alloc),
            _ => self.invalidate(alloc),
        }
    }

    // A lookup that found nothing inserts.
    fn insert(&mut self, alloc: Global, user: u32, now: u32) -> Result<String, NoMemory> {
        let reloads = u64::from(below(&mut self.dice, 4));
        let said = match self.load(alloc, user, now, reloads)? {
            None => format!(in alloc; "spent")?,
            Some(Inserted::Done { number }) => {
                self.latest = number;
                format!(in alloc; "done {number}")?
            }
            Some(Inserted::Present { number }) => format!(in alloc; "present {number}")?,
            Some(Inserted::Full { need, free }) => format!(in alloc; "full {need} {free}")?,
            Some(_) => format!(in alloc; "other")?,
        };
        Ok(format!(in alloc; "insert {user} {now} {reloads} {}", said.as_str())?)
    }

    // Polls, answers over the newest version, and inserts the answer.
    fn load(
        &mut self,
        alloc: Global,
        user: u32,
        now: u32,
        reloads: u64,
    ) -> Result<Option<Inserted>, NoMemory> {
        let name = name_of(alloc, user)?;
        let key = name.as_bytes();
        if key.len() > KEY_LIMIT {
            return Ok(None);
        }
        self.writer.learn();
        let epoch = self.writer.epoch();
        let Ok(stamp) = self.writer.record_poll(self.files.clone()?, epoch) else {
            return Ok(None);
        };
        let answering = Answering {
            settings: self.settings,
            stamp,
            moment: u64::from(now),
        };
        let ready = Plain.prepare(alloc, self.files.clone()?)?;
        let loaded = load(
            alloc,
            &Plain,
            &ready,
            &answering,
            Kind::PwName,
            key,
            reloads,
        )?;
        self.writer.learn();
        let (said, _) = insert(&mut self.writer, loaded);
        Ok(Some(said))
    }

    // Looks for an entry.
    fn search(&mut self, alloc: Global, user: u32) -> Result<String, NoMemory> {
        let name = name_of(alloc, user)?;
        match self
            .writer
            .search(Kind::PwName, name.as_bytes(), &mut self.reply)
        {
            Some(hit) => Ok(format!(in alloc; "search {user} hit {}", hit.number)?),
            None => Ok(format!(in alloc; "search {user} none")?),
        }
    }

    // Ends one of the newest entries, if it is live.
    fn end(&mut self, alloc: Global) -> Result<String, NoMemory> {
        let number = self
            .latest
            .saturating_sub(u64::from(below(&mut self.dice, 30)));
        let is_ended = self.writer.end(number, Cause::Replaced);
        Ok(format!(in alloc; "end {number} {is_ended}")?)
    }

    // The files change; the next poll finds it.
    fn change(&mut self, alloc: Global) -> Result<String, NoMemory> {
        let version = self.version.wrapping_add(1);
        self.files = Arc::new(alloc, files_of(alloc, version)?)?;
        self.version = version;
        Ok(format!(in alloc; "change {version}")?)
    }

    fn compact(&mut self, alloc: Global) -> Result<String, NoMemory> {
        match compact(&mut self.writer) {
            Ok(freed) => Ok(format!(in alloc; "compact {freed}")?),
            Err(_) => Ok(format!(in alloc; "compact spent")?),
        }
    }

    // Ends all entries, whose words are not free before the next compaction.
    fn invalidate(&mut self, alloc: Global) -> Result<String, NoMemory> {
        match self.writer.invalidate() {
            Ok(epoch) => Ok(format!(in alloc; "invalidate {epoch}")?),
            Err(_) => Ok(format!(in alloc; "invalidate spent")?),
        }
    }
}
