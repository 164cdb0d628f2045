// Pseudo-random events for a replay and for a plain cache, whose replies must agree.
ghost use Rattle.std.specs.Prelude.{◌≤◌};
ghost use Rattle.nsc_model.specs.Sizes.{SizesFit};

// The same events by chance in a replay, whose caches stand in words, and in a cache that is a list of entries.

use crate::dice::{below, dice_of};
use crate::files::{USERS, files_of, name_of};
use nsc_answer::Plain;
use nsc_base::NoMemory;
use nsc_model::{CacheFault, Conf, Content, Exit, FileId, KEY_LIMIT, Kind};
use nsc_outside::{MemSink, MemSource};
use nsc_plain::PlainCache;
use nsc_replay::replay;
use rand_pcg::Pcg32;
use std::alloc::Global;
use std::sync::Arc;

// The settings of users: few words, short lives, and few reloads.
const BUCKETS: u32 = 3;

const LIFE: u32 = 40;

const SHORT_LIFE: u32 = 15;

const RELOADS: u32 = 2;

/// The list, the files that it is asked over, and the frames and the replies of the events so far.
#[derive(Drop)]
struct Twin {
    list: PlainCache,
    files: Arc<Content>,
    version: u32,
    now: u32,
    frames: Vec<u8>,
    replies: Vec<u8>,
    dice: Pcg32,
}

/// Makes `events` events, and says whether the replay of their frames writes what the list replied. Fails only for want of memory, and
/// where the list's counts came to their ends.
pub fn are_same(alloc: Global, seed: u32, events: u32) -> Result<bool, CacheFault> {
    let settings = settings_of(seed);
    let mut twin = Twin {
        list: PlainCache::new(alloc, settings.passwd, settings.reloads)?,
        files: Arc::new(alloc, Content::none())?,
        version: 0,
        now: 0,
        frames: Vec::new(alloc),
        replies: Vec::new(alloc),
        dice: dice_of(seed),
    };
    for _ in 0..events {
        twin.make(alloc)?;
    }
    twin.frames.push(b'E')?;
    let Twin {
        list: _,
        files: _,
        version: _,
        now: _,
        frames,
        replies,
        dice: _,
    } = twin;
    let mut output = MemSink::new(alloc, replies.len())?;
    let exit = replay(
        alloc,
        &settings,
        &Plain,
        &mut MemSource::new(frames),
        &mut output,
    );
    Ok(exit == Exit::Ok && output.taken() == replies.as_slice())
}

// Changes of the files count at every other seed.
fn settings_of(seed: u32) -> Conf
    ensures some { 1 ≤ result.passwd.size }
    ensures most { result.passwd.size ≤ 65536 }
    ensures sizes { SizesFit result }
{
    let mut settings = Conf::defaults();
    settings.passwd.size = BUCKETS;
    settings.passwd.positive = LIFE;
    settings.passwd.negative = SHORT_LIFE;
    settings.passwd.check_files = seed % 2 == 0;
    settings.reloads = Some(RELOADS);
    settings
}

impl Twin {
    // An event by chance.
    fn make(&mut self, alloc: Global) -> Result<(), CacheFault> {
        match below(&mut self.dice, 100) {
            0..=79 => self.look_up(alloc),
            80..=89 => self.pass_time(alloc),
            90..=97 => self.change(alloc),
            _ => self.invalidate(),
        }
    }

    fn look_up(&mut self, alloc: Global) -> Result<(), CacheFault> {
        let name = name_of(alloc, below(&mut self.dice, USERS))?;
        let key = name.as_bytes();
        if key.len() > KEY_LIMIT {
            return Ok(());
        }
        let moment = u64::from(self.now);
        let reply = self
            .list
            .lookup(alloc, &self.files, &Plain, Kind::PwName, key, moment)?;
        put_number(&mut self.replies, reply.as_slice().len() as u32)?;
        self.replies.extend_from_slice(reply.as_slice())?;
        let size = key.len() as u32 + 1;
        self.frames.push(b'Q')?;
        for number in [12 + size, 2, Kind::PwName.number(), size] {
            put_number(&mut self.frames, number)?;
        }
        self.frames.extend_from_slice(key)?;
        self.frames.push(0)?;
        Ok(())
    }

    fn pass_time(&mut self, alloc: Global) -> Result<(), CacheFault> {
        self.now = self.now.saturating_add(below(&mut self.dice, LIFE));
        let moment = u64::from(self.now);
        self.list.tick(alloc, &self.files, &Plain, moment)?;
        self.frames.push(b'T')?;
        self.frames.extend_from_slice(&moment.to_le_bytes())?;
        Ok(())
    }

    fn change(&mut self, alloc: Global) -> Result<(), CacheFault> {
        self.version = self.version.wrapping_add(below(&mut self.dice, 3));
        let files = files_of(alloc, self.version)?;
        if let Some(text) = files.file(FileId::Passwd) {
            self.frames.extend_from_slice(&[b'F', 1, 1])?;
            put_number(&mut self.frames, text.len() as u32)?;
            self.frames.extend_from_slice(text)?;
        }
        self.files = Arc::new(alloc, files)?;
        Ok(())
    }

    fn invalidate(&mut self) -> Result<(), CacheFault> {
        self.list.invalidate()?;
        self.frames.extend_from_slice(&[b'I', 0])?;
        Ok(())
    }
}

fn put_number(bytes: &mut Vec<u8>, number: u32) -> Result<(), NoMemory> {
    Ok(bytes.extend_from_slice(&number.to_le_bytes())?)
}
