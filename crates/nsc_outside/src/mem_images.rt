// `MemImages`: a store of images in memory, with planned failures of gets and puts.
ghost use Rattle.std.specs.Prelude.{◌≡◌, length, nat_lt, not, false, Some, ◌||◌, IfOk, IfErr, OnOk, OnErr, is_err};
ghost use Rattle.std.specs.Bool.{OnTrue, OnFalse};
ghost use Rattle.std.specs.Option.{option_copied};
ghost use Rattle.nsc_model.specs.Reads.{Rose};
ghost use Rattle.nsc_outside.specs.FileSets.{RoseBy, is_failed};
ghost use Rattle.nsc_outside.specs.FailPlan.{next_fails, one_more};
ghost use Rattle.nsc_outside.specs.ImageStores.{ImageFits, IsImageCause, OthersStay};
ghost use Rattle.nsc_outside.specs.ImageTally.{db_count};
ghost use Rattle.nsc_outside.specs.MemImages.{empty_slot, empty_images, slot_in, image_in, with_image};

use crate::fail_plan::FailPlan;
use crate::files::ReadCause;
use crate::image_tally::ImageTally;
use crate::images::{IMAGE_LIMIT, ImageStore};
use crate::stream::Failed;
use nsc_base::{Bytes, NoMemory};
use nsc_model::Db;
use std::alloc::Global;
use std::marker::Model;

// The room of a database, for which the memory was taken, and the image in it.
#[derive(Debug, Drop)]
struct Slot {
    bytes: Vec<u8>,
    is_there: bool,
    room: usize,
}

impl Model for Slot {
    ghost use Rattle.std.specs.Prelude.{◌≤◌, Some, None, if◌then◌else◌};
    ghost use Rattle.std.specs.Vec.{vec_capacity};
    ghost use Rattle.nsc_outside.specs.MemImages.{Slot};

    ghost Value = { Slot };

    ghost view = { λ s. record { image = if s.is_there then Some s.bytes.items else None; room = s.room } };

    ghost invariant = { λ s. s.room ≤ vec_capacity s.bytes };
}

impl Slot {
    fn new(alloc: Global, room: usize) -> Result<Slot, NoMemory>
        ensures { IfOk result (λ slot. slot ≡ empty_slot room) }
    {
        Ok(Slot {
            bytes: Vec::with_capacity(alloc, room)?,
            is_there: false,
            room,
        })
    }

    fn image(&self) -> Option<&[u8]>
        ensures { option_copied result ≡ self.now.image }
    {
        if self.is_there {
            Some(self.bytes.as_slice())
        } else {
            None
        }
    }

    // Keeps these bytes in place of what is there, if there is room for them, and says whether there is.
    fn put(&mut self, image: &[u8]) -> bool
        ensures room { result ≡ not (nat_lt self.old.room (length image.now)) }
        ensures kept { OnTrue result (self.new ≡ record self.old { image = Some image.now }) }
        ensures stays { OnFalse result (self.new ≡ self.old) }
    {
        if image.len() > self.room {
            return false;
        }
        self.bytes.clear();
        // The memory was taken when the room was made.
        self.bytes.extend_from_slice(image).unwrap();
        self.is_there = true;
        true
    }
}

/// A store of images in memory, seen in contracts as what it holds, how much room it has, and which of its calls fail. The memory for
/// its images is taken when it is made. Gets and puts are numbered each on their own, from 1 on. A get gives a copy.
#[derive(Debug, Drop)]
pub struct MemImages {
    slots: [Slot; 4],
    gets: FailPlan,
    puts: FailPlan,
    tally: ImageTally,
}

impl Model for MemImages {
    ghost use Rattle.nsc_outside.specs.MemImages.{MemImages};

    ghost Value = { MemImages };

    ghost view = { λ s. record { slots = s.slots; gets = s.gets; puts = s.puts; counts = s.tally } };
}

impl MemImages {
    /// A store with no image, and with room for this many bytes for each database. No call fails but for want of room or memory. Fails
    /// only for want of memory.
    pub fn new(alloc: Global, room: usize) -> Result<MemImages, NoMemory>
        ensures { IfOk result (λ store. store ≡ empty_images room) }
    {
        Ok(MemImages {
            slots: [
                Slot::new(alloc, room)?,
                Slot::new(alloc, room)?,
                Slot::new(alloc, room)?,
                Slot::new(alloc, room)?,
            ],
            gets: FailPlan::new(alloc),
            puts: FailPlan::new(alloc),
            tally: ImageTally::new(),
        })
    }

    /// This store, at which the puts with these numbers fail, and no others but for want of room. The first put is 1.
    pub fn failing_puts(mut self, puts: Vec<u64>) -> MemImages
        ensures { result ≡ record self { puts = record self.puts { failing = puts.items } } }
    {
        self.puts.set_failing(puts);
        self
    }

    /// This store, at which the gets with these numbers fail, and no others. The first get is 1, and those that find no memory
    /// or an image that is too long have numbers too.
    pub fn failing_gets(mut self, gets: Vec<u64>) -> MemImages
        ensures { result ≡ record self { gets = record self.gets { failing = gets.items } } }
    {
        self.gets.set_failing(gets);
        self
    }

    /// The image that is held of a database, lent; `None` where there is none.
    pub fn image(&self, db: Db) -> Option<&[u8]>
        ensures { option_copied result ≡ image_in self.now.slots db }
    {
        self.slots[db as usize].image()
    }

    /// How many calls failed or met an image that is too long; the count stops at the greatest `u64`.
    pub fn faults(&self) -> u64
        ensures { result ≡ self.now.counts.faults }
    {
        self.tally.faults()
    }

    /// How often an image of a database was put; the count stops at the greatest `u64`.
    pub fn puts(&self, db: Db) -> u64
        ensures { result ≡ db_count self.now.counts.puts db }
    {
        self.tally.puts(db)
    }

    /// How often a put for a database failed; the count stops at the greatest `u64`.
    pub fn failed_puts(&self, db: Db) -> u64
        ensures { result ≡ db_count self.now.counts.failed_puts db }
    {
        self.tally.failed_puts(db)
    }

    // One get of an image: a copy.
    fn fetch(&mut self, alloc: Global, db: Db) -> Result<Option<Bytes>, ReadCause>
        ensures copy { IfOk result (λ copy. copy ≡ image_in self.old.slots db) }
        ensures fits { IfOk result (λ copy. ImageFits copy) }
        ensures cause { IfErr result (λ cause. IsImageCause (Some (image_in self.old.slots db)) cause) }
        ensures planned { is_failed result ≡ next_fails self.old.gets }
        ensures rest { self.new ≡ record self.old { gets = one_more self.old.gets } }
    {
        if self.gets.begin() {
            return Err(ReadCause::Failed);
        }
        copy_image(alloc, self.image(db))
    }

    // One put of an image, which says whether it is kept.
    fn keep(&mut self, db: Db, image: &[u8]) -> bool
        ensures planned { not result ≡ (next_fails self.old.puts || nat_lt (slot_in self.old.slots db).room (length image.now)) }
        ensures kept { OnTrue result (self.new ≡ record self.old { slots = with_image self.old.slots db image.now; puts = one_more self.old.puts }) }
        ensures held { OnTrue result (image_in self.new.slots db ≡ Some image.now) }
        ensures stays { OnFalse result (self.new ≡ record self.old { puts = one_more self.old.puts }) }
    {
        if self.puts.begin() {
            return false;
        }
        self.slots[db as usize].put(image)
    }
}

// A copy of an image, absent or its bytes. It fails for want of memory, and where the image is too long.
fn copy_image(alloc: Global, image: Option<&[u8]>) -> Result<Option<Bytes>, ReadCause>
    ensures copy { IfOk result (λ copy. copy ≡ option_copied image.entry) }
    ensures fits { IfOk result (λ copy. ImageFits copy) }
    ensures cause { IfErr result (λ cause. IsImageCause (Some (option_copied image.entry)) cause) }
    ensures planned { is_failed result ≡ false }
{
    let Some(bytes) = image else {
        return Ok(None);
    };
    if bytes.len() > IMAGE_LIMIT as usize {
        return Err(ReadCause::TooLong {
            length: bytes.len() as u64,
        });
    }
    Ok(Some(Bytes::copy(alloc, bytes)?))
}

impl ImageStore for MemImages {
    ghost use Rattle.std.specs.Prelude.{Some};
    ghost use Rattle.nsc_outside.specs.ImageTally.{db_count};
    ghost use Rattle.nsc_outside.specs.MemImages.{image_in};

    ghost faults = { λ s. s.counts.faults };

    ghost puts = { λ s. db_count s.counts.puts };

    ghost failed_puts = { λ s. db_count s.counts.failed_puts };

    ghost held = { λ s which. Some (image_in s.slots which) };

    /// Changes nothing.
    fn under(&mut self, _dir: &str) -> Result<(), NoMemory>
        ensures { self.new ≡ self.old }
    {
        Ok(())
    }

    /// Gives a copy of the image. It answers `Failed` exactly where its number is one of those that are to fail.
    fn get(&mut self, alloc: Global, db: Db) -> Result<Option<Bytes>, ReadCause>
        ensures answer { IfOk result (λ image. image ≡ image_in self.old.slots db) }
        ensures fits { IfOk result (λ image. ImageFits image) }
        ensures cause { IfErr result (λ cause. IsImageCause (Some (image_in self.old.slots db)) cause) }
        ensures planned { is_failed result ≡ next_fails self.old.gets }

        // The counts.
        ensures calm { OnOk result (self.new.counts ≡ self.old.counts) }
        ensures faults { IfErr result (λ cause. RoseBy cause self.old.counts.faults self.new.counts.faults) }
        ensures rest { self.new ≡ record self.old { gets = one_more self.old.gets; counts = record self.old.counts { faults = self.new.counts.faults } } }
    {
        let outcome = self.fetch(alloc, db);
        if let Err(cause) = &outcome {
            self.tally.count_cause(*cause);
        }
        outcome
    }

    /// Keeps a copy of the bytes. It fails exactly where its number is one of those that are to fail, and where the bytes are more
    /// than there is room for; then the image that is held stays.
    fn put(&mut self, db: Db, image: &[u8]) -> Result<(), Failed>
        ensures planned { is_err result ≡ (next_fails self.old.puts || nat_lt (slot_in self.old.slots db).room (length image.now)) }

        // The counts.
        ensures calm { OnOk result (self.new.counts.faults ≡ self.old.counts.faults) }
        ensures failed { OnErr result (Rose self.old.counts.faults self.new.counts.faults) }
        ensures put { OnOk result (Rose (db_count self.old.counts.puts db) (db_count self.new.counts.puts db)) }
        ensures not_put { OnErr result (self.new.counts.puts ≡ self.old.counts.puts) }
        ensures other_puts { OthersStay db (db_count self.old.counts.puts) (db_count self.new.counts.puts) }
        ensures failed_put { OnErr result (Rose (db_count self.old.counts.failed_puts db) (db_count self.new.counts.failed_puts db)) }
        ensures none_failed { OnOk result (self.new.counts.failed_puts ≡ self.old.counts.failed_puts) }
        ensures other_failed_puts { OthersStay db (db_count self.old.counts.failed_puts) (db_count self.new.counts.failed_puts) }

        // What the store holds.
        ensures kept { OnOk result (self.new.slots ≡ with_image self.old.slots db image.now) }
        ensures held { OnOk result (image_in self.new.slots db ≡ Some image.now) }
        ensures held_stays { OnErr result (self.new.slots ≡ self.old.slots) }
        ensures other_held { OthersStay db (image_in self.old.slots) (image_in self.new.slots) }
        ensures rest { self.new ≡ record self.old { slots = self.new.slots; puts = one_more self.old.puts; counts = self.new.counts } }
    {
        if self.keep(db, image) {
            self.tally.count_put(db);
            Ok(())
        } else {
            Err(self.tally.fail_put(db))
        }
    }
}
