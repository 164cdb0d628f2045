// A writer whose table grows.
ghost use Rattle.std.specs.Prelude.{◌≡◌, ◌≤◌, None, IfOk, IfSome, length};
ghost use Rattle.nsc_model.specs.Entry.{key_limit};
ghost use Rattle.nsc_words.specs.Layout.{IsLayout};

use crate::caller::Caller;
use crate::loading::{insert_key, number_in};
use crate::names::{USERS, absent_name, user_name};
use crate::roomier::roomier;
use nsc_base::NoMemory;
use nsc_model::{CacheFault, Content};
use nsc_seats::{Left, Seats};
use nsc_words::Layout;
use nsc_writer::{Inserted, Writer};
use std::alloc::Global;
use std::marker::Model;
use std::sync::Arc;

/// A writer that goes over to a larger table where an insertion finds no room, and the tables that it left.
#[derive(Drop)]
pub struct Grower {
    writer: Writer,
    left: Left,
    growths: u32,
    files: Arc<Content>,
    // The most bytes of a table.
    limit: u32,
}

impl Model for Grower {
    ghost use Rattle.atomic_table.specs.Seated.{TableId};
    ghost use Rattle.nsc_reader_trials.specs.First.{Grows, first_table};

    ghost Value = { TableId };

    ghost view = { λ g. first_table g.left g.writer.table };

    ghost invariant = { λ g. Grows g.left g.writer };
}

impl Grower {
    /// A writer of no entry over these files, and a caller at its first table. Fails only for want of memory.
    pub fn new(
        alloc: Global,
        layout: Layout,
        files: Arc<Content>,
        limit: u32,
    ) -> Result<(Grower, Caller), NoMemory>
        requires { IsLayout layout }
        ensures { IfOk result (λ r. r.1 ≡ r.0) }
    {
        let (writer, pass) = Writer::new(alloc, layout, files.clone()?)?;
        let seats = Seats::new(alloc, writer.map().share()?, pass)?;
        let caller = Caller::new(alloc, seats)?;
        let grower = Grower {
            writer,
            left: Left::none(alloc),
            growths: 0,
            files,
            limit,
        };
        Ok((grower, caller))
    }

    /// How its table is laid out.
    pub fn layout(&self) -> Layout {
        self.writer.map().layout()
    }

    /// How often it went over to another table.
    pub fn growths(&self) -> u32 {
        self.growths
    }

    /// Inserts the answer for the name of a number: the number of the entry, or `None` where it is refused.
    pub fn insert(&mut self, alloc: Global, number: u64) -> Result<Option<u64>, CacheFault>
        ensures { self.new ≡ self.old }
    {
        if number < USERS {
            self.insert_name(alloc, &user_name(number))
        } else {
            self.insert_name(alloc, &absent_name(number))
        }
    }

    // The same of a name. Where there is no room, it is tried once more at a larger table.
    fn insert_name(&mut self, alloc: Global, name: &[u8]) -> Result<Option<u64>, CacheFault>
        requires { length name.now ≤ key_limit }
        ensures { self.new ≡ self.old }
    {
        let said = self.try_name(alloc, name)?;
        if let Some(Inserted::Full { need, free: _ }) = said {
            if self.grow(alloc, need)? {
                let again = self.try_name(alloc, name)?;
                return Ok(number_in(again));
            }
        }
        Ok(number_in(said))
    }

    // Tries an insertion. Fails only for want of memory.
    fn try_name(&mut self, alloc: Global, name: &[u8]) -> Result<Option<Inserted>, NoMemory>
        requires { length name.now ≤ key_limit }
        ensures { self.new ≡ self.old }
    {
        insert_key(alloc, &mut self.writer, &self.files, name)
    }

    // Goes over to the next table that has room for `need` more words, and says whether there is one.
    fn grow(&mut self, alloc: Global, need: u64) -> Result<bool, CacheFault>
        ensures { self.new ≡ self.old }
    {
        let Some(larger) = roomier(&mut self.writer, self.limit, need) else {
            return Ok(false);
        };
        self.left.enlarge(alloc, &mut self.writer, larger)?;
        self.growths = self.growths.saturating_add(1);
        Ok(true)
    }

    /// A caller goes on to its table. Fails only for want of memory.
    pub fn lead(&mut self, caller: &mut Caller) -> Result<(), NoMemory>
        requires { caller.old ≡ self.old }
        ensures same { self.new ≡ self.old }
        ensures caller { caller.new ≡ caller.old }
    {
        caller.follow(&mut self.left, &mut self.writer)
    }
}
