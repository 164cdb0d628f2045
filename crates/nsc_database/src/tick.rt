// The tick of a database: the poll, an invalidation, or the expiry and reload of entries.
ghost use Rattle.std.specs.Prelude.{◌≡◌, ◌<◌, ◌≤◌, ◌⊎◌, ◌^◌, All, map, IsOk, IfOk, IfErr, IfSome, OnOk};
ghost use Rattle.std.specs.Bool.{OnFalse, OnTrue};
ghost use Rattle.nsc_model.specs.History.{NoneLive, invalidations};
ghost use Rattle.nsc_model.specs.Reloads.{Reloaded};
ghost use Rattle.nsc_model.specs.Machine.{room_of};
ghost use Rattle.nsc_model.specs.Made.{Adds, AddsByRefusedTick};
ghost use Rattle.nsc_model.specs.Stores.{AreLoadedAgain, IsTickFaultAt};
ghost use Rattle.nsc_sourcebook.specs.Reads.{NoneFailed};
ghost use Rattle.nsc_database.specs.Frames.{Goes, Held, LoadedLastCycle, pass_at};
ghost use Rattle.nsc_database.specs.Holds.{IsPolledVersion};
ghost use Rattle.nsc_database.specs.Made.{AddsByRefusedHold, ChecksBy};
ghost use Rattle.nsc_model.specs.Steady.{IsSteady};
ghost use Rattle.nsc_database.specs.Steady.{StaysSteady};
ghost use Rattle.nsc_turns.specs.Loads.{anew_of};
ghost use Rattle.nsc_database.specs.Ticks.{AreOver, EndsInTime, IsChecked, IsDue, IsHoldFault, IsTickedIfCached, fault_from};

use crate::base::Base;
use crate::pass::DbPass;
use crate::room::{OfDb, Room};
use nsc_base::NoMemory;
use nsc_model::{Answerer, CacheFault, LookupFault};
use nsc_outside::FileSet;
use nsc_pruner::Due;
use nsc_sourcebook::Polled;
use nsc_turns::{Checked, loads};
use nsc_writer::Loaded;
use std::alloc::Global;
use std::sync::Wait;

impl<D: OfDb, F: FileSet + Drop, A: Answerer + Drop, B: Room> Base<D, F, A, B> {
    /// A tick at this moment, in seconds.
    pub fn tick<R: Wait>(
        &self,
        rt: &R,
        alloc: Global,
        pass: &mut DbPass<F, B>,
        now: u64,
    ) -> Result<(), LookupFault>
        requires db { pass.old.db ≡ D.db }
        requires moment { now < 2 ^ 62 }
        ensures frame { Goes pass.old pass.new }
        ensures steady { OnTrue self.now.settings.enabled (IsSteady B.held D.db pass.new.pass.seen) }
        ensures ticked { OnOk result (IsTickedIfCached D.db self.now.settings (B.brought D.db) self.now.reloads now (pass_at pass.old) (pass_at pass.new)) }
        ensures uncached { OnFalse self.now.settings.enabled (IsOk result × (pass.new ≡ pass.old)) }
        ensures fault { IfErr result (IsTickFaultAt self.now.settings now (pass_at pass.old) (pass_at pass.new)) }
        ensures no_fault { OnOk result (NoneFailed F.FileSet pass.old.files pass.new.files) }
        ensures refused { IfErr result (AddsByRefusedTick (pass_at pass.old) (pass_at pass.new)) }
    {
        if !self.settings.enabled {
            pass.learn();
            return Ok(());
        }
        let epoch = match self.note(rt, pass) {
            Ok(epoch) => epoch,
            Err(_) => return Err(LookupFault::NoMemory),
        };
        let polled = match self.poll(rt, alloc, pass, epoch) {
            Ok(polled) => polled,
            Err(fault) => return Err(fault),
        };
        let checked = match self.check(rt, alloc, pass, now) {
            Ok(checked) => checked,
            Err(fault) => return Err(fault),
        };
        match checked {
            Checked::Emptied => Ok(()),
            Checked::Listed(due) => {
                match self.renew(rt, alloc, pass, &polled, epoch, due, now) {
                    Ok(()) => Ok(()),
                    Err(fault) => Err(fault),
                }
            }
        }
    }

    // Where the files changed since the last tick, and that counts, every entry ends; else it says which are due.
    fn check<R: Wait>(
        &self,
        rt: &R,
        alloc: Global,
        pass: &mut DbPass<F, B>,
        now: u64,
    ) -> Result<Checked, LookupFault>
        requires { pass.old.db ≡ D.db }
        ensures frame { Held pass.old pass.new }
        ensures steady { IsSteady B.held D.db pass.new.pass.seen }
        ensures checked { IfOk result (λ checked. IsChecked checked self.now.settings (B.brought D.db) self.now.reloads now pass.new.pass.seen) }
        ensures reloaded { OnOk result (Reloaded (B.brought D.db) self.now.reloads pass.new.pass.seen) }
        ensures again { OnOk result (AreLoadedAgain (room_of self.now.settings) pass.new.pass.seen ⊎ LoadedLastCycle pass.old pass.new) }
        ensures fault { IfErr result (λ fault. IsHoldFault fault pass.new.pass.seen (LoadedLastCycle pass.old pass.new) (NoneLive pass.new.pass.seen)) }
        ensures made { IfOk result (λ checked. Adds (ChecksBy checked) (pass_at pass.old) (pass_at pass.new)) }
        ensures refused { IfErr result (AddsByRefusedHold (pass_at pass.old) (pass_at pass.new)) }
    {
        let mut lock = self.desk.lock(rt);
        let desk = &mut *lock;
        desk.follow(pass)?;
        let checked = desk.check(alloc, &self.settings, self.reloads, now, &mut pass.made);
        desk.show_cycle(pass);
        checked
    }

    // Answers what is to be loaded again, ends those that are due, and loads it.
    fn renew<R: Wait>(
        &self,
        rt: &R,
        alloc: Global,
        pass: &mut DbPass<F, B>,
        polled: &Polled<A>,
        epoch: u64,
        mut due: Vec<Due>,
        now: u64,
    ) -> Result<(), LookupFault>
        requires db { pass.old.db ≡ D.db }
        requires moment { now < 2 ^ 62 }
        requires noted { epoch ≤ invalidations pass.old.pass.seen }
        requires due { All (IsDue (B.brought D.db) self.now.reloads now pass.old.pass.seen) due.items }
        requires polled { IsPolledVersion pass.old.pass.seen epoch polled.now }
        ensures frame { Held pass.old pass.new }
        ensures steady { StaysSteady B.held D.db pass.old.pass.seen pass.new.pass.seen }
        ensures over { OnOk result (AreOver epoch pass.new.pass.seen due.items) }
        ensures reloaded { OnOk result (Reloaded (B.brought D.db) self.now.reloads pass.new.pass.seen) }
        ensures again { OnOk result (AreLoadedAgain (room_of self.now.settings) pass.new.pass.seen ⊎ LoadedLastCycle pass.old pass.new) }
        ensures fault { IfErr result (λ fault. IsHoldFault fault pass.new.pass.seen (LoadedLastCycle pass.old pass.new) (AreOver epoch pass.new.pass.seen due.items)) }
        ensures refused { IfErr result (AddsByRefusedHold (pass_at pass.old) (pass_at pass.new)) }
    {
        pass.learn();
        let loads = match self.loads(alloc, polled, &due, now) {
            Ok(loads) => loads,
            Err(_) => return Err(LookupFault::NoMemory),
        };
        let mut lock = self.desk.lock(rt);
        let desk = &mut *lock;
        desk.follow(pass)?;
        let renewed = desk.renew(epoch, &mut due, &loads, now, &mut pass.made);
        desk.show_cycle(pass);
        match renewed {
            Ok(()) => Ok(()),
            Err(spent) => Err(LookupFault::Spent { count: spent.count }),
        }
    }

    // What is to be loaded again for those that are due, over the content that was polled. Several answers are worth that it is
    // prepared further.
    fn loads(
        &self,
        alloc: Global,
        polled: &Polled<A>,
        due: &[Due],
        now: u64,
    ) -> Result<Vec<Option<Loaded>>, NoMemory>
        requires { now < 2 ^ 62 }
        ensures made { IfOk result (λ loads. loads.items ≡ map (anew_of (record { settings = self.now.settings; stamp = polled.now.stamp; moment = now }) polled.now.content) due.now) }
        ensures soon { EndsInTime (record { settings = self.now.settings; stamp = polled.now.stamp; moment = now }) }
    {
        let further = self.further(alloc, polled, due.len());
        let ready = match &further {
            Some(further) => further,
            None => polled.ready(),
        };
        let answering = self.answering(polled, now);
        loads(alloc, &self.answers, ready, &answering, due)
    }

    // The content that was polled, prepared further if that serves `count` answers better.
    fn further(&self, alloc: Global, polled: &Polled<A>, count: usize) -> Option<A::Ready>
        ensures { IfSome result (λ made. A.prepared_from made ≡ polled.now.content) }
    {
        if count < 2 {
            return None;
        }
        self.answers.prepare_further(alloc, polled.ready())
    }
}

/// Tells why a call of a cache gave up, as a lookup does.
pub(crate) fn lookup_fault(fault: CacheFault) -> LookupFault
    ensures { result ≡ fault_from fault }
{
    match fault {
        CacheFault::NoMemory => LookupFault::NoMemory,
        CacheFault::Spent { count } => LookupFault::Spent { count },
    }
}
