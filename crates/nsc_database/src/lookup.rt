// Lookups.
ghost use Rattle.std.specs.Prelude.{◌≡◌, ◌≤◌, ◌<◌, ◌^◌, length, IfOk, IfErr, OnOk};
ghost use Rattle.nsc_model.specs.Answers.{answer_of};
ghost use Rattle.nsc_model.specs.Entry.{key_limit};
ghost use Rattle.nsc_model.specs.Kinds.{database_of};
ghost use Rattle.nsc_model.specs.Made.{AddsByLookup, AddsByRefusedLookup};
ghost use Rattle.nsc_model.specs.Stores.{GivesAnswerAt, GivesUpAt, IsOfFilesAt};
ghost use Rattle.nsc_sourcebook.specs.Reads.{NoneFailed};
ghost use Rattle.nsc_database.specs.Frames.{Goes, Held, pass_at};
ghost use Rattle.nsc_database.specs.Lookups.{IsFoundIfCached};
ghost use Rattle.nsc_model.specs.Steady.{IsSteady};

use crate::base::Base;
use crate::pass::DbPass;
use crate::room::{OfDb, Room};
use nsc_base::{Bytes, NoMemory};
use nsc_model::{Answerer, Given, Kind, LookupFault, Why};
use nsc_outside::FileSet;
use nsc_sourcebook::Polled;
use nsc_turns::HitOrMiss;
use std::alloc::Global;
use std::sync::Wait;

impl<D: OfDb, F: FileSet + Drop, A: Answerer + Drop, B: Room> Base<D, F, A, B> {
    /// A lookup of the request of this kind and key at this moment, in seconds.
    pub fn lookup<R: Wait>(
        &self,
        rt: &R,
        alloc: Global,
        pass: &mut DbPass<F, B>,
        kind: Kind,
        key: &[u8],
        now: u64,
    ) -> Result<Given, LookupFault>
        requires db { pass.old.db ≡ D.db }
        requires kind { database_of kind ≡ D.db }
        requires key { length key.now ≤ key_limit }
        requires moment { now < 2 ^ 62 }
        ensures frame { Goes pass.old pass.new }
        ensures steady { IsSteady B.held D.db pass.new.pass.seen }
        ensures answer { IfOk result (GivesAnswerAt self.now.settings now (pass_at pass.old) (pass_at pass.new) (record { kind = kind; key = key.now })) }
        ensures files { IfOk result (IsOfFilesAt D.db B.held (pass_at pass.old) (pass_at pass.new) (record { kind = kind; key = key.now })) }
        ensures fault { IfErr result (GivesUpAt self.now.settings (pass_at pass.old) (pass_at pass.new) (record { kind = kind; key = key.now })) }
        ensures no_fault { OnOk result (NoneFailed F.FileSet pass.old.files pass.new.files) }
        ensures made { IfOk result (AddsByLookup self.now.settings (record { kind = kind; key = key.now }) (pass_at pass.old) (pass_at pass.new)) }
        ensures refused { IfErr result (AddsByRefusedLookup (pass_at pass.old) (pass_at pass.new)) }
    {
        let found = match self.find(rt, pass, kind, key) {
            Ok(found) => found,
            Err(_) => return Err(LookupFault::NoMemory),
        };
        let epoch = match found {
            HitOrMiss::Hit(hit) => match Bytes::copy(alloc, pass.reply.bytes()) {
                Ok(bytes) => {
                    return Ok(Given::Hit {
                        bytes,
                        number: hit.number,
                    });
                }
                Err(_) => return Err(LookupFault::NoMemory),
            },
            HitOrMiss::Missed { epoch } => epoch,
        };
        let polled = match self.poll(rt, alloc, pass, epoch) {
            Ok(polled) => polled,
            Err(fault) => return Err(fault),
        };
        if !self.settings.enabled {
            let bytes = match self.reply(rt, alloc, &polled, kind, key) {
                Ok(bytes) => bytes,
                Err(_) => return Err(LookupFault::NoMemory),
            };
            return Ok(Given::Fresh {
                bytes,
                why: Why::Disabled,
            });
        }
        let insertions = match self.load(alloc, &polled, kind, key, now) {
            Ok(insertions) => insertions,
            Err(_) => return Err(LookupFault::NoMemory),
        };
        match self.keep(rt, alloc, pass, insertions) {
            Ok(given) => Ok(given),
            Err(_) => Err(LookupFault::NoMemory),
        }
    }

    // Looks for the live entry of the request, where the database is cached. The pass has seen the whole history in either case.
    fn find<R: Wait>(
        &self,
        rt: &R,
        pass: &mut DbPass<F, B>,
        kind: Kind,
        key: &[u8],
    ) -> Result<HitOrMiss, NoMemory>
        requires { pass.old.db ≡ D.db }
        ensures frame { Held pass.old pass.new }
        ensures found { IfOk result (λ found. IsFoundIfCached self.now.settings found pass.new.pass.seen (record { kind = kind; key = key.now }) pass.new.reply.content) }
        ensures steady { IsSteady B.held D.db pass.new.pass.seen }
        ensures made { pass.new.made ≡ pass.old.made }
    {
        if self.settings.enabled {
            return self.look(rt, pass, kind, key);
        }
        let _epoch = self.note(rt, pass)?;
        Ok(HitOrMiss::Missed { epoch: 0 })
    }

    // The answer over a polled content, which is not to be inserted. Counts a miss.
    fn reply<R: Wait>(
        &self,
        rt: &R,
        alloc: Global,
        polled: &Polled<A>,
        kind: Kind,
        key: &[u8],
    ) -> Result<Bytes, NoMemory>
        ensures { IfOk result (λ bytes. bytes ≡ (answer_of polled.now.content (record { kind = kind; key = key.now })).bytes) }
    {
        let answer = self.answers.answer(alloc, polled.ready(), kind, key)?;
        self.desk.lock(rt).miss(answer.is_not_found());
        Ok(answer.into_bytes())
    }
}
