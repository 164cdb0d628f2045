// `Machine`: the state of a replay, and its change by one frame.
ghost use Rattle.std.specs.Prelude.{◌≡◌, ◌≤◌, length, Some, None, IfOk, IfErr, IfSome, OnOk};
ghost use Rattle.nsc_model.specs.Answer.{reply_limit};
ghost use Rattle.nsc_model.specs.Files.{FileFits, with_file};
ghost use Rattle.nsc_model.specs.Entry.{key_limit};
ghost use Rattle.nsc_model.specs.Wire.{request_of};
ghost use Rattle.nsc_model.specs.Replay.{request_frame, invalidate_frame, first_state, look_frame, time_frame, turn_of};
ghost use Rattle.nsc_model.specs.Sizes.{SizesFit};
ghost use Rattle.nsc_replay.specs.Frame.{FrameFits, said};
ghost use Rattle.nsc_replay.specs.Turns.{GoesTo, TurnFaults};

use crate::cached::Cached;
use crate::frame::Frame;
use crate::sources::{SharedFile, Sources};
use nsc_base::{Bytes, NoMemory};
use nsc_model::{Answerer, CacheFault, Conf, Databases, Db, FileId, Kind};
use nsc_wire::{Wire, read_request};
use std::alloc::Global;
use std::cmp::{max, min};
use std::marker::Model;

/// The machine of a replay: its settings, the files as they are, the moment in seconds, and the four databases.
#[derive(Drop)]
pub struct Machine<A: Answerer> {
    conf: Conf,
    sources: Sources,
    moment: u64,
    databases: Databases<Cached<A>>,
}

impl<A: Answerer> Model for Machine<A> {
    ghost use Rattle.nsc_replay.specs.Machine.{Machine, Agrees, state_of};

    ghost Value = { Machine };

    ghost view = { λ m. record { settings = m.conf; state = state_of m.sources m.moment m.databases } };

    ghost invariant = { λ m. Agrees m.conf m.sources m.moment m.databases };
}

// The greatest moment, in seconds: 2^62 - 1.
const LAST_MOMENT: u64 = 4_611_686_018_427_387_903;

impl<A: Answerer> Machine<A> {
    /// Every file absent, moment 0, and four empty caches with these settings. Fails only for want of memory.
    pub fn new(alloc: Global, conf: &Conf) -> Result<Machine<A>, NoMemory>
        requires { SizesFit conf.now }
        ensures { IfOk result (λ machine. machine ≡ record { settings = conf.now; state = first_state }) }
    {
        Ok(Machine {
            conf: *conf,
            sources: Sources::none(),
            moment: 0,
            databases: Databases {
                passwd: Cached::new(alloc, conf.passwd, conf.reloads)?,
                group: Cached::new(alloc, conf.group, conf.reloads)?,
                hosts: Cached::new(alloc, conf.hosts, conf.reloads)?,
                services: Cached::new(alloc, conf.services, conf.reloads)?,
            },
        })
    }

    /// One frame through the machine: the reply that is to be written, if the frame is an input of a connection, of at
    /// most 2^30 bytes; an empty one where the input asks for no lookup.
    ///
    /// `Spent` comes where a count stands at its end.
    pub fn turn(
        &mut self,
        alloc: Global,
        answers: &A,
        frame: Frame<'_>,
    ) -> Result<Option<Bytes>, CacheFault>
        requires { FrameFits frame }
        ensures settings { self.new.settings ≡ self.old.settings }
        ensures bound { IfOk result (λ reply. IfSome reply (λ bytes. length bytes ≤ reply_limit)) }
        ensures turn { IfOk result (λ reply. GoesTo (turn_of self.old.settings self.old.state (said frame.entry)) self.new.state reply) }
        ensures fault { IfErr result (TurnFaults (turn_of self.old.settings self.old.state (said frame.entry))) }
    {
        match frame {
            Frame::Request { input } => Ok(Some(self.request(alloc, answers, input)?)),
            Frame::SetFile { file, bytes } => {
                self.set_file(alloc, file, bytes)?;
                Ok(None)
            }
            Frame::Time { moment } => {
                self.advance(alloc, answers, moment)?;
                Ok(None)
            }
            Frame::Invalidate { db } => {
                self.invalidate(db)?;
                Ok(None)
            }
            Frame::End => Ok(None),
        }
    }

    // The input of one connection.
    fn request(&mut self, alloc: Global, answers: &A, input: &[u8]) -> Result<Bytes, CacheFault>
        ensures settings { self.new.settings ≡ self.old.settings }
        ensures bound { IfOk result (λ reply. length reply ≤ reply_limit) }
        ensures turn { IfOk result (λ reply. GoesTo (request_frame self.old.settings self.old.state (request_of input.now)) self.new.state (Some reply)) }
        ensures fault { IfErr result (TurnFaults (request_frame self.old.settings self.old.state (request_of input.now))) }
    {
        match read_request(input) {
            Wire::Request { kind, key } => self.lookup(alloc, answers, kind, key.of(input)),
            Wire::Descriptor
            | Wire::Netgroup
            | Wire::Shutdown
            | Wire::Stat
            | Wire::Invalidate { .. }
            | Wire::Short { .. }
            | Wire::BadVersion(_)
            | Wire::BadType(_)
            | Wire::BadLength(_) => Ok(Bytes::from_vec(Vec::new(alloc))),
        }
    }

    // A lookup, in the database of its kind.
    fn lookup(
        &mut self,
        alloc: Global,
        answers: &A,
        kind: Kind,
        key: &[u8],
    ) -> Result<Bytes, CacheFault>
        requires { length key.now ≤ key_limit }
        ensures settings { self.new.settings ≡ self.old.settings }
        ensures bound { IfOk result (λ reply. length reply ≤ reply_limit) }
        ensures turn { IfOk result (λ reply. GoesTo (look_frame self.old.settings self.old.state (record { kind = kind; key = key.now })) self.new.state (Some reply)) }
        ensures fault { IfErr result (TurnFaults (look_frame self.old.settings self.old.state (record { kind = kind; key = key.now }))) }
    {
        self.databases
            .of_mut(Db::of(kind))
            .lookup(alloc, answers, kind, key, self.moment)
    }

    // A file becomes this. All memory is taken before anything changes.
    fn set_file(
        &mut self,
        alloc: Global,
        file: FileId,
        bytes: Option<Bytes>,
    ) -> Result<(), NoMemory>
        requires { FileFits bytes }
        ensures settings { self.new.settings ≡ self.old.settings }
        ensures set { OnOk result (self.new.state ≡ record self.old.state { files = with_file self.old.state.files file bytes }) }
    {
        let held = SharedFile::new(alloc, bytes)?;
        let passwd = self.sources.part_with(alloc, Db::Passwd, file, &held)?;
        let group = self.sources.part_with(alloc, Db::Group, file, &held)?;
        let hosts = self.sources.part_with(alloc, Db::Hosts, file, &held)?;
        let services = self.sources.part_with(alloc, Db::Services, file, &held)?;
        self.databases.passwd.set_files(passwd);
        self.databases.group.set_files(group);
        self.databases.hosts.set_files(hosts);
        self.databases.services.set_files(services);
        self.sources.set(file, held);
        Ok(())
    }

    // The moment becomes this one, unless it is later already, and every database is ticked.
    fn advance(&mut self, alloc: Global, answers: &A, moment: u64) -> Result<(), CacheFault>
        ensures settings { self.new.settings ≡ self.old.settings }
        ensures turn { OnOk result (GoesTo (time_frame self.old.settings self.old.state moment) self.new.state None) }
        ensures fault { IfErr result (TurnFaults (time_frame self.old.settings self.old.state moment)) }
    {
        self.moment = max(self.moment, min(moment, LAST_MOMENT));
        self.databases.passwd.tick(alloc, answers, self.moment)?;
        self.databases.group.tick(alloc, answers, self.moment)?;
        self.databases.hosts.tick(alloc, answers, self.moment)?;
        self.databases.services.tick(alloc, answers, self.moment)
    }

    // A database is invalidated.
    fn invalidate(&mut self, db: Db) -> Result<(), CacheFault>
        ensures settings { self.new.settings ≡ self.old.settings }
        ensures turn { OnOk result (GoesTo (invalidate_frame self.old.state db) self.new.state None) }
        ensures fault { IfErr result (TurnFaults (invalidate_frame self.old.state db)) }
    {
        self.databases.of_mut(db).invalidate()
    }
}
