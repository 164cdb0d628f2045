// `Made`: the reply to an admitted request; lookups and invalidations in the stores.
ghost use Rattle.std.specs.Prelude.{◌≡◌, ◌≤◌, ◌<◌, ◌^◌, length, IfErr, IfOk};
ghost use Rattle.nsc_model.specs.Databases.{database_in};
ghost use Rattle.nsc_model.specs.Stores.{IsEmptied, reply_of};
ghost use Rattle.nsc_model.specs.History.{Legal};
ghost use Rattle.nsc_model.specs.Entry.{key_limit};
ghost use Rattle.nsc_model.specs.Kinds.{database_of};
ghost use Rattle.nsc_server.specs.Made.{GivesAnswerIn, GivesUpIn, IsInvalidateFaultIn, bytes_of};
ghost use Rattle.nsc_server.specs.Passes.{AreNamed, ArePasses, SawMore, OthersThan, passes_at};

use crate::served::Served;
use nsc_base::Bytes;
use nsc_model::{CacheFault, Databases, Db, Given, Kind, LookupFault, Store};
use std::alloc::Global;
use std::sync::Wait;

// A reply.
#[derive(Drop)]
pub(crate) enum Made {
    // Of a lookup, or the text of statistics.
    Told(Bytes),
    // What was asked is done.
    Done,
    // No database has the name.
    NoDatabase,
}

// The fields of four bytes that answer control requests: 0, and EINVAL of errno.h.
const DONE: [u8; 4] = [0, 0, 0, 0];

const NO_DATABASE: [u8; 4] = [22, 0, 0, 0];

impl Made {
    // Its bytes.
    pub(crate) fn as_slice(&self) -> &[u8]
        ensures { result.now ≡ bytes_of self.now }
    {
        match self {
            Made::Told(bytes) => bytes.as_slice(),
            Made::Done => &DONE,
            Made::NoDatabase => &NO_DATABASE,
        }
    }
}

// The reply that a lookup gave.
pub(crate) fn reply_bytes(given: Given) -> Bytes
    ensures { result ≡ reply_of given }
{
    match given {
        Given::Hit { bytes, .. } | Given::Loaded { bytes, .. } | Given::Fresh { bytes, .. } => {
            bytes
        }
    }
}

// A lookup in one of the databases.
pub(crate) fn look_up<R: Wait, S: Store>(
    rt: &R,
    alloc: Global,
    stores: &Databases<S>,
    passes: &mut Databases<S::Pass>,
    kind: Kind,
    key: &[u8],
    now: u64,
    db: Db,
) -> Result<Given, LookupFault>
    requires named { AreNamed S.Store stores.now }
    requires passes { ArePasses S.Store stores.now passes.old }
    requires db { database_of kind ≡ db }
    requires key { length key.now ≤ key_limit }
    requires moment { now < 2 ^ 62 }
    ensures passes { ArePasses S.Store stores.now passes.new }
    ensures before { SawMore (passes_at S.Store passes.old) (passes_at S.Store passes.new) }
    ensures others { OthersThan db (passes_at S.Store passes.old) (passes_at S.Store passes.new) }
    ensures legal { Legal (database_in (passes_at S.Store passes.new) db).seen }
    ensures answer { IfOk result (GivesAnswerIn S.Store stores.now now passes.old passes.new db (record { kind = kind; key = key.now })) }
    ensures fault { IfErr result (GivesUpIn S.Store stores.now passes.old passes.new db (record { kind = kind; key = key.now })) }
{
    match db {
        Db::Passwd => stores
            .passwd
            .lookup(rt, alloc, &mut passes.passwd, kind, key, now),
        Db::Group => stores
            .group
            .lookup(rt, alloc, &mut passes.group, kind, key, now),
        Db::Hosts => stores
            .hosts
            .lookup(rt, alloc, &mut passes.hosts, kind, key, now),
        Db::Services => stores
            .services
            .lookup(rt, alloc, &mut passes.services, kind, key, now),
    }
}

// Empties one of the databases.
pub(crate) fn empty<R: Wait, S: Store>(
    rt: &R,
    stores: &Databases<S>,
    passes: &mut Databases<S::Pass>,
    db: Db,
) -> Result<u64, CacheFault>
    requires { ArePasses S.Store stores.now passes.old }
    ensures passes { ArePasses S.Store stores.now passes.new }
    ensures before { SawMore (passes_at S.Store passes.old) (passes_at S.Store passes.new) }
    ensures others { OthersThan db (passes_at S.Store passes.old) (passes_at S.Store passes.new) }
    ensures legal { Legal (database_in (passes_at S.Store passes.new) db).seen }
    ensures done { IfOk result (λ epoch. IsEmptied (database_in (passes_at S.Store passes.old) db).seen (database_in (passes_at S.Store passes.new) db).seen epoch) }
    ensures fault { IfErr result (λ fault. IsInvalidateFaultIn S.Store passes.old passes.new db fault) }
{
    match db {
        Db::Passwd => stores.passwd.invalidate(rt, &mut passes.passwd),
        Db::Group => stores.group.invalidate(rt, &mut passes.group),
        Db::Hosts => stores.hosts.invalidate(rt, &mut passes.hosts),
        Db::Services => stores.services.invalidate(rt, &mut passes.services),
    }
}
