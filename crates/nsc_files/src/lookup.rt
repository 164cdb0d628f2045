// The outcomes of the services `files` and `extrausers` for a request of any kind.
ghost use Rattle.std.specs.Prelude.{◌≡◌, IfOk};
ghost use Rattle.nsc_model.specs.declared.switch.SwitchService.TheVariants.{Files, Extrausers};
ghost use Rattle.nsc_model.specs.Answers.{answer_by, service_answer};
ghost use Rattle.nsc_model.specs.Files.{file_of};

use crate::finder::Finder;
use crate::groups::{group_by_id, group_by_name, groups_of_user};
use crate::hosts::{addresses_by_name, host_by_address, host_by_name};
use crate::services::{service_by_name, service_by_port};
use crate::users::{user_by_id, user_by_name};
use nsc_base::NoMemory;
use nsc_model::{Db, FileId, Kind, Looked};
use std::alloc::Global;

// The address families of the protocol.
const IPV4: u8 = 2;

const IPV6: u8 = 10;

/// The outcome of the service `files` for the request of this kind and key: unavailable where the database's file is
/// absent, else the first entry of the file that the request names. Fails only for want of memory.
pub fn files_lookup<F: Finder>(
    alloc: Global,
    finder: &F,
    kind: Kind,
    key: &[u8],
) -> Result<Looked, NoMemory>
    ensures { IfOk result (λ looked. looked ≡ service_answer (F.content finder.now) (record { kind = kind; key = key.now }) Files) }
{
    let file = match Db::of(kind) {
        Db::Passwd => FileId::Passwd,
        Db::Group => FileId::Group,
        Db::Hosts => FileId::Hosts,
        Db::Services => FileId::Services,
    };
    look_in(alloc, finder, file, kind, key)
}

/// The outcome of the service `extrausers` for the request of this kind and key, over the extra files of users and
/// groups by the rules of `files`; unavailable for hosts and services. Fails only for want of memory.
pub fn extra_lookup<F: Finder>(
    alloc: Global,
    finder: &F,
    kind: Kind,
    key: &[u8],
) -> Result<Looked, NoMemory>
    ensures { IfOk result (λ looked. looked ≡ service_answer (F.content finder.now) (record { kind = kind; key = key.now }) Extrausers) }
{
    match Db::of(kind) {
        Db::Passwd => look_in(alloc, finder, FileId::ExtraPasswd, kind, key),
        Db::Group => look_in(alloc, finder, FileId::ExtraGroup, kind, key),
        Db::Hosts | Db::Services => Ok(Looked::Unavail),
    }
}

// The outcome of a request over one of the files.
fn look_in<F: Finder>(
    alloc: Global,
    finder: &F,
    file: FileId,
    kind: Kind,
    key: &[u8],
) -> Result<Looked, NoMemory>
    ensures { IfOk result (λ looked. looked ≡ answer_by kind (file_of (F.content finder.now) file) key.now) }
{
    let Some(text) = finder.content().file(file) else {
        return Ok(Looked::Unavail);
    };
    match kind {
        Kind::PwName => user_by_name(alloc, finder, file, text, key),
        Kind::PwUid => user_by_id(alloc, finder, file, text, key),
        Kind::GrName => group_by_name(alloc, finder, file, text, key),
        Kind::GrGid => group_by_id(alloc, finder, file, text, key),
        Kind::InitGroups => groups_of_user(alloc, finder, file, text, key),
        Kind::HostName => host_by_name(alloc, finder, file, text, key, IPV4),
        Kind::HostName6 => host_by_name(alloc, finder, file, text, key, IPV6),
        Kind::HostAddr => host_by_address(alloc, finder, file, text, key),
        Kind::HostAddr6 => host_by_address(alloc, finder, file, text, key),
        Kind::Ai => addresses_by_name(alloc, finder, file, text, key),
        Kind::ServName => service_by_name(alloc, finder, file, text, key),
        Kind::ServPort => service_by_port(alloc, finder, file, text, key),
        // No service answers for netgroups yet.
        Kind::NetgrEnt | Kind::InNetgr => Ok(Looked::Unavail),
    }
}
