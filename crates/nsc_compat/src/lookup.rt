// The outcome of the service compat, nsswitch.conf(5), for a request of any kind.
ghost use Rattle.std.specs.Prelude.{◌≡◌, IfOk};
ghost use Rattle.nsc_model.specs.Answers.{compat_answer};

use crate::asking::{Asking, Naming};
use crate::entries::entry;
use crate::member_ids::ids_of_user;
use crate::sub::SubLookup;
use nsc_accounts::Sought;
use nsc_base::{NoMemory, decimal};
use nsc_model::{Group, Kind, Looked, Passwd};
use std::alloc::Global;

/// The outcome of the service compat for the request of this kind and key, over the content of the sub-lookup: the
/// lines of the database's file in turn, with the names that are excluded so far. Unavailable where the file is
/// absent, where a netgroup is reached, and for hosts and services, which have no compat. Fails only for want of memory.
#[tactic(auto, unfolding(nsc_model::specs::Answers::compat_answer))]
pub fn compat_lookup<S: SubLookup>(
    alloc: Global,
    kind: Kind,
    key: &[u8],
    sub: &S,
) -> Result<Looked, NoMemory>
    ensures { IfOk result (λ looked. looked ≡ compat_answer (S.content sub.now) (record { kind = kind; key = key.now })) }
{
    let id = decimal(key);
    let by_name = Asking {
        kind,
        key,
        wanted: Naming::Name(key),
    };
    let by_id = Asking {
        kind,
        key,
        wanted: Naming::Id(id),
    };
    match kind {
        Kind::PwName => {
            let lines = sub.lines(alloc, Sought::User(key))?;
            entry::<Passwd, S>(alloc, by_name, sub, &lines)
        }
        Kind::PwUid => {
            let lines = sub.lines(alloc, Sought::UserId(id))?;
            entry::<Passwd, S>(alloc, by_id, sub, &lines)
        }
        Kind::GrName => {
            let lines = sub.lines(alloc, Sought::Group(key))?;
            entry::<Group, S>(alloc, by_name, sub, &lines)
        }
        Kind::GrGid => {
            let lines = sub.lines(alloc, Sought::GroupId(id))?;
            entry::<Group, S>(alloc, by_id, sub, &lines)
        }
        Kind::InitGroups => {
            let lines = sub.lines(alloc, Sought::Member(key))?;
            ids_of_user(alloc, key, sub, &lines)
        }
        Kind::HostName
        | Kind::HostName6
        | Kind::HostAddr
        | Kind::HostAddr6
        | Kind::Ai
        | Kind::ServName
        | Kind::ServPort
        | Kind::NetgrEnt
        | Kind::InNetgr => Ok(Looked::Unavail),
    }
}
