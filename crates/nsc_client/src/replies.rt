// Replies of the stores of the databases: by a search in place, or else by a lookup.
ghost use Rattle.std.specs.Prelude.{◌≡◌, ◌≤◌, ◌<◌, ◌^◌, ◌∷◌, [], length, IfErr, IfOk};
ghost use Rattle.nsc_model.specs.Entry.{key_limit, kept_limit};
ghost use Rattle.nsc_model.specs.Kinds.{database_of};
ghost use Rattle.nsc_model.specs.Stores.{Continues};
ghost use Rattle.nsc_model.specs.Wire.{Spells};
ghost use Rattle.nsc_client.specs.declared.link.LinkFault.TheVariants.{NoMemory as Memory};
ghost use Rattle.nsc_model.specs.Databases.{database_in};
ghost use Rattle.nsc_client.specs.Gate.{AreNamed, ArePasses, IsRefusal, SeeMore};
ghost use Rattle.nsc_client.specs.Replying.{IsGiven, IsRefusedAt, IsReplied};
ghost use Rattle.nsc_client.specs.Sent.{SpellsReply};

use crate::asking::{Asked, ask};
use crate::link::LinkFault;
use crate::store_link::StoreLink;
use nsc_base::Buf;
use nsc_model::{Databases, Db, Kind, Reply, Store};
use nsc_wire::decode_reply;
use std::alloc::Global;
use std::sync::Wait;

/// The reply to the request of this kind and key at this moment, of the store of its database.
pub(crate) fn reply_to<R: Wait, S: Store>(
    rt: &R,
    alloc: Global,
    stores: &Databases<S>,
    passes: &mut Databases<S::Pass>,
    out: &mut Buf,
    kind: Kind,
    key: &[u8],
    now: u64,
) -> Result<Reply, LinkFault>
    requires named { AreNamed S.Store stores.now }
    requires passes { ArePasses S.Store stores.now passes.old }
    requires limit { out.old.limit ≡ kept_limit }
    requires key { length key.now ≤ key_limit }
    requires moment { now < 2 ^ 62 }
    ensures passes { ArePasses S.Store stores.now passes.new }
    ensures limit { out.new.limit ≡ out.old.limit }
    ensures seen { SeeMore S.Store passes.old passes.new }
    ensures given { IfOk result (IsGiven S.Store passes.old passes.new (record { kind = kind; key = key.now })) }
    ensures refused { IfErr result (IsRefusal S.Store stores.now passes.old passes.new (record { kind = kind; key = key.now } ∷ [])) }
{
    let db = Db::of(kind);
    let store = store_of(stores, db);
    store_reply(rt, alloc, store, passes.of_mut(db), out, kind, key, now)
}

/// The store of a database.
pub(crate) fn store_of<S>(stores: &Databases<S>, db: Db) -> &S
    ensures { result.now ≡ database_in stores.now db }
{
    match db {
        Db::Passwd => &stores.passwd,
        Db::Group => &stores.group,
        Db::Hosts => &stores.hosts,
        Db::Services => &stores.services,
    }
}

// The reply of a store to the request of this kind and key at this moment: that of the entry that a search in place finds, or else that
// of a lookup.
pub(crate) fn store_reply<R: Wait, S: Store>(
    rt: &R,
    alloc: Global,
    store: &S,
    pass: &mut S::Pass,
    out: &mut Buf,
    kind: Kind,
    key: &[u8],
    now: u64,
) -> Result<Reply, LinkFault>
    requires pass { S.is_pass store.now pass.old }
    requires limit { out.old.limit ≡ kept_limit }
    requires kind { database_of kind ≡ S.db store.now }
    requires key { length key.now ≤ key_limit }
    requires moment { now < 2 ^ 62 }
    ensures pass { S.is_pass store.now pass.new }
    ensures limit { out.new.limit ≡ out.old.limit }
    ensures seen { Continues (S.at pass.old).seen (S.at pass.new).seen }
    ensures replied { IfOk result (IsReplied S.Store pass.old pass.new (record { kind = kind; key = key.now })) }
    ensures refused { IfErr result (IsRefusedAt S.Store store.now pass.old pass.new (record { kind = kind; key = key.now })) }
{
    let mut link = StoreLink { store };
    match ask(rt, alloc, pass, store, &mut link, out, kind, key, now) {
        Ok(Asked::InPlace { .. }) => read_back(alloc, kind, out.bytes()),
        Ok(Asked::Linked { bytes, .. }) => read_back(alloc, kind, bytes.as_slice()),
        Err(fault) => Err(fault),
    }
}

// The reply that these bytes spell. Fails only if memory is short.
fn read_back(alloc: Global, kind: Kind, bytes: &[u8]) -> Result<Reply, LinkFault>
    requires { SpellsReply kind bytes.now }
    ensures spelled { IfOk result (λ reply. Spells kind reply bytes.now) }
    ensures fault { IfErr result (λ fault. fault ≡ Memory) }
{
    Ok(decode_reply(alloc, kind, bytes)?)
}
