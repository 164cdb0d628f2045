// `ask`: a request answered by a search in place, or else by a link.
ghost use Rattle.std.specs.Prelude.{◌≡◌, ◌≤◌, ◌<◌, ◌^◌, length, IfOk};
ghost use Rattle.nsc_model.specs.Entry.{key_limit, kept_limit};
ghost use Rattle.nsc_model.specs.Kinds.{database_of};
ghost use Rattle.nsc_client.specs.Asks.{IsAsked, SpellsInPlace, TakesPassesOf, caller_at};

use crate::link::{Link, LinkFault};
use nsc_base::{Buf, Bytes};
use nsc_model::{InPlace, Kind, Store};
use std::alloc::Global;
use std::sync::Wait;

/// How a request was answered.
#[derive(Debug, Drop)]
pub enum Asked {
    /// By an entry that was found in place. Its reply is in the buffer.
    InPlace {
        /// The number of its insertion.
        number: u64,
        /// The version that its answer was made over.
        version: u64,
    },
    /// By the link.
    Linked {
        /// Why none was found in place; never a hit.
        after: InPlace,
        /// The reply.
        bytes: Bytes,
    },
}

/// Asks for the request of this kind and key at this moment, in seconds: searches the store in place first, which takes no memory and no
/// runtime and puts a reply into the buffer of 65,536 bytes; where it finds none, calls the link, and the buffer is empty. A fault is
/// the link's, after such a search.
pub fn ask<S: Store, L: Link<S::Pass>, R: Wait>(
    rt: &R,
    alloc: Global,
    pass: &mut S::Pass,
    store: &S,
    link: &mut L,
    out: &mut Buf,
    kind: Kind,
    key: &[u8],
    now: u64,
) -> Result<Asked, LinkFault>
    requires pass { S.is_pass store.now pass.old }
    requires link { TakesPassesOf S.Store L.Link store.now link.old }
    requires limit { out.old.limit ≡ kept_limit }
    requires kind { database_of kind ≡ S.db store.now }
    requires key { length key.now ≤ key_limit }
    requires moment { now < 2 ^ 62 }
    ensures link { TakesPassesOf S.Store L.Link store.now link.new }
    ensures limit { out.new.limit ≡ out.old.limit }
    ensures asked { IsAsked S.Store L.Link store.now (caller_at pass.old link.old) (caller_at pass.new link.new) (record { kind = kind; key = key.now }) now out.new.content result }
    ensures spelled { IfOk result (SpellsInPlace kind out.new.content) }
{
    let after = store.in_place(pass, kind, key, out);
    if let InPlace::Hit {
        number,
        version,
        ..
    } = after
    {
        return Ok(Asked::InPlace { number, version });
    }
    let bytes = link.call(rt, alloc, pass, kind, key, now)?;
    Ok(Asked::Linked { after, bytes })
}
