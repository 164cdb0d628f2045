// The last reply to a line of the gate, and the line of the answer.
ghost use Rattle.std.specs.Prelude.{◌≡◌, ◌≤◌, ◌<◌, ◌^◌, ◌++◌, ◌∷◌, [], length, IfErr, IfOk, IfSome, Some};
ghost use Rattle.nsc_model.specs.Entry.{key_limit, kept_limit};
ghost use Rattle.nsc_client.specs.declared.line.LineAsks.TheVariants.{HostNamed};
ghost use Rattle.nsc_client.specs.Gate.{AreNamed, ArePasses, IsRefusal, SeeMore, requests_of};
ghost use Rattle.nsc_client.specs.GateText.{has_entry};
ghost use Rattle.nsc_client.specs.Replying.{IsAnswered, KeysFit, said};
ghost use Rattle.nsc_client.specs.Sent.{CanBeSent};

use crate::line::LineAsks;
use crate::link::LinkFault;
use crate::replies::reply_to;
use crate::texts::put_reply;
use nsc_base::{Buf, NoMemory};
use nsc_model::{Databases, Kind, Reply, Store};
use std::alloc::Global;
use std::sync::Wait;

/// The last reply to what a line asks at this moment. `None` where it asks nothing, since it is bad.
pub(crate) fn answer_to<R: Wait, S: Store>(
    rt: &R,
    alloc: Global,
    stores: &Databases<S>,
    passes: &mut Databases<S::Pass>,
    out: &mut Buf,
    asking: &LineAsks,
    now: u64,
) -> Result<Option<Reply>, LinkFault>
    requires named { AreNamed S.Store stores.now }
    requires passes { ArePasses S.Store stores.now passes.old }
    requires limit { out.old.limit ≡ kept_limit }
    requires keys { KeysFit asking.now }
    requires moment { now < 2 ^ 62 }
    ensures passes { ArePasses S.Store stores.now passes.new }
    ensures limit { out.new.limit ≡ out.old.limit }
    ensures seen { SeeMore S.Store passes.old passes.new }
    ensures answered { IfOk result (IsAnswered S.Store passes.old passes.new asking.now) }
    ensures refused { IfErr result (IsRefusal S.Store stores.now passes.old passes.new (requests_of asking.now)) }
{
    match asking {
        LineAsks::Bad => Ok(None),
        LineAsks::One(request) => {
            let key = request.key.as_slice();
            let reply = reply_to(rt, alloc, stores, passes, out, request.kind, key, now)?;
            Ok(Some(reply))
        }
        LineAsks::HostNamed(name) => {
            let reply = host_named(rt, alloc, stores, passes, out, name.as_slice(), now)?;
            Ok(Some(reply))
        }
    }
}

// The last reply on a host of this name: of IPv4, or where there is none, of IPv6.
fn host_named<R: Wait, S: Store>(
    rt: &R,
    alloc: Global,
    stores: &Databases<S>,
    passes: &mut Databases<S::Pass>,
    out: &mut Buf,
    name: &[u8],
    now: u64,
) -> Result<Reply, LinkFault>
    requires named { AreNamed S.Store stores.now }
    requires passes { ArePasses S.Store stores.now passes.old }
    requires limit { out.old.limit ≡ kept_limit }
    requires key { length name.now ≤ key_limit }
    requires moment { now < 2 ^ 62 }
    ensures passes { ArePasses S.Store stores.now passes.new }
    ensures limit { out.new.limit ≡ out.old.limit }
    ensures seen { SeeMore S.Store passes.old passes.new }
    ensures answered { IfOk result (λ reply. IsAnswered S.Store passes.old passes.new (HostNamed name.now) (Some reply)) }
    ensures refused { IfErr result (IsRefusal S.Store stores.now passes.old passes.new (requests_of (HostNamed name.now))) }
{
    let first = reply_to(rt, alloc, stores, passes, out, Kind::HostName, name, now)?;
    if has_row(&first) {
        return Ok(first);
    }
    reply_to(rt, alloc, stores, passes, out, Kind::HostName6, name, now)
}

// Whether a reply has an entry.
fn has_row(reply: &Reply) -> bool
    ensures { result ≡ has_entry reply.now }
{
    match reply {
        Reply::Found(_) => true,
        Reply::Absent | Reply::Disabled => false,
    }
}

/// The line of an answer, with its newline. Fails only for want of memory.
pub(crate) fn answer_line(alloc: Global, last: &Option<Reply>) -> Result<Vec<u8>, NoMemory>
    requires { IfSome last.now CanBeSent }
    ensures { IfOk result (λ line. line.items ≡ said last.now ++ 10 ∷ []) }
{
    let mut line = Vec::new(alloc);
    match last {
        Some(reply) => put_reply(&mut line, reply)?,
        None => line.extend_from_slice(b"bad line")?,
    }
    line.push(b'\n')?;
    Ok(line)
}
