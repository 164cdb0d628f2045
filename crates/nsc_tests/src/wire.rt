// Tests of replies as bytes: made, read back, and broken.
ghost use Rattle.std.specs.Prelude.{◌≤◌, length, IfOk};
ghost use Rattle.nsc_model.specs.Answer.{reply_limit};
ghost use Rattle.nsc_model.specs.Wire.{IsReplyOf, spelled};

use nsc_base::{Bytes, NoMemory, Texts};
use nsc_model::{Kind, Passwd, Row};
use nsc_wire::{Reply, ReplyFault, decode_reply, encode};
use std::alloc::Global;
use std::test::Fail;

// The line root:x:0:0:root:/root:/bin/bash.
fn root(alloc: Global) -> Result<Reply, NoMemory>
    ensures user { IfOk result (IsReplyOf Kind.PwName) }
    ensures fits { IfOk result (λ reply. length (spelled Kind.PwName reply) ≤ reply_limit) }
{
    Ok(Reply::Found(Row::Passwd(Passwd {
        name: Bytes::copy(alloc, b"root")?,
        passwd: Bytes::copy(alloc, b"x")?,
        uid: 0,
        gid: 0,
        gecos: Bytes::copy(alloc, b"root")?,
        dir: Bytes::copy(alloc, b"/root")?,
        shell: Bytes::copy(alloc, b"/bin/bash")?,
    })))
}

#[test]
fn found_user(rt: HostRuntime) -> Result<(), Fail> {
    let reply = root(rt.alloc())?;
    let bytes = encode(rt.alloc(), Kind::PwName, &reply)?;
    assert_eq!(rt; bytes.as_slice(), ROOT);
    Ok(())
}

// The replies where a database is disabled, which the program never sends.
const DISABLED: [(Kind, &[u8]); 8] = [
    (
        Kind::PwUid,
        b"\x02\0\0\0\xff\xff\xff\xff\0\0\0\0\0\0\0\0\xff\xff\xff\xff\xff\xff\xff\xff\0\0\0\0\0\0\0\0\0\0\0\0",
    ),
    (
        Kind::GrName,
        b"\x02\0\0\0\xff\xff\xff\xff\0\0\0\0\0\0\0\0\xff\xff\xff\xff\0\0\0\0",
    ),
    (Kind::InitGroups, b"\x02\0\0\0\xff\xff\xff\xff\0\0\0\0"),
    (
        Kind::HostAddr,
        b"\x02\0\0\0\xff\xff\xff\xff\0\0\0\0\0\0\0\0\xff\xff\xff\xff\xff\xff\xff\xff\0\0\0\0\xff\xff\xff\xff",
    ),
    (
        Kind::Ai,
        b"\x02\0\0\0\xff\xff\xff\xff\0\0\0\0\0\0\0\0\0\0\0\0\xff\xff\xff\xff",
    ),
    (
        Kind::ServPort,
        b"\x02\0\0\0\xff\xff\xff\xff\0\0\0\0\0\0\0\0\0\0\0\0\xff\xff\xff\xff",
    ),
    (
        Kind::NetgrEnt,
        b"\x02\0\0\0\xff\xff\xff\xff\0\0\0\0\0\0\0\0",
    ),
    (Kind::InNetgr, b"\x02\0\0\0\xff\xff\xff\xff\0\0\0\0"),
];

#[test]
fn disabled_databases(rt: HostRuntime) -> Result<(), Fail> {
    for (kind, want) in &DISABLED {
        let bytes = encode(rt.alloc(), *kind, &Reply::Disabled)?;
        assert_eq!(rt; bytes.as_slice(), *want, "of {kind:?}");
    }
    Ok(())
}

// The reply that has root, and the one on a user who is not there.
const ROOT: &[u8] =
    b"\x02\0\0\0\x01\0\0\0\x05\0\0\0\x02\0\0\0\0\0\0\0\0\0\0\0\x05\0\0\0\x06\0\0\0\x0a\0\0\0root\0x\0root\0/root\0/bin/bash\0";

const NOBODY: &[u8] =
    b"\x02\0\0\0\0\0\0\0\0\0\0\0\0\0\0\0\xff\xff\xff\xff\xff\xff\xff\xff\0\0\0\0\0\0\0\0\0\0\0\0";

// What was read of bytes, without the row.
#[derive(Clone, Copy, Debug, PartialEq, Eq)]
enum Decoded {
    Row,
    Absent,
    Disabled,
    Bad(usize),
    NoMemory,
}

fn read(alloc: Global, kind: Kind, bytes: &[u8]) -> Decoded {
    match decode_reply(alloc, kind, bytes) {
        Ok(Reply::Found(_)) => Decoded::Row,
        Ok(Reply::Absent) => Decoded::Absent,
        Ok(Reply::Disabled) => Decoded::Disabled,
        Err(ReplyFault::BadReply { at }) => Decoded::Bad(at),
        Err(ReplyFault::NoMemory) => Decoded::NoMemory,
    }
}

#[test]
fn replies_read_back(rt: HostRuntime) {
    assert_eq!(rt; read(rt.alloc(), Kind::PwName, ROOT), Decoded::Row);
    assert_eq!(rt; read(rt.alloc(), Kind::PwName, NOBODY), Decoded::Absent);
    for (kind, bytes) in &DISABLED {
        assert_eq!(rt;
            read(rt.alloc(), *kind, bytes),
            Decoded::Disabled,
            "of {kind:?}"
        );
    }
}

// The replies that have one triple of a host and a user, and that a netgroup has a triple.
const TRIPLE: &[u8] = b"\x02\0\0\0\x01\0\0\0\x01\0\0\0\x09\0\0\0box\0ann\0\0";

const MEMBER: &[u8] = b"\x02\0\0\0\x01\0\0\0\x01\0\0\0";

// The texts of `TRIPLE`.
fn triple(alloc: Global) -> Result<Reply, NoMemory>
    ensures netgroup { IfOk result (IsReplyOf Kind.NetgrEnt) }
    ensures fits { IfOk result (λ reply. length (spelled Kind.NetgrEnt reply) ≤ reply_limit) }
{
    let mut texts = Texts::new(alloc);
    texts.push(b"box")?;
    texts.push(b"ann")?;
    texts.push(b"")?;
    Ok(Reply::Found(Row::Netgroup(texts)))
}

#[test]
fn found_netgroup(rt: HostRuntime) -> Result<(), Fail> {
    let alloc = rt.alloc();
    let bytes = encode(alloc, Kind::NetgrEnt, &triple(alloc)?)?;
    assert_eq!(rt; bytes.as_slice(), TRIPLE);
    let bytes = encode(alloc, Kind::InNetgr, &Reply::Found(Row::Member(true)))?;
    assert_eq!(rt; bytes.as_slice(), MEMBER);
    assert_eq!(rt; read(alloc, Kind::NetgrEnt, TRIPLE), Decoded::Row);
    assert_eq!(rt; read(alloc, Kind::InNetgr, MEMBER), Decoded::Row);
    Ok(())
}

// The faults of a netgroup: a triple too few, an end in the last text, and a number that is neither 1 nor 0.
#[test]
fn bad_netgroups(rt: HostRuntime) -> Result<(), Fail> {
    let alloc = rt.alloc();
    let cut = &TRIPLE[..TRIPLE.len() - 1];
    assert_eq!(rt; read(alloc, Kind::NetgrEnt, cut), Decoded::Bad(24));
    let none = b"\x02\0\0\0\x01\0\0\0\0\0\0\0\x09\0\0\0box\0ann\0\0";
    assert_eq!(rt; read(alloc, Kind::NetgrEnt, none), Decoded::Bad(12));
    let two = b"\x02\0\0\0\x01\0\0\0\x02\0\0\0";
    assert_eq!(rt; read(alloc, Kind::InNetgr, two), Decoded::Bad(8));
    Ok(())
}

// The places of faults: bytes that end early, one byte more, and a field or text that breaks the layout.
#[test]
fn bad_replies(rt: HostRuntime) -> Result<(), Fail> {
    let mut cut = Vec::from_slice(rt.alloc(), ROOT)?;
    cut.pop();
    assert_eq!(rt; read(rt.alloc(), Kind::PwName, &cut), Decoded::Bad(63));
    let mut more = Vec::from_slice(rt.alloc(), ROOT)?;
    more.push(0)?;
    assert_eq!(rt; read(rt.alloc(), Kind::PwName, &more), Decoded::Bad(64));
    assert_eq!(rt; read(rt.alloc(), Kind::GrName, ROOT), Decoded::Bad(24));
    assert_eq!(rt;
        read(rt.alloc(), Kind::PwName, b"\x03\0\0\0"),
        Decoded::Bad(0)
    );
    Ok(())
}
