// Tests of answers with indexes and without: first lines, and lines with signs.
use nsc_base::{Bytes, NoMemory};
use nsc_index::{Indexed, ReadyContent};
use nsc_model::{Answerer, Content, FileId, Kind};
use std::alloc::Global;
use std::sync::Arc;
use std::test::Fail;

// The entry of the first line, which has the name of the third and the id of the second.
const FIRST: &[u8] =
    b"\x02\0\0\0\x01\0\0\0\x02\0\0\0\x02\0\0\0\x01\0\0\0\x01\0\0\0\x01\0\0\0\x01\0\0\0\x01\0\0\0a\0x\0\0\0\0";

const THIRD: &[u8] =
    b"\x02\0\0\0\x01\0\0\0\x02\0\0\0\x02\0\0\0\x02\0\0\0\x02\0\0\0\x01\0\0\0\x01\0\0\0\x01\0\0\0a\0x\0\0\0\0";

// A user's groups with the ids 4 and 100.
const GROUPS: &[u8] = b"\x02\0\0\0\x01\0\0\0\x02\0\0\0\x04\0\0\0\x64\0\0\0";

const NO_GROUP: &[u8] = b"\x02\0\0\0\0\0\0\0\0\0\0\0\0\0\0\0\xff\xff\xff\xff\0\0\0\0";

// The group that is not excluded.
const USERS: &[u8] =
    b"\x02\0\0\0\x01\0\0\0\x06\0\0\0\x02\0\0\0\x64\0\0\0\x01\0\0\0\x04\0\0\0users\0x\0ann\0";

// Users of whom two have a name in common, and two an id.
fn users(alloc: Global) -> Result<Content, NoMemory> {
    let file = Bytes::copy(alloc, b"a:x:1:1:::\nb:x:1:1:::\na:x:2:2:::\n")?;
    let mut content = Content::none();
    content.set(FileId::Passwd, Some(file));
    Ok(content)
}

// What is prepared of a content, without its indexes and with them.
fn both_ways(alloc: Global, content: Content) -> Result<(ReadyContent, ReadyContent), Fail> {
    let first = Indexed.prepare(alloc, Arc::new(alloc, content)?)?;
    match Indexed.prepare_further(alloc, &first) {
        Some(further) => Ok((first, further)),
        None => Err(Fail::new("nothing further")),
    }
}

// Whether the answer to a request is these bytes.
fn is_answered(alloc: Global, ready: &ReadyContent, kind: Kind, key: &[u8], want: &[u8]) -> bool {
    match Indexed.answer(alloc, ready, kind, key) {
        Ok(answer) => answer.bytes() == want,
        Err(_) => false,
    }
}

#[test]
fn finds_first_lines(rt: HostRuntime) -> Result<(), Fail> {
    let alloc = rt.alloc();
    let (first, further) = both_ways(alloc, users(alloc)?)?;
    for ready in [&first, &further] {
        assert!(rt; is_answered(alloc, ready, Kind::PwName, b"a", FIRST));
        assert!(rt; is_answered(alloc, ready, Kind::PwUid, b"1", FIRST));
        assert!(rt; is_answered(alloc, ready, Kind::PwUid, b"2", THIRD));
    }
    Ok(())
}

// Groups of which one is excluded before the others are asked of a further service.
fn excluding(alloc: Global) -> Result<Content, NoMemory> {
    let switch = Bytes::copy(alloc, b"group: compat\ngroup_compat: extrausers\n")?;
    let group = Bytes::copy(alloc, b"adm:x:4:ann\n-staff\n+\n")?;
    let extra = Bytes::copy(alloc, b"staff:x:50:ann\nusers:x:100:ann\n")?;
    let mut content = Content::none();
    content.set(FileId::Switch, Some(switch));
    content.set(FileId::Group, Some(group));
    content.set(FileId::ExtraGroup, Some(extra));
    Ok(content)
}

#[test]
fn finds_signs(rt: HostRuntime) -> Result<(), Fail> {
    let alloc = rt.alloc();
    let (first, further) = both_ways(alloc, excluding(alloc)?)?;
    for ready in [&first, &further] {
        assert!(rt; is_answered(alloc, ready, Kind::InitGroups, b"ann", GROUPS));
        assert!(rt; is_answered(alloc, ready, Kind::GrName, b"staff", NO_GROUP));
        assert!(rt; is_answered(alloc, ready, Kind::GrGid, b"50", NO_GROUP));
        assert!(rt; is_answered(alloc, ready, Kind::GrName, b"users", USERS));
    }
    Ok(())
}
