// The test of answers over a content with one user.
use nsc_answer::Plain;
use nsc_base::{Bytes, NoMemory};
use nsc_model::{Answerer, Content, FileId, Kind};
use std::alloc::Global;
use std::sync::Arc;
use std::test::Fail;

pub(crate) const ROOT: &[u8] =
    b"\x02\0\0\0\x01\0\0\0\x05\0\0\0\x02\0\0\0\0\0\0\0\0\0\0\0\x05\0\0\0\x06\0\0\0\x0a\0\0\0root\0x\0root\0/root\0/bin/bash\0";

pub(crate) const NO_USER: &[u8] =
    b"\x02\0\0\0\0\0\0\0\0\0\0\0\0\0\0\0\xff\xff\xff\xff\xff\xff\xff\xff\0\0\0\0\0\0\0\0\0\0\0\0";

// The content in which root is the one user.
pub(crate) fn users(alloc: Global) -> Result<Arc<Content>, NoMemory> {
    let file = Bytes::copy(alloc, b"root:x:0:0:root:/root:/bin/bash\n")?;
    let mut content = Content::none();
    content.set(FileId::Passwd, Some(file));
    Ok(Arc::new(alloc, content)?)
}

#[test]
fn answers(rt: HostRuntime) -> Result<(), Fail> {
    let alloc = rt.alloc();
    let ready = Plain.prepare(alloc, users(alloc)?)?;
    let root = Plain.answer(alloc, &ready, Kind::PwName, b"root")?;
    assert_eq!(rt; root.bytes(), ROOT);
    assert!(rt; !root.is_not_found());
    let nobody = Plain.answer(alloc, &ready, Kind::PwName, b"nobody1")?;
    assert_eq!(rt; nobody.bytes(), NO_USER);
    assert!(rt; nobody.is_not_found());
    assert!(rt; Plain.content(&ready).file(FileId::Group).is_none());
    Ok(())
}
