// The test of configuration files in a set of files in memory.
use nsc_base::Bytes;
use nsc_outside::{FileSet, MemFiles};
use std::test::Fail;

#[test]
fn configuration_in_memory(rt: HostRuntime) -> Result<(), Fail> {
    let alloc = rt.alloc();
    let conf = Bytes::copy(alloc, b"threads 5")?;
    let mut set = MemFiles::new(alloc)?.with_conf(alloc, "nscd.conf", conf)?;
    assert!(rt; set.read_conf(alloc, "nscd.conf").is_ok());
    Ok(())
}
