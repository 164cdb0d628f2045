// Tests of copies, buffers, and white space in addresses.
use nsc_addr::{read_v4, read_v6};
use nsc_base::{Buf, Bytes};
use std::test::Fail;

#[test]
fn copies_and_buffers(rt: HostRuntime) -> Result<(), Fail> {
    let copy = Bytes::copy(rt.alloc(), b"root")?;
    assert_eq!(rt; copy.as_slice(), b"root".as_slice());
    let mut buf = Buf::new(rt.alloc(), 3)?;
    buf.push(b"ab");
    assert!(rt; buf.fits(1));
    assert!(rt; !buf.fits(2));
    assert_eq!(rt; buf.bytes(), b"ab".as_slice());
    Ok(())
}

// Texts that no word of a line can be.
#[test]
fn white_space_in_addresses(rt: HostRuntime) {
    assert_eq!(rt; read_v4(b"1.2.3.4 "), None);
    assert_eq!(rt; read_v4(b"1.2.3.4\0"), None);
    assert_eq!(rt; read_v4(b""), None);
    assert_eq!(rt; read_v6(b" ::1"), None);
    assert_eq!(rt; read_v6(b"::1\n"), None);
    assert_eq!(rt; read_v6(b""), None);
}
