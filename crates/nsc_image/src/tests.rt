// Images whose bytes were typed by hand, and faults in them.

use super::{ImageBuilder, ImageFault, Saved, verify};
use nsc_base::NoMemory;
use nsc_model::{Db, Kind};
use sha2::{Digest, Sha256};
use std::alloc::Global;
use std::test::Fail;

// The reply for root:x:0:0:root:/root:/bin/bash.
const REPLY: [u8; 64] =
    *b"\x02\0\0\0\x01\0\0\0\x05\0\0\0\x02\0\0\0\0\0\0\0\0\0\0\0\x05\0\0\0\x06\0\0\0\x0a\0\0\0root\0x\0root\0/root\0/bin/bash\0";

// The image of passwd with that reply in version 2, kept until moment 3600.
const IMAGE_2: [u8; 152] = *b"NSCIMAGE\x02\0\0\0\0\0\0\0\x01\0\0\0\
    \0\0\0\0\0\0\0\0\0\0\0\0\x04\0\0\0\x40\0\0\0\0\0\0\0\x10\x0e\0\0\0\0\0\0root\
    \x02\0\0\0\x01\0\0\0\x05\0\0\0\x02\0\0\0\0\0\0\0\0\0\0\0\x05\0\0\0\x06\0\0\0\x0a\0\0\0root\0x\0root\0/root\0/bin/bash\0\
    \x4a\xcb\x8f\x40\xc5\xa3\xd8\xee\xad\x90\xed\xef\x73\xf5\x7b\x65\xc5\xa5\x67\x60\xa7\x29\xaa\x14\x56\x53\x29\xfa\x80\x1a\x97\xdc";

// The image of passwd with that reply in version 3, kept until moment 3600, after five reloads.
const IMAGE_3: [u8; 156] = *b"NSCIMAGE\x03\0\0\0\0\0\0\0\x01\0\0\0\
    \0\0\0\0\0\0\0\0\0\0\0\0\x04\0\0\0\x40\0\0\0\0\0\0\0\x05\0\0\0\x10\x0e\0\0\0\0\0\0root\
    \x02\0\0\0\x01\0\0\0\x05\0\0\0\x02\0\0\0\0\0\0\0\0\0\0\0\x05\0\0\0\x06\0\0\0\x0a\0\0\0root\0x\0root\0/root\0/bin/bash\0\
    \xbe\x89\xa5\x67\x34\xc6\x89\xc1\xfc\x23\x4b\xbe\xee\x2f\xe5\x40\x8a\xc7\xe7\x93\x10\x9c\x40\x57\x0d\x10\xcd\x15\x0f\xfc\x21\x87";

#[test]
fn image_of_root(rt: HostRuntime) -> Result<(), Fail> {
    let mut builder = ImageBuilder::new(rt.alloc(), Db::Passwd)?;
    let root = Saved::new(0, Kind::PwName, b"root", &REPLY, false, 5, 3600);
    builder.push(&root)?;
    let image = builder.seal()?;
    assert_eq!(rt; image.as_slice(), IMAGE_3.as_slice());
    Ok(())
}

#[test]
fn entry_of_root(rt: HostRuntime) -> Result<(), Fail> {
    // Version 2 has no count of reloads, and version 3 has it.
    let table: [(&[u8], u32); 2] = [(&IMAGE_2, 0), (&IMAGE_3, 5)];
    for (bytes, reloads) in table {
        let image = verify(bytes, Db::Passwd)
            .ok()
            .ok_or("the image is refused")?;
        let mut entries = image.entries();
        let root = entries.next().ok_or("no entry")?;
        assert_eq!(rt; root.number(), 0);
        assert_eq!(rt; root.kind(), Kind::PwName);
        assert_eq!(rt; root.key(), b"root".as_slice());
        assert_eq!(rt; root.reply(), REPLY.as_slice());
        assert!(rt; !root.is_not_found());
        assert_eq!(rt; root.reloads(), reloads);
        assert_eq!(rt; root.timeout(), 3600);
        assert!(rt; entries.next().is_none());
    }
    Ok(())
}

// Copies the bytes before a digest, with another byte at a place, and puts the digest of that behind them.
fn changed(alloc: Global, front: &[u8], place: usize, byte: u8) -> Result<Vec<u8>, NoMemory> {
    let mut image = Vec::new(alloc);
    image.extend_from_slice(front)?;
    if let Some(old) = image.get_mut(place) {
        *old = byte;
    }
    let digest = Sha256::digest(image.as_slice());
    image.extend_from_slice(&digest)?;
    Ok(image)
}

// The fault, if there is one, of an image of passwd with this front and another byte at a place.
fn fault_in(
    alloc: Global,
    front: &[u8],
    place: usize,
    byte: u8,
) -> Result<Option<ImageFault>, NoMemory> {
    let image = changed(alloc, front, place, byte)?;
    Ok(verify(image.as_slice(), Db::Passwd).err())
}

#[test]
fn places_of_faults(rt: HostRuntime) -> Result<(), Fail> {
    // The place and the byte that is written there, and the place that is told, in version 2 and in version 3.
    let table = [
        (12, 1, 12, 12),
        (16, 2, 120, 124),
        (28, 2, 28, 28),
        (28, 8, 28, 28),
        (33, 4, 32, 32),
        (38, 1, 36, 36),
        (40, 2, 40, 40),
        (36, 65, 20, 20),
        (36, 63, 119, 123),
        (16, 0, 20, 20),
    ];
    for (place, byte, in_2, in_3) in table {
        let fault = fault_in(rt.alloc(), &IMAGE_2[..120], place, byte)?;
        assert!(rt;
            fault == Some(ImageFault::Layout { at: in_2 }),
            "byte {byte} at {place} of version 2"
        );
        let fault = fault_in(rt.alloc(), &IMAGE_3[..124], place, byte)?;
        assert!(rt;
            fault == Some(ImageFault::Layout { at: in_3 }),
            "byte {byte} at {place} of version 3"
        );
    }
    Ok(())
}

#[test]
fn timeout_that_is_too_great(rt: HostRuntime) -> Result<(), Fail> {
    let fault = fault_in(rt.alloc(), &IMAGE_2[..120], 51, 128)?;
    assert!(rt; fault == Some(ImageFault::Layout { at: 44 }));
    let fault = fault_in(rt.alloc(), &IMAGE_3[..124], 55, 128)?;
    assert!(rt; fault == Some(ImageFault::Layout { at: 48 }));
    // The highest byte of the count of reloads, which is at that place in version 3.
    let image = changed(rt.alloc(), &IMAGE_3[..124], 47, 128)?;
    let found = verify(image.as_slice(), Db::Passwd)
        .ok()
        .ok_or("the image is refused")?;
    let root = found.entries().next().ok_or("no entry")?;
    assert_eq!(rt; root.reloads(), 0x8000_0005);
    assert_eq!(rt; root.timeout(), 3600);
    Ok(())
}

#[test]
fn fields_of_the_other_version(rt: HostRuntime) -> Result<(), Fail> {
    // Four bytes are left behind an entry of version 3 that is read as one of version 2.
    let fault = fault_in(rt.alloc(), &IMAGE_3[..124], 8, 2)?;
    assert!(rt; fault == Some(ImageFault::Layout { at: 120 }));
    // Four bytes are missing of an entry of version 2 that is read as one of version 3.
    let fault = fault_in(rt.alloc(), &IMAGE_2[..120], 8, 3)?;
    assert!(rt; fault == Some(ImageFault::Layout { at: 20 }));
    Ok(())
}

#[test]
fn number_that_does_not_rise(rt: HostRuntime) -> Result<(), Fail> {
    let mut twice = Vec::new(rt.alloc());
    twice.extend_from_slice(&IMAGE_2[..16])?;
    twice.extend_from_slice(b"\x02")?;
    twice.extend_from_slice(&IMAGE_2[17..120])?;
    twice.extend_from_slice(&IMAGE_2[20..120])?;
    let digest = Sha256::digest(twice.as_slice());
    twice.extend_from_slice(&digest)?;
    let fault = verify(twice.as_slice(), Db::Passwd).err();
    assert!(rt; fault == Some(ImageFault::Layout { at: 120 }));
    Ok(())
}

#[test]
fn other_faults(rt: HostRuntime) -> Result<(), Fail> {
    let not_image = Some(ImageFault::NotImage);
    assert!(rt; verify(&IMAGE_2[..51], Db::Passwd).err() == not_image);
    assert!(rt; fault_in(rt.alloc(), &IMAGE_2[..120], 0, b'n')? == not_image);
    for version in [0, 1, 4, 9] {
        let fault = fault_in(rt.alloc(), &IMAGE_3[..124], 8, version)?;
        assert!(rt;
            fault == Some(ImageFault::ImageVersion(u32::from(version))),
            "version {version}"
        );
    }
    assert!(rt;
        matches!(
            verify(&IMAGE_3[..155], Db::Passwd),
            Err(ImageFault::Digest { .. })
        )
    );
    assert!(rt; verify(&IMAGE_2, Db::Group).err() == Some(ImageFault::Layout { at: 12 }));
    assert!(rt; verify(&IMAGE_3, Db::Group).err() == Some(ImageFault::Layout { at: 12 }));
    Ok(())
}
