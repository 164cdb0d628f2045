// Tests of a plain cache: lookups, invalidations, ticks, and names kept with their ids.
use super::answers::{NO_USER, ROOT, users};
use nsc_answer::Plain;
use nsc_model::{Conf, Content, Kind};
use nsc_plain::{DbFiles, PlainCache};
use std::sync::Arc;
use std::test::Fail;

// A hit gives the reply of before over other files, and an invalidation ends it.
#[test]
fn lookups_and_invalidations(rt: HostRuntime) -> Result<(), Fail> {
    let alloc = rt.alloc();
    let none = Arc::new(alloc, Content::none())?;
    let users = users(alloc)?;
    let mut cache = PlainCache::new(alloc, Conf::defaults().passwd, Some(2))?;
    let reply = cache
        .lookup(alloc, &none, &Plain, Kind::PwName, b"root", 0)
        .ok();
    assert_eq!(rt; reply.as_ref().map(|bytes| bytes.as_slice()), Some(NO_USER));
    let reply = cache
        .lookup(alloc, &users, &Plain, Kind::PwName, b"root", 0)
        .ok();
    assert_eq!(rt; reply.as_ref().map(|bytes| bytes.as_slice()), Some(NO_USER));
    assert!(rt; cache.invalidate().is_ok());
    let reply = cache
        .lookup(alloc, &users, &Plain, Kind::PwName, b"root", 0)
        .ok();
    assert_eq!(rt; reply.as_ref().map(|bytes| bytes.as_slice()), Some(ROOT));
    Ok(())
}

// A tick over other files ends the entries, and what it polled serves the next lookup.
#[test]
fn ticks(rt: HostRuntime) -> Result<(), Fail> {
    let alloc = rt.alloc();
    let none = Arc::new(alloc, Content::none())?;
    let mut users = DbFiles::new(users(alloc)?);
    let mut cache = PlainCache::new(alloc, Conf::defaults().passwd, None)?;
    let reply = cache
        .lookup(alloc, &none, &Plain, Kind::PwName, b"root", 0)
        .ok();
    assert_eq!(rt; reply.as_ref().map(|bytes| bytes.as_slice()), Some(NO_USER));
    let ticked = cache.tick_prepared(alloc, &mut users, &Plain, 1);
    assert!(rt; ticked.is_ok());
    let reply = cache
        .lookup_prepared(alloc, &mut users, &Plain, Kind::PwName, b"root", 1)
        .ok();
    assert_eq!(rt; reply.as_ref().map(|bytes| bytes.as_slice()), Some(ROOT));
    Ok(())
}

// A user who was found by name is kept by id too, with the answer over those files; without the setting he is not.
#[test]
fn names_with_their_ids(rt: HostRuntime) -> Result<(), Fail> {
    let alloc = rt.alloc();
    let none = Arc::new(alloc, Content::none())?;
    let users = users(alloc)?;
    for propagate in [true, false] {
        let mut conf = Conf::defaults().passwd;
        conf.propagate = propagate;
        let mut cache = PlainCache::new(alloc, conf, Some(2))?;
        let by_name = cache
            .lookup(alloc, &users, &Plain, Kind::PwName, b"root", 0)
            .ok();
        assert_eq!(rt; by_name.as_ref().map(|bytes| bytes.as_slice()), Some(ROOT));
        let by_id = cache
            .lookup(alloc, &none, &Plain, Kind::PwUid, b"0", 0)
            .ok();
        let wanted = if propagate { ROOT } else { NO_USER };
        assert_eq!(rt; by_id.as_ref().map(|bytes| bytes.as_slice()), Some(wanted));
    }
    Ok(())
}
