// The images of the databases: got at the start, and put at the end.
ghost use Rattle.std.specs.Prelude.{◌≡◌, OnOk};
ghost use Rattle.nsc_outside.specs.ImageStores.{OthersStay};
ghost use Rattle.nsc_server.specs.Passes.{AreNamed, ArePasses};
ghost use Rattle.nsc_daemon.specs.Images.{PutsImages, PutsOne, images_at};

use nsc_base::{Bytes, NoMemory};
use nsc_model::{Conf, Databases, Db, Store};
use nsc_outside::ImageStore;
use std::alloc::Global;
use std::sync::Wait;

/// The image of a database that has use for one: it is cached, and persistent. There is none where it could not be read.
pub fn image_for<I: ImageStore>(alloc: Global, images: &mut I, db: Db, conf: &Conf) -> Option<Bytes>
    ensures puts { I.puts images.new ≡ I.puts images.old }
    ensures failed { I.failed_puts images.new ≡ I.failed_puts images.old }
{
    let settings = conf.of(db);
    if !(settings.enabled && settings.persistent) {
        return None;
    }
    // A cache begins empty where its image cannot be had.
    match images.get(alloc, db) {
        Ok(image) => image,
        Err(_) => None,
    }
}

/// Puts an image of each persistent database. Each is tried; `NoMemory` tells that one of them could not be made.
pub fn save_all<RT: AllocGlobal + Wait, S: Store, I: ImageStore>(
    rt: &RT,
    stores: &Databases<S>,
    passes: &mut Databases<S::Pass>,
    conf: &Conf,
    images: &mut I,
) -> Result<(), NoMemory>
    requires named { AreNamed S.Store stores.now }
    requires passes { ArePasses S.Store stores.now passes.old }
    ensures { OnOk result (PutsImages conf.now (images_at I.ImageStore images.old) (images_at I.ImageStore images.new)) }
{
    let passwd = save(
        rt,
        &stores.passwd,
        &mut passes.passwd,
        Db::Passwd,
        conf,
        images,
    );
    let group = save(
        rt,
        &stores.group,
        &mut passes.group,
        Db::Group,
        conf,
        images,
    );
    let hosts = save(
        rt,
        &stores.hosts,
        &mut passes.hosts,
        Db::Hosts,
        conf,
        images,
    );
    let services = save(
        rt,
        &stores.services,
        &mut passes.services,
        Db::Services,
        conf,
        images,
    );
    passwd?;
    group?;
    hosts?;
    services
}

// The same for one database. A store of images that fails changes nothing else.
fn save<RT: AllocGlobal + Wait, S: Store, I: ImageStore>(
    rt: &RT,
    store: &S,
    pass: &mut S::Pass,
    db: Db,
    conf: &Conf,
    images: &mut I,
) -> Result<(), NoMemory>
    requires named { S.db store.now ≡ db }
    requires pass { S.is_pass store.now pass.old }
    ensures put { OnOk result (PutsOne conf.now db (images_at I.ImageStore images.old) (images_at I.ImageStore images.new)) }
    ensures others { OthersStay db (I.puts images.old) (I.puts images.new) }
    ensures others_failed { OthersStay db (I.failed_puts images.old) (I.failed_puts images.new) }
{
    if !conf.of(db).persistent {
        return Ok(());
    }
    let image = store.save(rt, rt.alloc(), pass)?;
    let _ = images.put(db, image.as_slice());
    Ok(())
}
