// Paths of images in a folder: of a database's image, and of the image before its rename.
ghost use Rattle.std.specs.Prelude.{◌≡◌, IfOk, string_bytes};
ghost use Rattle.nsc_outside.specs.ImageStores.{image_name, new_name, path_in};

use nsc_base::NoMemory;
use nsc_model::Db;
use std::alloc::Global;

// The file of a database's image, seen from its folder.
pub(crate) fn image_name(db: Db) -> &'static str
    ensures { result.now ≡ image_name db }
{
    match db {
        Db::Passwd => "passwd.img",
        Db::Group => "group.img",
        Db::Hosts => "hosts.img",
        Db::Services => "services.img",
    }
}

// The file in which a new image is written before it takes the other one's place.
fn new_name(db: Db) -> &'static str
    ensures { result.now ≡ new_name db }
{
    match db {
        Db::Passwd => ".passwd.img.new",
        Db::Group => ".group.img.new",
        Db::Hosts => ".hosts.img.new",
        Db::Services => ".services.img.new",
    }
}

// The path of a file in a folder.
pub(crate) fn path_in(alloc: Global, folder: &str, name: &str) -> Result<String, NoMemory>
    ensures { IfOk result (λ path. string_bytes path ≡ path_in folder.now name.now) }
{
    let mut path = String::from_str(alloc, folder)?;
    path.push_str("/")?;
    path.push_str(name)?;
    Ok(path)
}

/// Where the image of a database stands in a folder.
#[derive(Drop)]
pub(crate) struct ImagePaths {
    /// The image's own path.
    pub image: String,
    /// The one at which a new image is written.
    pub new: String,
}

impl ImagePaths {
    // The paths for a database in a folder.
    pub(crate) fn of(alloc: Global, folder: &str, db: Db) -> Result<ImagePaths, NoMemory>
        ensures image { IfOk result (λ paths. string_bytes paths.image ≡ path_in folder.now (image_name db)) }
        ensures new { IfOk result (λ paths. string_bytes paths.new ≡ path_in folder.now (new_name db)) }
    {
        Ok(ImagePaths {
            image: path_in(alloc, folder, image_name(db))?,
            new: path_in(alloc, folder, new_name(db))?,
        })
    }
}
