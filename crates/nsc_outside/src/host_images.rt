// `HostImages`: a store of images in a folder of the file system.
ghost use Rattle.std.specs.Prelude.{◌≡◌, ◌↔◌, None, Some, IfOk, IfErr, OnOk, OnErr, IsOk};
ghost use Rattle.std.specs.IoError.{error_kind};
ghost use Rattle.std.specs.Fs.{file_type, IsFile};
ghost use Rattle.nsc_model.specs.Reads.{Rose};
ghost use Rattle.nsc_outside.specs.FileSets.{RoseBy};
ghost use Rattle.nsc_outside.specs.ImageStores.{ImageFits, IsImageCause, OthersStay};
ghost use Rattle.nsc_outside.specs.ImageTally.{db_count, no_image_counts};

use crate::files::ReadCause;
use crate::folders::{LOCK_NAME, check_folder, take_lock};
use crate::image_paths::{ImagePaths, image_name, path_in};
use crate::image_tally::ImageTally;
use crate::images::{IMAGE_LIMIT, ImageStore};
use crate::reading::{absent_or, read_within};
use crate::stream::Failed;
use nsc_base::{Bytes, NoMemory};
use nsc_lines::Lines;
use nsc_model::Db;
use std::alloc::Global;
use std::fs::{File, Metadata, OpenFile};
use std::io::{Error, ErrorKind, Write};
use std::marker::Model;
use std::os::unix::fs::{MetadataExt, OpenOptionsExt};
use std::rt::Files;
use std::sync::Wait;
use std::{fs, io};

// The mode of an image's file.
const OWN: u32 = 0o600;

// How often a file is looked at that another takes the name of.
const LOOKS: u32 = 8;

/// The images in a folder of a system: the files `passwd.img`, `group.img`, `hosts.img` and `services.img`. It tells nothing of what
/// they hold; contracts see what it counts. Before the first `under` it has no folder, and no image is there.
///
/// The folder must belong to this user or root, and nobody else may write it: else each call fails, and nothing is touched. What has
/// an image's name and is a link, or no regular file, is left alone, and a call that meets it fails. Only one store at a time may put
/// images into a folder, that of the process that has the folder's lock: while somebody has it, what is being written is left alone.
/// Why a call failed is told as a line.
#[derive(Drop)]
pub struct HostImages<R: Files + Drop> {
    system: R,
    lines: Lines<R>,
    alloc: Global,
    folder: Option<String>,
    tally: ImageTally,
}

impl<R: Files + Drop> Model for HostImages<R> {
    ghost use Rattle.std.specs.Prelude.{string_bytes};
    ghost use Rattle.std.specs.Option.{option_map};
    ghost use Rattle.nsc_outside.specs.HostImages.{HostImages};

    ghost Value = { HostImages };

    ghost view = { λ s. record { folder = option_map string_bytes s.folder; counts = s.tally } };
}

impl<R: Files + Drop> HostImages<R> {
    /// Makes a store with no folder, which counted nothing. It takes no memory.
    pub fn new(alloc: Global, system: R, lines: Lines<R>) -> HostImages<R>
        ensures { result ≡ record { folder = None; counts = no_image_counts } }
    {
        HostImages {
            system,
            lines,
            alloc,
            folder: None,
            tally: ImageTally::new(),
        }
    }

    /// How many calls failed or met an image that is too long; the count stops at the greatest `u64`.
    pub fn faults(&self) -> u64
        ensures { result ≡ self.now.counts.faults }
    {
        self.tally.faults()
    }

    /// How often an image of a database was put; the count stops at the greatest `u64`.
    pub fn puts(&self, db: Db) -> u64
        ensures { result ≡ db_count self.now.counts.puts db }
    {
        self.tally.puts(db)
    }

    /// How often a put for a database failed; the count stops at the greatest `u64`.
    pub fn failed_puts(&self, db: Db) -> u64
        ensures { result ≡ db_count self.now.counts.failed_puts db }
    {
        self.tally.failed_puts(db)
    }
}

impl<R: Files<File = File> + Wait + Drop> HostImages<R> {
    // One get of an image.
    fn fetch(&self, alloc: Global, db: Db) -> Result<Option<Bytes>, ReadCause>
        ensures fits { IfOk result (λ image. ImageFits image) }
        ensures cause { IfErr result (λ cause. IsImageCause None cause) }
    {
        let Some(folder) = &self.folder else {
            return Ok(None);
        };
        let folder = folder.as_str();
        match ImagePaths::of(alloc, folder, db) {
            Ok(paths) => self.read(alloc, folder, &paths),
            Err(_) => {
                let (name, cause) = (image_name(db), ReadCause::NoMemory);
                self.lines
                    .tell(format_args!("nscd: {folder}/{name}: {cause}"));
                Err(cause)
            }
        }
    }

    // Reads the image, if there is one, once what a put that was broken off has left is removed.
    #[tactic(auto, using(crate::proofs::Wholes::no_length_no_image_cause, crate::proofs::Wholes::over_no_image_cause))]
    fn read(
        &self,
        alloc: Global,
        folder: &str,
        paths: &ImagePaths,
    ) -> Result<Option<Bytes>, ReadCause>
        ensures fits { IfOk result (λ image. ImageFits image) }
        ensures cause { IfErr result (λ cause. IsImageCause None cause) }
    {
        let path = paths.image.as_str();
        match open_image(&self.system, alloc, folder, paths) {
            Ok((file, length)) => match read_within(alloc, file, length, IMAGE_LIMIT) {
                Ok(image) => Ok(Some(image)),
                Err(cause) => {
                    self.lines.tell(format_args!("nscd: {path}: {cause}"));
                    Err(cause)
                }
            },
            Err(error) => {
                let found = absent_or(&error);
                if found.is_err() {
                    self.lines.tell(format_args!("nscd: {path}: {error}"));
                }
                found
            }
        }
    }

    // One put of an image, which says whether it succeeded.
    fn replace(&self, db: Db, image: &[u8]) -> bool {
        let Some(folder) = &self.folder else {
            return false;
        };
        let folder = folder.as_str();
        let outcome = match ImagePaths::of(self.alloc, folder, db) {
            Ok(paths) => replace_file(&self.system, folder, &paths, image),
            Err(_) => Err(Error::from(ErrorKind::OutOfMemory)),
        };
        match outcome {
            Ok(()) => true,
            Err(error) => {
                let name = image_name(db);
                self.lines.tell(format_args!(
                    "nscd: {folder}/{name}: {error}: the image is not kept"
                ));
                false
            }
        }
    }
}

impl<R: Files<File = File> + Wait + Drop> ImageStore for HostImages<R> {
    ghost use Rattle.std.specs.Prelude.{None};
    ghost use Rattle.nsc_outside.specs.ImageTally.{db_count};

    ghost faults = { λ s. s.counts.faults };

    ghost puts = { λ s. db_count s.counts.puts };

    ghost failed_puts = { λ s. db_count s.counts.failed_puts };

    ghost held = { λ _ _. None };

    fn under(&mut self, dir: &str) -> Result<(), NoMemory>
        ensures ok { OnOk result (self.new ≡ record self.old { folder = Some dir.now }) }
        ensures err { OnErr result (self.new ≡ self.old) }
    {
        self.folder = Some(String::from_str(self.alloc, dir)?);
        Ok(())
    }

    /// Removes what a put that was broken off has left, if nobody has the folder's lock; then opens the image's file and reads it once.
    /// There is no image where the file or the folder is missing. The length that `TooLong` gives is the one that the system told
    /// before, or that of 134,217,729 bytes, whichever is more.
    fn get(&mut self, alloc: Global, db: Db) -> Result<Option<Bytes>, ReadCause>
        ensures fits { IfOk result (λ image. ImageFits image) }
        ensures cause { IfErr result (λ cause. IsImageCause None cause) }
        ensures calm { OnOk result (self.new ≡ self.old) }
        ensures faults { IfErr result (λ cause. RoseBy cause self.old.counts.faults self.new.counts.faults) }
        ensures rest { self.new ≡ record self.old { counts = record self.old.counts { faults = self.new.counts.faults } } }
    {
        let outcome = self.fetch(alloc, db);
        if let Err(cause) = &outcome {
            self.tally.count_cause(*cause);
        }
        outcome
    }

    /// Writes the bytes into a new file beside the image's, of mode 0600, and lets it take the image's place once they are on the disk.
    /// On `Failed` the new file is removed where it can be, and the image's file is as before; only where the folder's own sync failed
    /// it has the new bytes.
    fn put(&mut self, db: Db, image: &[u8]) -> Result<(), Failed>
        ensures calm { OnOk result (self.new.counts.faults ≡ self.old.counts.faults) }
        ensures failed { OnErr result (Rose self.old.counts.faults self.new.counts.faults) }
        ensures put { OnOk result (Rose (db_count self.old.counts.puts db) (db_count self.new.counts.puts db)) }
        ensures not_put { OnErr result (self.new.counts.puts ≡ self.old.counts.puts) }
        ensures other_puts { OthersStay db (db_count self.old.counts.puts) (db_count self.new.counts.puts) }
        ensures failed_put { OnErr result (Rose (db_count self.old.counts.failed_puts db) (db_count self.new.counts.failed_puts db)) }
        ensures none_failed { OnOk result (self.new.counts.failed_puts ≡ self.old.counts.failed_puts) }
        ensures other_failed_puts { OthersStay db (db_count self.old.counts.failed_puts) (db_count self.new.counts.failed_puts) }
        ensures folder { self.new.folder ≡ self.old.folder }
    {
        if self.replace(db, image) {
            self.tally.count_put(db);
            Ok(())
        } else {
            Err(self.tally.fail_put(db))
        }
    }
}

// Opens the image, and tells its length, once what a put that was broken off has left is removed.
fn open_image<R: Files<File = File>>(
    system: &R,
    alloc: Global,
    folder: &str,
    paths: &ImagePaths,
) -> io::Result<(R::File, u64)> {
    let _folder = open_folder(system, folder)?;
    let new = paths.new.as_str();
    if fs::symlink_metadata(system, new).is_ok() {
        remove_left(system, alloc, folder, new);
    }
    open_plain(system, paths.image.as_str())
}

// Removes a new image that nobody writes any more. The folder's lock is held meanwhile, so nobody begins; if it cannot be had, a
// daemon may be writing, and the next start removes what is left.
fn remove_left<R: Files<File = File>>(system: &R, alloc: Global, folder: &str, new: &str) {
    let Ok(lock) = path_in(alloc, folder, LOCK_NAME) else {
        return;
    };
    if let Ok(_held) = take_lock(system, lock.as_str()) {
        let _ = fs::remove_file(system, new);
    }
}

// Opens a regular file, and tells its length. What has its name is looked at before it is opened, so that no link is followed. If
// another file has taken the name by then, as when a daemon that ends puts its image, it is looked at anew.
fn open_plain<R: Files>(system: &R, path: &str) -> io::Result<(R::File, u64)> {
    for _ in 0..LOOKS {
        let seen = fs::symlink_metadata(system, path)?;
        check_plain(&seen)?;
        let file = File::open(system, path)?;
        let metadata = file.metadata()?;
        check_plain(&metadata)?;
        if metadata.dev() == seen.dev() && metadata.ino() == seen.ino() {
            return Ok((file, metadata.len()));
        }
    }
    let message = "another file takes its name again and again";
    Err(Error::new(ErrorKind::InvalidInput, message))
}

// Gives the image's file these bytes, by way of a new file.
fn replace_file<R: Files>(
    system: &R,
    folder: &str,
    paths: &ImagePaths,
    image: &[u8],
) -> io::Result<()> {
    let (path, new) = (paths.image.as_str(), paths.new.as_str());
    let folder = open_folder(system, folder)?;
    let _ = fs::remove_file(system, new);
    check_free(system, path)?;
    let outcome = write_new(system, new, path, image);
    if outcome.is_err() {
        let _ = fs::remove_file(system, new);
        return outcome;
    }
    // The new name is on the disk only once the folder is.
    folder.sync_all()
}

// Makes a new file of these bytes, and gives it this path once they are on the disk.
fn write_new<R: Files>(system: &R, new: &str, path: &str, image: &[u8]) -> io::Result<()> {
    let mut how = File::options();
    how.write(true).create_new(true).mode(OWN);
    let mut file = how.open(system, new)?;
    file.write_all(image)?;
    file.sync_all()?;
    fs::rename(system, new, path)
}

// Fails where something stands at a path that may not be replaced.
fn check_free<R: Files>(system: &R, path: &str) -> io::Result<()> {
    match fs::symlink_metadata(system, path) {
        Ok(metadata) => check_plain(&metadata),
        Err(error) if error.kind() == ErrorKind::NotFound => Ok(()),
        Err(error) => Err(error),
    }
}

// Opens a folder in which nobody else may change anything.
fn open_folder<R: Files>(system: &R, path: &str) -> io::Result<R::File> {
    let folder = File::open(system, path)?;
    check_folder(&folder.metadata()?)?;
    Ok(folder)
}

// Refuses what is no regular file, as a link.
fn check_plain(metadata: &Metadata) -> io::Result<()>
    ensures plain { IsOk result ↔ IsFile (file_type metadata.now) }
    ensures refused { IfErr result (λ error. ¬ (error_kind error ≡ ErrorKind.NotFound)) }
{
    if metadata.file_type().is_file() {
        Ok(())
    } else {
        Err(Error::new(ErrorKind::InvalidInput, "it is no regular file"))
    }
}
