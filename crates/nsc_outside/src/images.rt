// `ImageStore`: the trait of stores of the databases' images.
ghost use Rattle.std.specs.Prelude.{◌≡◌, ℕ, List, Option, IfOk, IfErr, OnOk, OnErr};
ghost use Rattle.nsc_model.specs.Reads.{IsAsTold, Rose};
ghost use Rattle.nsc_model.specs.declared.kind.Db.{Db};
ghost use Rattle.nsc_outside.specs.FileSets.{RoseBy};
ghost use Rattle.nsc_outside.specs.ImageStores.{ImageFits, IsImageCause, OthersStay, told_put};

use crate::files::ReadCause;
use crate::stream::Failed;
use nsc_base::{Bytes, NoMemory};
use nsc_model::Db;
use std::alloc::Global;

/// The longest image that a store gives, in bytes.
pub const IMAGE_LIMIT: u32 = 134_217_728;

/// The images of the databases, each of which is absent, or bytes that are put and given whole.
pub trait ImageStore {
    // How many calls failed or met an image that is too long; the count stops at the greatest `u64`.
    ghost faults: { Self → ℕ };

    // How often an image of each database was put; the count stops at the greatest `u64`.
    ghost puts: { Self → Db → ℕ };

    // How often a put for each database failed; the count stops at the greatest `u64`.
    ghost failed_puts: { Self → Db → ℕ };

    // The image of each database, absent or its bytes, where the store tells it.
    ghost held: { Self → Db → Option (Option (List ℕ)) };

    /// Takes the images of this folder from now on: in it `passwd.img`, `group.img`, `hosts.img` and `services.img`. A form in
    /// memory has no folders, and keeps its images. At `NoMemory` nothing changed.
    fn under(&mut self, dir: &str) -> Result<(), NoMemory>
        ensures faults { faults self.new ≡ faults self.old }
        ensures puts { puts self.new ≡ puts self.old }
        ensures failed_puts { failed_puts self.new ≡ failed_puts self.old }
        ensures held { OnErr result (held self.new ≡ held self.old) };

    /// The image of a database: its bytes, at most 134,217,728, or `None` where there is none. At `Failed` and `TooLong` only the
    /// count of faults rose; at `NoMemory` all is as before.
    fn get(&mut self, alloc: Global, db: Db) -> Result<Option<Bytes>, ReadCause>
        ensures answer { IfOk result (λ image. IsAsTold (held self.old db) image) }
        ensures fits { IfOk result (λ image. ImageFits image) }
        ensures cause { IfErr result (λ cause. IsImageCause (held self.old db) cause) }

        // The counts.
        ensures calm { OnOk result (faults self.new ≡ faults self.old) }
        ensures faults { IfErr result (λ cause. RoseBy cause (faults self.old) (faults self.new)) }
        ensures puts { puts self.new ≡ puts self.old }
        ensures failed_puts { failed_puts self.new ≡ failed_puts self.old }

        // What the store tells.
        ensures held { held self.new ≡ held self.old };

    /// Makes these bytes, however many, the image of a database. On `Failed`, also for want of memory or room, the counts of faults and
    /// of failed puts rose, and the image is as before, where the store tells it. The other databases keep their images.
    fn put(&mut self, db: Db, image: &[u8]) -> Result<(), Failed>
        // The counts.
        ensures calm { OnOk result (faults self.new ≡ faults self.old) }
        ensures failed { OnErr result (Rose (faults self.old) (faults self.new)) }
        ensures put { OnOk result (Rose (puts self.old db) (puts self.new db)) }
        ensures not_put { OnErr result (puts self.new ≡ puts self.old) }
        ensures other_puts { OthersStay db (puts self.old) (puts self.new) }
        ensures failed_put { OnErr result (Rose (failed_puts self.old db) (failed_puts self.new db)) }
        ensures none_failed { OnOk result (failed_puts self.new ≡ failed_puts self.old) }
        ensures other_failed_puts { OthersStay db (failed_puts self.old) (failed_puts self.new) }

        // What the store tells.
        ensures held { OnOk result (held self.new db ≡ told_put (held self.old db) image.now) }
        ensures held_stays { OnErr result (held self.new ≡ held self.old) }
        ensures other_held { OthersStay db (held self.old) (held self.new) };
}
