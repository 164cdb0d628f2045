// `FixedFiles`: a set of files in memory, whose one content its type names.
ghost use Rattle.std.specs.Prelude.{◌≡◌, IfOk, IfErr, Some, None};
ghost use Rattle.std.specs.Arc.{arc_value};
ghost use Rattle.std.specs.Option.{option_copied};
ghost use Rattle.nsc_model.specs.Files.{file_of};
ghost use Rattle.nsc_outside.specs.declared.files.ReadCause.TheVariants as cause_is;

use nsc_base::{Bytes, NoMemory};
use nsc_model::{Content, FileId};
use nsc_outside::{FileSet, ReadCause};
use std::alloc::Global;
use std::marker::{Brand, PhantomData};
use std::sync::Arc;

/// Names a content.
pub trait OfContent {
    ghost use Rattle.nsc_model.specs.Content.{Content};

    ghost files: { Content };
}

impl OfContent for Brand {
    ghost use Rattle.nsc_model.specs.Files.{no_files};

    ghost files = { no_files };
}

/// A set of files in memory that holds one content, which its type names. No read of it fails but for want of memory, and
/// all sets of the type tell the same files. A read gives a copy. No configuration file is there.
#[derive(Drop)]
pub struct FixedFiles<C: OfContent> {
    content: Arc<Content>,
    reads: [u64; 8],
    of: PhantomData<C>,
    pub ghost named: { arc_value content ≡ C.files },
}

impl<C: OfContent> FixedFiles<C> {
    /// A set that holds this content, of which nothing was read. Fails only for want of memory.
    pub fn new(alloc: Global, content: Content) -> Result<FixedFiles<C>, NoMemory>
        requires { content ≡ C.files }
    {
        Ok(FixedFiles {
            content: Arc::new(alloc, content)?,
            reads: [0; 8],
            of: PhantomData,
        })
    }
}

// A copy of a file, absent or its bytes.
fn copy_of(alloc: Global, file: Option<&[u8]>) -> Result<Option<Bytes>, NoMemory>
    ensures { IfOk result (λ copy. copy ≡ option_copied file.entry) }
{
    match file {
        None => Ok(None),
        Some(bytes) => Ok(Some(Bytes::copy(alloc, bytes)?)),
    }
}

impl<C: OfContent> FileSet for FixedFiles<C> {
    ghost use Rattle.std.specs.Prelude.{Some, None};
    ghost use Rattle.nsc_workload.specs.FixedFiles.{reads_of};

    ghost faults = { λ _. 0 };

    ghost file_faults = { λ _ _. 0 };

    ghost reads = { λ s. reads_of s.reads };

    ghost latest = { λ _ _. None };

    ghost held = { λ _. Some C.files };

    ghost conf_held = { λ _ _. Some None };

    /// Changes nothing.
    fn under(&mut self, _alloc: Global, _dir: &str) -> Result<(), NoMemory>
        ensures { self.new ≡ self.old }
    {
        Ok(())
    }

    /// A set with the same files, of which nothing was read.
    fn split(&self, _alloc: Global) -> Result<FixedFiles<C>, NoMemory> {
        Ok(FixedFiles {
            content: self.content.clone()?,
            reads: [0; 8],
            of: PhantomData,
        })
    }

    /// Gives a copy of the file. Fails only for want of memory.
    fn read(&mut self, alloc: Global, file: FileId) -> Result<Option<Bytes>, ReadCause> {
        let copy = copy_of(alloc, self.content.file(file))?;
        let place = file as usize;
        self.reads[place] = self.reads[place].saturating_add(1);
        Ok(copy)
    }

    /// Finds no configuration file.
    fn read_conf(&mut self, _alloc: Global, _path: &str) -> Result<Option<Bytes>, ReadCause> {
        Ok(None)
    }
}
