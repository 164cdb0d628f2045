// `Shared`: the bytes of a file that several sets of files hold, and copies of files.
ghost use Rattle.std.specs.Prelude.{◌≡◌, ◌≢◌, Some, IfOk, IfErr};
ghost use Rattle.std.specs.Option.{option_copied};
ghost use Rattle.nsc_model.specs.Files.{FileFits};
ghost use Rattle.nsc_outside.specs.FileSets.{IsCause};

use crate::files::ReadCause;
use nsc_base::{Bytes, NoMemory};
use nsc_model::Content;
use std::alloc::Global;
use std::marker::Model;
use std::sync::Arc;

// Bytes that several sets of files hold, seen in contracts as a list.
#[derive(Debug, Drop)]
pub(crate) struct Shared {
    bytes: Arc<Bytes>,
}

impl Model for Shared {
    ghost use Rattle.std.specs.Prelude.{List, ℕ};
    ghost use Rattle.std.specs.Arc.{arc_value};

    ghost Value = { List ℕ };

    ghost view = { λ s. arc_value s.bytes };
}

impl Shared {
    pub(crate) fn new(alloc: Global, bytes: Bytes) -> Result<Shared, NoMemory>
        ensures { IfOk result (λ shared. shared ≡ bytes) }
    {
        Ok(Shared {
            bytes: Arc::new(alloc, bytes)?,
        })
    }

    pub(crate) fn share(&self) -> Result<Shared, NoMemory>
        ensures { IfOk result (λ shared. shared ≡ self.now) }
    {
        Ok(Shared {
            bytes: Arc::try_clone(&self.bytes)?,
        })
    }

    pub(crate) fn as_slice(&self) -> &[u8]
        ensures { result.now ≡ self.now }
    {
        self.bytes.as_slice()
    }
}

// Another holder of a file, absent or its bytes.
pub(crate) fn share_file(file: &Option<Shared>) -> Result<Option<Shared>, NoMemory>
    ensures { IfOk result (λ shared. shared ≡ file.now) }
{
    match file {
        None => Ok(None),
        Some(bytes) => Ok(Some(bytes.share()?)),
    }
}

// A copy of a file, absent or its bytes. It fails for want of memory, and where the file is too long.
pub(crate) fn copy_file(alloc: Global, file: Option<&[u8]>) -> Result<Option<Bytes>, ReadCause>
    ensures copy { IfOk result (λ copy. copy ≡ option_copied file.entry) }
    ensures fits { IfOk result (λ copy. FileFits copy) }
    ensures cause { IfErr result (λ cause. IsCause (Some (option_copied file.entry)) cause) }
    ensures planned { IfErr result (λ cause. cause ≢ ReadCause.Failed) }
{
    let Some(bytes) = file else {
        return Ok(None);
    };
    if bytes.len() > Content::LIMIT {
        return Err(ReadCause::TooLong {
            length: bytes.len() as u64,
        });
    }
    Ok(Some(Bytes::copy(alloc, bytes)?))
}
