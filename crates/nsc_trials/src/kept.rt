// Databases that begin with an image.
ghost use Rattle.nsc_model.specs.Sizes.{SizeFits};

use crate::asked::Asked;
use crate::texts::ROOT_BASH;
use crate::wanted::Wanted;
use nsc_base::{Buf, NoMemory, equal};
use nsc_caller::Caller;
use nsc_model::{Conf, InPlace, Kind, Store};
use std::alloc::Global;
use std::sync::Wait;

// The image of version 2 of the one user with the first shell, who is kept until moment 3600: 152 bytes, typed by hand but for the digest.
const WITH_BASH: &[u8] = b"NSCIMAGE\x02\0\0\0\0\0\0\0\x01\0\0\0\
    \0\0\0\0\0\0\0\0\0\0\0\0\x04\0\0\0\x40\0\0\0\0\0\0\0\x10\x0e\0\0\0\0\0\0root\
    \x02\0\0\0\x01\0\0\0\x05\0\0\0\x02\0\0\0\0\0\0\0\0\0\0\0\x05\0\0\0\x06\0\0\0\x0a\0\0\0root\0x\0root\0/root\0/bin/bash\0\
    \x4a\xcb\x8f\x40\xc5\xa3\xd8\xee\xad\x90\xed\xef\x73\xf5\x7b\x65\xc5\xa5\x67\x60\xa7\x29\xaa\x14\x56\x53\x29\xfa\x80\x1a\x97\xdc";

// The same with the second shell: 150 bytes.
const WITH_SH: &[u8] = b"NSCIMAGE\x02\0\0\0\0\0\0\0\x01\0\0\0\
    \0\0\0\0\0\0\0\0\0\0\0\0\x04\0\0\0\x3e\0\0\0\0\0\0\0\x10\x0e\0\0\0\0\0\0root\
    \x02\0\0\0\x01\0\0\0\x05\0\0\0\x02\0\0\0\0\0\0\0\0\0\0\0\x05\0\0\0\x06\0\0\0\x08\0\0\0root\0x\0root\0/root\0/bin/sh\0\
    \x03\x9b\x58\x3d\x7f\xba\x10\xbf\xcc\x87\x50\x2c\x7c\x8d\xe8\x26\xb4\xc5\x85\xd3\x2a\x58\x7a\x1d\x02\x09\x09\xc9\x07\x9b\x7d\x02";

// What a database becomes that has him alone, in version 3 with no reloads: 156 bytes.
const SAVED: &[u8] = b"NSCIMAGE\x03\0\0\0\0\0\0\0\x01\0\0\0\
    \0\0\0\0\0\0\0\0\0\0\0\0\x04\0\0\0\x40\0\0\0\0\0\0\0\0\0\0\0\x10\x0e\0\0\0\0\0\0root\
    \x02\0\0\0\x01\0\0\0\x05\0\0\0\x02\0\0\0\0\0\0\0\0\0\0\0\x05\0\0\0\x06\0\0\0\x0a\0\0\0root\0x\0root\0/root\0/bin/bash\0\
    \x50\xf9\x7a\xde\xd7\x46\xc6\x29\x82\x3a\xe3\x1f\xc2\x9d\x09\x6a\xce\xcd\xe0\x13\x0a\x56\xc8\x97\x9a\xd2\x38\x0a\xec\xa4\xa4\x0a";

/// An image, and where the reply on root comes from in a database that begins with it.
#[derive(Clone, Copy, Debug)]
pub struct Beginning {
    pub image: &'static [u8],
    pub wanted: Wanted,
}

/// An image whose entry is the answer over the file.
pub const TRUE: Beginning = Beginning {
    image: WITH_BASH,
    wanted: Wanted::Hit(0),
};

/// One whose entry is not.
pub const UNTRUE: Beginning = Beginning {
    image: WITH_SH,
    wanted: Wanted::Loaded(0),
};

/// The settings of the trial: users are kept in an image, without the numbers beside their names.
pub fn persistent() -> Conf
    ensures { SizeFits result.passwd }
{
    let mut conf = Conf::defaults();
    conf.passwd.persistent = true;
    conf.passwd.propagate = false;
    conf
}

/// Whether a database that began so has the entry that came back, and no other. A new caller finds it in place, before anything was
/// asked. Whatever the image had, the reply is the answer over the file, and so is that in the image that the database becomes.
pub fn brings_back<S: Store, R: Wait>(
    alloc: Global,
    caller: &mut Caller<'_, '_, S, R>,
    wanted: Wanted,
) -> Result<bool, NoMemory> {
    let mut new = caller.another()?;
    let mut out = Buf::new(alloc, 65_536)?;
    let first = InPlace::Hit {
        number: 0,
        version: 0,
        not_found: false,
    };
    let is_there = new.read(Kind::PwName, b"root", &mut out) == first;
    let is_answered = wanted.is(&Asked::Root.find(caller, 0), ROOT_BASH);
    let image = caller.save()?;
    Ok(is_there == (wanted == Wanted::Hit(0)) && is_answered && equal(image.as_slice(), SAVED))
}
