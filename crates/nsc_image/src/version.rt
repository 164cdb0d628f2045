// The versions of images, and the places of an entry's fields that differ between them.
ghost use Rattle.std.specs.Prelude.{◌≡◌, ◌+◌, ◌≤◌, false, length, IfNone, IfSome};
ghost use Rattle.nsc_model.specs.Image.{is_image_version};
ghost use Rattle.nsc_image.specs.Versions.{fixed_size, number_of, reloads_in, timeout_at};

use nsc_base::u32_at;

// The numbers of the versions.
const TWO: u32 = 2;

const THREE: u32 = 3;

// The places of an entry's timeout and of its key, from the entry's first byte on, in version 2.
const TIMEOUT_2: usize = 24;

const KEY_2: usize = 32;

// The places of its count of reloads, of its timeout and of its key in version 3.
const RELOADS_3: usize = 24;

const TIMEOUT_3: usize = 28;

const KEY_3: usize = 36;

// A version of images that is read.
#[derive(Clone, Copy, Debug, PartialEq, Eq)]
pub(crate) enum Version {
    // An entry has no count of reloads, and restores with the count 0.
    Two,
    // An entry has its count of reloads. This version is written.
    Three,
}

impl Version {
    // Gives the version of a number, if that version is read.
    pub(crate) fn numbered(number: u32) -> Option<Version>
        ensures some { IfSome result (λ version. number ≡ number_of version) }
        ensures none { IfNone result (is_image_version number ≡ false) }
    {
        match number {
            TWO => Some(Version::Two),
            THREE => Some(Version::Three),
            _ => None,
        }
    }

    // Gives the number of the version.
    pub(crate) fn number(self) -> u32
        ensures { result ≡ number_of self }
    {
        match self {
            Version::Two => TWO,
            Version::Three => THREE,
        }
    }

    // Gives the place of an entry's timeout. The key is behind it.
    pub(crate) fn timeout_at(self) -> usize
        ensures place { result ≡ timeout_at (number_of self) }
        ensures key { result + 8 ≡ fixed_size (number_of self) }
        ensures bound { result ≤ 28 }
    {
        match self {
            Version::Two => TIMEOUT_2,
            Version::Three => TIMEOUT_3,
        }
    }

    // Gives the size of an entry's fixed part, behind which its key is.
    pub(crate) fn fixed_size(self) -> usize
        ensures size { result ≡ fixed_size (number_of self) }
        ensures least { 32 ≤ result }
        ensures most { result ≤ 36 }
    {
        match self {
            Version::Two => KEY_2,
            Version::Three => KEY_3,
        }
    }

    // Reads the count of reloads of the entry at the front of the bytes. It is 0 in version 2, which has no such field.
    pub(crate) fn reloads_in(self, bytes: &[u8]) -> u32
        requires { fixed_size (number_of self) ≤ length bytes.now }
        ensures { result ≡ reloads_in (number_of self) bytes.now }
    {
        match self {
            Version::Two => 0,
            Version::Three => u32_at(bytes, RELOADS_3),
        }
    }
}
