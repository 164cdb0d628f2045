// An image that was accepted, and its entries.

use crate::layout::{behind_entry, entry_at};
use crate::saved::Saved;
use crate::version::Version;
use std::marker::Model;

/// An image that `verify` accepted. Contracts see it as the list of its entries, in the order of their numbers.
#[derive(Debug, Drop)]
pub struct Image<'a> {
    version: Version,
    count: u32,
    bytes: &'a [u8],
}

impl<'a> Model for Image<'a> {
    ghost use Rattle.std.specs.Prelude.{List};
    ghost use Rattle.nsc_model.specs.Image.{Saved};
    ghost use Rattle.nsc_image.specs.Reading.{AreReadable, saved_in};
    ghost use Rattle.nsc_image.specs.Versions.{number_of};

    ghost Value = { List Saved };

    ghost view = { λ i. saved_in (number_of i.version) i.count i.bytes.now };

    ghost invariant = { λ i. AreReadable (number_of i.version) i.count i.bytes.now };
}

impl<'a> Image<'a> {
    ghost use Rattle.std.specs.Prelude.{◌≡◌, ◌<◌, ◌^◌, length};
    ghost use Rattle.nsc_image.specs.Reading.{AreReadable, saved_in};
    ghost use Rattle.nsc_image.specs.Versions.{number_of};

    // Makes the image of `count` entries of a version, which are in these bytes.
    pub(crate) fn new(version: Version, count: u32, bytes: &'a [u8]) -> Image<'a>
        requires { AreReadable (number_of version) count bytes.now }
        ensures { result ≡ saved_in (number_of version) count bytes.now }
    {
        Image {
            version,
            count,
            bytes,
        }
    }

    // Gives the number of its entries.
    pub(crate) fn count(&self) -> u64
        ensures value { result ≡ length self.now }
        ensures bound { result < 2 ^ 32 }
    {
        u64::from(self.count)
    }

    /// Gives the entries, in the order of their numbers. The bytes of the image lend them.
    pub fn entries(&self) -> Entries<'a>
        ensures { result ≡ self.now }
    {
        Entries {
            version: self.version,
            left: self.count,
            bytes: self.bytes,
        }
    }
}

/// The entries of an image, one after the other. Contracts see it as the list of those that are left.
#[derive(Debug, Drop)]
pub struct Entries<'a> {
    version: Version,
    left: u32,
    bytes: &'a [u8],
}

impl<'a> Model for Entries<'a> {
    ghost use Rattle.std.specs.Prelude.{List};
    ghost use Rattle.nsc_model.specs.Image.{Saved};
    ghost use Rattle.nsc_image.specs.Reading.{AreReadable, saved_in};
    ghost use Rattle.nsc_image.specs.Versions.{number_of};

    ghost Value = { List Saved };

    ghost view = { λ e. saved_in (number_of e.version) e.left e.bytes.now };

    ghost invariant = { λ e. AreReadable (number_of e.version) e.left e.bytes.now };
}

impl<'a> Iterator for Entries<'a> {
    ghost use Rattle.std.specs.Iterator.{YieldsFirst, item_count};

    type Item = Saved<'a>;

    ghost next_gives = { YieldsFirst (λ entries. entries) };

    ghost remaining = { item_count (λ entries. entries) };

    fn next(&mut self) -> Option<Saved<'a>> {
        if self.left == 0 {
            return None;
        }
        let saved = entry_at(self.version, self.bytes);
        self.bytes = behind_entry(self.version, self.bytes);
        self.left -= 1;
        Some(saved)
    }
}
