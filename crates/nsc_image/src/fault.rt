// The faults of images.

use thiserror::Error;

/// Why bytes are no image of a database. The checks come in the order of the variants, and the first one that fails is told.
#[derive(Clone, Copy, Debug, PartialEq, Eq, Error)]
pub enum ImageFault {
    /// There are fewer than 52 bytes, or the first 8 of them are not `NSCIMAGE`.
    #[error("no image of a database")]
    NotImage,
    /// The image has another version than 2 and 3.
    #[error("an image of version {0}")]
    ImageVersion(u32),
    /// The digest at the end of the image is not SHA-256 of what stands before it.
    #[error("an image whose digest is not that of its bytes")]
    Digest {
        /// The digest in the image.
        kept: [u8; 32],
        /// SHA-256 of what stands before it.
        found: [u8; 32],
    },
    /// A field is at fault, an entry is not whole, or bytes are left behind the last entry.
    #[error("an image at fault at byte {at}")]
    Layout {
        /// The place, in bytes from the front, of the first field at fault, of the first byte of an entry that is not whole, or of the
        /// first byte behind the last entry.
        at: usize,
    },
}
