//! The outside world as traits: streams of bytes, sets of files and stores of images, each with a form in memory and one over the
//! standard library's.
#![tactic(auto)]

mod call_plan;
mod comparing;
mod fail_plan;
mod files;
mod folders;
mod held_files;
mod hold;
mod host_files;
mod host_images;
mod image_paths;
mod image_tally;
mod images;
mod mem_files;
mod mem_images;
mod mem_sink;
mod mem_source;
mod notices;
mod numbers;
mod opening;
mod paths;
mod read_plan;
mod reading;
mod release;
mod settling;
mod shared;
mod standard;
mod stream;
mod tally;
mod whole;

pub use files::{FileSet, ReadCause};
pub use folders::{LOCK_NAME, check_folder, take_lock};
pub use held_files::HeldFiles;
pub use hold::Hold;
pub use host_files::HostFiles;
pub use host_images::HostImages;
pub use images::{IMAGE_LIMIT, ImageStore};
pub use mem_files::MemFiles;
pub use mem_images::MemImages;
pub use mem_sink::MemSink;
pub use mem_source::MemSource;
pub use release::Release;
pub use standard::{StdSink, StdSource};
pub use stream::{Failed, Sink, Source};
pub use whole::{fill, write_all};
