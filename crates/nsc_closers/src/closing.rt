// `Closing`: the trait of values whose close may hold a thread.
use std::alloc::Global;
use std::fs::File;
use std::rt::Files;

/// What is closed by a thread that may be held by it.
pub trait Closing: Sized {
    /// Closes it, and waits for as long as that takes. A wary call looks first whether it may take long. Then it is left open, and
    /// comes back.
    fn close<R: Files<File = File>>(self, system: &R, alloc: Global, is_wary: bool) -> Option<Self>;
}
