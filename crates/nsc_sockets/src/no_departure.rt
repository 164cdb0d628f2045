// `NoDeparture`: the type of jobs for closers of a listener in memory, which has none.
use nsc_closers::Closing;
use std::alloc::Global;
use std::fs::File;
use std::rt::Files;

/// What a listener in memory leaves to closers: nothing.
#[derive(Clone, Copy, Debug, PartialEq, Eq)]
pub struct NoDeparture;

impl Closing for NoDeparture {
    fn close<R: Files<File = File>>(
        self,
        _system: &R,
        _alloc: Global,
        _is_wary: bool,
    ) -> Option<NoDeparture> {
        None
    }
}
