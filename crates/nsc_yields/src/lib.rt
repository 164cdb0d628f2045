//! When a thread that looks out for work may yield the processor between two looks.
#![tactic(auto)]

mod yields;

pub use yields::Yields;
