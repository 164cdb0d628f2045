//! The service switch of nsswitch.conf(5): the services of a list are asked one after the other.
#![tactic(auto)]

mod compat;
mod decided;
mod joining;
mod lists;
mod outcome;
mod services;

pub use decided::{Decided, decide};
pub use lists::Lists;
pub use outcome::{switch, switch_by, switch_over};
pub use services::{ServiceLook, Services};
