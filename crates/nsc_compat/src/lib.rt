//! The service compat of nsswitch.conf(5): the plus and minus lines of passwd and group files.
#![tactic(auto)]

mod account;
mod asking;
mod entries;
mod excluded;
mod groups;
mod lines;
mod lookup;
mod member_ids;
mod said;
mod sub;
mod users;

pub use lookup::compat_lookup;
pub use sub::SubLookup;
