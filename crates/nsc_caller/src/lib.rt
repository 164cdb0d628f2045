//! A caller of a database of users, and the files of such a database, for trials and loads.
#![tactic(auto)]

mod caller;
mod users;

pub use caller::Caller;
pub use users::users_of;
