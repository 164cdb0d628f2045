//! One connection served over the stores of the four databases, jobs for a worker, and the text of statistics.
#![tactic(auto)]

mod admitted;
mod counts;
mod in_place;
mod jobs;
mod laws;
mod made;
mod request_buffer;
mod scope;
mod serve;
mod served;
mod statistics;

pub use in_place::{ServedInPlace, serve_in_place};
pub use jobs::{Job, Jobs, work};
pub use laws::lookups_in_place_leave_all_to_serve_one;
pub use request_buffer::RequestBuffer;
pub use scope::{Scope, Scopes};
pub use serve::serve_one;
pub use served::{Closing, Served};
pub use statistics::stat_text;
