//! The seats of a caller at the tables of a database, from the first one to the newest, and the tables that its writer left.
#![tactic(auto)]

mod left;
mod seat;
mod seats;

pub use left::Left;
pub use seats::Seats;
