//! The entries of network files: lines of hosts(5) and services(5) read, the line that a request names found, and the
//! addresses of a host.
#![tactic(auto)]

mod addresses;
mod find;
mod hosts;
mod rows;
mod services;
mod words;

pub use addresses::{ai_of, ai_row};
pub use find::{find_host, find_host_by_addr, find_service, find_service_by_port};
pub use hosts::{HostAt, host_line};
pub use rows::{host_row, service_row};
pub use services::{ServiceAt, service_line};
