//! What a name service is: its requests, rows, contents, answers, histories, and the machine that a cache is.
//!
//! The definitions stand in `specs/`, over the types of this crate; the crates above prove that they compute them.
#![tactic(auto)]

mod answer;
mod answerer;
mod conf;
mod content;
mod counts;
mod databases;
mod exit;
mod fault;
mod in_place;
mod kind;
mod record;
mod row;
mod service_key;
mod store;
mod switch;

pub use answer::{Answer, Request};
pub use answerer::Answerer;
pub use conf::{Conf, DbConf};
pub use content::Content;
pub use counts::{KEPT_LIMIT, KEY_LIMIT, LAST_COUNT, LINE_LIMIT, has_reached, next_count};
pub use databases::Databases;
pub use exit::{ConfFault, Exit};
pub use fault::CacheFault;
pub use in_place::{InPlace, Sought};
pub use kind::{Db, FileId, Kind, Shape};
pub use record::{Ending, Entry, Record};
pub use row::{Ai, Found6, Founds, Group, Host, Looked, Passwd, Reply, Row, Service};
pub use service_key::{key_parts, key_port};
pub use store::{Given, LookupFault, Spent, Stats, Store, Why};
pub use switch::{DbName, SwitchAction, SwitchService, SwitchStep};
