//! The entries of account files: lines of passwd(5) and group(5) read, the line that a request names found, and the
//! groups of a user. Plus and minus lines are told by their signs, nsswitch.conf(5).
#![tactic(auto)]

mod fields;
mod find;
mod group;
mod matters;
mod members;
mod named_id;
mod once;
mod passwd;
mod rows;
mod signs;
mod sought;

pub use find::{
    find_group_by_gid, find_group_by_name, find_passwd_by_name, find_passwd_by_uid, group_named,
    group_numbered, user_named, user_numbered,
};
pub use group::{GroupAt, group_line};
pub use matters::lines_that_matter;
pub use members::{groups_of, has_member};
pub use named_id::{NamedId, named_groups};
pub use once::OnceIds;
pub use passwd::{PasswdAt, passwd_line};
pub use rows::{group_row, user_row};
pub use signs::sign_line;
pub use sought::Sought;
