//! The readers of bytes from outside, for C: requests, replies, configuration files, lines of account and network files, and images.
//!
//! Each function is given the bytes and a room, writes into the room what a reader of the daemon says of them, and returns how many bytes
//! it wrote; the rest of the room stays. It returns 0, and the whole room stays, if memory is short, if the room is too small, or if a
//! number names no kind, list or database.
//!
//! What is said is a row of numbers and texts. A number takes eight bytes, the lowest first. A text is the number of its bytes, and the
//! bytes. A list is the number of its items, and the items. A flag is 0 or 1. The first number says which answer it is.
#![tactic(auto)]

mod conf;
mod image;
mod line;
mod put;
mod reply;
mod request;
mod row;
mod switch;
