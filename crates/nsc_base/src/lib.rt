//! Bytes, spans, numbers and buffers: what every crate above reads and writes with.
#![tactic(auto)]

mod any_case;
mod buf;
mod bytes;
mod cuts;
mod decimals;
mod fields;
mod lines;
mod memory;
mod number;
mod picked;
mod search;
mod span;
mod texts;
mod words;

pub use buf::Buf;
pub use bytes::{Bytes, Ids, equal};
pub use cuts::{before_byte, before_remark, has_zero_byte, trim_front};
pub use decimals::decimal;
pub use fields::{exact_fields, field_at};
pub use lines::line_at;
pub use memory::NoMemory;
pub use number::{i32_at, u32_at, u64_at};
pub use picked::Picked;
pub use search::{Case, first_line_with, line_with};
pub use span::{Line, Span};
pub use texts::Texts;
pub use words::{WordsAt, has_word, next_word, two_words, word_at};
