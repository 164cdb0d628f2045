//! The laws of the definitions: theorems over whole histories, runs, replays, lists and texts, each the contract of a function with
//! no body. `nsc_answer` cites one of them: that an answer spells its row.
#![tactic(auto)]

mod addresses;
mod answers;
mod callers;
mod histories;
mod lists;
mod machines;
mod replays;
mod replies;
mod switches;

pub use addresses::{printed_v4_is_read, printed_v6_is_read};
pub use answers::{answers_in_histories_spell_their_rows, answers_spell_their_rows};
pub use callers::{
    answers_are_replied, core_can_be_emptied, core_runs_are_legal, legal_histories_are_run,
    polled_versions_are_held, unpolled_entries_are_not_run,
};
pub use histories::{prefixes_are_legal, replied_entries_were_live};
pub use lists::{texts_give_lists, texts_spell_lists};
pub use machines::{
    lone_insertions_are_not_overtaken, machine_events_are_moves, runs_are_answered,
    runs_are_reloaded,
};
pub use replays::replays_are_answered;
pub use replies::bytes_spell_one_reply;
pub use switches::{outcomes_are_taken, switches_end_at_their_takers};
