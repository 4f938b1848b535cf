//! The merge of three trees by what operations changed: only rows that matter are looked at.
#![tactic(auto)]

mod counted;
mod edits;
mod known;
mod merging;
mod names;
mod rows;
mod tables;

pub use counted::Counted;
pub use merging::merge_by_actions;
pub use tables::edit_table;
