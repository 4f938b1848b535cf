//! The folder and its devices, moved by the statements of a script.
#![tactic(auto)]

mod auditing;
mod blocks;
mod branches;
mod declared;
mod listing;
mod replies;
mod runs;
mod world;

pub use blocks::{acts_keep, blocks_are_acts, blocks_are_owned, blocks_keep, live_runs_are_good};
pub use declared::{Declared, Waiting};
pub use runs::{
    begun_is_front, branches_meet, equals_show_equal, members_are_declared, none_foreign,
    one_beyond, openings_choose, parts_answer, parts_are_determined, plain_runs_answer,
    queues_are_spelled, replies_are_one, replies_tell_all, returns_meet, rows_are_few,
    runs_are_determined, runs_are_good, runs_are_owned, runs_begin, scripts_are_answered,
    scripts_have_replies, shelves_are_old, unfused_is_disarmed, unfused_runs_on, unlost_runs_on,
    whole_have_one,
};
pub use world::World;
