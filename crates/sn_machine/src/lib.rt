//! The round machine: every interleaving of the steps of any number of workers, over plain lists.
#![tactic(auto)]

mod feet;
mod going;
mod laws;
mod lists;
mod machine;
mod rounds;
mod views;
mod worker;

pub use feet::{may_touch, may_write};
pub use going::{are_within, is_race_free};
pub use laws::{
    a_round_can_be_played, arm_keeps, claim_is_ready, claim_keeps, end_keeps, go_keeps,
    idle_load_finds, idle_store_keeps, join_keeps, load_finds, look_keeps, mains_fit,
    opening_holds, release_finds, release_keeps, rest_finds, rest_keeps, runs_count_the_crew,
    runs_end_in_the_script, runs_get_once, runs_keep, split_keeps, store_keeps, sweep_finds,
    workers_fit,
};
pub use lists::{Debts, RestedRounds, Script, Words};
pub use machine::Machine;
pub use views::{Main, Phase, Rested, RunningJob, View, Worker};
pub use worker::{CLAIMED, ENDED};
