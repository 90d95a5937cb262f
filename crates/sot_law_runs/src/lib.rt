//! Facts and laws that tie the meaning of programs down: facts that a wrong definition would make
//! false, laws that say that runs exist and go on, and laws of holds, recovery and ranks.
#![tactic(auto)]

mod facts;
mod laws;
mod recovery_facts;
mod recovery_laws;

pub use facts::{
    each_module_enables_its_own_nodes, each_module_is_to_be_safe, every_run_has_any_length,
    free_nodes_fire_again, ticks_wait_for_deadlines,
};
pub use laws::{
    certified_programs_open, firings_are_due_times, points_have_one_opening,
    something_always_happens, time_goes_on, tubes_hold_the_reach_at_each_tick,
};
pub use recovery_facts::{one_hold_is_needed, one_hold_is_waited_for, whole_holds_are_counted};
pub use recovery_laws::{
    firings_are_holds, guarded_modules, holds_stay_safe, rank_zero_keeps, ranks_are_one,
    ranks_recover, runs_recover,
};
