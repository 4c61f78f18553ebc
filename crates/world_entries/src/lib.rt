//! Records in the services the entries that no action causes: phases, time, answers, grants, transfers, drains, notes and the end of the
//! run. Also performs each action of an answer, with its entry. Part of bench_world.
#![tactic(auto)]

pub mod answers;
pub mod grants;
pub mod kernel_entries;
pub mod logs;
pub mod making;
pub mod performing;
mod phases;
pub mod stored_acts;
