//! Trials of workloads whose runs finish, and of those that miss one condition each.
#![tactic(auto)]

#[cfg(test)]
mod rows;
