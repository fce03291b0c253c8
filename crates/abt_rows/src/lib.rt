//! Worked rows of the machine: for the text of a workload, the journal of its run and the report on it,
//! computed from the definitions of the machine. Each function's contract is a row, and its body is empty.
#![tactic(auto)]

pub mod accumulators;
pub mod budgets;
pub mod calls;
pub mod conditions;
pub mod eventuals;
pub mod locals;
pub mod mutexes;
pub mod refused;
pub mod requests;
pub mod rounds;
pub mod rwlocks;
pub mod schedulers;
pub mod sharing;
pub mod streams;
pub mod three_pools;
pub mod units;
