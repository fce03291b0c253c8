//! Tests of workloads: one made and read back, parts that one change makes invalid, and those at the limits.
#![tactic(auto)]

#[cfg(test)]
mod limits;
#[cfg(test)]
mod parts;
#[cfg(test)]
mod readers;
#[cfg(test)]
mod validity;
