//! Tests of callers of graphs: what runs on threads compute.
#![tactic(auto)]

#[cfg(test)]
mod counts;
#[cfg(test)]
mod numbers;
#[cfg(test)]
mod pictures;
#[cfg(test)]
mod sorting;
#[cfg(test)]
mod subsequences;
