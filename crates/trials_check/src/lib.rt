//! Trials of judging journals, on workloads and journals that are read from texts.
#![tactic(auto)]

#[cfg(test)]
mod changes;
#[cfg(test)]
mod checks;
#[cfg(test)]
mod seeds;
#[cfg(test)]
mod sites;
#[cfg(test)]
mod tables;
#[cfg(test)]
mod waits;
