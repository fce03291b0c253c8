//! Trials of units, of chains of them, of objects and of merged logs.
#![tactic(auto)]

#[cfg(test)]
mod answers;
#[cfg(test)]
mod barriers;
#[cfg(test)]
mod chains;
#[cfg(test)]
mod desks;
#[cfg(test)]
mod eventuals;
#[cfg(test)]
mod logs;
#[cfg(test)]
mod monitors;
#[cfg(test)]
mod pools;
#[cfg(test)]
mod rwlocks;
#[cfg(test)]
mod samples;
#[cfg(test)]
mod tried;
#[cfg(test)]
mod units;
