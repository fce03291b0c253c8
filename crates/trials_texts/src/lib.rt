//! Trials of texts: of workloads, journals, reports and views, of the command's words, of files and sinks, and of flows.
#![tactic(auto)]

#[cfg(test)]
mod command_words;
#[cfg(test)]
mod files;
#[cfg(test)]
mod flows;
#[cfg(test)]
mod formats;
#[cfg(test)]
mod generated;
#[cfg(test)]
mod journals;
#[cfg(test)]
mod refusals;
#[cfg(test)]
mod reports;
#[cfg(test)]
mod sinks;
#[cfg(test)]
mod view_calls;
#[cfg(test)]
mod views;
#[cfg(test)]
mod widest;
#[cfg(test)]
mod writings;
