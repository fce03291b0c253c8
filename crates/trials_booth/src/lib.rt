//! Trials of booths: counters and letters behind them, futures that call folds, and rings that call ends.
#![tactic(auto)]

#[cfg(test)]
mod counters;
#[cfg(test)]
mod folds;
#[cfg(test)]
mod futures;
#[cfg(test)]
mod holders;
#[cfg(test)]
mod letters;
#[cfg(test)]
mod rings;
