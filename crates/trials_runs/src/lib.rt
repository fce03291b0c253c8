//! Tests of rounds, of turns and of runs.
#![tactic(auto)]

#[cfg(test)]
mod budgets;
#[cfg(test)]
mod calls;
#[cfg(test)]
mod drains;
#[cfg(test)]
mod flows;
#[cfg(test)]
mod halls;
#[cfg(test)]
mod keeping;
#[cfg(test)]
mod lives;
#[cfg(test)]
mod lives_calls;
#[cfg(test)]
mod reports;
#[cfg(test)]
mod rounds;
#[cfg(test)]
mod turns;
#[cfg(test)]
mod waits;
#[cfg(test)]
mod waves;
#[cfg(test)]
mod works;
