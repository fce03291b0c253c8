//! A caller of a booth whose streams' logs are proved to be gathered, from the booth's contracts.
#![tactic(auto)]

mod adding;

pub use adding::add_twice;
