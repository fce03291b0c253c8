//! A caller of all objects, proved from public contracts alone: it places them, looks at a unit's desk, and has them back.
#![tactic(auto)]

mod looking;
#[cfg(test)]
mod tests;

pub use looking::{look, looked};
