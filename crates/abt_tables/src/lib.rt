//! Rows of many words: each node of a graph makes a row of a table once, from rows that are made before, and each row is what its
//! table says.
#![tactic(auto)]

mod made;
mod makers;
mod runs;
mod tables;
mod writing;

pub use made::Rows;
pub use makers::MakesRows;
pub use runs::{run_map_rows, run_rows, run_wavefront_rows};
pub use tables::Table;
