//! Graphs of calls: nodes that call functions of the user with the values of earlier nodes, run on any number of streams, and the
//! values that come out.
#![tactic(auto)]

mod answers;
mod keys;
mod laws;
mod nodes;
mod runs;
mod shapes;
mod workload;

pub use answers::run_graph;
pub use keys::sum_of;
pub use laws::{
    graphs_are_confluent, graphs_are_orderly, graphs_are_valid, graphs_put_out_values, maps_return,
    reductions_return, reductions_total, sums_are_totals, values_fit, wavefronts_return,
};
pub use nodes::Node;
pub use runs::{run_map, run_reduction, run_sum, run_wavefront};
pub use shapes::{LEAF_LIMIT, map, reduction, wavefront};
pub use workload::workload_of;
