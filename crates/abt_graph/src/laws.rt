//! Laws of graphs: what their workloads are, and what comes out.

ghost use Rattle.std.specs.Prelude.{◌≡◌, ◌≤◌, ◌<◌, ◌+◌, ◌-◌, ◌*◌, List, slice_index, ℕ};
ghost use Rattle.abt_flow.specs.Confluent.{Confluent};
ghost use Rattle.abt_flow.specs.Finishing.{IsOrderly};
ghost use Rattle.abt_flow.specs.Flow.{Functions, IsFlow};
ghost use Rattle.abt_machine.specs.declared.events.Piece.{Piece};
ghost use Rattle.abt_machine.specs.declared.grammar.Format.TheVariants as format;
ghost use Rattle.abt_machine.specs.Limits.{function_limit, stream_limit, unit_limit};
ghost use Rattle.abt_machine.specs.Valid.{IsValid};
ghost use Rattle.abt_graph.specs.Graphs.{AreValues, IsGraph, values_of};
ghost use Rattle.abt_graph.specs.Rows.{number_rows};
ghost use Rattle.abt_graph.specs.Shapes.{
  IsReduction,
  IsTotal,
  IsTotalOf,
  IsWavefront,
  ReturnsSum,
  ReturnsTotal,
  inner_count,
  map_nodes,
  mapped,
  reduction_nodes,
  wavefront_nodes,
  word_sum,
};
ghost use Rattle.abt_graph.specs.Workloads.{workload_of};
ghost use Rattle.abt_graph.specs.declared.nodes.Node.{Node};
ghost use Rattle.abt_graph.specs.declared.shapes.TheConstants.{LEAF_LIMIT};

/// The workload of a graph is valid.
pub fn graphs_are_valid()
    ensures { (streams : ℕ) (nodes : List Node) → 0 < streams → streams ≤ stream_limit format.Three → IsGraph nodes → IsValid (workload_of streams nodes) }
{}

/// What its units put out does not depend on the schedule.
pub fn graphs_are_confluent()
    ensures { (streams : ℕ) (nodes : List Node) → Confluent (workload_of streams nodes) }
{}

/// It is orderly, so each of its runs that ends is finished, whatever the schedule, if no function that it calls is free and each stream
/// may make as many steps as there are operations.
pub fn graphs_are_orderly()
    ensures { (streams : ℕ) (nodes : List Node) → 0 < streams → IsGraph nodes → IsOrderly (workload_of streams nodes) }
{}

/// By its flow each unit puts out the value of its node.
pub fn graphs_put_out_values()
    ensures { (streams : ℕ) (nodes : List Node) (R : Functions) (rows : List (List Piece)) → 0 < streams → IsGraph nodes → IsFlow (workload_of streams nodes) R rows → rows ≡ number_rows (values_of R nodes) }
{}

/// The values of a graph fit one another: each is what its node makes of those that it waits for.
pub fn values_fit()
    ensures { (nodes : List Node) (R : Functions) → IsGraph nodes → AreValues R nodes (values_of R nodes) }
{}

/// The values of a map are what its function returns for each number alone.
pub fn maps_return()
    ensures { (R : Functions) (n f : ℕ) → n ≤ unit_limit format.Three → f < function_limit → values_of R (map_nodes n f) ≡ mapped R n f }
{}

/// The values of a reduction are those of its leaves, and what its inner nodes make of the values that they take.
pub fn reductions_return()
    ensures { (R : Functions) (n f g : ℕ) → n ≤ LEAF_LIMIT → f < function_limit → g < function_limit → IsReduction R n f g (values_of R (reduction_nodes n f g)) }
{}

/// The values of a wavefront are what its function returns for the values of the left and the upper neighbour.
pub fn wavefronts_return()
    ensures { (R : Functions) (rows columns f : ℕ) → rows * columns ≤ unit_limit format.Three → f < function_limit → IsWavefront R rows columns f (values_of R (wavefront_nodes rows columns f)) }
{}

/// The last value of a reduction of at least two leaves is the total of what they return, for whatever total its function returns.
pub fn reductions_total()
    ensures { (R : Functions) (n f g : ℕ) (values : List ℕ) → 1 < n → IsReduction R n f g values → IsTotalOf R n f g (slice_index values (n + inner_count n - 1)) }
{}

/// The sum of words is a total, and a function that returns the sum of its keys returns it.
pub fn sums_are_totals()
    ensures total { IsTotal word_sum }
    ensures returned { (R : Functions) (g : ℕ) → ReturnsSum R g → ReturnsTotal R g word_sum }
{}
