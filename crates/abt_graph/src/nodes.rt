//! Nodes of graphs.

use abt_machine::{Items, UnitNo};

/// A node of a graph, which is a list of nodes: the function of the user that it calls, and the nodes whose values it waits for, at
/// most `KEY_LIMIT` of abt_machine, each earlier in the list. The function has the node's number as its unit's, how many values
/// there are as accumulator, and the values as keys, with zeros behind them.
#[derive(Drop)]
pub struct Node {
    pub function: u32,
    pub after: Items<UnitNo>,
}
