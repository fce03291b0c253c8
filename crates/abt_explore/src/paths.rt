//! The journals that lead to the states of a search, as a tree.

ghost use Rattle.std.specs.Prelude.{◌≡◌, ◌<◌, ◌+◌, ◌^◌, ◌++◌, ◌∷◌, [], IfOk, OnOk, get_or, length};

use abt_machine::{Event, Want, What};
use std::alloc::Global;
use std::marker::Model;

/// A node after the root: the number of the node that it goes on from, and its event.
#[derive(Drop)]
pub(crate) struct Node {
    pub(crate) parent: u32,
    pub(crate) event: Event,
}

/// A journal for each node. Node 0, the root, has the empty one; each other node goes on from an earlier one by an event.
#[derive(Drop)]
pub(crate) struct Paths {
    nodes: Vec<Node>,
}

impl Model for Paths {
    ghost use Rattle.std.specs.Prelude.{ℕ, ◌<◌, ◌^◌, List, length};
    ghost use Rattle.abt_machine.specs.declared.events.Event.{Event};
    ghost use Rattle.abt_explore.specs.Paths.{GoOnFromEarlier, journals_of};

    ghost Value = { List (List Event) };

    ghost view = { λ p. journals_of p.nodes.items };

    ghost invariant = { λ p. GoOnFromEarlier p.nodes.items };
}

impl Paths {
    /// The root alone.
    pub(crate) fn new(alloc: Global) -> Paths
        ensures { result ≡ [] ∷ [] }
    {
        Paths {
            nodes: Vec::new(alloc),
        }
    }

    /// Adds a node, and returns its number. Out of memory is the only error, also where there are no more numbers.
    pub(crate) fn push(&mut self, parent: u32, event: Event) -> Result<u32, Want>
        requires { parent < length self.old }
        ensures number { IfOk result (λ number. number ≡ length self.old) }
        ensures pushed { OnOk result (self.new ≡ self.old ++ (get_or self.old parent [] ++ event ∷ []) ∷ []) }
    {
        let number = number_after(self.nodes.len())?;
        self.nodes.push(Node { parent, event })?;
        Ok(number)
    }

    /// The journal of a node. Out of memory is the only error.
    pub(crate) fn journal(&self, alloc: Global, node: u32) -> Result<Vec<Event>, Want>
        requires { node < length self.now }
        ensures { IfOk result (λ events. events.items ≡ get_or self.now node []) }
    {
        let mut events = Vec::new(alloc);
        let mut at = node;
        while at > 0 {
            let node = &self.nodes[at as usize - 1];
            let what: What = node.event.what;
            events.push(Event { what, ..node.event })?;
            at = node.parent;
        }
        events.reverse();
        Ok(events)
    }
}

// The number of the node after the root and that many others. An error is given out as one of memory.
fn number_after(others: usize) -> Result<u32, Want>
    requires { others < 2 ^ 63 }
    ensures { IfOk result (λ number. number ≡ 1 + others) }
{
    match u32::try_from(others + 1) {
        Ok(number) => Ok(number),
        Err(_) => Err(Want),
    }
}
