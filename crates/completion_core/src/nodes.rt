//! Bags of nodes.
ghost use Rattle.std.specs.Prelude.{◌≡◌, ◌<◌, ◌↔◌, IfOk, IsTrue, All, [], length};
ghost use Rattle.std.specs.List.Sorted.{IsPermutation, IsNonDecreasing};

use crate::action::Node;
use std::alloc::{AllocError, Global};
use std::marker::Model;

/// Nodes in ascending order; a node may occur several times.
#[derive(Drop, Debug)]
pub struct Nodes {
    items: Vec<Node>,
}

impl Model for Nodes {
    ghost use Rattle.std.specs.Prelude.{ℕ, List};
    ghost use Rattle.std.specs.List.Sorted.{IsNonDecreasing};

    ghost Value = { List ℕ };

    ghost view = { λ a. a.items.items };

    ghost invariant = { λ a. IsNonDecreasing a.items.items };
}

impl Nodes {
    /// The nodes of a vector, put into order in place.
    pub fn new(mut items: Vec<Node>) -> Nodes
        ensures same { IsPermutation items.items result }
        ensures ordered { IsNonDecreasing result }
    {
        items.sort_unstable();
        Nodes { items }
    }

    /// The vector of the nodes, in their order.
    pub fn into_vec(self) -> Vec<Node>
        ensures { result.items ≡ self }
    {
        let Nodes { items } = self;
        items
    }

    /// No nodes.
    pub fn none(alloc: Global) -> Nodes
        ensures { result ≡ [] }
    {
        Nodes {
            items: Vec::new(alloc),
        }
    }

    /// The nodes in their order.
    pub fn as_slice(&self) -> &[Node]
        ensures same { result.now ≡ self.now }
        ensures ordered { IsNonDecreasing self.now }
    {
        self.items.as_slice()
    }

    /// How many entries there are; a node that stands twice counts twice.
    pub(crate) fn len(&self) -> usize
        ensures { result ≡ length self.now }
    {
        self.items.len()
    }

    /// Whether each entry is smaller than the node. Looks at the entries in turn.
    pub(crate) fn all_below(&self, node: Node) -> bool
        ensures { IsTrue result ↔ All (λ item. item < node) self.now }
    {
        self.items.iter().all(|&item| item < node)
    }
}

impl Clone for Nodes {
    fn clone(&self) -> Result<Nodes, AllocError>
        ensures { IfOk result (λ copy. copy ≡ self.now) }
    {
        Ok(Nodes {
            items: self.items.clone()?,
        })
    }
}
