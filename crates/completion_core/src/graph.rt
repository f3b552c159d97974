//! The graph, kept as numbers.
ghost use Rattle.std.specs.Prelude.{◌≡◌, ◌≢◌, ℕ, ◌+◌, ◌<◌, ◌≤◌, ◌^◌, IfOk, IsTrue, ◌↔◌, MatchOption, length};
ghost use Rattle.completion_core.specs.Graph.{start};
ghost use Rattle.completion_core.specs.Legal.{count};
ghost use Rattle.completion_core.specs.Book.{StandsFor, state_of, held_in};

use crate::NoMemory;
use crate::action::{Actor, Node};
use crate::holdings::Holdings;
use crate::node_state::NodeState;
use crate::nodes::Nodes;
use std::alloc::Global;
use std::marker::Model;

/// The node that is there from the beginning, owes an arrival for each end and is never armed or run.
pub const END: Node = 0;

/// Nodes and the arrivals that are owed to them. Equal arrivals in one actor's hands are kept as one number.
#[derive(Drop)]
pub struct Graph {
    pub(crate) nodes: u32,
    /// END, and then the nodes in the order in which they were drawn.
    pub(crate) states: Vec<NodeState>,
    pub(crate) holdings: Holdings,
    pub(crate) alloc: Global,
}

impl Model for Graph {
    ghost use Rattle.completion_core.specs.Book.{Book, IsBook};

    ghost Value = { Book };

    ghost view = { λ a. record { nodes = a.nodes; states = a.states.items; holdings = a.holdings.entries.entries } };

    ghost invariant = { λ a.
        IsBook (record { nodes = a.nodes; states = a.states.items; holdings = a.holdings.entries.entries }) };
}

impl Graph {
    /// A graph in which nodes 1 to `nodes` may be drawn, and actor 0 holds the `ends` arrivals that are owed to END.
    pub fn new(alloc: Global, nodes: u32, ends: u64) -> Result<Graph, NoMemory>
        ensures { IfOk result (λ graph. StandsFor graph (start nodes ends)) }
    {
        let mut states = Vec::new(alloc);
        states.push(NodeState::new(alloc, 0, ends))?;
        let mut holdings = Holdings::new(alloc);
        holdings.reserve(1)?;
        holdings.put(0, END, ends);
        Ok(Graph {
            nodes,
            states,
            holdings,
            alloc,
        })
    }

    /// What is kept of a node that was drawn; `None` for END too.
    pub(crate) fn drawn(&self, node: Node) -> Option<&NodeState>
        ensures { MatchOption result (0 < node → length self.now.states ≤ node) (λ state. (0 < node)
            × (node < length self.now.states) × (state.now ≡ state_of self.now.states node)
            × (state.now.owed ≤ 2 ^ 62)) }
    {
        if node == END {
            return None;
        }
        self.states.get(node as usize)
    }

    /// How many arrivals at the node the actor holds. One look-up in a hash map.
    pub(crate) fn held(&self, actor: Actor, node: Node) -> u64
        ensures { result ≡ held_in self.now.holdings actor node }
    {
        self.holdings.get(actor, node)
    }

    /// Whether the actor holds an arrival for each entry.
    pub(crate) fn holds_all(&self, actor: Actor, nodes: &Nodes) -> bool
        ensures { IsTrue result ↔ ((i : ℕ) → count i nodes.now ≤ held_in self.now.holdings actor i) }
    {
        // How many entries up to here are this node: equal entries lie side by side.
        let mut alike = 0u64;
        let mut before = END;
        for &node in nodes.as_slice() {
            alike = if node == before { alike + 1 } else { 1 };
            if self.held(actor, node) < alike {
                return false;
            }
            before = node;
        }
        true
    }
}
