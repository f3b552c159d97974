//! How many arrivals each actor holds at each node.
ghost use Rattle.std.specs.Prelude.{◌≡◌, ℕ, ◌+◌, ◌-◌, ◌<◌, ◌≤◌, ◌^◌, length, OnOk, OnErr};

use crate::action::{Actor, Node};
use crate::nodes::Nodes;
use std::alloc::{AllocError, Global};
use std::collections::HashMap;

/// Numbers of arrivals by node and actor. An actor that gave away or made all that it held at a node has no entry
/// there.
#[derive(Drop)]
pub struct Holdings {
    entries: HashMap<(Node, Actor), u64>,
}

impl Holdings {
    ghost use Rattle.completion_core.specs.Holdings.{held, room, place, each_place};
    ghost use Rattle.completion_core.specs.Legal.{count};

    /// No actor holds anything. Takes no memory.
    pub fn new(alloc: Global) -> Holdings
        ensures { (a i : ℕ) → held result a i ≡ 0 }
    {
        Holdings {
            entries: HashMap::new(alloc),
        }
    }

    /// How many arrivals at the node the actor holds. One look-up in a hash map.
    pub fn get(&self, actor: Actor, node: Node) -> u64
        ensures { result ≡ held self.now actor node }
    {
        self.entries.get(&(node, actor)).copied().unwrap_or(0)
    }

    /// Makes room for `additional` new entries.
    pub fn reserve(&mut self, additional: usize) -> Result<(), AllocError>
        ensures held { (a i : ℕ) → held self.new a i ≡ held self.old a i }
        ensures room { OnOk result (additional ≤ room self.new) }
        ensures err { OnErr result (self.new.entries.entries ≡ self.old.entries.entries) }
        ensures short { OnErr result (room self.old < additional) }
    {
        self.entries.reserve(additional)
    }

    /// `k` more arrivals for an actor at a node. It needs room only where the actor has none there.
    pub fn put(&mut self, actor: Actor, node: Node, k: u64)
        requires room { held self.old actor node ≡ 0 → 0 < room self.old }
        requires fits { held self.old actor node + k < 2 ^ 64 }
        ensures held { (a i : ℕ) → held self.new a i ≡ held self.old a i + place actor node k a i }
        ensures room { room self.old ≤ room self.new + 1 }
    {
        let had = self.get(actor, node);
        // There is an entry, or room for one.
        let _ = self.entries.insert((node, actor), had + k);
    }

    /// `k` arrivals fewer for an actor at a node.
    pub fn take(&mut self, actor: Actor, node: Node, k: u64)
        requires { k ≤ held self.old actor node }
        ensures { (a i : ℕ) → held self.new a i + place actor node k a i ≡ held self.old a i }
    {
        let had = self.get(actor, node);
        if had == k {
            self.entries.remove(&(node, actor));
        } else {
            // There is an entry.
            let _ = self.entries.insert((node, actor), had - k);
        }
    }

    /// One more arrival for an actor at each of the nodes. For other programs, which play the machine.
    pub fn put_all(&mut self, actor: Actor, nodes: &Nodes)
        requires room { length nodes.now ≤ room self.old }
        requires fits { (i : ℕ) → held self.old actor i + count i nodes.now < 2 ^ 64 }
        ensures { (a i : ℕ) → held self.new a i ≡ held self.old a i + each_place actor nodes.now a i }
    {
        for &node in nodes.as_slice() {
            self.put(actor, node, 1);
        }
    }

    /// One arrival fewer for an actor at each of the nodes.
    pub fn take_all(&mut self, actor: Actor, nodes: &Nodes)
        requires { (i : ℕ) → count i nodes.now ≤ held self.old actor i }
        ensures { (a i : ℕ) → held self.new a i + each_place actor nodes.now a i ≡ held self.old a i }
    {
        for &node in nodes.as_slice() {
            self.take(actor, node, 1);
        }
    }
}
