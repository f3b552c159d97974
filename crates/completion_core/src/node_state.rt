//! What the graph keeps of one node, as numbers.
ghost use Rattle.std.specs.Prelude.{◌≡◌, ◌-◌, ◌<◌, ◌==◌, if◌then◌else◌, false, [], Some, None};
ghost use Rattle.completion_core.specs.Legal.{reply_of_arrival};

use crate::action::{Actor, Reply};
use crate::nodes::Nodes;
use std::alloc::Global;

/// What is kept of a node that was drawn, and of END.
#[derive(Drop, Debug)]
pub struct NodeState {
    pub claimer: Actor,
    pub armed: bool,
    pub ran: bool,
    /// How many arrivals were ever owed, made ones counted in.
    pub owed: u64,
    /// How many arrivals are owed and not made.
    pub left: u64,
    /// Who made the last of the arrivals.
    pub last: Option<Actor>,
    /// Where the node keeps arrivals until it runs, an entry for each.
    pub kept: Nodes,
}

impl NodeState {
    /// A node that an actor claims, with `owed` arrivals to begin with.
    pub fn new(alloc: Global, claimer: Actor, owed: u64) -> NodeState
        ensures { result ≡
            record { claimer = claimer; armed = false; ran = false; owed = owed; left = owed; last = None; kept = [] } }
    {
        NodeState {
            claimer,
            armed: false,
            ran: false,
            owed,
            left: owed,
            last: None,
            kept: Nodes::none(alloc),
        }
    }

    /// Takes one made arrival more into account.
    pub fn arrive(&mut self, actor: Actor) -> Reply
        requires { 0 < self.old.left }
        ensures state { self.new ≡ record self.old {
          left = self.old.left - 1;
          last = (if self.old.left - 1 == 0 then Some actor else self.old.last);
        } }
        ensures reply { result ≡ reply_of_arrival (self.old.left - 1) }
    {
        self.left -= 1;
        if self.left == 0 {
            self.last = Some(actor);
            Reply::Last
        } else {
            Reply::Pending(self.left - 1)
        }
    }
}
