//! What an actor may ask of the machine, what it answers, and why it refuses.
ghost use Rattle.std.specs.Prelude.{◌≡◌, IfOk, OnErr};
ghost use Rattle.completion_core.specs.declared.action.Illegal.TheVariants.{NoMemory};

use crate::nodes::Nodes;
use std::alloc::{AllocError, AllocFailed};

/// A node by its number. 0 is END, the others are numbered from 1 as they are drawn.
pub type Node = u32;

/// An actor by a number of the caller's choice. Actor 0 begins with all arrivals at END.
pub type Actor = u32;

/// One event of the machine.
#[derive(Drop, Debug)]
pub enum Action {
    /// Draws the next node for the actor.
    Claim {
        actor: Actor,
    },
    /// Names `pending + 1` fresh arrivals at a node that the actor claimed, and gives the node one arrival of the
    /// actor's for each entry of `onward`.
    Arm {
        actor: Actor,
        node: Node,
        pending: u32,
        onward: Nodes,
    },
    /// Names `d` fresh arrivals at a node at which the actor holds one (Java: `addToPendingCount`).
    Add {
        actor: Actor,
        node: Node,
        d: u64,
    },
    /// Hands `k` arrivals at a node from one actor to another.
    Give {
        from: Actor,
        to: Actor,
        node: Node,
        k: u64,
    },
    /// Makes one arrival that the actor holds at a node (Java: `firstComplete`).
    Arrive {
        actor: Actor,
        node: Node,
    },
    /// Runs a node by the actor that made its last arrival; what the node kept is the actor's from then on.
    Run {
        actor: Actor,
        node: Node,
    },
    /// Makes one arrival that the actor holds at END.
    Settle {
        actor: Actor,
    },
}

/// What a legal action answers.
#[derive(Clone, Copy, Debug, PartialEq, Eq)]
pub enum Reply {
    /// The node that a claim drew.
    Node(Node),
    /// A claim found no node left to draw.
    NoNode,
    /// An arrival that wasn't the last, with the pending count of its node from then on: how many more may come before
    /// the last.
    Pending(u64),
    /// The last arrival that was owed to its node.
    Last,
    /// Every other action.
    Done,
}

/// Why an action is refused: of the reasons that apply the first in this order.
#[derive(Clone, Copy, Debug, PartialEq, Eq)]
pub enum Illegal {
    /// The action's own node wasn't drawn, or it is END and the action is none for END.
    NoSuchNode = 1,
    /// Another actor claimed the node that is to be armed.
    NotClaimedHere = 2,
    /// The node is armed already.
    AlreadyArmed = 3,
    /// The actor doesn't hold the arrivals that the action needs.
    NotHeld = 4,
    /// The node has arrivals that weren't made, it ran, or another actor made the last arrival.
    NotFinisher = 5,
    /// The node is to keep an arrival at a node that isn't smaller.
    OnwardNotEarlier = 6,
    /// The node's arrivals, made ones counted in, would be more than 2^62.
    TooMany = 7,
    /// Memory was refused.
    NoMemory = 8,
}

impl Clone for Action {
    ghost use Rattle.completion_core.specs.Steps.{IsArm};

    /// Needs memory for the nodes of an `Arm` alone.
    fn clone(&self) -> Result<Action, AllocError>
        ensures same { IfOk result (λ copy. copy ≡ self.now) }
        ensures arm { OnErr result (IsArm self.now) }
    {
        Ok(match self {
            Action::Claim { actor } => Action::Claim { actor: *actor },
            Action::Arm {
                actor,
                node,
                pending,
                onward,
            } => Action::Arm {
                actor: *actor,
                node: *node,
                pending: *pending,
                onward: onward.clone()?,
            },
            Action::Add { actor, node, d } => Action::Add {
                actor: *actor,
                node: *node,
                d: *d,
            },
            Action::Give { from, to, node, k } => Action::Give {
                from: *from,
                to: *to,
                node: *node,
                k: *k,
            },
            Action::Arrive { actor, node } => Action::Arrive {
                actor: *actor,
                node: *node,
            },
            Action::Run { actor, node } => Action::Run {
                actor: *actor,
                node: *node,
            },
            Action::Settle { actor } => Action::Settle { actor: *actor },
        })
    }
}

impl From<AllocError> for Illegal {
    ghost from_gives = { λ _ reason. reason ≡ NoMemory };

    fn from(_refused: AllocError) -> Illegal {
        Illegal::NoMemory
    }
}

impl<T: Drop> From<AllocFailed<T>> for Illegal {
    ghost from_gives = { λ _ reason. reason ≡ NoMemory };

    fn from(_refused: AllocFailed<T>) -> Illegal {
        Illegal::NoMemory
    }
}
