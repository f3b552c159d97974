//! Which actions are refused, and why: the demands of each action in their order.
ghost use Rattle.std.specs.Prelude.{◌≡◌, ◌<◌, ◌≤◌};
ghost use Rattle.completion_core.specs.Steps.{IsChecked};
ghost use Rattle.completion_core.specs.declared.action.Action.TheVariants.{Arm, Add, Give, Arrive, Run, Settle};

use crate::action::{Action, Actor, Illegal, Node};
use crate::graph::{END, Graph};
use crate::nodes::Nodes;

/// The most arrivals that may ever be owed to a node, made ones counted in.
const MAX_OWED: u64 = 1 << 62;

impl Graph {
    /// Why an action would be refused, memory aside.
    pub(crate) fn refusal_of(&self, action: &Action) -> Result<(), Illegal>
        ensures { IsChecked action.now self.now result }
    {
        match action {
            Action::Claim { .. } => Ok(()),
            Action::Arm {
                actor,
                node,
                pending,
                onward,
            } => self.refusal_of_arm(*actor, *node, *pending, onward),
            Action::Add { actor, node, d } => self.refusal_of_add(*actor, *node, *d),
            Action::Give { from, to, node, k } => self.refusal_of_give(*from, *to, *node, *k),
            Action::Arrive { actor, node } => self.refusal_of_arrive(*actor, *node),
            Action::Run { actor, node } => self.refusal_of_run(*actor, *node),
            Action::Settle { actor } => self.refusal_of_settle(*actor),
        }
    }

    fn refusal_of_arm(
        &self,
        actor: Actor,
        node: Node,
        pending: u32,
        onward: &Nodes,
    ) -> Result<(), Illegal>
        ensures { IsChecked (Arm actor node pending onward.now) self.now result }
    {
        let Some(state) = self.drawn(node) else {
            return Err(Illegal::NoSuchNode);
        };
        if state.claimer != actor {
            return Err(Illegal::NotClaimedHere);
        }
        if state.armed {
            return Err(Illegal::AlreadyArmed);
        }
        if !self.holds_all(actor, onward) {
            return Err(Illegal::NotHeld);
        }
        if !onward.all_below(node) {
            return Err(Illegal::OnwardNotEarlier);
        }
        Ok(())
    }

    fn refusal_of_add(&self, actor: Actor, node: Node, d: u64) -> Result<(), Illegal>
        ensures { IsChecked (Add actor node d) self.now result }
    {
        let Some(state) = self.drawn(node) else {
            return Err(Illegal::NoSuchNode);
        };
        if self.held(actor, node) == 0 {
            return Err(Illegal::NotHeld);
        }
        if MAX_OWED - state.owed < d {
            return Err(Illegal::TooMany);
        }
        Ok(())
    }

    fn refusal_of_give(&self, from: Actor, to: Actor, node: Node, k: u64) -> Result<(), Illegal>
        ensures { IsChecked (Give from to node k) self.now result }
    {
        if node != END && self.drawn(node).is_none() {
            return Err(Illegal::NoSuchNode);
        }
        if self.held(from, node) < k {
            return Err(Illegal::NotHeld);
        }
        Ok(())
    }

    fn refusal_of_arrive(&self, actor: Actor, node: Node) -> Result<(), Illegal>
        ensures { IsChecked (Arrive actor node) self.now result }
    {
        if self.drawn(node).is_none() {
            return Err(Illegal::NoSuchNode);
        }
        match self.held(actor, node) {
            0 => Err(Illegal::NotHeld),
            _ => Ok(()),
        }
    }

    fn refusal_of_run(&self, actor: Actor, node: Node) -> Result<(), Illegal>
        ensures { IsChecked (Run actor node) self.now result }
    {
        let Some(state) = self.drawn(node) else {
            return Err(Illegal::NoSuchNode);
        };
        if state.ran || state.left != 0 || state.last != Some(actor) {
            return Err(Illegal::NotFinisher);
        }
        Ok(())
    }

    fn refusal_of_settle(&self, actor: Actor) -> Result<(), Illegal>
        ensures { IsChecked (Settle actor) self.now result }
    {
        if self.held(actor, END) == 0 {
            return Err(Illegal::NotHeld);
        }
        Ok(())
    }
}
