//! What a legal action changes. Memory is asked for first, so that a refusal leaves the graph as it was.
ghost use Rattle.std.specs.Prelude.{◌≡◌, ◌<◌, MatchResult};
ghost use Rattle.completion_core.specs.Steps.{IsAllowed, IsTaken, MayWant};
ghost use Rattle.completion_core.specs.declared.action.Action.TheVariants.{Claim, Arm, Add, Give, Arrive, Run, Settle};
ghost use Rattle.completion_core.specs.declared.action.Reply.TheVariants.{Node, NoNode, Done};

use crate::action::{Action, Actor, Node, Reply};
use crate::graph::{END, Graph};
use crate::node_state::NodeState;
use crate::nodes::Nodes;
use std::alloc::AllocError;
use std::mem;

impl Graph {
    /// Takes an action that is legal.
    pub(crate) fn take(&mut self, action: Action) -> Result<Reply, AllocError>
        requires { IsAllowed action self.old }
        ensures { MatchResult result (λ answer. IsTaken action self.old self.new answer)
            (λ _. (self.new ≡ self.old) × MayWant action self.old) }
    {
        match action {
            Action::Claim { actor } => self.claim(actor),
            Action::Arm {
                actor,
                node,
                pending,
                onward,
            } => self.arm(actor, node, pending, onward),
            Action::Add { actor, node, d } => Ok(self.add(actor, node, d)),
            Action::Give { from, to, node, k } => self.give(from, to, node, k),
            Action::Arrive { actor, node } => Ok(self.arrive(actor, node)),
            Action::Run { actor, node } => self.run(actor, node),
            Action::Settle { actor } => Ok(self.settle(actor)),
        }
    }

    fn claim(&mut self, actor: Actor) -> Result<Reply, AllocError>
        ensures { MatchResult result (λ answer. IsTaken (Claim actor) self.old self.new answer)
            (λ _. (self.new ≡ self.old) × MayWant (Claim actor) self.old) }
    {
        let node = self.states.len();
        if node > self.nodes as usize {
            return Ok(Reply::NoNode);
        }
        self.states.push(NodeState::new(self.alloc, actor, 0))?;
        Ok(Reply::Node(node as u32))
    }

    fn arm(
        &mut self,
        actor: Actor,
        node: Node,
        pending: u32,
        onward: Nodes,
    ) -> Result<Reply, AllocError>
        requires { IsAllowed (Arm actor node pending onward) self.old }
        ensures { MatchResult result (λ answer. IsTaken (Arm actor node pending onward) self.old self.new answer)
            (λ _. self.new ≡ self.old) }
    {
        self.holdings.reserve(1)?;
        let owed = pending as u64 + 1;
        self.holdings.put(actor, node, owed);
        self.holdings.take_all(actor, &onward);
        let state = &mut self.states[node as usize];
        state.armed = true;
        state.owed += owed;
        state.left += owed;
        state.kept = onward;
        Ok(Reply::Done)
    }

    fn add(&mut self, actor: Actor, node: Node, d: u64) -> Reply
        requires { IsAllowed (Add actor node d) self.old }
        ensures { IsTaken (Add actor node d) self.old self.new result }
    {
        self.holdings.put(actor, node, d);
        let state = &mut self.states[node as usize];
        state.owed += d;
        state.left += d;
        Reply::Done
    }

    fn give(&mut self, from: Actor, to: Actor, node: Node, k: u64) -> Result<Reply, AllocError>
        requires { IsAllowed (Give from to node k) self.old }
        ensures { MatchResult result (λ answer. IsTaken (Give from to node k) self.old self.new answer)
            (λ _. (self.new ≡ self.old) × MayWant (Give from to node k) self.old) }
    {
        if from != to && k != 0 {
            self.holdings.reserve(1)?;
            self.holdings.put(to, node, k);
            self.holdings.take(from, node, k);
        }
        Ok(Reply::Done)
    }

    fn arrive(&mut self, actor: Actor, node: Node) -> Reply
        requires { IsAllowed (Arrive actor node) self.old }
        ensures { IsTaken (Arrive actor node) self.old self.new result }
    {
        self.holdings.take(actor, node, 1);
        self.states[node as usize].arrive(actor)
    }

    fn run(&mut self, actor: Actor, node: Node) -> Result<Reply, AllocError>
        requires { IsAllowed (Run actor node) self.old }
        ensures { MatchResult result (λ answer. IsTaken (Run actor node) self.old self.new answer)
            (λ _. (self.new ≡ self.old) × MayWant (Run actor node) self.old) }
    {
        let entries = self.states[node as usize].kept.len();
        self.holdings.reserve(entries)?;
        let state = &mut self.states[node as usize];
        state.ran = true;
        let kept = mem::replace(&mut state.kept, Nodes::none(self.alloc));
        self.holdings.put_all(actor, &kept);
        Ok(Reply::Done)
    }

    fn settle(&mut self, actor: Actor) -> Reply
        requires { IsAllowed (Settle actor) self.old }
        ensures { IsTaken (Settle actor) self.old self.new result }
    {
        self.holdings.take(actor, END, 1);
        self.states[END as usize].left -= 1;
        Reply::Done
    }
}
