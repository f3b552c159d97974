//! Whole lists of actions.
ghost use Rattle.std.specs.Prelude.{◌≡◌, ◌<◌, ◌++◌, ◌∷◌, [], ◌⊎◌, IfOk, IfErr, OnOk};
ghost use Rattle.completion_core.specs.declared.action.Illegal.TheVariants.{NoMemory};
ghost use Rattle.completion_core.specs.Graph.{Graph as PureGraph, start};
ghost use Rattle.completion_core.specs.Legal.{Legal, after};
ghost use Rattle.completion_core.specs.Refusals.{IsRefusal, IsFirstRefused, LacksLog, rank};
ghost use Rattle.completion_core.specs.Runs.{LegalAll, after_all, log};
ghost use Rattle.completion_core.specs.Laws.{RunsOnce, RunsAfterAll, MadeOnce};
ghost use Rattle.completion_core.specs.Book.{StandsFor};

use crate::action::{Action, Illegal, Node};
use crate::graph::Graph;
use std::alloc::Global;

/// Takes all actions of a list on a new graph, and answers the graph after them with the nodes in the order of their
/// runs.
///
/// An error has the index of the first action that is refused, or 0 and `NoMemory` where no graph could be made.
pub fn play(
    alloc: Global,
    nodes: u32,
    ends: u64,
    actions: &[Action],
) -> Result<(Graph, Vec<Node>), (usize, Illegal)>
    ensures legal { IfOk result (λ _. LegalAll actions.now (start nodes ends)) }
    ensures after { IfOk result (λ played. StandsFor played.0 (after_all actions.now (start nodes ends))) }
    ensures log { IfOk result (λ played. played.1.items ≡ log actions.now) }

    // What a legal list can't do.
    ensures once { IfOk result (λ played. RunsOnce played.1.items) }
    ensures after_all { IfOk result (λ _. RunsAfterAll actions.now (start nodes ends)) }
    ensures made_once { IfOk result (λ _. MadeOnce actions.now (start nodes ends)) }

    // The refusal is the one of the first action that can't be taken. It is for memory or room only where the list
    // isn't legal.
    ensures refused { IfErr result (λ e. IsFirstRefused e.0 e.1 actions.now (start nodes ends)
        ⊎ ((e.0 ≡ 0) × (e.1 ≡ NoMemory))) }
    ensures illegal { IfErr result (λ e. rank e.1 < 7 → ¬ LegalAll actions.now (start nodes ends)) }
{
    let Ok(mut graph) = Graph::new(alloc, nodes, ends) else {
        return Err((0, Illegal::NoMemory));
    };
    let mut runs = Vec::new(alloc);
    for (index, action) in actions.iter().enumerate() {
        if let Err(reason) = replay(&mut graph, &mut runs, action) {
            return Err((index, reason));
        }
    }
    Ok((graph, runs))
}

/// One action of a list, which stays in the list. A run goes into the log.
fn replay(graph: &mut Graph, runs: &mut Vec<Node>, action: &Action) -> Result<(), Illegal>
    ensures taken { IfOk result (λ _. (g : PureGraph) → StandsFor graph.old g
        → Legal action.now g × StandsFor graph.new (after action.now g)) }
    ensures logged { OnOk result (runs.new.items ≡ runs.old.items ++ log (action.now ∷ [])) }
    ensures refused { IfErr result (λ reason. (g : PureGraph) → StandsFor graph.old g
        → IsRefusal reason action.now g ⊎ LacksLog reason action.now g) }
{
    graph.refusal_of(action)?;
    graph.take(action.clone()?)?;
    if let Action::Run { node, .. } = action {
        runs.push(*node)?;
    }
    Ok(())
}
