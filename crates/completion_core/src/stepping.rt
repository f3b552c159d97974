//! One step of the machine.
ghost use Rattle.std.specs.Prelude.{◌≡◌, ◌<◌, IfOk, IfErr, OnErr};
ghost use Rattle.completion_core.specs.Graph.{Graph as PureGraph};
ghost use Rattle.completion_core.specs.Legal.{Legal, after, reply};
ghost use Rattle.completion_core.specs.Refusals.{IsRefusal, rank};
ghost use Rattle.completion_core.specs.Book.{StandsFor};

use crate::action::{Action, Illegal, Reply};
use crate::graph::Graph;

/// Takes an action, or says why it is refused.
///
/// A step costs a few operations on a map and a vector, and one more for each onward arrival of an `Arm` or a `Run`. It
/// asks for memory only if nothing else speaks against the action.
pub fn step(graph: &mut Graph, action: Action) -> Result<Reply, Illegal>
    ensures legal { IfOk result (λ _. (g : PureGraph) → StandsFor graph.old g → Legal action g) }
    ensures answer { IfOk result (λ answer. (g : PureGraph) → StandsFor graph.old g → answer ≡ reply action g) }
    ensures after { IfOk result (λ _. (g : PureGraph) → StandsFor graph.old g → StandsFor graph.new (after action g)) }

    // A refusal names the first demand that isn't met. All but the two limits of the store are parts of `Legal`.
    ensures refused { IfErr result (λ reason. (g : PureGraph) → StandsFor graph.old g → IsRefusal reason action g) }
    ensures illegal { IfErr result (λ reason. rank reason < 7 → (g : PureGraph) → StandsFor graph.old g
        → ¬ Legal action g) }
    ensures unchanged { OnErr result (graph.new ≡ graph.old) }
{
    graph.refusal_of(&action)?;
    Ok(graph.take(action)?)
}
