//! Laws of finds. Each stands on a function that does nothing.

ghost use Rattle.std.specs.Prelude.{◌≡◌, ◌≢◌, ℕ, None};
ghost use Rattle.trace.specs.Trace.{Trace, append};
ghost use Rattle.lambda_values.specs.Earlier.{Numbers};
ghost use Rattle.find_ops.specs.Finds.{Find, decision_of, find_answer};

/// What decides stays: after a decision nothing that follows changes the answer.
#[tactic(auto, using(crate::proofs::DecisionLemmas::decided_stays))]
pub fn decided_parts_stay()
    ensures { (d : Find) (stage : ℕ) (env : Numbers) (a b : Trace) → decision_of d stage env a ≢ None
        → find_answer d stage env (append a b) ≡ find_answer d stage env a }
{}
