//! Laws of joined walks and of stages. Each is the contract of a function that does nothing.

ghost use Rattle.lambda_values.specs.Earlier.{Numbers};
ghost use Rattle.std.specs.Prelude.{◌≡◌, ℕ, List, [], ◌∷◌};
ghost use Rattle.trace.specs.Trace.{Trace, trace, nothing, append, each};
ghost use Rattle.trace.specs.Stages.{AbstractStage, pipe};
ghost use Rattle.lambda_values.specs.declared.item.Item.{Item};
ghost use Rattle.trace.specs.declared.item.Fault.{Fault};
ghost use Rattle.trace.specs.declared.item.End.{End};
ghost use Rattle.trace.specs.declared.item.End.TheVariants as end;

/// Pieces of a walk may be joined in any grouping, as long as they keep their order.
#[tactic(auto, using(crate::proofs::JoinLemmas::append_grouped))]
pub fn joining_is_associative()
    ensures { (a b c : Trace) → append (append a b) c ≡ append a (append b c) }
{}

/// A piece without items that is done changes nothing, on either side.
#[tactic(auto, using(crate::proofs::JoinLemmas::append_nothing))]
pub fn nothing_is_the_unit()
    ensures left { (a : Trace) → append nothing a ≡ a }
    ensures right { (a : Trace) → append a nothing ≡ a }
{}

/// Stages that look at one item at a time give for joined pieces what they give for each piece, joined. So a walk
/// through them may be cut anywhere, and a fault in a piece ends the whole.
///
/// A stage that looks at the whole walk, like `limit`, has no law of this kind.
#[tactic(auto, using(crate::proofs::JoinLemmas::each_append, crate::proofs::JoinLemmas::pipe_append, crate::proofs::JoinLemmas::pipe_faulted))]
pub fn stages_keep_joining()
    ensures one_stage { (f : Item → Trace) (a b : Trace) → each f (append a b).items (append a b).ending
        ≡ append (each f a.items a.ending) (each f b.items b.ending) }
    ensures all_stages { (n : ℕ) (gs : List AbstractStage) (env : Numbers) (a b : Trace)
        → pipe n gs env (append a b) ≡ append (pipe n gs env a) (pipe n gs env b) }
    ensures fault { (n : ℕ) (gs : List AbstractStage) (env : Numbers) (a b : Trace) (f : Fault)
        → (pipe n gs env a).ending ≡ end.Fault f → pipe n gs env (append a b) ≡ pipe n gs env a }
{}

/// A walk that takes each item through all stages before the next item gives the items and the fault that the stages
/// give one after the other, each over all items. It holds for stages that look at one item at a time.
#[tactic(auto, using(crate::proofs::JoinLemmas::pipe_each))]
pub fn stages_go_item_by_item()
    ensures { (n : ℕ) (gs : List AbstractStage) (env : Numbers) (xs : List Item) (e : End)
        → pipe n gs env (trace xs e) ≡ each (λ x. pipe n gs env (trace (x ∷ []) end.Done)) xs e }
{}
