//! Laws of early stop. Each stands on a function that does nothing.
ghost use Rattle.std.specs.Prelude.{◌≡◌, ℕ, ◌+◌, ◌-◌, ◌≤◌, length, take, drop, List};
ghost use Rattle.trace.specs.declared.item.Fault.{Fault};
ghost use Rattle.trace.specs.declared.item.End.TheVariants as end;
ghost use Rattle.trace.specs.Trace.{Trace, trace, append};
ghost use Rattle.early_stop.specs.Decisive.{Decides};
ghost use Rattle.early_stop.specs.Leaving.{IsSettled, IsSettledAfter, IsEnough};

/// Parts of pieces that lie side by side may be joined, if each piece was walked, or begins at or right of a decisive
/// place, or is joined of pieces like these. The joined piece is again one of these, and the part of the whole source
/// gives what the source gives.
#[tactic(auto, using(crate::proofs::Leaving::enough_walked, crate::proofs::Leaving::enough_left, crate::proofs::Leaving::enough_joined, crate::proofs::Leaving::enough_gives))]
pub fn parts_may_be_joined<O>()
    ensures walked { (outcome : Trace → O) (source : Trace) (at : ℕ) (s : Trace)
        → IsEnough (Decides outcome source) at s s }
    ensures left { (outcome : Trace → O) (source : Trace) (at c : ℕ) (s t : Trace) → Decides outcome source c → c ≤ at
        → IsEnough (Decides outcome source) at s t }
    ensures joined { (outcome : Trace → O) (source : Trace) (at : ℕ) (s t b d : Trace)
        → IsEnough (Decides outcome source) at s t → IsEnough (Decides outcome source) (at + length s.items) b d
        → IsEnough (Decides outcome source) at (append s b) (append t d) }
    ensures whole { (outcome : Trace → O) (source t : Trace) → IsEnough (Decides outcome source) 0 source t
        → outcome t ≡ outcome source }
{}

/// The end of a piece is decisive if its part settles the outcome after what lies before the piece, even if some of the
/// piece was left unwalked. `g` is what the stages of the segment make of a walk.
#[tactic(auto, using(crate::proofs::Settling::enough_decides))]
pub fn settled_parts_decide<O>()
    ensures { (close : Trace → O) (g : Trace → Trace) → ((a b : Trace) → g (append a b) ≡ append (g a) (g b))
        → (s t : Trace) (i m : ℕ) → i + m ≤ length s.items
        → IsEnough (Decides (λ u. close (g u)) s) i (trace (take m (drop i s.items)) end.Done) t
        → IsSettledAfter close (g (trace (take i s.items) end.Done)) (g t) → Decides (λ u. close (g u)) s (i + m) }
{}

/// A fault settles every outcome.
#[tactic(auto, using(crate::proofs::Settling::fault_settles))]
pub fn faults_settle<O>()
    ensures { (close : Trace → O) (t : Trace) (f : Fault) → t.ending ≡ end.Fault f → IsSettled close t }
{}
