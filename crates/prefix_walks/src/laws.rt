//! Laws of pieces side by side. Each is the contract of a function that does nothing.

ghost use Rattle.std.specs.Prelude.{◌≡◌, ℕ, ◌≤◌, Option, Some, None};
ghost use Rattle.trace.specs.Trace.{Trace, append};
ghost use Rattle.prefix_walks.specs.Pieces.{IsNotAfter, piece_of};

/// Two pieces of a walk side by side are one piece, and the piece of all positions is the walk.
#[tactic(auto, using(crate::proofs::ScanLemmas::pieces_joined, crate::proofs::ScanLemmas::whole_piece))]
pub fn pieces_join()
    ensures joined { (t : Trace) (from middle : ℕ) (to : Option ℕ) → from ≤ middle → IsNotAfter middle to
        → append (piece_of from (Some middle) t) (piece_of middle to t) ≡ piece_of from to t }
    ensures whole { (t : Trace) → piece_of 0 None t ≡ t }
{}
