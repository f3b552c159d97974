//! Laws of the two passes. Each stands on a function that does nothing.

ghost use Rattle.std.specs.Prelude.{◌≡◌, ◌++◌, ℕ, ℤ, false, List, Option, None, Ok, length};
ghost use Rattle.trace.specs.Trace.{Trace, trace};
ghost use Rattle.trace.specs.declared.item.End.TheVariants as end;
ghost use Rattle.lambda_values.specs.declared.item.Item.{Item};
ghost use Rattle.reduce_ops.specs.declared.partial.Partial.{Partial};
ghost use Rattle.reduce_ops.specs.Folds.{reduced};
ghost use Rattle.reduce_ops.specs.Operators.{IsAssociative};
ghost use Rattle.prefix_scan.specs.Prefixes.{Range, ends_after, prefixed};
ghost use Rattle.prefix_scan.specs.Passes.{Pieces, whole, two_passes, SplitTree, laid};
ghost use Rattle.prefix_scan.specs.Scans.{StandsFor, cut_to, scan_at, selected};

/// For every tree of pieces, a pass up and a pass down give the prefix of the pieces joined.
#[tactic(auto, using(crate::proofs::PassLemmas::passes_are_prefix))]
pub fn two_passes_give_the_prefix()
    ensures { (f : ℤ → ℤ → ℤ) → IsAssociative f → (range : Range) (stage : ℕ) (ps : Pieces)
        → two_passes f range stage ps ≡ prefixed f range stage (whole ps) }
{}

/// For every split tree that is laid over a walk, a pass up and a pass down give the prefix of the walk.
#[tactic(auto, using(crate::proofs::PassLemmas::split_passes_are_prefix))]
pub fn every_split_tree_gives_the_prefix()
    ensures { (f : ℤ → ℤ → ℤ) → IsAssociative f → (range : Range) (stage : ℕ) (tree : SplitTree) (t : Trace)
        → two_passes f range stage (laid tree t) ≡ prefixed f range stage t }
{}

/// How a caller of `up`, `merge` and `down` comes to the prefix of a walk, with a range or without. Each piece is taken
/// up and down with the range cut to it. What `up` gives of it then has the positions that `merge` asks for (`up`), and
/// what `down` makes of it is the scan at its own positions (`down`). Let each piece begin with the fold of all pieces
/// left of it. Then the scans lie side by side (`on`), and together they are the prefix, unless the range ends after
/// the last item (`prefix`).
pub fn calls_give_the_prefix()
    ensures up { (range : Range) (first : ℕ) (block : Partial) (t : Trace)
        → StandsFor (cut_to range first (length t.items)) 0 block t → StandsFor range first block t }
    ensures down { (f : ℤ → ℤ → ℤ) (range : Range) (first : ℕ) (start : Option ℤ) (xs : List Item)
        → scan_at f (cut_to range first (length xs)) 0 start xs ≡ scan_at f range first start xs }
    ensures on { (f : ℤ → ℤ → ℤ) (range : Range) (start : Option ℤ) (xs ys : List Item)
        → Ok start ≡ reduced f (trace (selected range 0 xs) end.Done)
        → scan_at f range 0 None (xs ++ ys) ≡ scan_at f range 0 None xs ++ scan_at f range (length xs) start ys }
    ensures prefix { (f : ℤ → ℤ → ℤ) (range : Range) (stage : ℕ) (xs : List Item) → ends_after range (length xs) ≡ false
        → trace (scan_at f range 0 None xs) end.Done ≡ prefixed f range stage (trace xs end.Done) }
{}
