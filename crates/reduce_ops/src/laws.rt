//! Laws of the operators and of folds. Each stands on a function that does nothing.

ghost use Rattle.std.specs.Prelude.{◌≡◌, ℕ, ℤ, pos, Some, List, ◌++◌, length};
ghost use Rattle.lambda_values.specs.Wrap.{wrap};
ghost use Rattle.lambda_values.specs.declared.item.Item.{Item};
ghost use Rattle.reduce_ops.specs.declared.op.Op.{Op};
ghost use Rattle.reduce_ops.specs.Operators.{value_of, identity_of, affine, map_of, IsAssociative, IsIdentity};
ghost use Rattle.reduce_ops.specs.Folds.{fold_from, total, ones};

/// Each operator is associative, on all integers.
#[tactic(auto, using(crate::proofs::Associativity::all_associative))]
pub fn operators_are_associative()
    ensures { (op : Op) → IsAssociative (value_of op) }
{}

/// Each identity works on both sides, on the values of 64 bits.
#[tactic(auto, using(crate::proofs::Identities::all_identities))]
pub fn identities_are_two_sided()
    ensures { (op : Op) (i : ℤ) → identity_of op ≡ Some i → IsIdentity (value_of op) i }
{}

/// `affine` is the composition of the maps that its operands encode, the left one first.
#[tactic(auto, using(crate::proofs::Affine::affine_composed))]
pub fn affine_composes_maps()
    ensures { (f g : ℤ) (y : ℕ) → map_of (affine f g) y ≡ map_of g (map_of f y) }
{}

/// A sum may be wrapped at each value or once at the end.
#[tactic(auto, using(crate::proofs::FoldLemmas::wrapped_sum))]
pub fn sums_are_wrapped_totals()
    ensures { (xs : List Item) → fold_from (value_of Op.Sum) (pos 0) xs ≡ wrap (total xs) }
{}

/// A count is the sum of a 1 for each item, and counts of pieces join.
#[tactic(auto, using(crate::proofs::FoldLemmas::counted, crate::proofs::FoldLemmas::ones_join))]
pub fn counts_are_sums_of_ones()
    ensures count { (xs : List Item) → fold_from (value_of Op.Sum) (pos 0) (ones xs) ≡ wrap (pos (length xs)) }
    ensures joined { (xs ys : List Item) → ones (xs ++ ys) ≡ ones xs ++ ones ys }
{}
