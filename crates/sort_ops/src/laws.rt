//! Laws of the order and of firsts. Each stands on a function that does nothing.

ghost use Rattle.std.specs.Prelude.{◌≡◌, ℕ, ℤ, Option, List, [], ◌∷◌, ◌++◌, if◌then◌else◌};
ghost use Rattle.lambda_values.specs.declared.item.Item.{Item};
ghost use Rattle.sort_ops.specs.Firsts.{firsts, is_among};
ghost use Rattle.sort_ops.specs.Orders.{in_order};
ghost use Rattle.sort_ops.specs.Parts.{Pieces, Rises, firsts_of, firsts_over, having, merged, order_of, order_over};
ghost use Rattle.sort_ops.specs.Parts.{at_most, values_in, whole};

/// The order of items rises, items with one value stand in it as before, and no other list is like that.
#[tactic(auto, using(crate::proofs::UniqueLemmas::order_rises, crate::proofs::UniqueLemmas::order_keeps, crate::proofs::UniqueLemmas::only_order))]
pub fn the_order_is_the_only_one()
    ensures rises { (xs : List Item) → Rises (in_order xs) }
    ensures same { (xs : List Item) (v : ℤ) → having v (in_order xs) ≡ having v xs }
    ensures only { (xs ys : List Item) → Rises ys → ((v : ℤ) → having v ys ≡ having v xs) → ys ≡ in_order xs }
{}

/// Two orders side by side, merged, are the order of both lists, one after the other. The first items of merged lists
/// are among the first ones of each.
#[tactic(auto, using(crate::proofs::OrderLemmas::orders_merge, crate::proofs::LeastLemmas::least_merged))]
pub fn two_orders_merge()
    ensures order { (xs ys : List Item) → merged (in_order xs) (in_order ys) ≡ in_order (xs ++ ys) }
    ensures least { (most : Option ℕ) (xs ys : List Item)
        → at_most most (merged (at_most most xs) (at_most most ys)) ≡ at_most most (merged xs ys) }
{}

/// For every tree of pieces, orders that are merged up the tree give the order of the whole walk.
#[tactic(auto, using(crate::proofs::OrderLemmas::every_tree))]
pub fn every_tree_of_pieces_gives_the_order()
    ensures { (pieces : Pieces) → order_over pieces ≡ order_of (whole pieces) }
{}

/// An item is among the firsts exactly if no item before it has its value.
#[tactic(auto, using(crate::proofs::FirstLemmas::one_more))]
pub fn an_item_stays_if_its_value_is_new()
    ensures { (xs : List Item) (x : Item) → firsts [] (xs ++ x ∷ [])
        ≡ (if is_among x.value (values_in xs) then firsts [] xs else firsts [] xs ++ x ∷ []) }
{}

/// For every tree of pieces, firsts that are merged up the tree are the firsts of the whole walk.
#[tactic(auto, using(crate::proofs::FirstLemmas::every_tree))]
pub fn every_tree_of_pieces_gives_the_firsts()
    ensures { (pieces : Pieces) → firsts_over pieces ≡ firsts_of (whole pieces) }
{}
