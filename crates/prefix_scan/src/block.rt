//! Blocks: what the up pass knows of pieces. The fold of the items at positions of a range, if there are any, and the
//! end.

ghost use Rattle.std.specs.Prelude.{◌≡◌, ◌+◌, ◌<◌, ◌^◌, None, ℕ, List, length, flat_map};
ghost use Rattle.trace.specs.Trace.{Trace, append, trace};
ghost use Rattle.trace.specs.declared.item.End.TheVariants as end;
ghost use Rattle.lambda_values.specs.declared.item.Item.{Item as item};
ghost use Rattle.reduce_ops.specs.Folds.{fold_items as folded_items};
ghost use Rattle.reduce_ops.specs.Operators.{value_of};
ghost use Rattle.reduce_ops.specs.Parts.{StandsFor as FoldStands};
ghost use Rattle.prefix_scan.specs.Prefixes.{Range};
ghost use Rattle.prefix_scan.specs.Scans.{StandsFor, fold_at};

use crate::scan::{cut_to, fold_items};
use reduce_ops::{Op, Partial};
use trace::{Chunk, End, Item};

/// The block of a piece: the fold of its items, with `at` of those at these positions alone, and its end. It takes no
/// memory.
///
/// For other programs: `streamrun` folds values that lie side by side, by the loops below this one.
pub fn up(op: Op, at: Option<(u64, u64)>, chunk: &Chunk) -> Partial
    requires few { length chunk.now.items < 2 ^ 64 }
    ensures op { result.op ≡ op }
    ensures stands { StandsFor at 0 result chunk.now }
{
    let mut block = block_of(op, fold_pieces(op, at, chunk.pieces()));
    block.end_with(chunk.end());
    block
}

/// The block of items with this fold, whose walk is done.
fn block_of(op: Op, fold: Option<i64>) -> Partial
    ensures op { result.op ≡ op }
    ensures stands { (xs : List item) → fold ≡ folded_items (value_of op) xs → FoldStands result (trace xs end.Done) }
{
    match fold {
        Some(value) => Partial::of(op, Item { origin: 0, value }),
        None => Partial::none(op, End::Done),
    }
}

/// The fold of the items of pieces at positions of the range.
fn fold_pieces(op: Op, range: Option<(u64, u64)>, pieces: &[Vec<Item>]) -> Option<i64>
    requires few { length (flat_map (λ piece. piece.items) pieces.now) < 2 ^ 64 }
    ensures { result ≡ fold_at (value_of op) range 0 None (flat_map (λ piece. piece.items) pieces.now) }
{
    let mut folded = None;
    let mut first = 0u64;
    for piece in pieces {
        let count = piece.len() as u64;
        folded = fold_items(op, cut_to(range, first, count), folded, piece);
        first += count;
    }
    folded
}

/// The block of two pieces side by side, of one operator. A fault of the left one ends both. It takes no memory.
///
/// For other programs: `streamrun` folds values that lie side by side, by the loops below `up`.
pub fn merge(left: Partial, right: Partial) -> Partial
    requires { right.op ≡ left.op }
    ensures op { result.op ≡ left.op }
    ensures stands { (range : Range) (first : ℕ) (a b : Trace) → StandsFor range first left a
        → StandsFor range (first + length a.items) right b → StandsFor range first result (append a b) }
{
    left.merge(right)
}
