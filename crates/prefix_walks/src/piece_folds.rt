//! The folds of pieces, after what lies left of them.

ghost use Rattle.std.specs.Prelude.{◌≡◌, ◌<◌, ℕ, true, false};
ghost use Rattle.reduce_ops.specs.Operators.{value_of};
ghost use Rattle.prefix_scan.specs.Prefixes.{is_within};
ghost use Rattle.prefix_scan.specs.Scans.{fold_at};
ghost use Rattle.prefix_walks.specs.Scans.{IsFolded, items_of};

use crate::folded_piece::FoldedPiece;
use crate::folding::joined;
use crate::piece_buffer::PieceBuffer;
use batch_eval::Registers;
use prefix_scan::cut_to;
use reduce_ops::{Op, operators_are_associative};

impl<'a> FoldedPiece<'a> {
    /// The fold of `start` and of the items at positions of the range; the first item has the position `first`. It goes
    /// over the items only if some of their positions are in the range, and not all.
    pub(crate) fn fold_from(
        &self,
        op: Op,
        range: Option<(u64, u64)>,
        first: u64,
        start: Option<i64>,
        registers: &mut Registers,
    ) -> Option<i64>
        requires { IsFolded op self.now }
        ensures { result ≡ fold_at (value_of op) range first start (items_of self.now) }
    {
        let count = self.items.count() as u64;
        let at = cut_to(range, first, count);
        if holds_all(at, count) {
            return self.fold_after(op, start);
        }
        if holds_none(at) {
            return start;
        }
        self.fold_some(op, at, start, registers)
    }

    /// The fold of `start` and of all items.
    fn fold_after(&self, op: Op, start: Option<i64>) -> Option<i64>
        requires { IsFolded op self.now }
        ensures { result ≡ fold_at (value_of op) None 0 start (items_of self.now) }
    {
        operators_are_associative();
        match self.fold.finish() {
            Ok(value) => joined(op, start, value),
            Err(_) => start,
        }
    }

    /// The fold of `start` and of the items at positions of the range, by positions of the piece.
    fn fold_some(
        &self,
        op: Op,
        at: Option<(u64, u64)>,
        start: Option<i64>,
        registers: &mut Registers,
    ) -> Option<i64>
        requires { IsFolded op self.now }
        ensures { result ≡ fold_at (value_of op) at 0 start (items_of self.now) }
    {
        let mut buffer = PieceBuffer::new();
        self.items.put(registers, &mut buffer);
        buffer.scan(op, at, start)
    }
}

/// Whether all of this many positions are positions of the range.
fn holds_all(range: Option<(u64, u64)>, count: u64) -> bool
    ensures { result ≡ true → (j : ℕ) → j < count → is_within range j ≡ true }
{
    match range {
        Some((from, to)) => from == 0 && count <= to,
        None => true,
    }
}

/// Whether a range has no position.
fn holds_none(range: Option<(u64, u64)>) -> bool
    ensures { result ≡ true → (j : ℕ) → is_within range j ≡ false }
{
    match range {
        Some((from, to)) => to <= from,
        None => false,
    }
}
