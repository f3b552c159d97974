//! The walk that a prefix gave, whose items are scanned as they are walked.

ghost use Rattle.std.specs.Prelude.{◌≡◌, ◌≤◌, ℕ, ℤ, Option, None, Some, All, IfOk, length, flat_map, take, drop};
ghost use Rattle.reduce_ops.specs.Operators.{value_of};
ghost use Rattle.prefix_scan.specs.Scans.{fold_at};
ghost use Rattle.prefix_walks.specs.Scans.{IsFolded, IsMarked, all_items, marks_of, scanned_walk};

use crate::folded_piece::{FoldedPiece, PieceStart};
use crate::prefix::Prefix;
use batch_eval::Registers;
use std::alloc::Global;
use std::marker::Model;
use trace::{End, NoMemory};

/// Pieces of a walk, each with the fold of what lies left of it. Contracts see the prefix of that walk.
#[derive(Drop)]
pub struct ScannedWalk<'a> {
    pub(crate) prefix: Prefix,
    pub(crate) pieces: Vec<FoldedPiece<'a>>,
    pub(crate) marks: Vec<PieceStart>,
    pub(crate) size: u64,
}

impl<'a> Model for ScannedWalk<'a> {
    ghost use Rattle.trace.specs.Trace.{Trace};
    ghost use Rattle.prefix_walks.specs.Scans.{IsMarked, scanned_walk};

    ghost Value = { Trace };

    ghost view = { λ walk. scanned_walk walk.prefix.op walk.prefix.range walk.pieces.items };

    ghost invariant = { λ walk.
        IsMarked walk.prefix.op walk.prefix.range walk.pieces.items walk.marks.items walk.size };
}

impl<'a> ScannedWalk<'a> {
    /// The walk of these pieces. The marks take 24 bytes for each.
    pub(crate) fn of(
        alloc: Global,
        prefix: Prefix,
        pieces: Vec<FoldedPiece<'a>>,
    ) -> Result<ScannedWalk<'a>, NoMemory>
        requires { All (IsFolded prefix.op) pieces.items }
        ensures { IfOk result (λ walk. walk ≡ scanned_walk prefix.op prefix.range pieces.entry.items) }
    {
        let (marks, size) = marks(alloc, prefix, &pieces)?;
        Ok(ScannedWalk {
            prefix,
            pieces,
            marks,
            size,
        })
    }

    /// How the walk ends: it is done. A walk that ends in a fault is never scanned.
    pub(crate) fn end(&self) -> End
        ensures { result ≡ self.now.ending }
    {
        let _ = &self.prefix;
        End::Done
    }

    /// How many items there are.
    pub(crate) fn size(&self) -> u64
        ensures { result ≡ length self.now.items }
    {
        self.size
    }
}

/// Where each piece begins, and how many items there are.
fn marks(
    alloc: Global,
    prefix: Prefix,
    pieces: &[FoldedPiece],
) -> Result<(Vec<PieceStart>, u64), NoMemory>
    requires { All (IsFolded prefix.op) pieces.now }
    ensures marks { IfOk result (λ m. m.0.items ≡ marks_of (value_of prefix.op) prefix.range 0 None pieces.now) }
    ensures size { IfOk result (λ m. m.1 ≡ length (all_items pieces.now)) }
{
    let mut marks = Vec::new(alloc);
    let mut registers = Registers::new(alloc);
    let mut before = 0u64;
    let mut start = None;
    for piece in pieces {
        marks.push(PieceStart { before, start })?;
        start = piece.fold_from(prefix.op, prefix.range, before, start, &mut registers);
        let Some(next) = before.checked_add(piece.items.count() as u64) else {
            return Err(NoMemory);
        };
        before = next;
    }
    Ok((marks, before))
}
