//! Pieces of a walk with their folds.

ghost use Rattle.std.specs.Prelude.{◌≡◌, ◌≤◌, ◌++◌, true, Ok, length, map, IfOk};
ghost use Rattle.trace.specs.Stages.{stages_of};
ghost use Rattle.batch_eval.specs.BatchItems.{batch_items};
ghost use Rattle.batch_eval.specs.Faultless.{left_by};
ghost use Rattle.prefix_walks.specs.Placing.{IsAt};
ghost use Rattle.prefix_walks.specs.Scans.{IsFolded, items_of};

use crate::cheap_stages::CheapStages;
use crate::folding::folded;
use crate::piece_items::PieceItems;
use crate::stored::Stored;
use crate::worked::Worked;
use batch_eval::BatchItems;
use reduce_ops::{Op, Partial};
use std::alloc::Global;
use trace::{NoMemory, SourceItems};

/// Items side by side, and their fold.
#[derive(Drop)]
pub struct FoldedPiece<'a> {
    pub(crate) items: PieceItems<'a>,
    pub(crate) fold: Partial,
}

/// Where a piece begins: the position of its first item, and the fold of what lies left of it.
#[derive(Clone, Copy)]
pub struct PieceStart {
    pub(crate) before: u64,
    pub(crate) start: Option<i64>,
}

impl<'a> FoldedPiece<'a> {
    /// The piece of the items of a source, which have these values, and places that count up from the first one, if it
    /// is given.
    pub(crate) fn stored<I: SourceItems>(
        alloc: Global,
        op: Op,
        start: Option<u64>,
        source: &I,
        values: &[i64],
    ) -> Result<FoldedPiece<'a>, NoMemory>
        requires at { IsAt start (I.items source.now) values.now }
        requires few { length values.now ≤ 1024 }
        ensures items { IfOk result (λ piece. items_of piece ≡ I.items source.now) }
        ensures folded { IfOk result (λ piece. IsFolded op piece) }
    {
        let stored = Stored::of(alloc, start, source, values)?;
        Ok(FoldedPiece {
            items: PieceItems::Stored(stored),
            fold: folded(op, false, values),
        })
    }

    /// The piece of what cheap stages leave of lent items: items of these values. It stores none of them.
    pub(crate) fn worked(
        op: Op,
        stages: CheapStages<'a>,
        lent: BatchItems<'a>,
        values: &[i64],
    ) -> FoldedPiece<'a>
        requires few { length (batch_items lent) ≤ 1024 }
        requires values { map (λ x. x.value) (left_by (stages_of stages.stages.now) (batch_items lent)) ≡ values.now }
        ensures items { items_of result ≡ left_by (stages_of stages.entry.stages.now) (batch_items lent.entry) }
        ensures folded { IsFolded op result }
    {
        FoldedPiece {
            items: PieceItems::Worked(Worked {
                stages,
                lent,
                count: values.len(),
            }),
            fold: folded(op, false, values),
        }
    }

    /// Adds the items of a source, as `stored` takes them, and answers `true`; or `false` if the piece has no space for
    /// them or doesn't store its items in their way. If an allocation fails, the piece stays as it was.
    pub(crate) fn add<I: SourceItems>(
        &mut self,
        op: Op,
        start: Option<u64>,
        source: &I,
        values: &[i64],
    ) -> Result<bool, NoMemory>
        requires folded { IsFolded op self.old }
        requires at { IsAt start (I.items source.now) values.now }
        requires few { length values.now ≤ 1024 }
        ensures added { result ≡ Ok true → items_of self.new ≡ items_of self.old ++ I.items source.now }
        ensures other { (result ≡ Ok true → ⊥) → items_of self.new ≡ items_of self.old }
        ensures folded { IsFolded op self.new }
    {
        let PieceItems::Stored(stored) = &mut self.items else {
            return Ok(false);
        };
        if !stored.add(start, source, values)? {
            return Ok(false);
        }
        self.fold = self.fold.merge(folded(op, false, values));
        Ok(true)
    }
}
