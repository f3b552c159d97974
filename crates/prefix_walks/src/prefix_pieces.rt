//! How the pieces of a prefix take items: to the last piece, or as pieces of their own.

ghost use Rattle.std.specs.Prelude.{◌≡◌, ◌+◌, ◌<◌, ◌≤◌, ◌^◌, ◌++◌, Ok, All, true, length, map, OnOk, OnErr, IfSome};
ghost use Rattle.trace.specs.Cover.{placed};
ghost use Rattle.trace.specs.Stages.{stages_of};
ghost use Rattle.batch_eval.specs.BatchItems.{batch_items};
ghost use Rattle.batch_eval.specs.Faultless.{left_by};
ghost use Rattle.prefix_walks.specs.Placing.{IsAt};
ghost use Rattle.prefix_walks.specs.Scans.{IsFolded, all_items, items_of};

use crate::cheap_stages::CheapStages;
use crate::folded_piece::FoldedPiece;
use crate::piece_buffer::{MOST_ITEMS, PieceBuffer};
use batch_eval::{BatchItems, Registers};
use reduce_ops::Op;
use trace::{MAX_SOURCE_SIZE, NoMemory, SourceItems};

/// How many items there are at least whose values are stored without their places, if these count up.
const LEAST_RUN: usize = 16;

/// From how many items of a piece on these are worked out again where they are read. With one worker it takes less time
/// to store fewer; that takes at most 2 bytes for each value that the stages go over.
const LEAST_WORKED: usize = 128;

/// The place of the first of this many items, if the places count up and there are enough of them.
fn run_place<I: SourceItems>(source: &I, count: usize) -> Option<u64>
    requires count { length (I.items source.now) ≡ count }
    requires few { count ≤ 1024 }
    ensures items { IfSome result (λ place. I.items source.now
        ≡ placed place (map (λ x. x.value) (I.items source.now))) }
    ensures places { IfSome result (λ place. place + count ≤ 2 ^ 62) }
{
    if count < LEAST_RUN {
        return None;
    }
    let place = source.item_at(0).origin;
    if place > MAX_SOURCE_SIZE - count as u64 {
        return None;
    }
    for position in 0..count as u64 {
        if source.item_at(position).origin != place + position {
            return None;
        }
    }
    Some(place)
}

/// Adds the items of a source, which have these values, to the last piece, or as a piece of their own.
pub(crate) fn add_items<I: SourceItems>(
    pieces: &mut Vec<FoldedPiece<'_>>,
    op: Op,
    source: &I,
    values: &[i64],
) -> Result<(), NoMemory>
    requires folds { All (IsFolded op) pieces.old.items }
    requires values { map (λ x. x.value) (I.items source.now) ≡ values.now }
    ensures ok { OnOk result (all_items pieces.new.items ≡ all_items pieces.old.items ++ I.items source.now) }
    ensures err { OnErr result (all_items pieces.new.items ≡ all_items pieces.old.items) }
    ensures refused { OnErr result (0 < length (I.items source.now)) }
    ensures folds { All (IsFolded op) pieces.new.items }
{
    if values.is_empty() {
        return Ok(());
    }
    if values.len() > MOST_ITEMS {
        return Err(NoMemory);
    }
    let start = run_place(source, values.len());
    add_at(pieces, op, start, source, values)
}

/// Adds the items of a source, which have these values, and places that count up from the first one, if it is given, to
/// the last piece, or as a piece of their own.
fn add_at<I: SourceItems>(
    pieces: &mut Vec<FoldedPiece<'_>>,
    op: Op,
    start: Option<u64>,
    source: &I,
    values: &[i64],
) -> Result<(), NoMemory>
    requires folds { All (IsFolded op) pieces.old.items }
    requires at { IsAt start (I.items source.now) values.now }
    requires few { length values.now ≤ 1024 }
    ensures ok { OnOk result (all_items pieces.new.items ≡ all_items pieces.old.items ++ I.items source.now) }
    ensures err { OnErr result (all_items pieces.new.items ≡ all_items pieces.old.items) }
    ensures folds { All (IsFolded op) pieces.new.items }
{
    if add_to_last(pieces, op, start, source, values)? {
        return Ok(());
    }
    let piece = FoldedPiece::stored(*pieces.allocator(), op, start, source, values)?;
    pieces.push(piece)?;
    Ok(())
}

/// Adds the items of a source to the last piece, or answers `false` if it doesn't take them.
fn add_to_last<I: SourceItems>(
    pieces: &mut Vec<FoldedPiece<'_>>,
    op: Op,
    start: Option<u64>,
    source: &I,
    values: &[i64],
) -> Result<bool, NoMemory>
    requires folds { All (IsFolded op) pieces.old.items }
    requires at { IsAt start (I.items source.now) values.now }
    requires few { length values.now ≤ 1024 }
    ensures added { result ≡ Ok true → all_items pieces.new.items ≡ all_items pieces.old.items ++ I.items source.now }
    ensures other { (result ≡ Ok true → ⊥) → all_items pieces.new.items ≡ all_items pieces.old.items }
    ensures folds { All (IsFolded op) pieces.new.items }
{
    match pieces.last_mut() {
        Some(piece) => piece.add(op, start, source, values),
        None => Ok(false),
    }
}

/// Adds what cheap stages leave of lent items, in pieces that are worked out of 1,024 of them. If the stages leave few
/// items of a piece, these are stored.
pub(crate) fn add_lent<'a>(
    pieces: &mut Vec<FoldedPiece<'a>>,
    op: Op,
    cheap: CheapStages<'a>,
    lent: &BatchItems<'a>,
    registers: &mut Registers,
) -> Result<(), NoMemory>
    requires folds { All (IsFolded op) pieces.old.items }
    ensures ok { OnOk result (all_items pieces.new.items ≡ all_items pieces.old.items
        ++ left_by (stages_of cheap.entry.stages.now) (batch_items lent.now)) }
    ensures folds { All (IsFolded op) pieces.new.items }
{
    let mut buffer = PieceBuffer::new();
    let size = lent.count();
    let mut taken = 0;
    while taken < size {
        let count = (MOST_ITEMS as u64).min(size - taken);
        let part = lent.part(taken, count);
        cheap.put(&part, registers, &mut buffer);
        add_left(pieces, op, cheap, part, &buffer)?;
        taken += count;
    }
    Ok(())
}

/// Adds what cheap stages leave of lent items: the items of a buffer. Few of them are stored.
fn add_left<'a>(
    pieces: &mut Vec<FoldedPiece<'a>>,
    op: Op,
    cheap: CheapStages<'a>,
    lent: BatchItems<'a>,
    left: &PieceBuffer,
) -> Result<(), NoMemory>
    requires folds { All (IsFolded op) pieces.old.items }
    requires few { length (batch_items lent) ≤ 1024 }
    requires left { left.now ≡ left_by (stages_of cheap.stages.now) (batch_items lent) }
    ensures ok { OnOk result (all_items pieces.new.items ≡ all_items pieces.old.items ++ left.now) }
    ensures folds { All (IsFolded op) pieces.new.items }
{
    let values = left.values();
    if values.len() < LEAST_WORKED {
        return add_items(pieces, op, &left.lanes(), values);
    }
    pieces.push(FoldedPiece::worked(op, cheap, lent, values))?;
    Ok(())
}
