//! Given walks, taken through stages; those that a prefix gave are scanned on the way.

ghost use Rattle.std.specs.Prelude.{◌≡◌, ◌+◌, ◌<◌, ◌≤◌, ◌^◌, None, Some, All, IfSome};
ghost use Rattle.std.specs.Prelude.{slice_get, List, length, take, drop, true, OnErr};
ghost use Rattle.trace.specs.Sinks.{IsFed, flow_after};
ghost use Rattle.trace.specs.Trace.{trace};
ghost use Rattle.lambda_values.specs.declared.item.Item.{Item as item};
ghost use Rattle.trace.specs.declared.item.End.TheVariants as end;
ghost use Rattle.batch_eval.specs.Pipelines.{piped};
ghost use Rattle.reduce_ops.specs.Operators.{value_of};
ghost use Rattle.prefix_scan.specs.Scans.{fold_at, scan_at};
ghost use Rattle.prefix_walks.specs.Pieces.{elements};
ghost use Rattle.prefix_walks.specs.Scans.{IsFolded, all_items, items_of, marks_of, mark};

use crate::folded_piece::{FoldedPiece, PieceStart};
use crate::folded_walk::{Scan, feed_buffer};
use crate::given::GivenWalk;
use crate::kept::Kept;
use crate::kept_items::feed_items;
use crate::kept_runs::feed_runs;
use crate::piece_buffer::PieceBuffer;
use crate::scanned::ScannedWalk;
use crate::window::Window;
use batch_eval::{BatchSink, Pipeline, Registers};
use sort_ops::ItemSlice;
use trace::{Fed, Flow, NoMemory};

/// Takes the items at these positions of a given walk.
pub fn feed_given<S: BatchSink>(
    line: Pipeline<'_>,
    given: &GivenWalk<'_>,
    window: Window,
    registers: &mut Registers,
    sink: &mut S,
) -> Result<Fed, NoMemory>
    requires wants { S.flow sink.old ≡ Flow.More }
    ensures fed { (xs : List item) → S.has_taken sink.old xs → IsFed S.has_taken xs
        (piped line.entry (trace (elements window.from window.to given.now.items) end.Done)) result sink.new }
    ensures flow { S.flow sink.new ≡ flow_after result }
    ensures refused { OnErr result S.takes_memory }
{
    match &given.kept {
        Kept::Ended(_) => Ok(Fed::More),
        Kept::Scanned(walk) => feed_scanned(line, walk, window, registers, sink),
        Kept::Items(items, _) => {
            feed_items(line, ItemSlice::Items(items), window, registers, sink)
        }
        Kept::Sorted(runs, _) => feed_runs(line, runs, window, registers, sink),
    }
}

/// Takes the items at these positions of a walk that a prefix gave. It begins at the piece in which the first of them
/// lies.
fn feed_scanned<S: BatchSink>(
    line: Pipeline<'_>,
    walk: &ScannedWalk<'_>,
    window: Window,
    registers: &mut Registers,
    sink: &mut S,
) -> Result<Fed, NoMemory>
    requires wants { S.flow sink.old ≡ Flow.More }
    ensures fed { (xs : List item) → S.has_taken sink.old xs → IsFed S.has_taken xs
        (piped line.entry (trace (elements window.from window.to walk.now.items) end.Done)) result sink.new }
    ensures flow { S.flow sink.new ≡ flow_after result }
    ensures refused { OnErr result S.takes_memory }
{
    if let Some((first, mark)) = piece_at(&walk.marks, window.from) {
        if first <= walk.pieces.len() {
            let scan = Scan {
                prefix: walk.prefix,
                position: mark.before,
                start: mark.start,
            };
            let left = window.after(mark.before);
            return feed_from(line, scan, &walk.pieces[first..], left, registers, sink);
        }
    }
    let scan = Scan {
        prefix: walk.prefix,
        position: 0,
        start: None,
    };
    feed_from(line, scan, &walk.pieces, window, registers, sink)
}

/// The piece in which a position lies, and where it begins.
fn piece_at(marks: &[PieceStart], position: u64) -> Option<(usize, PieceStart)>
    ensures found { IfSome result (λ at. slice_get marks.now at.0 ≡ Some at.1) }
    ensures inside { IfSome result (λ at. at.1.before ≤ position) }
{
    let after = marks.partition_point(|mark| mark.before <= position);
    if after == 0 {
        return None;
    }
    let mark = marks[after - 1];
    if mark.before > position {
        return None;
    }
    Some((after - 1, mark))
}

/// Whether no position is left.
fn is_over(to: Option<u64>) -> bool
    ensures { result ≡ true → to ≡ Some 0 }
{
    matches!(to, Some(0))
}

/// Takes the items at these positions of pieces, scanned from the first item on.
fn feed_from<S: BatchSink>(
    line: Pipeline<'_>,
    scan: Scan,
    pieces: &[FoldedPiece<'_>],
    window: Window,
    registers: &mut Registers,
    sink: &mut S,
) -> Result<Fed, NoMemory>
    requires wants { S.flow sink.old ≡ Flow.More }
    requires folds { All (IsFolded scan.prefix.op) pieces.now }
    requires few { scan.position + length (all_items pieces.now) < 2 ^ 64 }
    ensures fed { (xs : List item) → S.has_taken sink.old xs → IsFed S.has_taken xs
        (piped line.entry (trace (elements window.from window.to (scan_at (value_of scan.prefix.op)
        scan.prefix.range scan.position scan.start (all_items pieces.now))) end.Done)) result sink.new }
    ensures flow { S.flow sink.new ≡ flow_after result }
    ensures refused { OnErr result S.takes_memory }
{
    let mut here = scan;
    let mut left = window;
    let mut buffer = PieceBuffer::new();
    for piece in pieces {
        if is_over(left.to) {
            return Ok(Fed::More);
        }
        here.put(piece, registers, &mut buffer);
        match feed_buffer(line, &buffer, left, registers, sink)? {
            Fed::More => {}
            stopped => return Ok(stopped),
        }
        let size = piece.items.count() as u64;
        here.start = piece.fold_from(
            here.prefix.op,
            here.prefix.range,
            here.position,
            here.start,
            registers,
        );
        here.position += size;
        left = left.after(size);
    }
    Ok(Fed::More)
}
