//! Pieces of a walk, scanned in a buffer, and what a buffer holds, taken through stages.

ghost use Rattle.std.specs.Prelude.{◌≡◌, List, OnErr};
ghost use Rattle.trace.specs.Sinks.{IsFed, flow_after};
ghost use Rattle.trace.specs.Trace.{trace};
ghost use Rattle.lambda_values.specs.declared.item.Item.{Item as item};
ghost use Rattle.trace.specs.declared.item.End.TheVariants as end;
ghost use Rattle.batch_eval.specs.Pipelines.{piped};
ghost use Rattle.reduce_ops.specs.Operators.{value_of};
ghost use Rattle.prefix_scan.specs.Scans.{scan_at};
ghost use Rattle.prefix_walks.specs.Pieces.{elements};
ghost use Rattle.prefix_walks.specs.Scans.{items_of};

use crate::folded_piece::FoldedPiece;
use crate::piece_buffer::PieceBuffer;
use crate::prefix::Prefix;
use crate::spans::within;
use crate::window::Window;
use batch_eval::{BatchItems, BatchSink, Pipeline, Registers, feed_at_once};
use prefix_scan::cut_to;
use trace::{Fed, Flow, NoMemory, SourceItems};

/// A prefix from a position on; `start` is the fold of what lies left of it.
#[derive(Clone, Copy)]
pub(crate) struct Scan {
    pub(crate) prefix: Prefix,
    pub(crate) position: u64,
    pub(crate) start: Option<i64>,
}

impl Scan {
    /// Puts the items of a piece into a buffer, scanned from its first item on.
    pub(crate) fn put(
        self,
        piece: &FoldedPiece<'_>,
        registers: &mut Registers,
        buffer: &mut PieceBuffer,
    )
        ensures { buffer.new ≡ scan_at (value_of self.prefix.op) self.prefix.range self.position self.start
            (items_of piece.now) }
    {
        let at = cut_to(self.prefix.range, self.position, piece.items.count() as u64);
        piece.items.put(registers, buffer);
        let _ = buffer.scan(self.prefix.op, at, self.start);
    }
}

/// Takes the items at these positions of a buffer.
pub(crate) fn feed_buffer<S: BatchSink>(
    line: Pipeline<'_>,
    buffer: &PieceBuffer,
    window: Window,
    registers: &mut Registers,
    sink: &mut S,
) -> Result<Fed, NoMemory>
    requires wants { S.flow sink.old ≡ Flow.More }
    ensures fed { (xs : List item) → S.has_taken sink.old xs → IsFed S.has_taken xs
        (piped line.entry (trace (elements window.from window.to buffer.now) end.Done)) result sink.new }
    ensures flow { S.flow sink.new ≡ flow_after result }
    ensures refused { OnErr result S.takes_memory }
{
    let lanes = buffer.lanes();
    let (from, count) = within(window.from, window.to, lanes.count());
    let part = lanes.part(from, count);
    feed_at_once(line, &BatchItems::Lanes(part), registers, sink)
}
