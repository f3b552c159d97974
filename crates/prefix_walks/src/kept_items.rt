//! Items that were kept, taken through stages.

ghost use Rattle.std.specs.Prelude.{◌≡◌, List, OnErr};
ghost use Rattle.trace.specs.Sinks.{IsFed, flow_after};
ghost use Rattle.trace.specs.Trace.{trace};
ghost use Rattle.lambda_values.specs.declared.item.Item.{Item as item};
ghost use Rattle.trace.specs.declared.item.End.TheVariants as end;
ghost use Rattle.batch_eval.specs.Pipelines.{piped};
ghost use Rattle.sort_ops.specs.Runs.{items_of};
ghost use Rattle.prefix_walks.specs.Pieces.{elements};

use crate::folded_walk::feed_buffer;
use crate::piece_buffer::{MOST_ITEMS, PieceBuffer};
use crate::spans::within;
use crate::window::Window;
use batch_eval::{BatchSink, Pipeline, Registers};
use sort_ops::ItemSlice;
use trace::{Fed, Flow, NoMemory};

/// Takes the items at these positions of items that were kept.
pub(crate) fn feed_items<S: BatchSink>(
    line: Pipeline<'_>,
    items: ItemSlice<'_>,
    window: Window,
    registers: &mut Registers,
    sink: &mut S,
) -> Result<Fed, NoMemory>
    requires wants { S.flow sink.old ≡ Flow.More }
    ensures fed { (xs : List item) → S.has_taken sink.old xs → IsFed S.has_taken xs
        (piped line.entry (trace (elements window.from window.to (items_of items.entry)) end.Done)) result sink.new }
    ensures flow { S.flow sink.new ≡ flow_after result }
    ensures refused { OnErr result S.takes_memory }
{
    let (from, count) = within(window.from, window.to, items.len() as u64);
    let part = items.between(from as usize, (from + count) as usize);
    feed_parts(line, part, registers, sink)
}

/// Takes items, up to 1,024 at a time. Its buffer isn't to lie in each frame of a caller that calls itself.
#[inline(never)]
fn feed_parts<S: BatchSink>(
    line: Pipeline<'_>,
    items: ItemSlice<'_>,
    registers: &mut Registers,
    sink: &mut S,
) -> Result<Fed, NoMemory>
    requires wants { S.flow sink.old ≡ Flow.More }
    ensures fed { (xs : List item) → S.has_taken sink.old xs → IsFed S.has_taken xs
        (piped line.entry (trace (items_of items.entry) end.Done)) result sink.new }
    ensures flow { S.flow sink.new ≡ flow_after result }
    ensures refused { OnErr result S.takes_memory }
{
    let mut buffer = PieceBuffer::new();
    let mut from = 0;
    while from < items.len() {
        let count = (items.len() - from).min(MOST_ITEMS);
        buffer.fill(items.between(from, from + count));
        match feed_buffer(line, &buffer, Window::all(), registers, sink)? {
            Fed::More => {}
            stopped => return Ok(stopped),
        }
        from += count;
    }
    Ok(Fed::More)
}
