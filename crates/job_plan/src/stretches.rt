//! A piece of a source, a stretch at a time, until a place is known that decides what the walk is for.

ghost use Rattle.std.specs.Prelude.{◌≡◌, ◌≤◌, ◌<◌, ℕ, true, false, List, Ok, IfOk, IfSome, IfNone, OnErr, length};
ghost use Rattle.trace.specs.Sinks.{IsFed, flow_after};
ghost use Rattle.trace.specs.Trace.{trace};
ghost use Rattle.lambda_values.specs.declared.item.Item.{Item as item};
ghost use Rattle.trace.specs.declared.item.End.TheVariants as end;
ghost use Rattle.trace.specs.declared.feeding.Fed.TheVariants as fed;
ghost use Rattle.trace.specs.declared.sink.Flow.TheVariants as flow;
ghost use Rattle.batch_eval.specs.Pipelines.{piped};
ghost use Rattle.job_plan.specs.Parts.{walk_in};
ghost use Rattle.prefix_walks.specs.Pieces.{IsNotAfter, elements};
ghost use Rattle.job_plan.specs.Stretches.{IsDecided, IsWalked};

use crate::looking::{LeavingSink, Looking, STRETCH, StartBrand};
use crate::source::Source;
use batch_eval::{BatchSink, Pipeline, Registers};
use early_stop::Stop;
use prefix_walks::Window;
use std::marker::{Brand, PhantomData};
use trace::{Fed, Flow, NoMemory};

/// The end of the positions of a piece, but no further than its source goes.
fn end_of(source: &Source, to: Option<u64>) -> u64
    ensures { IfSome to (λ t. result ≤ t) }
{
    let size = source.size();
    match to {
        Some(to) => to.min(size),
        None => size,
    }
}

/// Takes the items at these positions one after the other through the stages, and gives the sink back with what became
/// of them. `None` says that the walk was left, since a place is known that decides and lies at or before the first
/// position: what the sink had taken is freed.
pub(crate) fn feed_until<S: BatchSink + Drop, W: Stop>(
    source: &Source,
    line: Pipeline<'_>,
    window: Window,
    registers: &mut Registers,
    sink: S,
    stop: &mut W,
) -> Result<Option<(S, Fed)>, NoMemory>
    requires wants { S.flow sink ≡ Flow.More }
    requires ordered { IsNotAfter window.from window.to }
    ensures fed { IfOk result (λ r. IfSome r (λ f. IsWalked S.has_taken (λ ys. piped line.entry (trace ys end.Done))
        (elements window.from window.to (walk_in source.now).items) sink f.1 f.0)) }
    ensures flow { IfOk result (λ r. IfSome r (λ f. S.flow f.0 ≡ flow_after (Ok f.1))) }
    ensures left { IfOk result
        (λ r. IfNone r ((xs : List item) → S.has_taken sink xs → IsDecided (W.decides stop.old) window.from)) }
    ensures refused { OnErr result S.takes_memory }
{
    feed_looking::<Brand, S, W>(source, line, window, registers, sink, stop)
}

/// What `feed_until` gives, for a piece whose start contracts can name.
fn feed_looking<P: StartBrand, S: BatchSink + Drop, W: Stop>(
    source: &Source,
    line: Pipeline<'_>,
    window: Window,
    registers: &mut Registers,
    sink: S,
    stop: &mut W,
) -> Result<Option<(S, Fed)>, NoMemory>
    requires wants { S.flow sink ≡ Flow.More }
    requires ordered { IsNotAfter window.from window.to }
    requires from { window.from ≡ P.from }
    requires decides { (c : ℕ) → W.decides stop.old c → P.decides c }
    ensures fed { IfOk result (λ r. IfSome r (λ f. IsWalked S.has_taken (λ ys. piped line.entry (trace ys end.Done))
        (elements window.from window.to (walk_in source.now).items) sink f.1 f.0)) }
    ensures flow { IfOk result (λ r. IfSome r (λ f. S.flow f.0 ≡ flow_after (Ok f.1))) }
    ensures left { IfOk result (λ r. IfNone r ((xs : List item) → S.has_taken sink xs → IsDecided P.decides P.from)) }
    ensures refused { OnErr result S.takes_memory }
{
    let mut looking = Looking::<P, S, W> {
        inner: sink,
        stop,
        from: window.from,
        until_look: STRETCH,
        has_left: false,
        of: PhantomData,
    };
    let fed = feed_stretches(source, line, window, registers, &mut looking)?;
    if looking.has_left {
        return Ok(None);
    }
    Ok(Some((looking.inner, fed)))
}

/// Takes the items at these positions one after the other through the stages, until the sink leaves.
fn feed_stretches<S: LeavingSink>(
    source: &Source,
    line: Pipeline<'_>,
    window: Window,
    registers: &mut Registers,
    sink: &mut S,
) -> Result<Fed, NoMemory>
    requires wants { S.flow sink.old ≡ Flow.More }
    requires ordered { IsNotAfter window.from window.to }
    ensures fed { IfOk result (λ r. S.has_left sink.new ≡ false
        → IsWalked S.has_taken (λ ys. piped line.entry (trace ys end.Done))
        (elements window.from window.to (walk_in source.now).items) sink.old r sink.new) }
    ensures flow { IfOk result (λ r. S.has_left sink.new ≡ false → S.flow sink.new ≡ flow_after (Ok r)) }
    ensures left { IfOk result (λ r. (xs : List item) → S.has_taken sink.old xs
        → (ys : List item) × S.has_taken sink.new ys) }
    ensures refused { OnErr result S.takes_memory }
{
    let end = end_of(source, window.to);
    let mut position = window.from;
    while end.saturating_sub(position) > STRETCH {
        let next = position + STRETCH;
        let stretch = Window {
            from: position,
            to: Some(next),
        };
        match source.feed(line, stretch, registers, sink)? {
            Fed::More => {}
            ended => return Ok(ended),
        }
        position = next;
        if sink.leaves() {
            return Ok(Fed::Enough);
        }
    }
    let last = Window {
        from: position,
        to: window.to,
    };
    let fed = source.feed(line, last, registers, sink)?;
    Ok(fed)
}
