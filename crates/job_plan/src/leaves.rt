//! A piece of a segment's source, taken through the segment's stages to the part that its end wants.

ghost use Rattle.std.specs.Prelude.{◌≡◌, true, IfNone, IfOk, IfSome, OnErr};
ghost use Rattle.trace.specs.Trace.{nothing};
ghost use Rattle.prefix_walks.specs.Pieces.{IsNotAfter, piece_of};
ghost use Rattle.job_plan.specs.Parts.{EndsFor, StandsEnough, StandsFor, end_keeps_items};
ghost use Rattle.job_routes.specs.Legs.{end_in, number_after, segment_in};
ghost use Rattle.job_plan.specs.Parts.{keeps_items, walk_in};
ghost use Rattle.job_plan.specs.Stretches.{IsDecided};

use crate::counted_part::counted_part;
use crate::end_part::{EndPart, LastStage};
use crate::lent_part::lent_part;
use crate::part::Part;
use crate::part_sink::{EndBrand, PartSink};
use crate::room::with_room;
use crate::source::Walked;
use crate::stretches::feed_until;
use batch_eval::Registers;
use early_stop::Stop;
use job_routes::{Leg, Segment};
use lambda_values::Env;
use prefix_walks::Window;
use std::alloc::Global;
use std::marker::{Brand, PhantomData};
use trace::{End, Fed, NoMemory};

/// The part of the items at these positions of the source of a segment, unless `stop` names a place at or before the
/// first one that decides what the segment gives: then the walk may be left, with the part of a piece that isn't
/// walked. The walk looks for a place that decides every 65,536 positions, and within inner streams every 65,536
/// values.
///
/// A piece without `window.to` ends as the source does. The walk goes by batches, which begin with 16 items and have
/// 1,024 at most; it stops after the batch in which nothing more matters. Only parts that keep items need
/// memory, for the items that they keep. If registers for batches aren't to be had, the walk goes item by item. A count
/// after maps that can't have a fault needs no walk: it takes the number of the positions.
pub fn leaf_until<'p, W: Stop>(
    alloc: Global,
    leg: &'p Leg,
    walked: Walked<'_, 'p, '_, '_>,
    window: Window,
    registers: &mut Registers,
    stop: &mut W,
) -> Result<Part<'p>, NoMemory>
    requires ordered { IsNotAfter window.from window.to }
    ensures stands { IfOk result (λ part. StandsEnough (W.decides stop.old) (segment_in leg.now.last)
        walked.entry.env.now part window.from (piece_of window.from window.to (walk_in walked.entry.source))) }
    ensures memory { OnErr result (end_keeps_items (end_in leg.now.last.end) ≡ true) }
{
    if let Some(part) = lent_part(alloc, &leg.last, &walked.source, window, registers)? {
        return Ok(part);
    }
    if let Some(part) = counted_part(&leg.last, &walked.source, window) {
        return Ok(part);
    }
    let none = with_room(alloc, &leg.last, walked, window);
    match part_until::<Brand, W>(none, &leg.last, walked, window, registers, stop)? {
        Some(part) => Ok(part),
        None => Ok(unwalked(alloc, leg, walked.env)),
    }
}

/// The part of the items at these positions after a part without items, for an end whose type contracts can name.
/// `None` says that the walk was left.
fn part_until<'p, K: EndBrand, W: Stop>(
    part: Part<'p>,
    segment: &'p Segment,
    walked: Walked,
    window: Window,
    registers: &mut Registers,
    stop: &mut W,
) -> Result<Option<Part<'p>>, NoMemory>
    requires last { segment.now.end ≡ K.last }
    requires stage { number_after segment.now.stages ≡ K.stage }
    requires env { walked.env.now ≡ K.env }
    requires begun { part ≡ K.begun }
    requires none { EndsFor (end_in segment.now.end) (number_after segment.now.stages) walked.env.now part nothing }
    requires ordered { IsNotAfter window.from window.to }
    ensures stands { IfOk result (λ found. IfSome found (λ made. StandsEnough (W.decides stop.old)
        (segment_in segment.now) walked.entry.env.now made window.from
        (piece_of window.from window.to (walk_in walked.entry.source)))) }
    ensures left { IfOk result (λ found. IfNone found (IsDecided (W.decides stop.old) window.from)) }
    ensures memory { OnErr result (keeps_items part.entry ≡ true) }
{
    if part.is_settled() {
        return Ok(Some(part));
    }
    let sink = PartSink::<K> {
        part,
        last: LastStage {
            end: &segment.end,
            number: segment.stages.next(),
            env: walked.env,
        },
        of: PhantomData,
    };
    let line = segment.stages.pipeline(walked.env);
    let ended = feed_until(&walked.source, line, window, registers, sink, stop)?;
    let Some((taken, fed)) = ended else {
        return Ok(None);
    };
    let mut sink = taken;
    match fed {
        Fed::More => sink.part.end_with(walked.source.piece_end(window.to)),
        Fed::Fault(fault) => sink.part.end_with(End::Fault(fault)),
        Fed::Enough => {}
    }
    Ok(Some(sink.part))
}

/// The part of a piece that isn't walked. It takes no memory.
pub fn unwalked<'p>(alloc: Global, leg: &'p Leg, env: &Env) -> Part<'p>
    ensures stands { StandsFor (segment_in leg.now.last) env.now result nothing }
    ensures keeps { keeps_items result ≡ end_keeps_items (end_in leg.now.last.end) }
{
    Part::none(alloc, &leg.last, env)
}
