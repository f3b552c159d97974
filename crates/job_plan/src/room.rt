//! What the part of a piece can know of the items to come: room for the values of a piece that goes through maps alone
//! is taken at once.

ghost use Rattle.std.specs.Prelude.{◌≡◌};
ghost use Rattle.trace.specs.Trace.{nothing};
ghost use Rattle.job_plan.specs.Parts.{EndsFor, end_keeps_items, keeps_items};
ghost use Rattle.job_routes.specs.Legs.{end_in, number_after};

use crate::likely_values::are_single;
use crate::part::Part;
use crate::source::Walked;
use batch_eval::are_maps;
use job_routes::Segment;
use lambda_values::Env;
use prefix_walks::Window;
use std::alloc::Global;
use trace::Stage;

/// For how many values room is taken at most: 512 kB. A part with more of them grows by doubling from there on.
const MOST: u64 = 65_536;

/// The part of no item, for these positions of a source.
///
/// An array gets room for the values of all of them, if each item has one, so that it isn't copied as it grows. If that
/// memory is refused, it grows as any other part does. A sort is given how many items the whole walk has at most.
pub(crate) fn with_room<'p>(
    alloc: Global,
    segment: &'p Segment,
    walked: Walked,
    window: Window,
) -> Part<'p>
    ensures stands { EndsFor (end_in segment.now.end) (number_after segment.now.stages) walked.entry.env.now
        result nothing }
    ensures keeps { keeps_items result ≡ end_keeps_items (end_in segment.now.end) }
{
    let part = begun(alloc, segment, window.from, walked.env);
    let part = expecting(part, &segment.stages.list, walked.source.size());
    if !are_maps(&segment.stages.list) {
        return part;
    }
    let end = match window.to {
        Some(to) => to,
        None => walked.source.size(),
    };
    reserved(part, end.saturating_sub(window.from).min(MOST) as usize)
}

/// The part of no item, for a piece that begins at this position.
fn begun<'p>(alloc: Global, segment: &'p Segment, from: u64, env: &Env) -> Part<'p>
    ensures stands { EndsFor (end_in segment.now.end) (number_after segment.now.stages) env.now result nothing }
    ensures keeps { keeps_items result ≡ end_keeps_items (end_in segment.now.end) }
{
    if from == 0 {
        Part::first(alloc, segment, env)
    } else {
        Part::none(alloc, segment, env)
    }
}

/// The part. An array has room for this many more values, if there is memory for it.
fn reserved(part: Part<'_>, values: usize) -> Part<'_>
    ensures { result ≡ part.entry }
{
    match part {
        Part::Array(mut array) => {
            array.reserve(values);
            Part::Array(array)
        }
        other => other,
    }
}

/// The part. A sort is given the size of the source, if no item of it becomes several.
fn expecting<'p>(part: Part<'p>, stages: &[Stage], size: u64) -> Part<'p>
    ensures { result ≡ part.entry }
{
    match part {
        Part::Sorted(mut sorted) if are_single(stages) => {
            sorted.expect(size);
            Part::Sorted(sorted)
        }
        other => other,
    }
}
