//! The part of a prefix that nothing or cheap stages come before: it borrows the values of the job's sources and the
//! stages.

ghost use Rattle.std.specs.Prelude.{◌≡◌, ◌+◌, ◌≤◌, ◌^◌, length};
ghost use Rattle.std.specs.Prelude.{true, IfOk, IfSome, OnErr, OnOk};
ghost use Rattle.lambda_values.specs.Earlier.{Numbers};
ghost use Rattle.trace.specs.Cover.{placed};
ghost use Rattle.trace.specs.Stages.{stages_of};
ghost use Rattle.trace.specs.Trace.{trace};
ghost use Rattle.trace.specs.declared.item.End.TheVariants as end;
ghost use Rattle.job_language.specs.Jobs.{sources_of};
ghost use Rattle.batch_eval.specs.Faultless.{left_by};
ghost use Rattle.job_plan.specs.Parts.{StandsFor, end_keeps_items, walk_in};
ghost use Rattle.job_routes.specs.Legs.{end_in, segment_in};
ghost use Rattle.prefix_walks.specs.Pieces.{elements, piece_of};
ghost use Rattle.prefix_walks.specs.Scans.{scan_append};
ghost use Rattle.job_meaning.specs.Walks.{values_of};

use crate::part::Part;
use crate::source::{Base, Source};
use crate::sources::{items_of, plain_size};
use batch_eval::Registers;
use job_language::PlainSource;
use job_routes::{Segment, SegmentEnd};
use prefix_walks::{CheapStages, Portion, PrefixPart, Window, within};
use std::alloc::Global;
use trace::NoMemory;

/// The part of the items at these positions, if a prefix goes over the sources of a job with no stage but cheap ones
/// before it. It takes memory for each 1,024 of them, and none for values.
pub(crate) fn lent_part<'p>(
    alloc: Global,
    segment: &'p Segment,
    source: &Source<'_, 'p, '_>,
    window: Window,
    registers: &mut Registers,
) -> Result<Option<Part<'p>>, NoMemory>
    ensures stands { IfOk result (λ found. IfSome found (λ part. (env : Numbers)
        → StandsFor (segment_in segment.now) env part (piece_of window.from window.to (walk_in source.now)))) }
    ensures memory { OnErr result (end_keeps_items (end_in segment.now.end) ≡ true) }
{
    let SegmentEnd::Prefix(prefix) = &segment.end else {
        return Ok(None);
    };
    let Base::Plain(plain) = source.base else {
        return Ok(None);
    };
    let Some(cheap) = CheapStages::of(alloc, &segment.stages.list) else {
        return Ok(None);
    };
    let mut part = PrefixPart::none(alloc, *prefix, segment.stages.next());
    let Window { from, to } = window;
    let selected = source.window.within(from, to);
    push_sources(&mut part, cheap, plain.sources, 0, selected, registers)?;
    part.end_with(source.piece_end(to));
    Ok(Some(Part::Prefix(part)))
}

/// Adds what cheap stages leave of the items at these positions of sources. The first item has the place `origin`.
fn push_sources<'a>(
    part: &mut PrefixPart<'a>,
    cheap: CheapStages<'a>,
    sources: &'a [PlainSource<'_>],
    origin: u64,
    window: Window,
    registers: &mut Registers,
) -> Result<(), NoMemory>
    requires open { part.old.walk.ending ≡ end.Done }
    requires few { origin + length (values_of (sources_of sources.now)) ≤ 2 ^ 62 }
    ensures { OnOk result (part.new ≡ scan_append part.old (trace (left_by (stages_of cheap.entry.stages.now)
        (elements window.from window.to (placed origin (values_of (sources_of sources.now))))) end.Done)) }
{
    match sources.split_first() {
        None => Ok(()),
        Some((source, later)) => {
            let size = plain_size(source);
            let (start, count) = within(window.from, window.to, size);
            let items = items_of(source, origin + start, Portion { start, count });
            part.push_lent(cheap, &items, registers)?;
            let left = window.after(size);
            push_sources(part, cheap, later, origin + size, left, registers)
        }
    }
}
