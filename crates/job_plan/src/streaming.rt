//! A walk through slices into the part of the segment after them: each item goes on as far as it comes, so what lies
//! between isn't kept.

ghost use Rattle.std.specs.Prelude.{◌≡◌, false, IfOk};
ghost use Rattle.job_plan.specs.Parts.{GoesOnFrom, StandsFor, may_search, walk_in};
ghost use Rattle.job_routes.specs.Legs.{end_in, leg_in, number_after, linked, walk_of};

use crate::end_part::LastStage;
use crate::nest::{Chain, Deepest, Nest};
use crate::part::Part;
use crate::part_sink::{EndBrand, PartSink};
use crate::source::Walked;
use batch_eval::Registers;
use job_routes::{Leg, Link, NumberedStages};
use slice_ops::Slice;
use std::alloc::Global;
use std::marker::{Brand, PhantomData};
use trace::NoMemory;

/// The part of a leg: the whole walk of a source goes through the slices of the leg and then through its last segment.
/// It stops when nothing more matters, and keeps nothing but the part: a batch of items at most lies between two
/// slices.
pub fn streamed<'p>(
    alloc: Global,
    leg: &'p Leg,
    walked: Walked,
    registers: &mut Registers,
) -> Result<Part<'p>, NoMemory>
    ensures stands { IfOk result (λ part. StandsFor (leg_in leg.now).last walked.entry.env.now part
        (linked (leg_in leg.now).links walked.entry.env.now (walk_in walked.entry.source))) }
    ensures kind { IfOk result (λ part. may_search part ≡ false) }
{
    let none = Part::first(alloc, &leg.last, walked.env);
    nested::<Brand>(alloc, none, leg, walked, registers)
}

/// The part of a leg, for an end whose type contracts can name.
fn nested<'p, K: EndBrand>(
    alloc: Global,
    none: Part<'p>,
    leg: &'p Leg,
    walked: Walked,
    registers: &mut Registers,
) -> Result<Part<'p>, NoMemory>
    requires last { leg.now.last.end ≡ K.last }
    requires stage { number_after leg.now.last.stages ≡ K.stage }
    requires env { walked.env.now ≡ K.env }
    requires begun { none ≡ K.begun }
    ensures { IfOk result (λ part. GoesOnFrom (end_in K.last) K.stage K.env K.begun part
        (walk_of (leg_in leg.now).last walked.entry.env.now
        (linked (leg_in leg.now).links walked.entry.env.now (walk_in walked.entry.source)))) }
{
    let last = &leg.last;
    let sink = PartSink::<K> {
        part: none,
        last: LastStage {
            end: &last.end,
            number: last.stages.next(),
            env: walked.env,
        },
        of: PhantomData,
    };
    let pass_all = Link {
        stages: NumberedStages::none(alloc, 0),
        slice: Slice::Skip(0),
    };
    let chain = Chain {
        links: &leg.links,
        line: last.stages.pipeline(walked.env),
        pass_all: &pass_all,
    };
    Deepest::feed(alloc, chain, &walked.source, registers, sink)
}
