//! What a piece of a segment's source gives to the end of the segment.

ghost use Rattle.batch_eval.specs.BatchItems.{values_in};
ghost use Rattle.std.specs.Prelude.{◌≡◌, ◌<◌, ◌≤◌, ℕ, false, true, List, [], ◌∷◌, is_some, length, map, IfOk};
ghost use Rattle.std.specs.Prelude.{IfErr, IfNone, IfSome, OnOk, OnErr, if◌then◌else◌};
ghost use Rattle.lambda_values.specs.Earlier.{Numbers};
ghost use Rattle.trace.specs.Trace.{Trace, trace, nothing, append};
ghost use Rattle.trace.specs.declared.item.End.TheVariants as end;
ghost use Rattle.lambda_values.specs.declared.item.Item.{Item as item};
ghost use Rattle.job_plan.specs.Parts.{end_fault, fold_fault, EndsFor, StandsFor, end_keeps_items};
ghost use Rattle.job_routes.specs.Legs.{end_in, number_after, AbstractEnd, AbstractSegment, outcome_of};
ghost use Rattle.job_plan.specs.Parts.{is_fault, is_running, is_settled, keeps_items, may_search};
ghost use Rattle.job_plan.specs.Parts.{settles};

use crate::array_part::ArrayPart;
use crate::distinct_end::distinct_walk;
use crate::end_part::{EndPart, LastStage};
use crate::fold_part::FoldPart;
use crate::found::{answer_of, exact_answer};
use crate::sorted_end::sorted_walk;
use batch_eval::{FlaggedLanes, LaneItems};
use find_ops::FindPart;
use job_routes::{Outcome, Segment, SegmentEnd};
use lambda_values::{Env, Run};
use prefix_walks::PrefixPart;
use reduce_ops::SumPart;
use sort_ops::{DistinctPart, SortedPart};
use std::alloc::Global;
use trace::{End, Fault, Item, NoMemory};

/// What a piece of a segment's source gives to the end of the segment.
///
/// A fold, an exact sum and a find have a constant size. `toArray` keeps all values. A prefix keeps all items, but
/// borrows values of the sources if no stage comes before it. A sort keeps all items or their values, or the least ones
/// if no more are asked for, and `distinct` the first of those with one value.
#[derive(Drop)]
pub enum Part<'p> {
    Fold(FoldPart),
    Find(FindPart),
    Array(ArrayPart),
    Prefix(PrefixPart<'p>),
    Exact(SumPart),
    Sorted(SortedPart),
    Distinct(DistinctPart),
}

/// Does this with what a part of any kind holds.
macro_rules! of_any_kind {
    ($part:expr, $held:ident => $done:expr) => {
        match $part {
            Part::Fold($held) => $done,
            Part::Find($held) => $done,
            Part::Array($held) => $done,
            Part::Prefix($held) => $done,
            Part::Exact($held) => $done,
            Part::Sorted($held) => $done,
            Part::Distinct($held) => $done,
        }
    };
}

/// Merges two parts if they are of one kind. Of two kinds, the left one stays.
macro_rules! of_one_kind {
    ($left:expr, $right:expr, $($kind:ident)*) => {
        match $left {
            $(Part::$kind(left) => match $right {
                Part::$kind(right) => match EndPart::merge(left, right) {
                    Ok(part) => Ok(Part::$kind(part)),
                    Err((left, right)) => Err((Part::$kind(left), Part::$kind(right))),
                },
                _ => Ok(Part::$kind(left)),
            },)*
        }
    };
}

impl<'p> Part<'p> {
    /// The part of no item. It takes no memory.
    pub(crate) fn none(alloc: Global, segment: &'p Segment, env: &Env) -> Part<'p>
        ensures stands { EndsFor (end_in segment.now.end) (number_after segment.now.stages) env.now result nothing }
        ensures keeps { keeps_items result ≡ end_keeps_items (end_in segment.now.end) }
    {
        match &segment.end {
            SegmentEnd::Fold(fold) => Part::Fold(FoldPart::none(*fold)),
            SegmentEnd::Find(find) => Part::Find(FindPart::none(find, End::Done)),
            SegmentEnd::Array => Part::Array(ArrayPart::none(alloc)),
            SegmentEnd::Prefix(prefix) => {
                Part::Prefix(PrefixPart::none(alloc, *prefix, segment.stages.next()))
            }
            SegmentEnd::ExactSum => Part::Exact(SumPart::none()),
            SegmentEnd::Sorted { most, .. } => Part::Sorted(SortedPart::none(alloc, *most)),
            SegmentEnd::Distinct { most } => Part::Distinct(DistinctPart::none(alloc, *most)),
        }
    }

    /// The part of no item of a walk from the first item of a source on. It takes no memory.
    pub(crate) fn first(alloc: Global, segment: &'p Segment, env: &Env) -> Part<'p>
        ensures stands { EndsFor (end_in segment.now.end) (number_after segment.now.stages) env.now result nothing }
        ensures kind { may_search result ≡ false }
        ensures keeps { keeps_items result ≡ end_keeps_items (end_in segment.now.end) }
    {
        match segment.end {
            SegmentEnd::ExactSum => Part::Exact(SumPart::first()),
            _ => Part::none(alloc, segment, env),
        }
    }

    /// Whether nothing after the piece matters: its end takes no more items, or a fault has ended it.
    pub fn is_settled(&self) -> bool
        ensures { result ≡ is_settled self.now }
    {
        EndPart::is_settled(self)
    }

    /// Whether the part settles what the segment gives, as the part of a piece that begins at this position.
    pub fn settles(&self, from: u64) -> bool
        ensures { result ≡ settles from self.now }
    {
        if from == 0 {
            return self.is_settled();
        }
        self.settles_later()
    }

    /// Whether the part settles what the segment gives, as the part of a piece that doesn't begin at the first item.
    fn settles_later(&self) -> bool
        ensures { result ≡ (if is_running self.now then false else is_settled self.now) }
    {
        match self {
            Part::Exact(part) => !part.is_running() && part.is_settled(),
            _ => self.is_settled(),
        }
    }

    /// The fault in which a fold ended. The other parts have none.
    pub fn fold_fault(&self) -> Option<Fault>
        ensures { result ≡ fold_fault self.now }
    {
        match self {
            Part::Fold(part) => end_fault(part.partial.end()),
            Part::Find(_) | Part::Array(_) | Part::Prefix(_) | Part::Exact(_) => None,
            Part::Sorted(_) | Part::Distinct(_) => None,
        }
    }

    /// The part of two pieces side by side, of one segment. A fault of the left one ends both.
    ///
    /// Parts that keep items may need memory; if the allocation fails, both parts come back. Parts of different ends
    /// don't merge: the left one stays.
    pub fn merge(self, right: Part<'p>) -> Result<Part<'p>, (Part<'p>, Part<'p>)>
        ensures ok { IfOk result (λ part. (s : AbstractSegment) (env : Numbers) (a b : Trace)
            → StandsFor s env self.entry a
            → StandsFor s env right.entry b → StandsFor s env part (append a b)) }
        ensures err { IfErr result (λ parts. (parts.0 ≡ self.entry) × (parts.1 ≡ right.entry)) }
        ensures memory { OnErr result (keeps_items self.entry ≡ true) }
    {
        EndPart::merge(self, right)
    }

    /// What the segment gives. `None` if the source has to be walked once more, in order. An array takes no memory: its
    /// pieces are moved into the answer.
    pub fn finish(self, alloc: Global, env: &Env) -> Result<Option<Outcome<'p>>, NoMemory>
        ensures some { IfOk result (λ found. IfSome found (λ outcome. (s : AbstractSegment) (t : Trace)
            → StandsFor s env.now self.entry t
            → outcome ≡ outcome_of s env.now t)) }
        ensures none { IfOk result (λ found. IfNone found (may_search self.entry ≡ true)) }
        ensures memory { OnErr result (keeps_items self.entry ≡ true) }
    {
        match self {
            Part::Fold(part) => Ok(Some(Outcome::Answer(part.finish()))),
            Part::Find(part) => Ok(Some(Outcome::Answer(answer_of(part.finish())))),
            Part::Array(part) => Ok(Some(Outcome::Answer(part.finish()))),
            Part::Prefix(part) => Ok(Some(Outcome::Source(part.finish(alloc)?))),
            Part::Sorted(part) => Ok(Some(Outcome::Source(sorted_walk(part)?))),
            Part::Distinct(part) => Ok(Some(Outcome::Source(distinct_walk(part)?))),
            Part::Exact(part) => match part.finish() {
                Some(sum) => Ok(Some(Outcome::Answer(exact_answer(sum)))),
                None => Ok(None),
            },
        }
    }
}

impl<'a> EndPart for Part<'a> {
    ghost as_part = { λ part. part };

    fn push(&mut self, last: LastStage<'_, '_>, item: Item) -> Result<(), NoMemory> {
        of_any_kind!(self, part => EndPart::push(part, last, item))
    }

    fn push_all(
        &mut self,
        last: LastStage<'_, '_>,
        lanes: LaneItems<'_>,
        room: &mut [i64],
    ) -> Result<(), NoMemory> {
        of_any_kind!(self, part => EndPart::push_all(part, last, lanes, room))
    }

    fn push_flagged(&mut self, lanes: FlaggedLanes<'_>) -> bool {
        of_any_kind!(self, part => EndPart::push_flagged(part, lanes))
    }

    fn takes_runs(&self) -> bool {
        of_any_kind!(self, part => EndPart::takes_runs(part))
    }

    fn push_run(&mut self, run: Run) -> bool {
        of_any_kind!(self, part => EndPart::push_run(part, run))
    }

    fn end_with(&mut self, ending: End) {
        of_any_kind!(self, part => EndPart::end_with(part, ending))
    }

    fn is_settled(&self) -> bool {
        of_any_kind!(self, part => EndPart::is_settled(part))
    }

    fn merge(self, right: Part<'a>) -> Result<Part<'a>, (Part<'a>, Part<'a>)> {
        of_one_kind!(self, right, Fold Find Array Prefix Exact Sorted Distinct)
    }
}

/// The fault in which a walk ended.
fn end_fault(end: End) -> Option<Fault>
    ensures { result ≡ end_fault end }
{
    match end {
        End::Done => None,
        End::Fault(fault) => Some(fault),
    }
}
