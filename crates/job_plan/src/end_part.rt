//! What is asked of the parts that pieces give to an end of a segment, whichever kind of end it is.

ghost use Rattle.batch_eval.specs.BatchItems.{values_in};
ghost use Rattle.batch_eval.specs.Batches.{laid_items};
ghost use Rattle.std.specs.Prelude.{◌≡◌, ◌<◌, ◌≤◌, ℕ, false, true, List, [], ◌∷◌, length, map, IfOk, IfErr, OnOk};
ghost use Rattle.std.specs.Prelude.{OnErr};
ghost use Rattle.lambda_values.specs.Earlier.{Numbers};
ghost use Rattle.lambda_values.specs.Streams.{run_values};
ghost use Rattle.trace.specs.Trace.{Trace, trace, append};
ghost use Rattle.trace.specs.declared.item.End.TheVariants as end;
ghost use Rattle.lambda_values.specs.declared.item.Item.{Item as item};
ghost use Rattle.job_plan.specs.Parts.{EndsFor, is_fault, is_settled, keeps_items, may_search};
ghost use Rattle.job_routes.specs.Legs.{end_in, AbstractEnd};
ghost use Rattle.job_plan.specs.declared.part.Part.{Part as any_part};

use batch_eval::{FlaggedLanes, LaneItems};
use job_routes::SegmentEnd;
use lambda_values::{Env, Run};
use trace::{End, Item, NoMemory};

/// The end of a segment, its number as a stage, and the values of the job's names.
#[derive(Clone, Copy)]
pub(crate) struct LastStage<'s, 'e> {
    pub(crate) end: &'s SegmentEnd,
    pub(crate) number: u32,
    pub(crate) env: &'e Env<'e>,
}

/// What a piece gives to an end of one kind: it takes items in order, and the parts of pieces side by side merge.
///
/// `Part` is of any kind, and does what its kind does.
pub(crate) trait EndPart: Drop + Sized {
    // the part as one of any kind: `EndsFor` says of that for which walks it stands
    ghost as_part: { Self → any_part };

    /// Adds one more item after the others, as a source of one, unless the kind has a shorter way.
    ///
    /// If the allocation fails, the part stays as it was.
    fn push(&mut self, last: LastStage<'_, '_>, item: Item) -> Result<(), NoMemory>
        requires { is_settled (as_part self.old) ≡ false }
        ensures ok { OnOk result ((t : Trace)
            → EndsFor (end_in last.entry.end.now) last.entry.number last.entry.env.now (as_part self.old) t
            → EndsFor (end_in last.entry.end.now) last.entry.number last.entry.env.now (as_part self.new)
            (append t (trace (item ∷ []) end.Done))) }
        ensures err { OnErr result (self.new ≡ self.old) }
        ensures memory { OnErr result (keeps_items (as_part self.old) ≡ true) }
        ensures kind { may_search (as_part self.new) ≡ may_search (as_part self.old) }
        ensures keeps { keeps_items (as_part self.new) ≡ keeps_items (as_part self.old) }
    {
        let one = LaneItems {
            start: None,
            places: &[item.origin],
            values: &[item.value],
        };
        self.push_all(last, one, &mut [])
    }

    /// Adds items after the others.
    ///
    /// The test of a match goes over all values first, as far as the room is enough for it. If the
    /// allocation fails, the part stays as it was. Without items it takes no memory.
    fn push_all(
        &mut self,
        last: LastStage<'_, '_>,
        lanes: LaneItems<'_>,
        room: &mut [i64],
    ) -> Result<(), NoMemory>
        requires going { is_settled (as_part self.old) ≡ false }
        ensures ok { OnOk result ((t : Trace)
            → EndsFor (end_in last.entry.end.now) last.entry.number last.entry.env.now (as_part self.old) t
            → EndsFor (end_in last.entry.end.now) last.entry.number last.entry.env.now (as_part self.new)
            (append t (trace (laid_items lanes.entry.start lanes.entry.places.now lanes.entry.values.now) end.Done))) }
        ensures err { OnErr result (self.new ≡ self.old) }
        ensures refused { OnErr result (0 < length lanes.entry.values.now) }
        ensures memory { OnErr result (keeps_items (as_part self.old) ≡ true) }
        ensures kind { may_search (as_part self.new) ≡ may_search (as_part self.old) }
        ensures keeps { keeps_items (as_part self.new) ≡ keeps_items (as_part self.old) };

    /// Adds the values whose flag is set, if the end is a fold by an operator that has an identity, and answers
    /// whether it is.
    fn push_flagged(&mut self, _lanes: FlaggedLanes<'_>) -> bool
        requires { is_settled (as_part self.old) ≡ false }
        ensures taken { result ≡ true → (e : AbstractEnd) (stage : ℕ) (env : Numbers) (t : Trace) (xs : List item)
            → map (λ x. x.value) xs ≡ values_in _lanes.entry
            → EndsFor e stage env (as_part self.old) t
            → EndsFor e stage env (as_part self.new) (append t (trace xs end.Done)) }
        ensures open { is_settled (as_part self.new) ≡ false }
        ensures other { result ≡ false → self.new ≡ self.old }
        ensures kind { may_search (as_part self.new) ≡ may_search (as_part self.old) }
        ensures keeps { keeps_items (as_part self.new) ≡ keeps_items (as_part self.old) }
    {
        false
    }

    /// Whether `push_run` adds integers in a row.
    fn takes_runs(&self) -> bool {
        false
    }

    /// Adds integers in a row in constant time, if the end is a fold by an operator that has such a way, and answers
    /// whether it is.
    fn push_run(&mut self, _run: Run) -> bool
        requires { is_settled (as_part self.old) ≡ false }
        ensures taken { result ≡ true → (e : AbstractEnd) (stage : ℕ) (env : Numbers) (t : Trace) (xs : List item)
            → map (λ x. x.value) xs ≡ run_values _run → EndsFor e stage env (as_part self.old) t
            → EndsFor e stage env (as_part self.new) (append t (trace xs end.Done)) }
        ensures open { is_settled (as_part self.new) ≡ false }
        ensures other { result ≡ false → self.new ≡ self.old }
        ensures kind { may_search (as_part self.new) ≡ may_search (as_part self.old) }
        ensures keeps { keeps_items (as_part self.new) ≡ keeps_items (as_part self.old) }
    {
        false
    }

    /// Ends the piece as said, unless it is settled. It takes no memory.
    fn end_with(&mut self, ending: End)
        ensures stands { (e : AbstractEnd) (stage : ℕ) (env : Numbers) (t : Trace)
            → EndsFor e stage env (as_part self.old) t
            → EndsFor e stage env (as_part self.new) (append t (trace [] ending)) }
        ensures kind { may_search (as_part self.new) ≡ may_search (as_part self.old) };

    /// Whether nothing after the piece matters: its end takes no more items, or a fault has ended it.
    fn is_settled(&self) -> bool
        ensures { result ≡ is_settled (as_part self.now) };

    /// The part of two pieces side by side. A fault of the left one ends both.
    ///
    /// If the allocation fails, both parts come back.
    fn merge(self, right: Self) -> Result<Self, (Self, Self)>
        ensures ok { IfOk result (λ part. (e : AbstractEnd) (stage : ℕ) (env : Numbers) (a b : Trace)
            → EndsFor e stage env (as_part self) a
            → EndsFor e stage env (as_part right) b → EndsFor e stage env (as_part part) (append a b)) }
        ensures err { IfErr result (λ parts. (parts.0 ≡ self) × (parts.1 ≡ right)) }
        ensures memory { OnErr result (keeps_items (as_part self) ≡ true) };
}

/// Whether a walk ended in a fault.
pub(crate) fn is_fault(end: End) -> bool
    ensures { result ≡ is_fault end }
{
    matches!(end, End::Fault(_))
}
