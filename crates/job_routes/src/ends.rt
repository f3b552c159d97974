//! What ends a segment, and all that is asked of it but its parts.

ghost use Rattle.std.specs.Prelude.{◌≡◌, ◌≢◌, ℕ, IsTrue, Option, None, Some, false, true, option_map};
ghost use Rattle.job_language.specs.Jobs.{terminal_of};
ghost use Rattle.job_meaning.specs.Walks.{number_as};
ghost use Rattle.find_ops.specs.Finds.{first};
ghost use Rattle.job_routes.specs.Legs.{end_in, end_of, fallback_in, finding, folding, keeping_firsts, keeps_places};
ghost use Rattle.job_routes.specs.Legs.{ended, given_walk, takes_flags, test_of};
ghost use Rattle.lambda_values.specs.Earlier.{Numbers};
ghost use Rattle.lambda_values.specs.Term.{truth_of};
ghost use Rattle.sort_ops.specs.Parts.{done_after};
ghost use Rattle.sort_ops.specs.Runs.{with_places};
ghost use Rattle.trace.specs.Trace.{Trace};

use crate::fallback::Fallback;
use find_ops::FindTerminal;
use job_language::Terminal;
use lambda_values::BoolExpr;
use prefix_walks::Prefix;
use reduce_ops::Op;

/// A fold of the values of a walk.
#[derive(Clone, Copy)]
pub struct Fold {
    pub op: Op,
    /// What is folded before the first value: the answer is then a number, else an optional.
    pub start: Option<i64>,
    /// Whether each value counts as 1.
    pub counts: bool,
}

/// What ends a segment.
#[derive(Drop)]
pub enum SegmentEnd {
    /// `sum`, `count`, `min`, `max`, `reduce`.
    Fold(Fold),
    /// `findFirst` and the three matches.
    Find(FindTerminal),
    /// `toArray`.
    Array,
    /// `prefix`.
    Prefix(Prefix),
    /// `reduce(0, Math::addExact)`.
    ExactSum,
    /// `sorted`, and how many items are asked for, if not all.
    Sorted {
        most: Option<u64>,
        /// Whether the items keep their places.
        places: bool,
    },
    /// `distinct`, and how many items are asked for, if not all.
    Distinct {
        most: Option<u64>,
    },
}

impl SegmentEnd {
    /// A terminal as the end of a segment.
    pub(crate) fn of(terminal: Terminal) -> SegmentEnd
        ensures { end_in result ≡ end_of (terminal_of terminal) }
    {
        match terminal {
            Terminal::Sum => folding(Op::Sum, Some(0), false),
            Terminal::Count => folding(Op::Sum, Some(0), true),
            Terminal::Min => folding(Op::Min, None, false),
            Terminal::Max => folding(Op::Max, None, false),
            Terminal::Reduce(op) => folding(op, None, false),
            Terminal::ReduceFrom { identity, op } => folding(op, Some(identity), false),
            Terminal::ToArray => SegmentEnd::Array,
            Terminal::Find(find) => SegmentEnd::Find(find),
            Terminal::ExactSum => SegmentEnd::ExactSum,
        }
    }

    /// The test that a match asks of items while it takes them.
    pub fn test(&self) -> Option<&BoolExpr>
        ensures { option_map (λ test. truth_of test.now) result ≡ test_of (end_in self.now) }
    {
        match self {
            SegmentEnd::Find(
                FindTerminal::AnyMatch(test)
                | FindTerminal::AllMatch(test)
                | FindTerminal::NoneMatch(test),
            ) => Some(test),
            _ => None,
        }
    }

    /// Whether the items of lanes with flags are to be given with their flags: to a fold, which then moves no value,
    /// and to `findFirst`, which the first flag decides. Either way an end takes equal items.
    pub fn takes_flags(&self) -> bool
        ensures { result ≡ takes_flags (end_in self.now) }
    {
        match self {
            SegmentEnd::Fold(fold) => fold.op.identity().is_some(),
            SegmentEnd::Find(find) => matches!(find, FindTerminal::First),
            SegmentEnd::Array | SegmentEnd::Prefix(_) | SegmentEnd::ExactSum => false,
            SegmentEnd::Sorted { .. } | SegmentEnd::Distinct { .. } => false,
        }
    }

    /// Whether it takes all items of a walk without a fault, and has none itself.
    pub(crate) fn takes_all(&self) -> bool {
        match self {
            SegmentEnd::Fold(_) | SegmentEnd::Array | SegmentEnd::Prefix(_) => true,
            SegmentEnd::Sorted { .. } => true,
            SegmentEnd::Distinct { most } => most.is_none(),
            SegmentEnd::Find(_) | SegmentEnd::ExactSum => false,
        }
    }

    /// Whether what it gives has no item before a fault: `distinct` gives such items.
    pub(crate) fn gives_clean(&self) -> bool
        ensures { IsTrue result → (m : Option ℕ) → end_in self.now ≢ keeping_firsts m }
    {
        !matches!(self, SegmentEnd::Distinct { .. })
    }

    /// Asks a `sorted` or a `distinct` for this number of items at most. Whether it is one of them.
    pub(crate) fn ask(&mut self, enough: u64) -> bool
        ensures asked { result ≡ true → (n : ℕ) (env : Numbers) (t : Trace)
            → given_walk (ended (end_in self.new) n env t)
            ≡ done_after (Some enough) (given_walk (ended (end_in self.old) n env t)) }
        ensures same { result ≡ false → self.new ≡ self.old }
    {
        match self {
            SegmentEnd::Sorted { most, .. } => {
                *most = Some(at_most(*most, enough));
                true
            }
            SegmentEnd::Distinct { most } => {
                *most = Some(at_most(*most, enough));
                true
            }
            _ => false,
        }
    }

    /// Has a `sorted` keep the values of its items alone. Whether it is one.
    pub(crate) fn drop_places(&mut self) -> bool
        ensures dropped { result ≡ true → (n : ℕ) (env : Numbers) (t : Trace)
            → given_walk (ended (end_in self.new) n env t)
            ≡ with_places false (given_walk (ended (end_in self.old) n env t)) }
        ensures same { result ≡ false → self.new ≡ self.old }
    {
        match self {
            SegmentEnd::Sorted { places, .. } => {
                *places = false;
                true
            }
            _ => false,
        }
    }

    /// Whether items keep their places where they are kept for it.
    pub fn keeps_places(&self) -> bool
        ensures { result ≡ keeps_places (end_in self.now) }
    {
        match self {
            SegmentEnd::Sorted { places, .. } => *places,
            _ => true,
        }
    }

    /// Whether what it gives rests on the values of items alone.
    pub(crate) fn ignores_places(&self) -> bool
        ensures { IsTrue result → (n : ℕ) (env : Numbers) (t : Trace)
            → ended (end_in self.now) n env (with_places false t) ≡ ended (end_in self.now) n env t }
    {
        match self {
            SegmentEnd::Fold(_) => true,
            SegmentEnd::Array => true,
            SegmentEnd::Find(find) => matches!(find, FindTerminal::First),
            _ => false,
        }
    }

    /// Whether it is `findFirst`, which takes one item.
    pub(crate) fn takes_one(&self) -> bool
        ensures { IsTrue result → end_in self.now ≡ finding first }
    {
        matches!(self, SegmentEnd::Find(FindTerminal::First))
    }

    /// Whether it is a fold that keeps the first value, and has no number before it.
    pub(crate) fn keeps_first(&self) -> bool
        ensures { IsTrue result → end_in self.now ≡ folding Op.First None false }
    {
        match self {
            SegmentEnd::Fold(fold) => {
                matches!(fold.op, Op::First) && fold.start.is_none() && !fold.counts
            }
            _ => false,
        }
    }
}

/// How many items are asked for where `most` were asked for, and this number is enough.
fn at_most(most: Option<u64>, enough: u64) -> u64
    ensures { (t : Trace) → done_after (Some result) t ≡ done_after (Some enough) (done_after most t) }
{
    match most {
        Some(most) => most.min(enough),
        None => enough,
    }
}

/// A fold as the end of a segment.
fn folding(op: Op, start: Option<i64>, counts: bool) -> SegmentEnd
    ensures { result ≡ SegmentEnd.Fold (record { op = op; start = start; counts = counts }) }
{
    SegmentEnd::Fold(Fold { op, start, counts })
}

/// The number of `onFault`, in the form in which the terminal gives numbers; none after an array and after a match.
pub(crate) fn number_as(terminal: &Terminal, number: i64) -> Option<Fallback>
    ensures { option_map fallback_in result ≡ number_as (terminal_of terminal.now) number }
{
    match terminal {
        Terminal::Sum | Terminal::Count | Terminal::ReduceFrom { .. } | Terminal::ExactSum => {
            Some(Fallback::Number(number))
        }
        Terminal::Min | Terminal::Max | Terminal::Reduce(_) | Terminal::Find(FindTerminal::First) =>
            Some(Fallback::Optional(number)),
        Terminal::ToArray | Terminal::Find(_) => None,
    }
}
