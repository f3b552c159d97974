//! The exact sum of a walk, from its first item on.

ghost use Rattle.std.specs.Prelude.{◌≡◌, ℕ, [], ◌∷◌, true, false, Ok, IfSome, IfNone};
ghost use Rattle.trace.specs.declared.item.End.TheVariants as end;
ghost use Rattle.trace.specs.Trace.{Trace, trace, append};
ghost use Rattle.reduce_ops.specs.ExactSums.{exact_sum, sum_on};
ghost use Rattle.reduce_ops.specs.Reaches.{IsExact, IsPiece, exact_of, is_ended, is_search, item_values};

use crate::exact_part::ExactPart;
use lambda_values::FaultKind;
use trace::{End, Fault, Item, SourceItems};

/// The sum of a walk from its first item on, or what ended it.
#[derive(Clone, Copy)]
pub enum Exact {
    Sum(i64),
    /// At the first item after which the sum was outside 64 bits, or at the end of the walk.
    Fault(Fault),
    /// Some running sum is outside 64 bits. A walk in order finds the item after which that first happens.
    Search,
}

impl Exact {
    /// Adds one more item, unless the sum has ended. The terminal is the stage with this number.
    pub fn push(&mut self, stage: u32, item: Item)
        ensures stands { (t : Trace) → IsExact stage t self.old
            → IsExact stage (append t (trace (item ∷ []) end.Done)) self.new }
        ensures search { is_search self.new ≡ is_search self.old }
    {
        if let Exact::Sum(before) = *self {
            *self = added(before, stage, item);
        }
    }

    /// Adds the items of a source, one after the other, unless the sum has ended. The terminal is the stage with this
    /// number.
    pub fn push_all<I: SourceItems>(&mut self, stage: u32, source: &I)
        ensures stands { (t : Trace) → IsExact stage t self.old
            → IsExact stage (append t (trace (I.items source.now) end.Done)) self.new }
        ensures search { is_search self.new ≡ is_search self.old }
    {
        for position in 0..source.count() {
            self.push(stage, source.item_at(position));
        }
    }

    /// Adds the items of a source, which have these values, unless the sum has ended. It looks at the items one after
    /// the other only if some sum of them is outside 64 bits.
    pub(crate) fn push_values<I: SourceItems>(&mut self, stage: u32, source: &I, values: &[i64])
        requires values { item_values (I.items source.now) ≡ values.now }
        ensures stands { (t : Trace) → IsExact stage t self.old
            → IsExact stage (append t (trace (I.items source.now) end.Done)) self.new }
        ensures search { is_search self.new ≡ is_search self.old }
    {
        let mut piece = ExactPart::none(End::Done);
        piece.push_all(values);
        match self.joined(piece) {
            Exact::Search => self.push_all(stage, source),
            sum => *self = sum,
        }
    }

    /// Ends the walk so, unless the sum has ended.
    pub fn end_with(&mut self, end: End)
        ensures stands { (stage : ℕ) (t : Trace) → IsExact stage t self.old
            → IsExact stage (append t (trace [] end)) self.new }
        ensures search { is_search self.new ≡ is_search self.old }
    {
        if let Exact::Sum(_) = *self {
            if let End::Fault(fault) = end {
                *self = Exact::Fault(fault);
            }
        }
    }

    /// The sum of the walk and of a piece after it.
    pub fn joined(self, piece: ExactPart) -> Exact
        ensures stands { (stage : ℕ) (t u : Trace) → IsExact stage t self → IsPiece piece u
            → IsExact stage (append t u) result }
        ensures ended { is_ended self ≡ true → result ≡ self }
    {
        let Exact::Sum(before) = self else {
            return self;
        };
        let ExactPart::Within { reach, end } = piece else {
            return Exact::Search;
        };
        match reach.sum_from(before) {
            None => Exact::Search,
            Some(sum) => match end {
                End::Done => Exact::Sum(sum),
                End::Fault(fault) => Exact::Fault(fault),
            },
        }
    }

    /// The sum, or the fault that ended it. `None` if the stream has to be walked once more, in order.
    pub fn finish(self) -> Option<Result<i64, Fault>>
        ensures some { IfSome result (λ sum. (stage : ℕ) (t : Trace) → IsExact stage t self → sum ≡ exact_sum stage t) }
        ensures none { IfNone result (is_search self ≡ true) }
    {
        match self {
            Exact::Sum(sum) => Some(Ok(sum)),
            Exact::Fault(fault) => Some(Err(fault)),
            Exact::Search => None,
        }
    }

    /// Whether the sum has ended: nothing after the walk matters.
    pub fn is_over(&self) -> bool
        ensures { result ≡ is_ended self.now }
    {
        !matches!(self, Exact::Sum(_))
    }
}

impl ExactPart {
    /// What the part of a whole stream says of its sum from 0 on.
    pub fn finish(self) -> Exact
        ensures { (stage : ℕ) (t : Trace) → IsPiece self t → IsExact stage t result }
    {
        Exact::Sum(0).joined(self)
    }
}

/// The sum with one more item, or the fault of the terminal, the stage with this number.
fn added(before: i64, stage: u32, item: Item) -> Exact
    ensures { result ≡ exact_of (sum_on stage (Ok before) (trace (item ∷ []) end.Done)) }
{
    match before.checked_add(item.value) {
        Some(sum) => Exact::Sum(sum),
        None => Exact::Fault(Fault {
            kind: FaultKind::Overflow,
            stage,
            origin: Some(item.origin),
        }),
    }
}
