//! What a piece of a stream gives to an exact sum.

ghost use Rattle.std.specs.Prelude.{◌≡◌, ℕ, [], ◌∷◌, true, false, IfSome, IfNone};
ghost use Rattle.trace.specs.declared.item.End.TheVariants as end;
ghost use Rattle.trace.specs.Trace.{Trace, trace, append, nothing};
ghost use Rattle.reduce_ops.specs.ExactSums.{exact_sum};
ghost use Rattle.reduce_ops.specs.Reaches.{StandsFor, item_values, is_piece, is_running, is_settled, may_search};

use crate::exact::Exact;
use crate::exact_part::ExactPart;
use trace::{End, Fault, Item, SourceItems};

/// What a piece of a stream gives to an exact sum.
///
/// Its size doesn't depend on the piece, and no call takes memory. `Unknown` is right of every piece: that it isn't
/// answered without need is speed, which no clause says.
#[derive(Clone, Copy)]
pub enum SumPart {
    /// Of a piece anywhere in the stream.
    Piece(ExactPart),
    /// Of a walk from the first item of the stream on.
    Running(Exact),
    /// Of a piece and then of a walk from the first item on: nothing is known of it.
    Unknown,
}

impl SumPart {
    /// The part of a piece without items.
    pub fn none() -> SumPart
        ensures stands { (stage : ℕ) → StandsFor stage result nothing }
        ensures kind { is_piece result ≡ true }
    {
        SumPart::Piece(ExactPart::none(End::Done))
    }

    /// The part of no item of a walk from the first item on.
    pub fn first() -> SumPart
        ensures stands { (stage : ℕ) → StandsFor stage result nothing }
        ensures kind { is_running result ≡ true }
        ensures search { may_search result ≡ false }
    {
        SumPart::Running(Exact::Sum(0))
    }

    /// Adds one more item, after the others, unless the part is settled. The terminal is the stage with this number.
    pub fn push(&mut self, stage: u32, item: Item)
        ensures stands { (t : Trace) → StandsFor stage self.old t
            → StandsFor stage self.new (append t (trace (item ∷ []) end.Done)) }
        ensures search { may_search self.new ≡ may_search self.old }
    {
        match self {
            SumPart::Piece(part) => part.push(item),
            SumPart::Running(sum) => sum.push(stage, item),
            SumPart::Unknown => {}
        }
    }

    /// Adds the items of a source, which have these values, after the others, unless the part is settled. The terminal
    /// is the stage with this number.
    pub fn push_all<I: SourceItems>(&mut self, stage: u32, source: &I, values: &[i64])
        requires values { item_values (I.items source.now) ≡ values.now }
        ensures stands { (t : Trace) → StandsFor stage self.old t
            → StandsFor stage self.new (append t (trace (I.items source.now) end.Done)) }
        ensures search { may_search self.new ≡ may_search self.old }
    {
        match self {
            SumPart::Piece(part) => part.push_all(values),
            SumPart::Running(sum) => sum.push_values(stage, source, values),
            SumPart::Unknown => {}
        }
    }

    /// Ends the piece so, unless it is settled.
    pub fn end_with(&mut self, end: End)
        ensures stands { (stage : ℕ) (t : Trace) → StandsFor stage self.old t
            → StandsFor stage self.new (append t (trace [] end)) }
        ensures search { may_search self.new ≡ may_search self.old }
    {
        match self {
            SumPart::Piece(part) => part.end_with(end),
            SumPart::Running(sum) => sum.end_with(end),
            SumPart::Unknown => {}
        }
    }

    /// The part of two pieces that lie side by side.
    pub fn merge(self, right: SumPart) -> SumPart
        ensures stands { (stage : ℕ) (a b : Trace) → StandsFor stage self a → StandsFor stage right b
            → StandsFor stage result (append a b) }
        ensures kind { is_piece self ≡ true → is_piece right ≡ true → is_piece result ≡ true }
        ensures first { is_running self ≡ true → is_piece right ≡ true → is_running result ≡ true }
    {
        match (self, right) {
            (SumPart::Piece(left), SumPart::Piece(right)) => SumPart::Piece(left.merge(right)),
            (SumPart::Running(left), SumPart::Piece(right)) => SumPart::Running(left.joined(right)),
            _ => SumPart::Unknown,
        }
    }

    /// The sum of the whole stream from 0 on, or the fault that ended it. `None` if the stream has to be walked once
    /// more, in order.
    pub fn finish(self) -> Option<Result<i64, Fault>>
        ensures some { IfSome result (λ sum. (stage : ℕ) (t : Trace) → StandsFor stage self t
            → sum ≡ exact_sum stage t) }
        ensures none { IfNone result (may_search self ≡ true) }
    {
        match self {
            SumPart::Piece(part) => part.finish().finish(),
            SumPart::Running(sum) => sum.finish(),
            SumPart::Unknown => None,
        }
    }

    /// Whether nothing after the piece matters.
    pub fn is_settled(&self) -> bool
        ensures { result ≡ is_settled self.now }
    {
        match self {
            SumPart::Piece(part) => part.is_over(),
            SumPart::Running(sum) => sum.is_over(),
            SumPart::Unknown => false,
        }
    }

    /// Whether it is the sum of a walk from the first item on.
    pub fn is_running(&self) -> bool
        ensures { result ≡ is_running self.now }
    {
        matches!(self, SumPart::Running(_))
    }
}
