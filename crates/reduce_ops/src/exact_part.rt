//! Exact sums of the pieces of a stream, which merge in encounter order.

ghost use Rattle.std.specs.Prelude.{◌≡◌, List, [], ◌∷◌};
ghost use Rattle.trace.specs.declared.item.End.TheVariants as end;
ghost use Rattle.lambda_values.specs.declared.item.Item.{Item as item};
ghost use Rattle.trace.specs.Trace.{Trace, trace, append};
ghost use Rattle.reduce_ops.specs.Reaches.{IsPiece, IsReach, is_over, item_values, reach_of};

use crate::reach::Reach;
use crate::reaching::reach_with;
use trace::{End, Item};

/// The sums of a piece of a stream, wherever they start, and how the walk over the piece ended.
///
/// Its size doesn't depend on the piece, and no call takes memory.
#[derive(Clone, Copy)]
pub enum ExactPart {
    /// How far the sums reach, and how the piece ended.
    Within { reach: Reach, end: End },
    /// Each start in 64 bits leads outside 64 bits within the piece.
    Over,
}

impl ExactPart {
    /// The part of a piece without items, with this end.
    pub fn none(end: End) -> ExactPart
        ensures stands { IsPiece result (trace [] end) }
    {
        ExactPart::Within {
            reach: Reach::none(),
            end,
        }
    }

    /// The part of one item.
    pub fn of(item: Item) -> ExactPart
        ensures stands { IsPiece result (trace (item ∷ []) end.Done) }
    {
        of_reach(Reach::none().on(item.value), End::Done)
    }

    /// Adds one more item, after the others, unless a fault has ended the piece.
    pub fn push(&mut self, item: Item)
        ensures stands { (t : Trace) → IsPiece self.old t → IsPiece self.new (append t (trace (item ∷ []) end.Done)) }
    {
        *self = self.merge(ExactPart::of(item));
    }

    /// Adds the items with these values, after the others, unless a fault has ended the piece.
    pub fn push_all(&mut self, values: &[i64])
        ensures stands { (t : Trace) (xs : List item) → item_values xs ≡ values.now → IsPiece self.old t
            → IsPiece self.new (append t (trace xs end.Done)) }
    {
        let ExactPart::Within { reach, end } = *self else {
            return;
        };
        if let End::Fault(_) = end {
            return;
        }
        *self = of_reach(reach_with(reach, values), End::Done);
    }

    /// Ends the piece as said, unless a fault has ended it.
    pub fn end_with(&mut self, end: End)
        ensures stands { (t : Trace) → IsPiece self.old t → IsPiece self.new (append t (trace [] end)) }
    {
        if let ExactPart::Within {
            reach,
            end: End::Done,
        } = *self
        {
            *self = ExactPart::Within { reach, end };
        }
    }

    /// The part of two pieces that lie side by side. A fault of the left one ends both.
    pub fn merge(self, right: ExactPart) -> ExactPart
        ensures stands { (a b : Trace) → IsPiece self a → IsPiece right b → IsPiece result (append a b) }
    {
        let ExactPart::Within { reach: left, end } = self else {
            return ExactPart::Over;
        };
        if let End::Fault(_) = end {
            return self;
        }
        match right {
            ExactPart::Within { reach, end } => of_reach(left.beside(reach), end),
            ExactPart::Over => ExactPart::Over,
        }
    }

    /// Whether nothing after the piece matters: each start leads outside 64 bits, or a fault has ended the piece.
    pub fn is_over(&self) -> bool
        ensures { result ≡ is_over self.now }
    {
        match self {
            ExactPart::Within { reach: _, end } => matches!(end, End::Fault(_)),
            ExactPart::Over => true,
        }
    }
}

/// The part of a piece whose sums reach so far, or else differ by 2^64 or more, and which ended so.
fn of_reach(reach: Option<Reach>, end: End) -> ExactPart
    ensures { (t : Trace) → IsReach reach (reach_of (item_values t.items)) → end ≡ t.ending → IsPiece result t }
{
    match reach {
        Some(reach) => ExactPart::Within { reach, end },
        None => ExactPart::Over,
    }
}
