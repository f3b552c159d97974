//! What every spliterator owes its callers.

ghost use Rattle.std.specs.Prelude.{◌≡◌, ◌<◌, ℕ, List, [], ◌∷◌, length, IfSome, IfNone, MatchOption};
ghost use Rattle.lambda_values.specs.declared.item.Item.{Item};
ghost use Rattle.spliterator.specs.Splits.{IsSplit};

use trace::Item;

/// A source of items in encounter order that can be split (`java.util.Spliterator.OfLong`).
///
/// Splits can't go on forever: each part has fewer items than the whole.
pub trait LongSpliterator: Sized {
    // The items that are left, in encounter order.
    ghost items: { Self → List Item };

    // The characteristics of the type, as one number.
    ghost flags: { ℕ };

    /// Hands out a prefix of the items and keeps the rest; both have items.
    ///
    /// `None` means that at most one item is left, and nothing changes.
    fn try_split(&mut self) -> Option<Self>
        ensures some { IfSome result (λ prefix. IsSplit (items prefix) (items self.new) (items self.old)) }
        ensures none { IfNone result (items self.new ≡ items self.old) }
        ensures few { IfNone result (length (items self.old) < 2) };

    /// Hands out the first item, or `None` if no item is left.
    fn try_advance(&mut self) -> Option<Item>
        ensures { MatchOption result ((items self.old ≡ []) × (items self.new ≡ []))
            (λ item. items self.old ≡ item ∷ items self.new) };

    /// The number of items that are left.
    fn exact_size(&self) -> u64
        ensures { result ≡ length (items self.now) };

    /// The sum of the flags of the type.
    fn characteristics(&self) -> u32
        ensures { result ≡ flags };
}
