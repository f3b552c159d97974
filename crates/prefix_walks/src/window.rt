//! Positions of a list, side by side.

ghost use Rattle.std.specs.Prelude.{◌≡◌, ◌≤◌, ◌<◌, ◌+◌, ◌-◌, ◌^◌, drop, length, take, IfNone, IfSome, List, None};
ghost use Rattle.lambda_values.specs.declared.item.Item.{Item as item};
ghost use Rattle.prefix_walks.specs.Pieces.{after, elements};

use crate::spans::{earlier, end_after, moved};

/// Positions of a list: from one on, up to, not with, a second one, if there is one.
#[derive(Clone, Copy)]
pub struct Window {
    pub from: u64,
    pub to: Option<u64>,
}

impl Window {
    /// All positions.
    pub fn all() -> Window
        ensures { (result.from ≡ 0) × (result.to ≡ None) }
    {
        Window { from: 0, to: None }
    }

    /// These positions of the window, as positions of the list itself.
    pub fn within(self, from: u64, to: Option<u64>) -> Window
        ensures { (xs : List item) → length xs < 2 ^ 64
            → elements from to (elements self.from self.to xs) ≡ elements result.from result.to xs }
    {
        Window {
            from: self.from.saturating_add(from),
            to: earlier(self.to, moved(to, self.from)),
        }
    }

    /// The window without this number of its first positions. `None` if the first one that is left isn't below 2^64.
    pub fn skipped(self, count: u64) -> Option<Window>
        ensures some { IfSome result (λ w. (xs : List item)
            → elements w.from w.to xs ≡ drop count (elements self.from self.to xs)) }
        ensures none { IfNone result (2 ^ 64 ≤ self.from + count) }
    {
        let from = self.from.checked_add(count)?;
        Some(Window { from, to: self.to })
    }

    /// This number of the first positions of the window. `None` if the position after them isn't below 2^64.
    pub fn limited(self, count: u64) -> Option<Window>
        ensures some { IfSome result (λ w. (xs : List item)
            → elements w.from w.to xs ≡ take count (elements self.from self.to xs)) }
        ensures none { IfNone result (2 ^ 64 ≤ self.from + count) }
    {
        let end = self.from.checked_add(count)?;
        Some(Window {
            from: self.from,
            to: earlier(self.to, Some(end)),
        })
    }

    /// The positions of the window, counted after this number of elements.
    pub fn after(self, size: u64) -> Window
        ensures from { result.from ≡ self.from - size }
        ensures to { result.to ≡ after self.to size }
    {
        Window {
            from: self.from.saturating_sub(size),
            to: end_after(self.to, size),
        }
    }
}
