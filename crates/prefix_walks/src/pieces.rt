//! Items that a walk left, as a source whose items are read by position.

use trace::{Item, SourceItems};

/// Items that already have their places.
#[derive(Clone, Copy)]
pub struct ItemPiece<'a> {
    pub items: &'a [Item],
}

impl SourceItems for ItemPiece<'_> {
    ghost items = { λ piece. piece.items.now };

    fn count(&self) -> u64 {
        self.items.len() as u64
    }

    fn item_at(&self, position: u64) -> Item {
        self.items[position as usize]
    }
}
