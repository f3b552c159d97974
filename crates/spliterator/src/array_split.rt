//! Values in a slice.

ghost use Rattle.std.specs.Prelude.{◌≡◌, ◌+◌, ◌/◌, ◌^◌, ◌<◌, ◌≤◌, length, IfSome, IfNone};
ghost use Rattle.trace.specs.Cover.{placed};
ghost use Rattle.spliterator.specs.Splits.{IsSplit};

use crate::characteristics::{IMMUTABLE, NONNULL, ORDERED, SIZED, SUBSIZED};
use crate::long_spliterator::LongSpliterator;
use trace::Item;

/// The items of `LongStream.of` or of a column, or a piece of them. It borrows the values.
#[derive(Clone, Copy)]
pub struct ArraySplit<'a> {
    values: &'a [i64],
    /// The place of the first item that is left.
    origin: u64,
    ghost short: { origin + length values.now < 2 ^ 64 },
}

impl<'a> ArraySplit<'a> {
    /// All values of a slice.
    pub fn new(values: &'a [i64]) -> ArraySplit<'a>
        ensures values { result.values.now ≡ values.now }
        ensures origin { result.origin ≡ 0 }
    {
        ArraySplit { values, origin: 0 }
    }
}

impl<'a> LongSpliterator for ArraySplit<'a> {
    ghost items = { λ split. placed split.origin split.values.now };

    ghost flags = { 0x4550 };

    fn try_split(&mut self) -> Option<ArraySplit<'a>>
        ensures some { IfSome result (λ prefix. IsSplit (placed prefix.origin prefix.values.now)
            (placed self.new.origin self.new.values.now) (placed self.old.origin self.old.values.now)) }
        ensures none { IfNone result
            (placed self.new.origin self.new.values.now ≡ placed self.old.origin self.old.values.now) }
        ensures few { IfNone result (length (placed self.old.origin self.old.values.now) < 2) }
        ensures half { IfSome result (λ prefix. length prefix.values.now ≡ length self.old.values.now / 2) }
    {
        let half = self.values.len() / 2;
        if half == 0 {
            return None;
        }
        let (front, back) = self.values.split_at(half);
        let prefix = ArraySplit {
            values: front,
            origin: self.origin,
        };
        *self = ArraySplit {
            values: back,
            origin: self.origin + half as u64,
        };
        Some(prefix)
    }

    fn try_advance(&mut self) -> Option<Item> {
        let (value, later) = self.values.split_first()?;
        let item = Item {
            origin: self.origin,
            value: *value,
        };
        *self = ArraySplit {
            values: later,
            origin: self.origin + 1,
        };
        Some(item)
    }

    fn exact_size(&self) -> u64 {
        self.values.len() as u64
    }

    fn characteristics(&self) -> u32 {
        ORDERED | SIZED | NONNULL | IMMUTABLE | SUBSIZED
    }
}
