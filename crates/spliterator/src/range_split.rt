//! Integers that count up by 1.

ghost use Rattle.std.specs.Prelude.{◌≡◌, ℕ, ◌+◌, ◌-◌, ◌/◌, ◌^◌, ◌<◌, ◌≤◌, pos, ◌+ℤ◌, length};
ghost use Rattle.std.specs.Prelude.{FitsSigned, IfSome, IfNone, MatchOption, [], ◌∷◌};
ghost use Rattle.std.specs.Int.{w64};
ghost use Rattle.trace.specs.Cover.{counted, placed, distance};
ghost use Rattle.spliterator.specs.Splits.{IsSplit, split_items};

use crate::characteristics::{DISTINCT, IMMUTABLE, NONNULL, ORDERED, SIZED, SORTED, SUBSIZED};
use crate::long_spliterator::LongSpliterator;
use trace::{Item, MAX_SOURCE_SIZE};

/// The items of `LongStream.range` and `rangeClosed`, or a piece of them.
#[derive(Clone, Copy)]
pub struct RangeSplit {
    /// The first value of the whole range.
    start: i64,
    /// The position of the first item that is left.
    from: u64,
    /// The position after the last item that is left.
    to: u64,
    ghost ordered: { from ≤ to },
    ghost short: { to ≤ 2 ^ 62 },
    ghost in_range: { (i : ℕ) → i < to → FitsSigned w64 (start +ℤ pos i) },
}

impl RangeSplit {
    /// The integers from `from` up to, but not with, `to`. `None` exactly if there are more than 2^62.
    pub fn range(from: i64, to: i64) -> Option<RangeSplit>
        ensures some { IfSome result (λ split. split_items split.start split.from split.to
            ≡ placed 0 (counted from (distance from to))) }
        ensures none { IfNone result (2 ^ 62 < distance from to) }
    {
        let count = if from < to { to.abs_diff(from) } else { 0 };
        if count > MAX_SOURCE_SIZE {
            return None;
        }
        Some(RangeSplit {
            start: from,
            from: 0,
            to: count,
        })
    }

    /// The integers from `from` up to and with `to`. `None` exactly if there are more than 2^62.
    pub fn range_closed(from: i64, to: i64) -> Option<RangeSplit>
        ensures some { IfSome result (λ split. split_items split.start split.from split.to
            ≡ placed 0 (counted from (distance from (to +ℤ pos 1)))) }
        ensures none { IfNone result (2 ^ 62 < distance from (to +ℤ pos 1)) }
    {
        if from > to {
            return RangeSplit::range(from, from);
        }
        let last = to.abs_diff(from);
        if last >= MAX_SOURCE_SIZE {
            return None;
        }
        Some(RangeSplit {
            start: from,
            from: 0,
            to: last + 1,
        })
    }
}

impl LongSpliterator for RangeSplit {
    ghost items = { λ split. split_items split.start split.from split.to };

    ghost flags = { 0x4555 };

    fn try_split(&mut self) -> Option<RangeSplit>
        ensures some { IfSome result (λ prefix. IsSplit (split_items prefix.start prefix.from prefix.to)
            (split_items self.new.start self.new.from self.new.to)
            (split_items self.old.start self.old.from self.old.to)) }
        ensures none { IfNone result (split_items self.new.start self.new.from self.new.to
            ≡ split_items self.old.start self.old.from self.old.to) }
        ensures few { IfNone result (length (split_items self.old.start self.old.from self.old.to) < 2) }
        ensures half { IfSome result (λ prefix. prefix.to - prefix.from ≡ (self.old.to - self.old.from) / 2) }
    {
        let half = (self.to - self.from) / 2;
        if half == 0 {
            return None;
        }
        let middle = self.from + half;
        let prefix = RangeSplit {
            start: self.start,
            from: self.from,
            to: middle,
        };
        self.from = middle;
        Some(prefix)
    }

    fn try_advance(&mut self) -> Option<Item> {
        if self.from == self.to {
            return None;
        }
        let item = Item {
            origin: self.from,
            value: self.start + self.from as i64,
        };
        self.from += 1;
        Some(item)
    }

    fn exact_size(&self) -> u64 {
        self.to - self.from
    }

    fn characteristics(&self) -> u32 {
        DISTINCT | SORTED | ORDERED | SIZED | NONNULL | IMMUTABLE | SUBSIZED
    }
}
