//! Sources that aren't concatenations.

ghost use Rattle.std.specs.Prelude.{◌≡◌, ◌/◌, ◌<◌, List, length, IfSome, IfNone};
ghost use Rattle.lambda_values.specs.declared.item.Item.{Item};
ghost use Rattle.spliterator.specs.Parts.{plain_items};
ghost use Rattle.spliterator.specs.Splits.{IsSplit};

use crate::array_split::ArraySplit;
use crate::characteristics::{IMMUTABLE, NONNULL, ORDERED, SIZED, SUBSIZED};
use crate::long_spliterator::LongSpliterator;
use crate::range_split::RangeSplit;
use trace::Item;

/// A source that isn't a concatenation.
#[derive(Clone, Copy)]
pub enum PlainSplit<'a> {
    Range(RangeSplit),
    Array(ArraySplit<'a>),
}

impl<'a> LongSpliterator for PlainSplit<'a> {
    ghost items = { plain_items };

    ghost flags = { 0x4550 };

    fn try_split(&mut self) -> Option<PlainSplit<'a>>
        ensures some { IfSome result (λ prefix. IsSplit (plain_items prefix) (plain_items self.new)
            (plain_items self.old)) }
        ensures none { IfNone result (plain_items self.new ≡ plain_items self.old) }
        ensures few { IfNone result (length (plain_items self.old) < 2) }
        ensures half { IfSome result (λ prefix. length (plain_items prefix) ≡ length (plain_items self.old) / 2) }
    {
        match self {
            PlainSplit::Range(range) => Some(PlainSplit::Range(range.try_split()?)),
            PlainSplit::Array(array) => Some(PlainSplit::Array(array.try_split()?)),
        }
    }

    fn try_advance(&mut self) -> Option<Item> {
        match self {
            PlainSplit::Range(range) => range.try_advance(),
            PlainSplit::Array(array) => array.try_advance(),
        }
    }

    fn exact_size(&self) -> u64 {
        match self {
            PlainSplit::Range(range) => range.exact_size(),
            PlainSplit::Array(array) => array.exact_size(),
        }
    }

    fn characteristics(&self) -> u32 {
        ORDERED | SIZED | NONNULL | IMMUTABLE | SUBSIZED
    }
}
