//! Items that are read by their positions, and the sources that have them.

ghost use Rattle.std.specs.Prelude.{◌≡◌, ◌+◌, ◌<◌, ◌≤◌, ◌^◌, ℕ, pos, ◌+ℤ◌, List, length};
ghost use Rattle.std.specs.Prelude.{FitsSigned, IfNone, IfSome, Some, slice_get};
ghost use Rattle.std.specs.Int.{w64};
ghost use Rattle.trace.specs.Cover.{counted, cover, placed, range, too_long, values as listed};
ghost use Rattle.lambda_values.specs.Streams.{run_or_listed};
ghost use Rattle.trace.specs.Stages.{at_place};
ghost use Rattle.trace.specs.Trace.{trace};
ghost use Rattle.trace.specs.declared.item.End.TheVariants as end;
ghost use Rattle.lambda_values.specs.declared.item.Item.{Item};

use lambda_values::{Item, Run};

/// The largest number of values that a source may have: 2^62.
pub const MAX_SOURCE_SIZE: u64 = 1 << 62;

/// Items in encounter order that can be read by position.
pub trait SourceItems {
    // The items, in encounter order.
    ghost items: { Self → List Item };

    /// The number of items.
    fn count(&self) -> u64
        ensures { result ≡ length (items self.now) };

    /// The item at a position, from 0 on.
    fn item_at(&self, position: u64) -> Item
        requires { position < length (items self.now) }
        ensures { slice_get (items self.now) position ≡ Some result };
}

/// Integers counted up by 1, at places that count up from `origin`: the items of `LongStream.range`, or a piece of
/// them.
#[derive(Drop)]
pub struct RangeItems {
    pub origin: u64,
    pub first: i64,
    pub count: u64,
    ghost few: { origin + count ≤ 2 ^ 62 },
    ghost in_range: { (i : ℕ) → i < count → FitsSigned w64 (first +ℤ pos i) },
}

impl RangeItems {
    /// The integers from `from` up to, not with, `to`, at the places 0, 1, 2 and so on; `None` if there are more than
    /// 2^62.
    pub fn between(from: i64, to: i64) -> Option<RangeItems>
        ensures origin { IfSome result (λ source. source.origin ≡ 0) }
        ensures some { IfSome result (λ source. cover (range from to)
            ≡ trace (placed 0 (counted source.first source.count)) end.Done) }
        ensures none { IfNone result (cover (range from to) ≡ too_long) }
    {
        let count = if from < to { to.abs_diff(from) } else { 0 };
        if count > MAX_SOURCE_SIZE {
            return None;
        }
        Some(RangeItems {
            origin: 0,
            first: from,
            count,
        })
    }
}

impl SourceItems for RangeItems {
    ghost items = { λ source. placed source.origin (counted source.first source.count) };

    fn count(&self) -> u64 {
        self.count
    }

    fn item_at(&self, position: u64) -> Item {
        Item {
            origin: self.origin + position,
            value: self.first + position as i64,
        }
    }
}

/// Values in a slice, at places that count up from `origin`: the items of `LongStream.of` or of an array, or a piece of
/// them.
#[derive(Clone, Copy)]
pub struct PlacedValues<'a> {
    pub origin: u64,
    pub values: &'a [i64],
    ghost few: { origin + length values.now ≤ 2 ^ 62 },
}

impl<'a> PlacedValues<'a> {
    /// The items of these values, at the places 0, 1, 2 and so on; `None` if there are more than 2^62.
    ///
    /// For other programs: `streamrun` uses the sources of `job_plan`.
    pub fn of(values: &'a [i64]) -> Option<PlacedValues<'a>>
        ensures origin { IfSome result (λ source. source.origin ≡ 0) }
        ensures some { IfSome result (λ source. (source.values.now ≡ values.now)
            × (cover (listed values.now) ≡ trace (placed 0 values.now) end.Done)) }
        ensures none { IfNone result (cover (listed values.now) ≡ too_long) }
    {
        if values.len() as u64 > MAX_SOURCE_SIZE {
            return None;
        }
        Some(PlacedValues { origin: 0, values })
    }
}

impl SourceItems for PlacedValues<'_> {
    ghost items = { λ source. placed source.origin source.values.now };

    fn count(&self) -> u64 {
        self.values.len() as u64
    }

    fn item_at(&self, position: u64) -> Item {
        Item {
            origin: self.origin + position,
            value: self.values[position as usize],
        }
    }
}

/// The items of an inner stream, all at the place of the outer item: what `flatMap` makes of that item.
#[derive(Clone, Copy)]
pub struct InnerItems<'a> {
    pub origin: u64,
    /// Integers in a row; without them the values of the list.
    pub run: Option<Run>,
    pub listed: &'a [i64],
}

impl SourceItems for InnerItems<'_> {
    ghost items = { λ source. at_place source.origin (run_or_listed source.run source.listed.now) };

    fn count(&self) -> u64 {
        match self.run {
            Some(run) => run.count,
            None => self.listed.len() as u64,
        }
    }

    fn item_at(&self, position: u64) -> Item {
        Item {
            origin: self.origin,
            value: match self.run {
                Some(run) => run.first + position as i64,
                None => self.listed[position as usize],
            },
        }
    }
}

/// Items that already have their places, as a stage that looks at the whole walk leaves them.
impl SourceItems for Vec<Item> {
    ghost items = { λ source. source.items };

    fn count(&self) -> u64 {
        self.len() as u64
    }

    fn item_at(&self, position: u64) -> Item {
        self[position as usize]
    }
}
