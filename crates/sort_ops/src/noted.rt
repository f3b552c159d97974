//! Values that came last, which find most of the items whose value came before.

ghost use Rattle.std.specs.Prelude.{◌≡◌, ◌||◌, List, true};
ghost use Rattle.std.specs.Ordering.{int_eq};
ghost use Rattle.lambda_values.specs.declared.item.Item.{Item as meant_item};
ghost use Rattle.sort_ops.specs.Firsts.{is_among};
ghost use Rattle.sort_ops.specs.NewValues.{AreNoted};
ghost use Rattle.sort_ops.specs.Parts.{values_in};

use crate::lookup::spread;
use std::alloc::Global;
use trace::Item;

/// How many items there are before values are noted.
const FEW: usize = 64;

/// Values of items, two at each place that a value chooses. Most items of few different values are found so, in a
/// fraction of the time that a set takes.
#[derive(Drop)]
pub(crate) struct Noted {
    /// Without elements while there are few items, or no memory for them.
    values: Vec<(i64, i64)>,
}

impl Noted {
    /// How many places there are.
    const PLACES: usize = 2048;

    /// No values. It takes no memory.
    pub(crate) fn none(alloc: Global) -> Noted
        ensures { (xs : List meant_item) → AreNoted result xs }
    {
        Noted {
            values: Vec::new(alloc),
        }
    }

    /// Whether no value is noted.
    pub(crate) fn is_empty(&self) -> bool {
        self.values.is_empty()
    }

    /// The place of a value.
    fn place(value: i64) -> usize {
        (spread(value) >> 53) as usize
    }

    /// Whether the value of an item was noted, and not forgotten since.
    pub(crate) fn has(&self, item: Item) -> bool
        ensures { result ≡ true → (xs : List meant_item) → AreNoted self.now xs
            → is_among item.value (values_in xs) ≡ true }
    {
        match self.values.get(Noted::place(item.value)) {
            Some(noted) => is_either(item, *noted),
            None => false,
        }
    }

    /// Notes the value of one of this number of items, and forgets the older one of its place.
    pub(crate) fn note(&mut self, item: Item, count: usize)
        ensures { (xs : List meant_item) → is_among item.value (values_in xs) ≡ true → AreNoted self.old xs
            → AreNoted self.new xs }
    {
        if self.values.is_empty() && count >= FEW {
            self.begin(item);
        }
        if let Some(noted) = self.values.get_mut(Noted::place(item.value)) {
            *noted = after(item, *noted);
        }
    }

    /// Notes the value of an item at each place, if there is memory for it.
    fn begin(&mut self, item: Item)
        ensures { (xs : List meant_item) → is_among item.value (values_in xs) ≡ true → AreNoted self.old xs
            → AreNoted self.new xs }
    {
        let _ = self.values.resize(Noted::PLACES, twice(item));
    }
}

/// Whether the value of an item is one of two.
fn is_either(item: Item, noted: (i64, i64)) -> bool
    ensures { result ≡ (int_eq item.value noted.0 || int_eq item.value noted.1) }
{
    (item.value == noted.0) | (item.value == noted.1)
}

/// The value of an item, and the first one of two.
fn after(item: Item, noted: (i64, i64)) -> (i64, i64)
    ensures { result ≡ (item.value, noted.0) }
{
    (item.value, noted.0)
}

/// The value of an item, twice.
fn twice(item: Item) -> (i64, i64)
    ensures { result ≡ (item.value, item.value) }
{
    (item.value, item.value)
}
