//! Sets of values, which find the items whose value came before.

ghost use Rattle.std.specs.Prelude.{◌≡◌, ◌<◌, ◌≤◌, [], ◌∷◌, ◌++◌, ℕ, List, Option, None, take, true};
ghost use Rattle.std.specs.Prelude.{false, length, vec_len, OnOk};
ghost use Rattle.std.specs.Ordering.{int_eq};
ghost use Rattle.lambda_values.specs.declared.item.Item.{Item as meant_item};
ghost use Rattle.sort_ops.specs.Firsts.{firsts, is_among};
ghost use Rattle.sort_ops.specs.NewValues.{AreOnce, Knows, class_of, is_in, spread};
ghost use Rattle.sort_ops.specs.Parts.{values_in};

use std::alloc::Global;
use std::collections::HashSet;
use trace::{Item, NoMemory};

/// Over how many classes values are spread.
const CLASSES: u64 = 16;

/// It spreads the bits of values that are close together.
const SPREAD: u64 = 11_400_714_819_323_198_485;

/// The bits of a value, of which those of values that are close together differ at the front.
pub(crate) fn spread(value: i64) -> u64
    ensures { result ≡ spread value }
{
    value.unsigned_abs().wrapping_mul(SPREAD)
}

/// What finds the items whose value came before, of all values or of one class: a set of all values, if it isn't
/// partial.
#[derive(Drop)]
pub(crate) struct Lookup {
    class: Option<u64>,
    seen: HashSet<i64>,
    /// Whether the set is left alone, since none is needed yet, or since memory for a value was refused. Then items may
    /// stay whose value came before.
    pub(crate) partial: bool,
}

impl Lookup {
    /// Without a set. It takes no memory.
    pub(crate) fn without_set(alloc: Global) -> Lookup
        ensures class { result.class ≡ None }
        ensures partial { result.partial ≡ true }
    {
        Lookup {
            partial: true,
            ..Lookup::none(alloc, None)
        }
    }

    /// Without values: for those of a class, or for all. It takes no memory.
    pub(crate) fn none(alloc: Global, class: Option<u64>) -> Lookup
        ensures knows { Knows result [] }
        ensures class { result.class ≡ class }
        ensures open { result.partial ≡ false }
    {
        Lookup {
            class,
            seen: HashSet::new(alloc),
            partial: false,
        }
    }

    /// Whether an item stays after those that stayed before: its value is new, or isn't looked up. Then its value is
    /// among those that came before.
    fn stays(&mut self, item: Item) -> bool
        ensures class { self.new.class ≡ self.old.class }
        ensures going { self.new.partial ≡ false → self.old.partial ≡ false }
        ensures new { result ≡ true → (xs : List meant_item) → Knows self.old xs → Knows self.new (xs ++ item ∷ []) }
        ensures once { result ≡ true → (xs : List meant_item) → self.new.partial ≡ false → Knows self.old xs
            → is_in self.old.class item.value ≡ true → is_among item.value (values_in xs) ≡ false }
        ensures old { result ≡ false → (xs : List meant_item) → Knows self.old xs → Knows self.new xs }
        ensures again { result ≡ false → (xs : List meant_item) → Knows self.old xs
            → is_among item.value (values_in xs) ≡ true }
    {
        if self.partial {
            return true;
        }
        if !is_in(self.class, item.value) {
            return true;
        }
        match self.seen.insert(item.value) {
            Ok(new) => new,
            Err(_) => {
                self.partial = true;
                true
            }
        }
    }

    /// Begins to fill the set, with room for this number of values, if there is memory for it: a set that grows with
    /// each of them puts them into several tables, one after the other.
    pub(crate) fn begin_set(&mut self, alloc: Global, count: usize)
        ensures knows { Knows self.new [] }
        ensures class { self.new.class ≡ self.old.class }
    {
        self.seen = HashSet::new(alloc);
        self.partial = false;
        let _ = self.seen.reserve(count);
    }
}

/// Whether a value is in a class, or in any where none is given.
fn is_in(class: Option<u64>, value: i64) -> bool
    ensures { result ≡ is_in class value }
{
    match class {
        Some(class) => class_of(value) == class,
        None => true,
    }
}

/// The class of a value.
fn class_of(value: i64) -> u64
    ensures { result ≡ class_of value }
{
    spread(value) / (1 << 32) % CLASSES
}

/// Takes out the items from position `from` on whose value came before and is looked up. The items before `from` are
/// known to the set.
pub(crate) fn take_out(items: &mut Vec<Item>, from: usize, lookup: &mut Lookup)
    requires within { from ≤ vec_len items.old }
    requires known { Knows lookup.old (take from items.old.items) }
    ensures firsts { firsts [] items.new.items ≡ firsts [] items.old.items }
    ensures known { Knows lookup.new items.new.items }
    ensures class { lookup.new.class ≡ lookup.old.class }
    ensures going { lookup.new.partial ≡ false → lookup.old.partial ≡ false }
    ensures once { lookup.new.partial ≡ false → AreOnce lookup.old.class (take from items.old.items)
        → AreOnce lookup.old.class items.new.items }
    ensures others { (c : Option ℕ) → AreOnce c items.old.items → AreOnce c items.new.items }
{
    let mut kept = from;
    for position in from..items.len() {
        let item = items[position];
        if lookup.stays(item) {
            items[kept] = item;
            kept += 1;
        }
    }
    items.truncate(kept);
}

/// Takes out all items whose value came before, one class of values after the other: the set of one class is small, so
/// it takes little memory and stays in the cache of a processor. If an allocation fails, some may stay.
pub(crate) fn take_out_by_classes(items: &mut Vec<Item>) -> Result<(), NoMemory>
    ensures firsts { firsts [] items.new.items ≡ firsts [] items.old.items }
    ensures once { OnOk result (AreOnce None items.new.items) }
{
    for class in 0..CLASSES {
        let mut lookup = Lookup::none(*items.allocator(), Some(class));
        take_out(items, 0, &mut lookup);
        if lookup.partial {
            return Err(NoMemory);
        }
    }
    Ok(())
}

/// Whether each value is greater than the one before it, or each is less. Then all are different.
pub(crate) fn rise_or_fall(items: &[Item]) -> bool
    ensures once { result ≡ true → AreOnce None items.now }
    ensures some { result ≡ false → 0 < length items.now }
{
    items.is_sorted_by(|left, right| left.value < right.value)
        || items.is_sorted_by(|left, right| right.value < left.value)
}
