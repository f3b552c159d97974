//! How sources split, through the trait alone.
ghost use Rattle.std.specs.Prelude.{◌≡◌};

use spliterator::{ArraySplit, ConcatSplit, LongSpliterator, PlainSplit, RangeSplit};
use std::alloc::Global;
use std::test::Fail;
use trace::{Item, NoMemory};

/// The items of all pieces, in order, after all splits that succeed.
fn items_in_pieces<S: LongSpliterator + Drop>(
    mut split: S,
    items: &mut Vec<Item>,
) -> Result<(), NoMemory> {
    if let Some(prefix) = split.try_split() {
        items_in_pieces(prefix, items)?;
        return items_in_pieces(split, items);
    }
    while let Some(item) = split.try_advance() {
        items.push(item)?;
    }
    Ok(())
}

/// These values at the places 0, 1, 2 and so on.
fn placed(alloc: Global, values: &[i64]) -> Result<Vec<Item>, NoMemory> {
    (0..)
        .zip(values)
        .map(|(origin, value)| Item {
            origin,
            value: *value,
        })
        .collect(alloc)
}

/// The items that are left, in order.
fn items_of<S: LongSpliterator + Drop>(alloc: Global, mut split: S) -> Result<Vec<Item>, NoMemory> {
    let mut items = Vec::new(alloc);
    while let Some(item) = split.try_advance() {
        items.push(item)?;
    }
    Ok(items)
}

/// Whether the items that are left have these values, the first one at this place.
fn has<S: LongSpliterator + Drop>(
    alloc: Global,
    split: S,
    origin: u64,
    values: &[i64],
) -> Result<bool, NoMemory> {
    let items = items_of(alloc, split)?;
    let is_placed = items.first().is_some_and(|first| first.origin == origin);
    Ok(
        is_placed
            && items
                .iter()
                .map(|item| item.value)
                .eq(values.iter().copied()),
    )
}

#[test]
fn a_range_splits_in_the_middle_and_a_concatenation_between_its_parts(
    rt: HostRuntime,
) -> Result<(), Fail> {
    let alloc = rt.alloc();
    let mut rest = RangeSplit::range(0, 5).ok_or("too long")?;
    let half = rest.try_split().ok_or("no split")?;
    assert!(rt; has(alloc, half, 0, &[0, 1])? && has(alloc, rest, 2, &[2, 3, 4])?);
    let nothing = PlainSplit::Array(ArraySplit::new(&[]));
    let one = PlainSplit::Array(ArraySplit::new(&[1]));
    let range = PlainSplit::Range(RangeSplit::range(2, 4).ok_or("too long")?);
    let parts = [nothing, one, nothing, range];
    let mut rest = ConcatSplit::of(&parts).ok_or("too long")?;
    let first = rest.try_split().ok_or("no split")?;
    let second = rest.try_split().ok_or("no second split")?;
    assert!(rt; rest.try_split().is_none());
    assert!(rt; has(alloc, first, 0, &[1])? && has(alloc, second, 1, &[2])?);
    assert!(rt; has(alloc, rest, 2, &[3])?);
    Ok(())
}

/// Whether the pieces of a source, after all splits that succeed, have these values at the places 0, 1, 2, ..
fn splits_to<S: LongSpliterator + Drop>(
    alloc: Global,
    split: S,
    values: &[i64],
) -> Result<bool, NoMemory> {
    let mut items = Vec::new(alloc);
    items_in_pieces(split, &mut items)?;
    Ok(items.as_slice() == placed(alloc, values)?.as_slice())
}

#[test]
fn the_pieces_of_a_source_are_its_items(rt: HostRuntime) -> Result<(), Fail> {
    let alloc = rt.alloc();
    let high = RangeSplit::range_closed(i64::MAX - 1, i64::MAX).ok_or("too long")?;
    let values = ArraySplit::new(&[4, -4, 4, 0, 7]);
    let parts = [PlainSplit::Range(high), PlainSplit::Array(values)];
    let both = ConcatSplit::of(&parts).ok_or("too long")?;
    let items = [i64::MAX - 1, i64::MAX, 4, -4, 4, 0, 7];
    assert!(rt; splits_to(alloc, high, &items[..2])? && splits_to(alloc, values, &items[2..])?);
    assert!(rt; splits_to(alloc, both, &items)?);
    Ok(())
}

#[test]
fn characteristics_are_the_numbers_of_java_util_spliterator(rt: HostRuntime) {
    let range = RangeSplit::range(0, 1).map(|split| split.characteristics());
    let both = ConcatSplit::of(&[]).map(|split| split.characteristics());
    assert!(rt; range == Some(0x4555) && both == Some(0x4550));
    assert!(rt; ArraySplit::new(&[]).characteristics() == 0x4550);
}
