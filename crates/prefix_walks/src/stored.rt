//! Items of a piece that are stored.

ghost use Rattle.std.specs.Prelude.{◌≡◌, ◌+◌, ◌≤◌, ◌++◌, ℕ, None, Ok, Some, true, IfOk, OnErr, OnOk, length, map};
ghost use Rattle.prefix_walks.specs.Placing.{IsAt, places_for};

use crate::piece_buffer::{MOST_ITEMS, PieceBuffer};
use batch_eval::LaneItems;
use std::alloc::Global;
use std::marker::Model;
use trace::{NoMemory, SourceItems};

/// Up to 1,024 items that are stored: their values, and their places, which count up from the first one or are listed.
/// Contracts see the list of the items.
#[derive(Drop)]
pub struct Stored {
    start: Option<u64>,
    places: Vec<u64>,
    values: Vec<i64>,
}

impl Model for Stored {
    ghost use Rattle.std.specs.Prelude.{◌≤◌, List, length};
    ghost use Rattle.lambda_values.specs.declared.item.Item.{Item as item};
    ghost use Rattle.prefix_walks.specs.Placing.{FitsPlaces, items_at};

    ghost Value = { List item };

    ghost view = { λ stored. items_at stored.start stored.places.items stored.values.items };

    ghost invariant = { λ stored.
        FitsPlaces stored.start stored.places.items stored.values.items × (length stored.values.items ≤ 1024) };
}

impl Stored {
    /// The items of a source, which have these values, and places that count up from the first one, if it is given. It
    /// takes 8 bytes for each value, and for each place that is listed.
    pub(crate) fn of<I: SourceItems>(
        alloc: Global,
        start: Option<u64>,
        source: &I,
        values: &[i64],
    ) -> Result<Stored, NoMemory>
        requires at { IsAt start (I.items source.now) values.now }
        requires few { length values.now ≤ 1024 }
        ensures { IfOk result (λ stored. stored ≡ I.items source.now) }
    {
        let space = space_for(values.len());
        let mut places = Vec::new(alloc);
        places.reserve(if start.is_none() { space } else { 0 })?;
        let mut stored = Vec::new(alloc);
        stored.reserve(space)?;
        extend(&mut places, &mut stored, start, source, values)?;
        Ok(Stored {
            start,
            places,
            values: stored,
        })
    }

    /// Adds the items of a source, as `of` takes them, and answers `true`; or `false` if there is no space for them or
    /// their places are not kept in one way with those that are stored. If an allocation fails, the items stay as they
    /// were.
    pub(crate) fn add<I: SourceItems>(
        &mut self,
        start: Option<u64>,
        source: &I,
        values: &[i64],
    ) -> Result<bool, NoMemory>
        requires at { IsAt start (I.items source.now) values.now }
        requires few { length values.now ≤ 1024 }
        ensures added { result ≡ Ok true → self.new ≡ self.old ++ I.items source.now }
        ensures other { (result ≡ Ok true → ⊥) → self.new ≡ self.old }
    {
        let count = self.values.len();
        if count > MOST_ITEMS - values.len() || !goes_on(self.start, count as u64, start) {
            return Ok(false);
        }
        extend(&mut self.places, &mut self.values, start, source, values)?;
        Ok(true)
    }

    /// How many items there are.
    pub(crate) fn count(&self) -> usize
        ensures { result ≡ length self.now }
    {
        self.values.len()
    }

    /// Puts the items into a buffer.
    pub(crate) fn put(&self, buffer: &mut PieceBuffer)
        ensures { buffer.new ≡ self.now }
    {
        buffer.hold(LaneItems {
            start: self.start,
            places: &self.places,
            values: &self.values,
        });
    }
}

/// From this many items on a batch is one of several of a walk. If another one fits into its piece, the piece gets
/// space for all that it may have.
const LARGE_BATCH: usize = 256;

/// For how many items a new piece gets space, if it begins with this many.
fn space_for(count: usize) -> usize {
    if count < LARGE_BATCH || count > MOST_ITEMS / 2 {
        count
    } else {
        MOST_ITEMS
    }
}

/// Whether places are kept in one way with those of this many items before them: they count up from the first of these,
/// or both are listed.
fn goes_on(first: Option<u64>, count: u64, start: Option<u64>) -> bool
    ensures counted { (p : ℕ) → result ≡ true → first ≡ Some p → start ≡ Some (p + count) }
    ensures listed { result ≡ true → first ≡ None → start ≡ None }
{
    match (first, start) {
        (Some(first), Some(start)) => first <= start && start - first == count,
        (None, None) => true,
        (Some(_), None) | (None, Some(_)) => false,
    }
}

/// Adds values after others, and the places that are listed for them. If an allocation fails, both stay as they were.
fn extend<I: SourceItems>(
    places: &mut Vec<u64>,
    stored: &mut Vec<i64>,
    start: Option<u64>,
    source: &I,
    values: &[i64],
) -> Result<(), NoMemory>
    ensures places { OnOk result (places.new.items ≡ places.old.items ++ places_for start (I.items source.now)) }
    ensures values { OnOk result (stored.new.items ≡ stored.old.items ++ values.now) }
    ensures err { OnErr result ((places.new.items ≡ places.old.items) × (stored.new.items ≡ stored.old.items)) }
{
    let before = stored.len();
    stored.extend_from_slice(values)?;
    if let Err(refused) = add_places(places, start, source) {
        stored.truncate(before);
        return Err(refused);
    }
    Ok(())
}

/// Adds the places of a source's items, unless they count up. If an allocation fails, there are those of before.
fn add_places<I: SourceItems>(
    places: &mut Vec<u64>,
    start: Option<u64>,
    source: &I,
) -> Result<(), NoMemory>
    ensures ok { OnOk result (places.new.items ≡ places.old.items ++ places_for start (I.items source.now)) }
    ensures err { OnErr result (places.new.items ≡ places.old.items) }
{
    match start {
        Some(_) => Ok(()),
        None => list_places(places, source),
    }
}

/// Adds the places of a source's items. If an allocation fails, there are those of before.
fn list_places<I: SourceItems>(places: &mut Vec<u64>, source: &I) -> Result<(), NoMemory>
    ensures ok { OnOk result (places.new.items ≡ places.old.items ++ map (λ x. x.origin) (I.items source.now)) }
    ensures err { OnErr result (places.new.items ≡ places.old.items) }
{
    let before = places.len();
    for position in 0..source.count() {
        if let Err(refused) = places.push(source.item_at(position).origin) {
            places.truncate(before);
            return Err(refused.into());
        }
    }
    Ok(())
}
