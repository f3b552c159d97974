//! Items, and which of them have new values.

ghost use Rattle.std.specs.Prelude.{◌≡◌, ◌<◌, ◌≤◌, ◌+◌, ℕ, [], ◌++◌, length, vec_len, vec_capacity};
ghost use Rattle.std.specs.Prelude.{false, true, None, IfOk, IfSome, OnErr, OnOk};
ghost use Rattle.sort_ops.specs.declared.lookup.Lookup.{Lookup};
ghost use Rattle.sort_ops.specs.Firsts.{firsts};
ghost use Rattle.sort_ops.specs.NewValues.{AreKnown, AreNoted};

use crate::item_slice::ItemSlice;
use crate::lookup::{Lookup, rise_or_fall, take_out, take_out_by_classes};
use crate::noted::Noted;
use std::alloc::Global;
use std::marker::Model;
use trace::{Item, NoMemory, SourceItems};

/// How many new items are looked up together.
const LOOSE: usize = 1024;

/// Up to how many items need no set, if nobody asks how many have new values.
const FEW: usize = 2048;

/// At how many items it is seen whether others have values that were noted.
const SAMPLES: usize = 64;

/// From how many items on they are looked up by classes.
const MANY: usize = 65_536;

/// Items, of which the first ones were looked up. Contracts see the items whose value no item before them has: the
/// others stay out if their value is noted, and are taken out where that is asked for, and where there is memory.
#[derive(Drop)]
pub(crate) struct NewValues {
    items: Vec<Item>,
    /// Values of some of the items.
    noted: Noted,
    /// How many items were looked up. They have different values, if the lookup isn't partial.
    known: usize,
    lookup: Lookup,
    /// How many items there were when all were last known to have new values.
    settled: usize,
}

impl Model for NewValues {
    ghost use Rattle.std.specs.Prelude.{List, []};
    ghost use Rattle.lambda_values.specs.declared.item.Item.{Item as item};
    ghost use Rattle.sort_ops.specs.Firsts.{firsts};
    ghost use Rattle.sort_ops.specs.NewValues.{AreKnown, AreNoted};

    ghost Value = { List item };

    ghost view = { λ kept. firsts [] kept.items.items };

    ghost invariant = { λ kept. AreKnown kept.items.items kept.known kept.lookup
        × AreNoted kept.noted kept.items.items };
}

impl NewValues {
    /// No items. It takes no memory.
    pub(crate) fn none(alloc: Global) -> NewValues
        ensures { result ≡ [] }
    {
        NewValues {
            items: Vec::new(alloc),
            noted: Noted::none(alloc),
            known: 0,
            lookup: Lookup::without_set(alloc),
            settled: 0,
        }
    }

    /// How many items there are, also of those whose value isn't new.
    pub(crate) fn len(&self) -> usize {
        self.items.len()
    }

    /// Whether it is time to look new items up: there are many, or these may be enough and a set has the others.
    pub(crate) fn is_due(&self, may_be_enough: bool) -> bool {
        let new = self.items.len().saturating_sub(self.known);
        new >= LOOSE || may_be_enough && (!self.lookup.partial || self.are_doubled())
    }

    /// Whether there are twice the items of which it was last known that all have new values: a walk over all of them
    /// is due only then.
    fn are_doubled(&self) -> bool {
        self.items.len() / 2 >= self.settled
    }

    /// Adds the items of a source. If the allocation fails, there are those of before.
    pub(crate) fn add<I: SourceItems>(&mut self, source: &I) -> Result<(), NoMemory>
        ensures ok { OnOk result (self.new ≡ firsts [] (self.old ++ I.items source.now)) }
        ensures err { OnErr result (self.new ≡ self.old) }
        ensures refused { OnErr result (0 < length (I.items source.now)) }
    {
        self.items.reserve(source.count() as usize)?;
        add_unnoted(&mut self.items, &mut self.noted, source);
        Ok(())
    }

    /// Adds the items of others, those with a noted value too if that seems seldom. If the allocation fails, there are
    /// those of before.
    pub(crate) fn append(&mut self, others: &NewValues) -> Result<(), NoMemory>
        ensures ok { OnOk result (self.new ≡ firsts [] (self.old ++ others.now)) }
        ensures err { OnErr result (self.new ≡ self.old) }
    {
        if self.is_likely_to_have(others) {
            return self.add(&ItemSlice::Items(&others.items));
        }
        self.items.extend_from_slice(&others.items)?;
        Ok(())
    }

    /// Whether the value of one of some items of others is noted, or none is noted yet.
    fn is_likely_to_have(&self, others: &NewValues) -> bool {
        let step = others.items.len() / SAMPLES + 1;
        let mut some = others.items.iter().step_by(step);
        self.noted.is_empty() || some.any(|item| self.noted.has(*item))
    }

    /// Takes out items whose value isn't new. The result is how many are left, if all of these have new values: it is
    /// none if that wasn't asked for and there are few, or if memory was refused.
    pub(crate) fn settle(&mut self, may_be_enough: bool) -> Option<usize>
        ensures same { self.new ≡ self.old }
        ensures count { IfSome result (λ count. count ≡ length self.new) }
    {
        let least = if may_be_enough && self.are_doubled() {
            0
        } else {
            FEW.max(self.settled.saturating_mul(2))
        };
        if !take_out_new(&mut self.items, &mut self.known, &mut self.lookup, least) {
            return None;
        }
        self.settled = self.items.len();
        Some(self.settled)
    }

    /// Frees the memory of a large set.
    pub(crate) fn free_large_set(&mut self)
        ensures { self.new ≡ self.old }
    {
        if self.known >= MANY {
            self.lookup = Lookup::without_set(*self.items.allocator());
        }
    }

    /// The items whose value is new.
    pub(crate) fn into_items(self) -> Result<Vec<Item>, NoMemory>
        ensures ok { IfOk result (λ items. items.items ≡ self) }
        ensures refused { OnErr result (0 < length self) }
    {
        let NewValues {
            mut items,
            noted: _,
            mut known,
            mut lookup,
            settled: _,
        } = self;
        if !take_out_new(&mut items, &mut known, &mut lookup, 0) {
            return Err(NoMemory);
        }
        Ok(items)
    }
}

/// Adds the items of a source whose value isn't noted, and notes the value of each.
fn add_unnoted<I: SourceItems>(items: &mut Vec<Item>, noted: &mut Noted, source: &I)
    requires noted { AreNoted noted.old items.old.items }
    requires room { vec_len items.old + length (I.items source.now) ≤ vec_capacity items.old }
    ensures noted { AreNoted noted.new items.new.items }
    ensures known { (count : ℕ) (l : Lookup) → AreKnown items.old.items count l → AreKnown items.new.items count l }
    ensures same { firsts [] items.new.items ≡ firsts [] (items.old.items ++ I.items source.now) }
{
    for position in 0..source.count() {
        let item = source.item_at(position);
        if !noted.has(item) {
            items.push_reserved(item);
            noted.note(item, items.len());
        }
    }
}

/// Takes out items whose value isn't new, if a set was begun or if there are at least `least`. Whether none of those is
/// left.
fn take_out_new(items: &mut Vec<Item>, known: &mut usize, lookup: &mut Lookup, least: usize) -> bool
    requires { AreKnown items.old.items known.old lookup.old }
    ensures known { AreKnown items.new.items known.new lookup.new }
    ensures same { firsts [] items.new.items ≡ firsts [] items.old.items }
    ensures new { result ≡ true → firsts [] items.new.items ≡ items.new.items }
    ensures some { result ≡ false → least ≡ 0 → 0 < length items.old.items }
{
    if items.len() - *known >= MANY {
        *lookup = Lookup::without_set(*items.allocator());
    }
    if !lookup.partial {
        take_out(items, *known, lookup);
    }
    *known = items.len();
    if !lookup.partial {
        return true;
    }
    if items.len() < least {
        return false;
    }
    take_out_all(items, known, lookup)
}

/// Takes out all items whose value isn't new: none if they rise or fall, else by a set, or by classes if there are
/// many. If an allocation fails, some may stay, and the result is false.
fn take_out_all(items: &mut Vec<Item>, known: &mut usize, lookup: &mut Lookup) -> bool
    requires { lookup.old.class ≡ None }
    ensures known { AreKnown items.new.items known.new lookup.new }
    ensures same { firsts [] items.new.items ≡ firsts [] items.old.items }
    ensures new { result ≡ true → firsts [] items.new.items ≡ items.new.items }
    ensures some { result ≡ false → 0 < length items.old.items }
{
    if rise_or_fall(items) {
        *lookup = Lookup::without_set(*items.allocator());
        *known = items.len();
        return true;
    }
    if items.len() >= MANY {
        *lookup = Lookup::without_set(*items.allocator());
        let taken = take_out_by_classes(items);
        *known = items.len();
        return taken.is_ok();
    }
    lookup.begin_set(*items.allocator(), items.len());
    take_out(items, 0, lookup);
    *known = items.len();
    !lookup.partial
}
