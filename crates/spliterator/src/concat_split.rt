//! Sources one after the other.

ghost use Rattle.std.specs.Prelude.{◌≡◌, ℕ, ◌+◌, ◌^◌, ◌<◌, ◌≤◌, length, ◌++◌, [], ◌∷◌, IfSome, IfNone};
ghost use Rattle.trace.specs.Cover.{placed};
ghost use Rattle.spliterator.specs.Parts.{plain_values, all_values, front_of};
ghost use Rattle.spliterator.specs.Splits.{IsSplit};

use crate::array_split::ArraySplit;
use crate::characteristics::{IMMUTABLE, NONNULL, ORDERED, SIZED, SUBSIZED};
use crate::long_spliterator::LongSpliterator;
use crate::plain_split::PlainSplit;
use trace::{Item, MAX_SOURCE_SIZE};

/// The items of `LongStream.concat`, or a piece of them. It borrows the parts.
///
/// Places count through all parts, whatever places a part would give its items by itself.
#[derive(Clone, Copy)]
pub struct ConcatSplit<'a> {
    /// What is left of the first part.
    head: PlainSplit<'a>,
    /// The parts after it, each of them whole.
    tail: &'a [PlainSplit<'a>],
    /// The place of the first item that is left.
    origin: u64,
    /// The number of items that are left.
    size: u64,
    ghost sized: { size ≡ length (plain_values head ++ all_values tail.now) },
    ghost short: { origin + size ≤ 2 ^ 62 },
}

impl<'a> ConcatSplit<'a> {
    /// These parts one after the other. `None` exactly if they have more than 2^62 items.
    pub fn of(parts: &'a [PlainSplit<'a>]) -> Option<ConcatSplit<'a>>
        ensures some { IfSome result (λ split. placed split.origin
            (plain_values split.head ++ all_values split.tail.now) ≡ placed 0 (all_values parts.now)) }
        ensures none { IfNone result (2 ^ 62 < length (all_values parts.now)) }
    {
        let size = total_size(parts)?;
        Some(ConcatSplit {
            head: no_items(),
            tail: parts,
            origin: 0,
            size,
        })
    }

    /// Hands out `front`, of this many items, and keeps `back` and the tail. The two are the head.
    fn hand_out(
        &mut self,
        size: u64,
        front: PlainSplit<'a>,
        back: PlainSplit<'a>,
    ) -> ConcatSplit<'a>
        requires size { size ≡ length (plain_values front) }
        requires whole { plain_values front ++ plain_values back ≡ plain_values self.old.head }
        ensures values { plain_values result.head ++ all_values result.tail.now ≡ plain_values front.entry }
        ensures front { placed result.origin (plain_values result.head ++ all_values result.tail.now)
            ≡ placed self.old.origin (plain_values front.entry) }
        ensures back { placed self.new.origin (plain_values self.new.head ++ all_values self.new.tail.now)
            ≡ placed (self.old.origin + size) (plain_values back.entry ++ all_values self.old.tail.now) }
    {
        let prefix = ConcatSplit {
            head: front,
            tail: &[],
            origin: self.origin,
            size,
        };
        *self = ConcatSplit {
            head: back,
            tail: self.tail,
            origin: self.origin + size,
            size: self.size - size,
        };
        prefix
    }

    /// Goes on to the next part that has items, if there is one.
    fn skip_empty_parts(&mut self)
        ensures same { placed self.new.origin (plain_values self.new.head ++ all_values self.new.tail.now)
            ≡ placed self.old.origin (plain_values self.old.head ++ all_values self.old.tail.now) }
        ensures front { front_of (self.new.head ∷ self.new.tail.now) ≡ front_of (self.old.head ∷ self.old.tail.now) }
        ensures none { plain_values self.new.head ≡ [] → all_values self.new.tail.now ≡ [] }
    {
        while self.head.exact_size() == 0 {
            let Some((next, later)) = self.tail.split_first() else {
                return;
            };
            *self = ConcatSplit {
                head: *next,
                tail: later,
                origin: self.origin,
                size: self.size,
            };
        }
    }
}

impl<'a> LongSpliterator for ConcatSplit<'a> {
    ghost items = { λ split. placed split.origin (plain_values split.head ++ all_values split.tail.now) };

    ghost flags = { 0x4550 };

    /// Hands out the first of two or more parts with items; the only part with items is split itself.
    fn try_split(&mut self) -> Option<ConcatSplit<'a>>
        ensures some { IfSome result
            (λ prefix. IsSplit (placed prefix.origin (plain_values prefix.head ++ all_values prefix.tail.now))
            (placed self.new.origin (plain_values self.new.head ++ all_values self.new.tail.now))
            (placed self.old.origin (plain_values self.old.head ++ all_values self.old.tail.now))) }
        ensures none { IfNone result (placed self.new.origin
            (plain_values self.new.head ++ all_values self.new.tail.now)
            ≡ placed self.old.origin (plain_values self.old.head ++ all_values self.old.tail.now)) }
        ensures few { IfNone result
            (length (placed self.old.origin (plain_values self.old.head ++ all_values self.old.tail.now)) < 2) }
        ensures front { IfSome result (λ prefix. plain_values prefix.head ++ all_values prefix.tail.now
            ≡ front_of (self.old.head ∷ self.old.tail.now)) }
    {
        self.skip_empty_parts();
        let head_size = self.head.exact_size();
        if head_size < self.size {
            return Some(self.hand_out(head_size, self.head, no_items()));
        }
        let mut head = self.head;
        let Some(front) = head.try_split() else {
            return None;
        };
        Some(self.hand_out(front.exact_size(), front, head))
    }

    fn try_advance(&mut self) -> Option<Item> {
        self.skip_empty_parts();
        let mut head = self.head;
        let Some(first) = head.try_advance() else {
            return None;
        };
        let item = Item {
            origin: self.origin,
            value: first.value,
        };
        *self = ConcatSplit {
            head,
            tail: self.tail,
            origin: self.origin + 1,
            size: self.size - 1,
        };
        Some(item)
    }

    fn exact_size(&self) -> u64 {
        self.size
    }

    fn characteristics(&self) -> u32 {
        ORDERED | SIZED | NONNULL | IMMUTABLE | SUBSIZED
    }
}

/// A part without items.
fn no_items<'a>() -> PlainSplit<'a>
    ensures { plain_values result ≡ [] }
{
    PlainSplit::Array(ArraySplit::new(&[]))
}

/// The number of items of all parts, or `None` if there are more than 2^62.
fn total_size(parts: &[PlainSplit]) -> Option<u64>
    ensures some { IfSome result (λ size. size ≡ length (all_values parts.now)) }
    ensures short { IfSome result (λ size. size ≤ 2 ^ 62) }
    ensures none { IfNone result (2 ^ 62 < length (all_values parts.now)) }
{
    let mut total = 0;
    for part in parts {
        let size = part.exact_size();
        if size > MAX_SOURCE_SIZE - total {
            return None;
        }
        total += size;
    }
    Some(total)
}
