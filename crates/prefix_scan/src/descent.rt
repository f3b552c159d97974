//! The pass down over a chunk, where its items are stored.

ghost use Rattle.std.specs.Prelude.{◌≡◌, ◌+◌, ℕ, []};
ghost use Rattle.trace.specs.Trace.{trace};
ghost use Rattle.reduce_ops.specs.Operators.{value_of};
ghost use Rattle.prefix_scan.specs.Prefixes.{is_within};
ghost use Rattle.prefix_scan.specs.Scans.{scan_at};

use crate::scan::scan_items;
use reduce_ops::Op;
use trace::{Chunk, Item, Rewrite};

/// Replaces each item of the chunk whose position is in `at` by the fold of `start` and of all these items up to and
/// with it; the others and the end stay. Positions count from the first item of the chunk; without `at` all count. It
/// takes no memory.
///
/// `start` is the fold of what lies left of the chunk, which `up` and `merge` give; `None` if nothing lies there.
///
/// For other programs: `streamrun` scans values that lie side by side, by the loops below this one.
pub fn down(op: Op, at: Option<(u64, u64)>, start: Option<i64>, chunk: &mut Chunk)
    ensures { chunk.new ≡ trace (scan_at (value_of op) at 0 start chunk.old.items) chunk.old.ending }
{
    let mut pass = PassDown {
        op,
        range: at,
        before: start,
    };
    chunk.rewrite(&mut pass);
}

/// A pass down that has come so far: the range in positions from the next item on, and the fold of what lies left of
/// it.
#[derive(Drop)]
struct PassDown {
    op: Op,
    range: Option<(u64, u64)>,
    before: Option<i64>,
}

impl Rewrite for PassDown {
    ghost rewritten = { λ pass items. scan_at (value_of pass.op) pass.range 0 pass.before items };

    ghost nothing = { λ pass i. [] };

    fn rewrite(&mut self, items: &mut [Item]) {
        self.before = scan_items(self.op, self.range, self.before, items);
        self.range = positions_after(self.range, items.len() as u64);
    }
}

/// The range in positions from the item after this many on.
fn positions_after(range: Option<(u64, u64)>, count: u64) -> Option<(u64, u64)>
    ensures { (j : ℕ) → is_within result j ≡ is_within range (count + j) }
{
    let (from, to) = range?;
    Some((from.saturating_sub(count), to.saturating_sub(count)))
}
