//! Positions within the first of two lists, and after it.

ghost use Rattle.std.specs.Prelude.{◌≡◌, min};
ghost use Rattle.prefix_walks.specs.Pieces.{after, earlier, moved, span};

/// Elements of a list: this number of them, from a position on.
#[derive(Clone, Copy)]
pub struct Portion {
    pub start: u64,
    pub count: u64,
}

/// The first of these positions within a list of this size, and how many there are.
pub fn within(from: u64, to: Option<u64>, size: u64) -> (u64, u64)
    ensures start { result.0 ≡ min from size }
    ensures count { result.1 ≡ span from to size }
{
    let end = match to {
        Some(to) => to.min(size),
        None => size,
    };
    (from.min(size), end.saturating_sub(from))
}

/// The end of positions, counted after this number of elements.
pub(crate) fn end_after(to: Option<u64>, size: u64) -> Option<u64>
    ensures { result ≡ after to size }
{
    Some(to?.saturating_sub(size))
}

/// The end of positions that are counted from this one on.
pub(crate) fn moved(to: Option<u64>, from: u64) -> Option<u64>
    ensures { result ≡ moved to from }
{
    Some(from.saturating_add(to?))
}

/// The first of two ends.
pub(crate) fn earlier(to: Option<u64>, other: Option<u64>) -> Option<u64>
    ensures { result ≡ earlier to other }
{
    match (to, other) {
        (Some(to), Some(other)) => Some(to.min(other)),
        (Some(to), None) => Some(to),
        (None, other) => other,
    }
}
