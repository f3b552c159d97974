//! How walks end that go on, or that are asked for some items alone.

ghost use Rattle.std.specs.Prelude.{◌≡◌};
ghost use Rattle.trace.specs.Trace.{trace};
ghost use Rattle.sort_ops.specs.Parts.{done_after, end_after};

use trace::{End, Item};

/// The end of a walk that goes on after this end, if it can, and ends so.
pub(crate) fn end_after(before: End, end: End) -> End
    ensures { result ≡ end_after before end }
{
    match before {
        End::Done => end,
        End::Fault(_) => before,
    }
}

/// A walk that is done after this number of its items, if one is given.
pub(crate) fn cut_off(most: Option<u64>, items: Vec<Item>, end: End) -> (Vec<Item>, End)
    ensures { trace result.0.items result.1 ≡ done_after most (trace items.items end) }
{
    let Some(most) = most else {
        return (items, end);
    };
    if (items.len() as u64) < most {
        return (items, end);
    }
    let mut items = items;
    items.truncate(most as usize);
    (items, End::Done)
}
