//! Arrivals along paths of plain nodes.
ghost use Rattle.std.specs.Prelude.{◌≡◌, ℕ, Some, [], ◌∷◌, IfSome, take};
ghost use Rattle.completion_core.specs.Legal.{count};
ghost use Rattle.pending_count.specs.Seats.{view_of, IsSeatOf};
ghost use Rattle.completer_tree.specs.Paths.{IsPath};

use crate::counting::{Plain, PlainSeat};
use completer_tree::Tree;
use completion_core::Node;
use std::test::Fail;

/// Arms a node above a path, to keep the arrival at the path's first node.
fn arm_above(
    counts: &Plain,
    seat: PlainSeat,
    path: &[Node],
    pending: u32,
) -> Option<(PlainSeat, Node)>
    requires table { IsSeatOf counts.now seat }
    requires path { IsPath path.now (view_of seat) }
    requires plain { (k : ℕ) → count k (view_of seat).sides ≡ 0 }
    ensures table { IfSome result (λ s. IsSeatOf counts.now s.0) }
    ensures path { IfSome result (λ s. IsPath (s.1 ∷ path.now) (view_of s.0)) }
    ensures plain { IfSome result (λ s. (k : ℕ) → count k (view_of s.0).sides ≡ 0) }
{
    let (seat, drawn) = counts.claim(seat);
    let node = drawn?;
    Some((counts.arm(seat, node, pending, first_of(path)), node))
}

/// The first node of a path, if there is one.
fn first_of(path: &[Node]) -> &[Node]
    ensures { result.now ≡ take 1 path.now }
{
    if path.is_empty() { path } else { &path[..1] }
}

/// What a path of three nodes with these pending counts answers; the first count is for the path's first node.
fn finished(counts: &Plain, seat: PlainSeat, pending: [u32; 3]) -> Option<usize>
    requires table { IsSeatOf counts.now seat }
    requires plain { (k : ℕ) → count k (view_of seat).sides ≡ 0 }
{
    let [first, second, third] = pending;
    let (seat, top) = arm_above(counts, seat, &[], third)?;
    let (seat, middle) = arm_above(counts, seat, &[top], second)?;
    let (seat, leaf) = arm_above(counts, seat, &[middle, top], first)?;
    let tree = Tree::new(counts, &[]);
    let (_seat, finished) = tree.propagate_completion(seat, &[leaf, middle, top]);
    Some(finished)
}

#[test]
fn propagation_stops_at_a_node_that_is_still_pending(rt: HostRuntime) -> Result<(), Fail> {
    for (pending, want) in [
        ([0, 1, 0], 1),
        ([1, 0, 0], 0),
        ([0, 0, 0], 3),
        ([0, 0, 2], 2),
    ] {
        let (counts, seat) = Plain::new(rt.alloc(), 3, 0)?;
        assert!(rt;
            finished(&counts, seat, pending) == Some(want),
            "{want} of three nodes"
        );
    }
    Ok(())
}
