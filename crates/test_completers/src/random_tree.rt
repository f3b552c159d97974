//! Callers that join seats and run a tree of ten thousand nodes on eight threads, proved and run.
ghost use Rattle.std.specs.Prelude.{◌≡◌, ℕ, ◌+◌, ◌-◌, ◌^◌, ◌<◌, ◌≤◌, [], ◌∷◌, IfOk, IfSome};
ghost use Rattle.std.specs.Thread.{IsSync};
ghost use Rattle.completion_core.specs.Legal.{count};
ghost use Rattle.pending_count.specs.Views.{IsPlainAt, first_view};
ghost use Rattle.pending_count.specs.Seats.{view_of, IsSeatOf, nodes_of};
ghost use Rattle.test_completers.specs.RandomTrees.{parent, Knows, Has, IsInTree, CanClimb};

use crate::counting::{Plain, PlainSeat};
use completion_core::Node;
use pending_count::Arrived;
use std::alloc::{AllocError, Global};
use std::test::Fail;
use std::thread;
use std::thread::Threads;

const NODES: Node = 10_000;

/// Where a node keeps an arrival: END for the first node, a smaller one, picked by a multiplicative hash, for each
/// other.
fn parent_of(node: Node) -> Node
    ensures { result ≡ parent node }
{
    if node < 2 {
        return 0;
    }
    (u64::from(node) * 2_654_435_761 / 65_536 % u64::from(node - 1)) as Node + 1
}

/// Arms the first node, which keeps the arrival at END.
fn plant(counts: &Plain, seat: PlainSeat) -> Option<PlainSeat>
    requires table { IsSeatOf counts.now seat }
    requires first { view_of seat ≡ first_view 1 }
    ensures { IfSome result (λ later. IsSeatOf counts.now later × Knows 1 (view_of later) × Has 1 2 (view_of later)) }
{
    let (seat, drawn) = counts.claim(seat);
    if drawn? != 1 {
        return None;
    }
    Some(counts.arm(seat, 1, 0, &[0]))
}

/// Arms the next node, which keeps a new arrival at its parent. `None` where another node is drawn than this one.
fn grow_one(counts: &Plain, seat: PlainSeat, node: Node) -> Option<PlainSeat>
    requires table { IsSeatOf counts.now seat }
    requires node { 1 < node }
    requires knows { Knows (node - 1) (view_of seat) }
    requires has { Has 1 node (view_of seat) }
    ensures { IfSome result (λ later. IsSeatOf counts.now later × Knows node (view_of later)
        × Has 1 (node + 1) (view_of later)) }
{
    let parent = parent_of(node);
    let Ok(seat) = counts.add(seat, parent, 1) else {
        return None;
    };
    let (seat, drawn) = counts.claim(seat);
    if drawn? != node {
        return None;
    }
    Some(counts.arm(seat, node, 0, &[parent]))
}

/// Arms all nodes in order, on one seat. Each then owes one arrival for itself, and one for each node whose parent it
/// is.
fn grow(counts: &Plain, seat: PlainSeat) -> Option<PlainSeat>
    requires table { IsSeatOf counts.now seat }
    requires first { view_of seat ≡ first_view 1 }
    ensures { IfSome result (λ later. CanClimb counts.now 1 (nodes_of counts.now + 1) later) }
{
    let mut seat = plant(counts, seat)?;
    for node in 2..=counts.nodes() {
        seat = grow_one(counts, seat, node)?;
    }
    Some(seat)
}

/// Arrives at the node, and where that is the last arrival, at what the node kept, and so on up to END. `entered` gets
/// each node that may run.
fn climb(
    counts: &Plain,
    seat: PlainSeat,
    node: Node,
    entered: &mut Vec<Node>,
) -> Result<PlainSeat, AllocError>
    requires seat { IsInTree counts.now seat }
    requires node { (0 < node) × (node ≤ nodes_of counts.now) }
    requires have { 0 < count node (view_of seat).held }
    ensures seat { IfOk result (λ later. IsInTree counts.now later) }
    ensures held { IfOk result (λ later. (j : ℕ)
        → count j (view_of seat).held ≤ count j (view_of later).held + count j (node ∷ [])) }
{
    let (seat, finish) = match counts.arrive(seat, node) {
        Arrived::Pending(seat, _pending) => return Ok(seat),
        Arrived::Last(seat, finish) => (seat, finish),
    };
    entered.push(finish.node())?;
    let parent = parent_of(node);
    if parent == 0 {
        return Ok(counts.settle(seat));
    }
    climb(counts, seat, parent, entered)
}

/// Climbs from each node `from`, `from + 1`, .. `to - 1`: the nodes that it entered.
fn climb_all(
    alloc: Global,
    counts: &Plain,
    seat: PlainSeat,
    from: Node,
    to: Node,
) -> Result<Vec<Node>, AllocError>
    requires nodes { (0 < from) × (to ≤ nodes_of counts.now + 1) }
    requires seat { CanClimb counts.now from to seat }
{
    let mut entered = Vec::new(alloc);
    let mut seat = seat;
    for node in from..to {
        seat = climb(counts, seat, node, &mut entered)?;
    }
    Ok(entered)
}

/// A second seat for the nodes from `middle` on: their arrivals are split off one by one, and each is joined to that
/// seat.
fn hand_over(
    counts: &Plain,
    seat: PlainSeat,
    from: Node,
    middle: Node,
    to: Node,
) -> (PlainSeat, PlainSeat)
    requires nodes { (from ≤ middle) × (middle ≤ to) }
    requires seat { CanClimb counts.now from to seat }
    ensures rest { CanClimb counts.now from middle result.0 }
    ensures part { CanClimb counts.now middle to result.1 }
{
    let (mut rest, mut part) = counts.split(seat, 0, 0, 0);
    for node in middle..to {
        let (fewer, one) = counts.split(rest, node, 1, 0);
        rest = fewer;
        part = counts.join(part, one);
    }
    (rest, part)
}

/// The nodes `from`, `from + 1`, .. `to - 1`.
#[derive(Clone, Copy)]
struct NodeRange {
    from: Node,
    to: Node,
}

/// Climbs from each node of the range, on 2^`levels` threads: the nodes that it entered.
#[cycle(halves)]
fn on_threads<R: Threads + Sync>(
    rt: &R,
    alloc: Global,
    counts: &Plain,
    seat: PlainSeat,
    nodes: NodeRange,
    levels: u32,
) -> Result<Vec<Node>, AllocError>
    requires nodes { (0 < nodes.from) × (nodes.from ≤ nodes.to) × (nodes.to ≤ nodes_of counts.now + 1) }
    requires seat { CanClimb counts.now nodes.from nodes.to seat }
{
    let NodeRange { from, to } = nodes;
    if levels == 0 {
        return climb_all(alloc, counts, seat, from, to);
    }
    let middle = from + (to - from) / 2;
    let (low, high) = hand_over(counts, seat, from, middle, to);
    let (one, other) = thread::join(
        rt,
        move || -> Result<Vec<Node>, AllocError>
            requires { IsSync R.row × (0 < levels) × (0 < from) × (from ≤ middle) × (middle ≤ nodes_of counts.now + 1)
                × CanClimb counts.now from middle low }
        {
            on_threads(
                rt,
                alloc,
                counts,
                low,
                NodeRange { from, to: middle },
                levels - 1,
            )
        },
        move || -> Result<Vec<Node>, AllocError>
            requires { IsSync R.row × (0 < levels) × (0 < middle) × (middle ≤ to) × (to ≤ nodes_of counts.now + 1)
                × CanClimb counts.now middle to high }
        {
            on_threads(
                rt,
                alloc,
                counts,
                high,
                NodeRange { from: middle, to },
                levels - 1,
            )
        },
    );
    let mut entered = one?;
    entered.append(&mut other?)?;
    Ok(entered)
}

#[test]
fn eight_threads_enter_each_node_of_a_large_tree_once(rt: HostRuntime) -> Result<(), Fail> {
    let (counts, seat) = Plain::new(rt.alloc(), NODES, 1)?;
    let seat = grow(&counts, seat).expect(&rt, "each node is drawn");
    let (seat, aside) = counts.split(seat, 0, 0, 0);
    let all = NodeRange {
        from: 1,
        to: NODES + 1,
    };
    let mut entered = on_threads(&rt, rt.alloc(), &counts, seat, all, 3)?;
    entered.sort()?;
    assert!(rt; entered.iter().copied().eq(1..=NODES));
    let (_aside, left) = counts.left(aside);
    assert!(rt; left == 0);
    Ok(())
}
