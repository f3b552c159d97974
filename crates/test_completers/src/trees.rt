//! Trees that are run, on one thread and on several.
ghost use Rattle.std.specs.Prelude.{None};

use crate::runs::walk_numbers;
use completer_tree::{
    Continuation, Failure, First as Step, Forked, Handed, Next, PartValue, Tree, TreeCounts,
};
use completion_core::Node;
use std::alloc::{AllocError, Global};
use std::sync::Arc;
use std::test::Fail;
use std::thread::Threads;

/// A value whose owners are counted.
#[derive(Drop)]
struct Shared {
    value: Arc<u8>,
}

#[derive(Clone, Copy)]
struct Spot {
    number: u8,
}

impl PartValue for Shared {
    type Tag = Spot;

    ghost fits = { λ _ _ _. Unit {0} };

    ghost result = { λ _ _. Unit {0} };
}

/// Gives the left value, at the top of a tree.
#[derive(Drop)]
struct First {
    spot: Spot,
}

impl Continuation<Shared> for First {
    ghost tag_of = { λ c. c.spot };

    ghost goes_to = { λ _. None };

    ghost leads = { λ c p e v h. tt };

    ghost ends = { λ c e v h. tt };

    fn tag(&self) -> Spot {
        self.spot
    }

    fn goes_to(&self) -> Option<(Spot, bool)> {
        None
    }

    fn on_completion(self, left: Shared, _right: Shared) -> Handed<Shared> {
        Ok(left)
    }

    fn on_exceptional_completion(self, failure: Failure) -> Handed<Shared> {
        Err(failure)
    }
}

/// The numbers from 0 up to, not with, another, with -1 at some places.
fn numbers(alloc: Global, count: u16, bad: &[u16]) -> Result<Vec<i64>, AllocError> {
    let mut numbers = Vec::new(alloc);
    for i in 0..count {
        numbers.push(if bad.contains(&i) { -1 } else { i64::from(i) })?;
    }
    Ok(numbers)
}

/// Whether the walk gives these numbers, or a fault at the place, over trees of any number of nodes on 1, 2 and 8
/// threads.
fn gives<R: Threads + Sync>(rt: &R, alloc: Global, numbers: &[i64], fault: Option<u64>) -> bool {
    for nodes in [0, 1, 2, 3, 4096] {
        for levels in [0, 1, 3] {
            let is_right = match walk_numbers(rt, alloc, numbers, nodes, levels) {
                Some(Ok(found)) => fault.is_none() && found.as_slice() == numbers,
                Some(Err(Failure::Fault(found))) => fault.is_some() && found.origin == fault,
                _ => false,
            };
            if !is_right {
                return false;
            }
        }
    }
    true
}

#[test]
fn numbers_keep_their_order_on_any_tree(rt: HostRuntime) -> Result<(), Fail> {
    for count in [0, 1, 2, 3, 10, 1000] {
        let numbers = numbers(rt.alloc(), count, &[])?;
        assert!(rt; gives(&rt, rt.alloc(), &numbers, None), "{count} numbers");
    }
    Ok(())
}

#[test]
fn the_leftmost_fault_is_the_result(rt: HostRuntime) -> Result<(), Fail> {
    for (count, bad, first) in [(1, [0, 0], 0), (10, [9, 3], 3), (1000, [700, 299], 299)] {
        let numbers = numbers(rt.alloc(), count, &bad)?;
        assert!(rt;
            gives(&rt, rt.alloc(), &numbers, Some(first)),
            "{count} numbers"
        );
    }
    Ok(())
}

const TOP: First = First {
    spot: Spot { number: 1 },
};

#[test]
fn values_of_a_dropped_tree_are_dropped_once(rt: HostRuntime) -> Result<(), Fail> {
    let value = Arc::new(rt.alloc(), 7u8)?;
    let (counts, seat) = TreeCounts::<Shared, First>::new(rt.alloc(), 1, 0)?;
    let tree = Tree::new(&counts, &[]);
    let Forked::Split(left, right) = tree.fork(seat, None, TOP) else {
        return Err(Fail::from(AllocError));
    };
    let own = Shared {
        value: Arc::try_clone(&value)?,
    };
    let (_seat, none) = tree.try_complete(left.seat, Some(left.place), Ok(own));
    assert!(rt; none.is_none() && Arc::strong_count(&value) == 2);
    drop(right);
    drop(counts);
    assert!(rt; Arc::strong_count(&value) == 1);
    Ok(())
}

/// A failure beside a value that was handed in: whether it is the result, and let the value go.
fn fails_beside(alloc: Global, value: &Arc<u8>) -> Option<bool> {
    let (counts, seat) = TreeCounts::<Shared, First>::new(alloc, 1, 0).ok()?;
    let tree = Tree::new(&counts, &[]);
    let Forked::Split(left, right) = tree.fork(seat, None, TOP) else {
        return None;
    };
    let own = Shared {
        value: Arc::try_clone(value).ok()?,
    };
    let (_seat, _none) = tree.try_complete(left.seat, Some(left.place), Ok(own));
    let (_seat, found) = tree.complete_exceptionally(
        right.seat,
        Some(right.place),
        Failure::NoMemory,
    );
    let is_failure = found.is_some_and(|handed| handed.is_err());
    Some(is_failure && Arc::strong_count(value) == 1)
}

#[test]
fn a_failure_lets_the_other_side_s_value_go(rt: HostRuntime) -> Result<(), Fail> {
    let value = Arc::new(rt.alloc(), 7u8)?;
    assert!(rt; fails_beside(rt.alloc(), &value) == Some(true));
    Ok(())
}

/// Hands 8 in on the right and then 7 on the left: the top of the tree, the pending count after the first step, and
/// what the last one finds.
fn right_side_first(alloc: Global, seven: Shared, eight: Shared) -> Option<(Node, u64, u8)> {
    let (counts, seat) = TreeCounts::<Shared, First>::new(alloc, 1, 0).ok()?;
    let tree = Tree::new(&counts, &[]);
    let Forked::Split(left, right) = tree.fork(seat, None, TOP) else {
        return None;
    };
    let root = left.place.root();
    let Step::Pending(_seat, pending) = tree.first_complete(right.seat, right.place, Ok(eight))
    else {
        return None;
    };
    let Step::Last(seat, finisher) = tree.first_complete(left.seat, left.place, Ok(seven)) else {
        return None;
    };
    let Next::Whole(_seat, found) = tree.next_complete(seat, finisher) else {
        return None;
    };
    Some((root, pending, *found.ok()?.value))
}

#[test]
fn the_left_value_stands_on_the_left_whichever_came_last(rt: HostRuntime) -> Result<(), Fail> {
    let [seven, eight] = [Arc::new(rt.alloc(), 7u8)?, Arc::new(rt.alloc(), 8u8)?];
    let found = right_side_first(rt.alloc(), Shared { value: seven }, Shared { value: eight });
    assert!(rt; found == Some((1, 0, 7)));
    Ok(())
}
