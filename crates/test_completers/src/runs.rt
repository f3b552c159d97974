//! Runs of trees over all numbers.
ghost use Rattle.std.specs.Prelude.{◌≡◌, IfSome, length};
ghost use Rattle.test_completers.specs.Walks.{Walked};

use crate::walks::{Append, Items, Planned, walk_whole};
use completer_tree::{Failure, Handed, TreeCounts};
use std::alloc::Global;
use std::marker::Brand;
use std::thread::Threads;

fn walk_as<P: Planned + Send + Sync, R: Threads + Sync>(
    rt: &R,
    alloc: Global,
    numbers: &[i64],
    nodes: u32,
    levels: u32,
) -> Option<Handed<Vec<i64>>>
    requires source { numbers.now ≡ P.source }
    ensures { IfSome result (λ v. Walked (λ x. x.items) P.source 0 (length P.source) v) }
{
    let Ok((counts, seat)) = TreeCounts::<Items<P>, Append<P>>::new(alloc, nodes, 0) else {
        return Some(Err(Failure::NoMemory));
    };
    match walk_whole::<P, R>(rt, alloc, &counts, seat, numbers, levels)? {
        Ok(found) => Some(Ok(found.items)),
        Err(failure) => Some(Err(failure)),
    }
}

/// What the walk of all numbers gives, over a tree of at most `nodes` nodes, whose sides are walked on up to 2^`levels`
/// threads.
pub(crate) fn walk_numbers<R: Threads + Sync>(
    rt: &R,
    alloc: Global,
    numbers: &[i64],
    nodes: u32,
    levels: u32,
) -> Option<Handed<Vec<i64>>>
    ensures { IfSome result (λ v. Walked (λ x. x.items) numbers.now 0 (length numbers.now) v) }
{
    walk_as::<Brand, R>(rt, alloc, numbers, nodes, levels)
}
