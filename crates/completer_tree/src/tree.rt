//! Trees over counts, and the forks that give them nodes.
ghost use Rattle.std.specs.Prelude.{◌≡◌, ◌/◌, ◌⊎◌, Some, None, IfSome, true, false};
ghost use Rattle.pending_count.specs.Seats.{view_of, IsSeatOf};
ghost use Rattle.completer_tree.specs.Places.{place_at, place_by};
ghost use Rattle.completer_tree.specs.Roots.{Rooted, KnowsTop, parent_of, root_of};
ghost use Rattle.completer_tree.specs.Trees.{table_id_of, CanFork, CanKeep, IsUnchanged};
ghost use Rattle.completer_tree.specs.Forks.{IfSplit, IfWhole, HalvesCredit};

use crate::completer::{Completer, place_at};
use crate::continuation::Continuation;
use crate::part::{Handed, PartValue};
use completion_core::Node;
use pending_count::{Counts, Fits, Place, Seat, Side};
use std::marker::PhantomData;

/// A tree of pairs over counts. Threads share it by `&`; nothing in it changes.
#[derive(Drop)]
pub struct Tree<'a, V, K: Fits<V>> {
    pub(crate) counts: &'a Counts<V, K>,
    pub(crate) onward: &'a [Node],
}

pub type TreeCounts<T, C> = Counts<Handed<T>, Completer<T, C>>;

pub type TreeSeat<T, C> = Seat<Handed<T>, Completer<T, C>>;

pub type CompleterTree<'a, T, C> = Tree<'a, Handed<T>, Completer<T, C>>;

/// One side of a node: the seat that holds its arrival, and the place at which its value is to be handed in.
#[derive(Drop)]
pub struct Half<V, K: Fits<V>> {
    pub seat: Seat<V, K>,
    pub place: Place<K::Tag>,
}

/// What a fork made.
#[derive(Drop)]
pub enum Forked<V, K: Fits<V>, C> {
    /// The left side and the right side of a new node. The right one has half of the credit.
    Split(Half<V, K>, Half<V, K>),
    /// No node could be claimed: the seat and the continuations come back.
    Whole(Seat<V, K>, C),
}

impl<'a, V, K: Fits<V>> Tree<'a, V, K> {
    /// A tree whose top node keeps an arrival of the seat's for each entry of `onward`. Whoever gets the tree's result
    /// gets them back.
    pub fn new(counts: &'a Counts<V, K>, onward: &'a [Node]) -> Tree<'a, V, K>
        ensures { (result.counts.now ≡ counts.now) × (result.onward.now ≡ onward.now) }
    {
        Tree { counts, onward }
    }
}

impl<'a, T: PartValue, C: Continuation<T>> Tree<'a, Handed<T>, Completer<T, C>> {
    /// Claims a node for the continuations `run`, below the place `at` or as the top of the tree, and splits the seat
    /// in two, one for each side. `Whole` only if the credit is 0 or all nodes were claimed. One `fetch_add`, one store
    /// and two loads.
    pub fn fork(
        &self,
        seat: TreeSeat<T, C>,
        at: Option<Place<T::Tag>>,
        run: C,
    ) -> Forked<Handed<T>, Completer<T, C>, C>
        requires table { IsSeatOf self.now.counts.now seat }
        requires at { IfSome at (λ p. CanFork (table_id_of self.now.counts.now) p seat
            × (at ≡ place_by p.node p.root (C.goes_to run))) }
        requires top { at ≡ None → (C.goes_to run ≡ None) × CanKeep self.now.onward.now (view_of seat) }
        requires rooted { Rooted (view_of seat).places }
        ensures split { IfSplit result (λ l r. CanFork (table_id_of self.now.counts.now) l.place l.seat
            × CanFork (table_id_of self.now.counts.now) r.place r.seat) }
        ensures places { IfSplit result (λ l r. (l.place ≡ place_at l.place.node l.place.root (C.tag_of run, true))
            × (r.place ≡ place_at l.place.node l.place.root (C.tag_of run, false))) }
        ensures tops { IfSplit result (λ l r. KnowsTop at self.now.onward.now l.place (view_of seat) (view_of l.seat)
            × KnowsTop at self.now.onward.now r.place (view_of seat) (view_of r.seat)) }
        ensures credit { IfSplit result
            (λ l r. HalvesCredit (view_of seat).credit (view_of l.seat).credit (view_of r.seat).credit) }
        ensures why { IfWhole result (λ later _. ((view_of seat).credit ≡ 0) ⊎ ((view_of later).none_left ≡ true)) }
        ensures still { IfWhole result (λ later _. IfSome at (λ p. CanFork (table_id_of self.now.counts.now) p later)) }
        ensures whole { IfWhole result (λ later same. (same ≡ run) × IsSeatOf self.now.counts.now later
            × IsUnchanged seat later) }
    {
        let (seat, drawn) = self.counts.claim(seat);
        let Some(node) = drawn else {
            return Forked::Whole(seat, run);
        };
        let (parent, root) = above(at, node);
        let tag = run.tag();
        let kept = Completer {
            run,
            root,
            parent,
            of: PhantomData,
        };
        let below = [parent];
        let onward = kept_by(at, &below, self.onward);
        let seat = self.counts.arm_pair(seat, node, onward, kept);
        let half = seat.credit() / 2;
        let (left, right) = self.counts.split_side(seat, node, Side::Right, half);
        Forked::Split(
            Half {
                seat: left,
                place: place_at(node, root, tag, true),
            },
            Half {
                seat: right,
                place: place_at(node, root, tag, false),
            },
        )
    }
}

/// The number of the parent, which is 0 for a top, and the number of the top.
fn above<T: Copy>(at: Option<Place<T>>, node: Node) -> (Node, Node)
    ensures { (result.0 ≡ parent_of at) × (result.1 ≡ root_of at node) }
{
    match at {
        Some(place) => (place.node, place.root),
        None => (0, node),
    }
}

/// What a new node keeps an arrival for: the node above it, or what the top of the tree keeps.
fn kept_by<'b, T: Copy>(at: Option<Place<T>>, below: &'b [Node], top: &'b [Node]) -> &'b [Node]
    ensures below { IfSome at (λ _. result.now ≡ below.now) }
    ensures top { at ≡ None → result.now ≡ top.now }
{
    match at {
        Some(_) => below,
        None => top,
    }
}
