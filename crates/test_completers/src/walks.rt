//! Trees that walk a list of numbers, cut at arbitrary places, on several threads.
ghost use Rattle.std.specs.Prelude.{◌≡◌, ◌≢◌, ◌+◌, ◌-◌, ◌<◌, ◌≤◌, ℤ, List, Option, Some};
ghost use Rattle.std.specs.Prelude.{None, Ok, Err, IfSome, MatchOption, [], length};
ghost use Rattle.std.specs.Thread.{IsSync};
ghost use Rattle.pending_count.specs.Pairs.{side_of};
ghost use Rattle.pending_count.specs.Seats.{view_of, IsSeatOf};
ghost use Rattle.pending_count.specs.declared.place.Side.TheVariants.{Whole};
ghost use Rattle.completer_tree.specs.Roots.{Rooted};
ghost use Rattle.test_completers.specs.Halves.{CanWalk};
ghost use Rattle.test_completers.specs.Walks.{begins, ends_at, IsClean, IsFirstNegative, Walked};
ghost use Rattle.test_completers.specs.WalkLaws.{by_bounds};

use crate::cut::NumberCut;
use completer_tree::{
    Completer, CompleterTree, Continuation, Failure, Forked, Half, Handed, PartValue, Tree,
    TreeCounts, TreeSeat,
};
use lambda_values::FaultKind;
use pending_count::{Place, Side};
use std::alloc::Global;
use std::marker::{Brand, PhantomData};
use std::thread;
use std::thread::Threads;
use trace::Fault;

/// The numbers that a run is over.
pub(crate) trait Planned {
    ghost source: { List ℤ };
}

impl Planned for Brand {
    ghost source = { [] };
}

/// The numbers of one part of the source.
#[derive(Drop)]
pub(crate) struct Items<P: Planned> {
    pub(crate) items: Vec<i64>,
    of: PhantomData<P>,
}

impl<P: Planned> PartValue for Items<P> {
    type Tag = NumberCut;

    ghost fits = { λ cut side v. Walked (λ x. x.items.items) P.source (begins cut side) (ends_at cut side) v };

    ghost result = { λ _ v. Walked (λ x. x.items.items) P.source 0 (length P.source) v };
}

/// Puts the numbers of the right side after the numbers of the left side.
#[derive(Drop)]
pub(crate) struct Append<P: Planned> {
    pub(crate) cut: NumberCut,
    pub(crate) parent: Option<(NumberCut, bool)>,
    pub(crate) of: PhantomData<P>,
    ghost ordered: { (cut.from ≤ cut.middle) × (cut.middle ≤ cut.to) },
    ghost side: { (p : _) → parent ≡ Some p
        → (begins p.0 (side_of p.1) ≡ cut.from) × (ends_at p.0 (side_of p.1) ≡ cut.to) },
    ghost top: { parent ≡ None → (cut.from ≡ 0) × (cut.to ≡ length P.source) },
}

impl<P: Planned> Continuation<Items<P>> for Append<P> {
    ghost tag_of = { λ c. c.cut };

    ghost goes_to = { λ c. c.parent };

    ghost leads = { λ c p e v h. h };

    ghost ends = { λ c e v h. by_bounds (λ a b. Walked (λ x. x.items.items) P.source a b v) c.cut.from 0 c.cut.to
        (length P.source) (c.top e).0 (c.top e).1 h };

    fn tag(&self) -> NumberCut {
        self.cut
    }

    fn goes_to(&self) -> Option<(NumberCut, bool)> {
        self.parent
    }

    fn on_completion(self, left: Items<P>, right: Items<P>) -> Handed<Items<P>> {
        let Items { items: mut all, of } = left;
        let Items {
            items: mut more,
            of: _,
        } = right;
        match all.append(&mut more) {
            Ok(()) => Ok(Items { items: all, of }),
            Err(_refused) => Err(Failure::NoMemory),
        }
    }

    fn on_exceptional_completion(self, failure: Failure) -> Handed<Items<P>> {
        Err(failure)
    }
}

pub(crate) type ItemTree<'a, P> = CompleterTree<'a, Items<P>, Append<P>>;

pub(crate) type ItemSeat<P> = TreeSeat<Items<P>, Append<P>>;

pub(crate) type ItemHalf<P> = Half<Handed<Items<P>>, Completer<Items<P>, Append<P>>>;

/// The place of the first negative number from one place up to, not with, another.
fn first_negative(numbers: &[i64], from: usize, to: usize) -> Option<usize>
    requires { (from ≤ to) × (to ≤ length numbers.now) }
    ensures { MatchOption result (IsClean numbers.now from to) (λ i. IsFirstNegative numbers.now from to i) }
{
    for i in from..to {
        if numbers[i] < 0 {
            return Some(i);
        }
    }
    None
}

/// The walk of a part: its numbers, or a fault at the first negative one.
pub(crate) fn walked<P: Planned>(
    alloc: Global,
    numbers: &[i64],
    from: usize,
    to: usize,
) -> Handed<Items<P>>
    requires { (from ≤ to) × (to ≤ length numbers.now) }
    ensures { Walked (λ x. x.items.items) numbers.now from to result }
{
    if let Some(place) = first_negative(numbers, from, to) {
        return Err(Failure::Fault(Fault {
            kind: FaultKind::Overflow,
            stage: 0,
            origin: Some(place as u64),
        }));
    }
    match numbers[from..to].to_vec(alloc) {
        Ok(items) => Ok(Items {
            items,
            of: PhantomData,
        }),
        Err(_refused) => Err(Failure::NoMemory),
    }
}

/// Whether a place is on the left side of a cut.
pub(crate) fn is_left(place: &Place<NumberCut>) -> bool
    requires { place.now.side ≢ Whole }
    ensures { place.now.side ≡ side_of result }
{
    place.side == Side::Left
}

/// The positions of one side of a cut.
pub(crate) fn range_of(place: &Place<NumberCut>) -> (usize, usize)
    requires { place.now.side ≢ Whole }
    ensures { (result.0 ≡ begins place.now.tag place.now.side) × (result.1 ≡ ends_at place.now.tag place.now.side) }
{
    if is_left(place) {
        (place.tag.from, place.tag.middle)
    } else {
        (place.tag.middle, place.tag.to)
    }
}

/// Walks one side of a node: in one piece, or in two where it is long enough and a node is left, on 2^`levels` threads.
#[cycle(walk)]
fn walk<P: Planned + Send + Sync, R: Threads + Sync>(
    rt: &R,
    alloc: Global,
    tree: &ItemTree<P>,
    numbers: &[i64],
    half: ItemHalf<P>,
    levels: u32,
) -> Option<Handed<Items<P>>>
    requires can { CanWalk tree.now.counts.now P.source half }
    requires source { numbers.now ≡ P.source }
    ensures { IfSome result (λ v. Walked (λ x. x.items.items) P.source 0 (length P.source) v) }
{
    let Half { seat, place } = half;
    let (from, to) = range_of(&place);
    if to - from < 2 {
        return tree
            .try_complete(seat, Some(place), walked(alloc, numbers, from, to))
            .1;
    }
    let run = Append {
        cut: NumberCut::within(from, to),
        parent: Some((place.tag, is_left(&place))),
        of: PhantomData,
    };
    match tree.fork(seat, Some(place), run) {
        Forked::Whole(seat, _run) => {
            tree.try_complete(seat, Some(place), walked(alloc, numbers, from, to))
                .1
        }
        Forked::Split(left, right) if levels == 0 => {
            let one = walk(rt, alloc, tree, numbers, left, 0);
            let other = walk(rt, alloc, tree, numbers, right, 0);
            if one.is_some() { one } else { other }
        }
        Forked::Split(left, right) => {
            let (one, other) = thread::join(
                rt,
                move || -> Option<Handed<Items<P>>>
                    requires { IsSync R.row × (0 < levels) × CanWalk tree.now.counts.now P.source left
                        × (numbers.now ≡ P.source) }
                    ensures { IfSome result (λ v. Walked (λ x. x.items.items) P.source 0 (length P.source) v) }
                { walk(rt, alloc, tree, numbers, left, levels - 1) },
                move || -> Option<Handed<Items<P>>>
                    requires { IsSync R.row × (0 < levels) × CanWalk tree.now.counts.now P.source right
                        × (numbers.now ≡ P.source) }
                    ensures { IfSome result (λ v. Walked (λ x. x.items.items) P.source 0 (length P.source) v) }
                { walk(rt, alloc, tree, numbers, right, levels - 1) },
            );
            if one.is_some() { one } else { other }
        }
    }
}

/// Opens a tree over all numbers, and walks it.
pub(crate) fn walk_whole<P: Planned + Send + Sync, R: Threads + Sync>(
    rt: &R,
    alloc: Global,
    counts: &TreeCounts<Items<P>, Append<P>>,
    seat: ItemSeat<P>,
    numbers: &[i64],
    levels: u32,
) -> Option<Handed<Items<P>>>
    requires seat { IsSeatOf counts.now seat }
    requires rooted { Rooted (view_of seat).places }
    requires source { numbers.now ≡ P.source }
    ensures { IfSome result (λ v. Walked (λ x. x.items.items) P.source 0 (length P.source) v) }
{
    let to = numbers.len();
    if to < 2 {
        return Some(walked(alloc, numbers, 0, to));
    }
    let cut = NumberCut {
        from: 0,
        middle: to / 2,
        to,
    };
    let run = Append {
        cut,
        parent: None,
        of: PhantomData,
    };
    let tree = Tree::new(counts, &[]);
    match tree.fork(seat, None, run) {
        Forked::Whole(_seat, _run) => Some(walked(alloc, numbers, 0, to)),
        Forked::Split(left, right) => {
            let one = walk(rt, alloc, &tree, numbers, left, levels);
            let other = walk(rt, alloc, &tree, numbers, right, levels);
            if one.is_some() { one } else { other }
        }
    }
}
