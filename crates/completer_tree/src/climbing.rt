//! Values that are handed in at places, and the climb of answers from node to node.
ghost use Rattle.std.specs.Prelude.{◌≡◌, ◌-◌, ℕ, Some, None, IfSome, IfNone, Err};
ghost use Rattle.completion_core.specs.Legal.{reply_of_arrival};
ghost use Rattle.pending_count.specs.Seats.{view_of, IsSameSeat};
ghost use Rattle.pending_count.specs.declared.place.Side.TheVariants.{Left, Right, Whole};
ghost use Rattle.completer_tree.specs.Places.{Goes, place_by};
ghost use Rattle.completer_tree.specs.Roots.{HasKept};
ghost use Rattle.completer_tree.specs.Trees.{table_id_of, CanHand, RanBy};
ghost use Rattle.completer_tree.specs.Climbs.{CanFinish, HasArrived, IsHandedAt, WasHanded, WasPending, IfLast};
ghost use Rattle.completer_tree.specs.Climbs.{IfHandedOn, IfNextLast, IfWhole, first_seat, first_reply, next_seat};

use crate::completer::Completer;
use crate::continuation::Continuation;
use crate::part::{Failure, Handed, PartValue};
use crate::tree::{CompleterTree, Tree, TreeSeat};
use pending_count::{ArrivedPair, FinishPair, Fits, Place, Seat};

/// The right to run one of the two continuations of a node, with what was handed in on its sides. It comes with the
/// last of the two arrivals, and with no other; `Tree::next_complete` and `Finisher::finish` use it up.
#[derive(Drop)]
pub struct Finisher<V, K> {
    finish: FinishPair<V, K>,
}

/// What an arrival at a place found.
#[derive(Drop)]
pub enum First<V, K: Fits<V>> {
    /// The other side is still owed; the number is the pending count that is left.
    Pending(Seat<V, K>, u64),
    /// It was the last. The seat has what the node kept.
    Last(Seat<V, K>, Finisher<V, K>),
}

/// What became of the answer of a node.
#[derive(Drop)]
pub enum Next<V, K: Fits<V>> {
    /// It was handed in at the parent, whose other side is still owed; the number is the pending count that is left.
    Pending(Seat<V, K>, u64),
    /// It was handed in at the parent, and was the last there.
    Last(Seat<V, K>, Finisher<V, K>),
    /// The node was the top of a tree: this is the tree's result. The seat has what the top kept.
    Whole(Seat<V, K>, V),
}

/// Looks at each value before it is handed in: at the one that a caller hands in, and at the answers of the nodes that
/// this completes.
pub trait Looker<T: PartValue> {
    fn look(&mut self, at: &Place<T::Tag>, value: &Handed<T>)
        requires fits { T.fits at.now.tag at.now.side value.now };
}

/// Looks at nothing.
#[derive(Clone, Copy)]
pub struct Unwatched;

impl<T: PartValue> Looker<T> for Unwatched {
    fn look(&mut self, _at: &Place<T::Tag>, _value: &Handed<T>) {}
}

impl<T: PartValue, C: Continuation<T>> Finisher<Handed<T>, Completer<T, C>> {
    /// Runs one of the node's two continuations. The place is the one at which the answer is to be handed in; none at
    /// the top of a tree.
    pub fn finish(self) -> (Handed<T>, Option<Place<T::Tag>>)
        requires left { T.fits (C.tag_of self.finish.kept.run) Left self.finish.left }
        requires right { T.fits (C.tag_of self.finish.kept.run) Right self.finish.right }
        ensures place { result.1 ≡ place_by self.finish.kept.parent self.finish.kept.root
            (C.goes_to self.finish.kept.run) }
        ensures goes { Goes T.fits (C.tag_of self.finish.kept.run) (C.goes_to self.finish.kept.run) result.0 }
    {
        let Finisher { finish } = self;
        let place = finish.kept.place();
        let FinishPair { left, right, kept } = finish;
        let Completer {
            run,
            root: _,
            parent: _,
            of: _,
        } = kept;
        (answer_of(left, right, run), place)
    }
}

/// What the continuations of a node make of its two sides.
fn answer_of<T: PartValue, C: Continuation<T>>(
    left: Handed<T>,
    right: Handed<T>,
    run: C,
) -> Handed<T>
    requires left { T.fits (C.tag_of run) Left left }
    requires right { T.fits (C.tag_of run) Right right }
    ensures goes { Goes T.fits (C.tag_of run) (C.goes_to run) result }
{
    let left = match left {
        Ok(left) => left,
        Err(failure) => return run.on_exceptional_completion(failure),
    };
    match right {
        Ok(right) => run.on_completion(left, right),
        Err(failure) => run.on_exceptional_completion(failure),
    }
}

impl<'a, T: PartValue, C: Continuation<T>> Tree<'a, Handed<T>, Completer<T, C>> {
    /// Hands a value in at a place: one arrival there (Java: `firstComplete`). A load and one `fetch_sub`.
    pub fn first_complete(
        &self,
        seat: TreeSeat<T, C>,
        at: Place<T::Tag>,
        value: Handed<T>,
    ) -> First<Handed<T>, Completer<T, C>>
        requires can { CanHand (table_id_of self.now.counts.now) at seat }
        requires fits { T.fits at.tag at.side value }
        ensures seat { IsSameSeat seat (first_seat result) }
        ensures handed { (n : ℕ) × (first_reply result ≡ reply_of_arrival (n - 1))
            × IsHandedAt self.now.counts.now at seat n (first_seat result) }
        ensures last { IfLast result (λ later finisher. HasArrived self.now.counts.now at seat later finisher) }
    {
        match self.counts.arrive_with(seat, at, value) {
            ArrivedPair::Pending(seat, pending) => First::Pending(seat, pending),
            ArrivedPair::Last(seat, finish) => First::Last(seat, Finisher { finish }),
        }
    }

    /// Runs one of the node's two continuations, and hands the answer in at the parent (Java: `nextComplete`). At the
    /// top of a tree the answer is the tree's result. For other programs: `streamrun` climbs by `try_complete_with`.
    pub fn next_complete(
        &self,
        seat: TreeSeat<T, C>,
        finisher: Finisher<Handed<T>, Completer<T, C>>,
    ) -> Next<Handed<T>, Completer<T, C>>
        requires can { CanFinish (table_id_of self.now.counts.now) seat finisher }
        ensures seat { IsSameSeat seat (next_seat result) }
        ensures handed { IfHandedOn result (λ later reply. (p : Place T.Tag)
            × (place_by finisher.finish.kept.parent finisher.finish.kept.root (C.goes_to finisher.finish.kept.run)
            ≡ Some p) × (n : ℕ) × (reply ≡ reply_of_arrival (n - 1)) × IsHandedAt self.now.counts.now p seat n later) }
        ensures last { IfNextLast result (λ later next. (p : Place T.Tag)
            × (place_by finisher.finish.kept.parent finisher.finish.kept.root (C.goes_to finisher.finish.kept.run)
            ≡ Some p) × HasArrived self.now.counts.now p seat later next) }
        ensures whole { IfWhole result (λ later v. (C.goes_to finisher.finish.kept.run ≡ None) × (later ≡ seat)
            × T.fits (C.tag_of finisher.finish.kept.run) Whole v × T.result (C.tag_of finisher.finish.kept.run) v) }
    {
        self.next_complete_with(seat, finisher, &mut Unwatched)
    }

    /// Runs one of the node's two continuations as `next_complete` does; the answer is looked at before it is handed
    /// in.
    pub fn next_complete_with<L: Looker<T>>(
        &self,
        seat: TreeSeat<T, C>,
        finisher: Finisher<Handed<T>, Completer<T, C>>,
        looker: &mut L,
    ) -> Next<Handed<T>, Completer<T, C>>
        requires can { CanFinish (table_id_of self.now.counts.now) seat finisher }
        ensures seat { IsSameSeat seat (next_seat result) }
        ensures handed { IfHandedOn result (λ later reply. (p : Place T.Tag)
            × (place_by finisher.finish.kept.parent finisher.finish.kept.root (C.goes_to finisher.finish.kept.run)
            ≡ Some p) × (n : ℕ) × (reply ≡ reply_of_arrival (n - 1)) × IsHandedAt self.now.counts.now p seat n later) }
        ensures last { IfNextLast result (λ later next. (p : Place T.Tag)
            × (place_by finisher.finish.kept.parent finisher.finish.kept.root (C.goes_to finisher.finish.kept.run)
            ≡ Some p) × HasArrived self.now.counts.now p seat later next) }
        ensures whole { IfWhole result (λ later v. (C.goes_to finisher.finish.kept.run ≡ None) × (later ≡ seat)
            × T.fits (C.tag_of finisher.finish.kept.run) Whole v × T.result (C.tag_of finisher.finish.kept.run) v) }
    {
        let (answer, onward) = finisher.finish();
        let Some(place) = onward else {
            return Next::Whole(seat, answer);
        };
        looker.look(&place, &answer);
        match self.first_complete(seat, place, answer) {
            First::Pending(seat, pending) => Next::Pending(seat, pending),
            First::Last(seat, finisher) => Next::Last(seat, finisher),
        }
    }

    /// Hands a value in at a place, and goes on upwards while each arrival is the last (Java: `tryComplete`). `Some` is
    /// the result of the whole tree, which is given to one caller only; without a place it is the value itself.
    /// For other programs: `streamrun` calls `try_complete_with`.
    pub fn try_complete(
        &self,
        seat: TreeSeat<T, C>,
        at: Option<Place<T::Tag>>,
        value: Handed<T>,
    ) -> (TreeSeat<T, C>, Option<Handed<T>>)
        requires can { IfSome at (λ p. CanHand (table_id_of self.now.counts.now) p seat × T.fits p.tag p.side value) }
        ensures seat { IsSameSeat seat result.0 }
        ensures none { at ≡ None → (result.0 ≡ seat) × (result.1 ≡ Some value) }
        ensures found { IfSome at (λ p. IfSome result.1 (λ v. T.result p.tag v)) }
        ensures ran { IfSome at (λ p. IfSome result.1 (λ _. RanBy self.now.counts.now seat p.root)) }
        ensures kept { IfSome at (λ p. IfSome result.1 (λ _. HasKept p (view_of seat) (view_of result.0))) }
        ensures handed { IfSome at (λ p. WasHanded self.now.counts.now p seat) }
        ensures pending { IfSome at (λ _. IfNone result.1 (WasPending self.now.counts.now seat result.0)) }
    {
        self.try_complete_with(seat, at, value, &mut Unwatched)
    }

    /// Hands a value in at a place as `try_complete` does. This value, and each answer on the way up, is looked at
    /// before it is handed in.
    pub fn try_complete_with<L: Looker<T>>(
        &self,
        seat: TreeSeat<T, C>,
        at: Option<Place<T::Tag>>,
        value: Handed<T>,
        looker: &mut L,
    ) -> (TreeSeat<T, C>, Option<Handed<T>>)
        requires can { IfSome at (λ p. CanHand (table_id_of self.now.counts.now) p seat × T.fits p.tag p.side value) }
        ensures seat { IsSameSeat seat result.0 }
        ensures none { at ≡ None → (result.0 ≡ seat) × (result.1 ≡ Some value) }
        ensures found { IfSome at (λ p. IfSome result.1 (λ v. T.result p.tag v)) }
        ensures ran { IfSome at (λ p. IfSome result.1 (λ _. RanBy self.now.counts.now seat p.root)) }
        ensures kept { IfSome at (λ p. IfSome result.1 (λ _. HasKept p (view_of seat) (view_of result.0))) }
        ensures handed { IfSome at (λ p. WasHanded self.now.counts.now p seat) }
        ensures pending { IfSome at (λ _. IfNone result.1 (WasPending self.now.counts.now seat result.0)) }
    {
        let Some(place) = at else {
            return (seat, Some(value));
        };
        looker.look(&place, &value);
        match self.first_complete(seat, place, value) {
            First::Pending(seat, _pending) => (seat, None),
            First::Last(seat, finisher) => climb(self, seat, finisher, looker),
        }
    }

    /// `try_complete` with a failure instead of a value (Java: `completeExceptionally`, which here waits for the other
    /// arrivals). For other programs: `streamrun` hands a failure in by `try_complete_with`.
    pub fn complete_exceptionally(
        &self,
        seat: TreeSeat<T, C>,
        at: Option<Place<T::Tag>>,
        failure: Failure,
    ) -> (TreeSeat<T, C>, Option<Handed<T>>)
        requires can { IfSome at (λ p. CanHand (table_id_of self.now.counts.now) p seat
            × T.fits p.tag p.side (Err failure)) }
        ensures seat { IsSameSeat seat result.0 }
        ensures none { at ≡ None → (result.0 ≡ seat) × (result.1 ≡ Some (Err failure)) }
        ensures found { IfSome at (λ p. IfSome result.1 (λ v. T.result p.tag v)) }
        ensures ran { IfSome at (λ p. IfSome result.1 (λ _. RanBy self.now.counts.now seat p.root)) }
        ensures kept { IfSome at (λ p. IfSome result.1 (λ _. HasKept p (view_of seat) (view_of result.0))) }
        ensures handed { IfSome at (λ p. WasHanded self.now.counts.now p seat) }
        ensures pending { IfSome at (λ _. IfNone result.1 (WasPending self.now.counts.now seat result.0)) }
    {
        self.try_complete(seat, at, Err(failure))
    }
}

/// Finishes node after node upwards, while each arrival is the last.
#[cycle(climb)]
fn climb<T: PartValue, C: Continuation<T>, L: Looker<T>>(
    tree: &CompleterTree<T, C>,
    seat: TreeSeat<T, C>,
    finisher: Finisher<Handed<T>, Completer<T, C>>,
    looker: &mut L,
) -> (TreeSeat<T, C>, Option<Handed<T>>)
    requires can { CanFinish (table_id_of tree.now.counts.now) seat finisher }
    ensures seat { IsSameSeat seat result.0 }
    ensures found { IfSome result.1 (λ v. T.result (C.tag_of finisher.finish.kept.run) v) }
    ensures ran { IfSome
        (place_by finisher.finish.kept.parent finisher.finish.kept.root (C.goes_to finisher.finish.kept.run))
        (λ p. IfSome result.1 (λ _. RanBy tree.now.counts.now seat p.root)) }
    ensures kept { IfSome
        (place_by finisher.finish.kept.parent finisher.finish.kept.root (C.goes_to finisher.finish.kept.run))
        (λ p. IfSome result.1 (λ _. HasKept p (view_of seat) (view_of result.0))) }
    ensures top { C.goes_to finisher.finish.kept.run ≡ None → result.0 ≡ seat }
    ensures pending { IfNone result.1 (WasPending tree.now.counts.now seat result.0) }
{
    match tree.next_complete_with(seat, finisher, looker) {
        Next::Pending(seat, _pending) => (seat, None),
        Next::Whole(seat, value) => (seat, Some(value)),
        Next::Last(seat, finisher) => climb(tree, seat, finisher, looker),
    }
}
