//! Pairs: nodes whose two arrivals bring values, and which keep a value for the last of the two.
ghost use Rattle.std.specs.Prelude.{◌≡◌, ◌≢◌, ℕ, ◌+◌, ◌-◌, ◌*◌, ◌<◌, ◌≤◌, [], ◌∷◌, true, false, Some, None};
ghost use Rattle.completion_core.specs.Legal.{count, reply_of_arrival};
ghost use Rattle.pending_count.specs.Views.{left_slot, right_slot, kept_slot, note_of};
ghost use Rattle.pending_count.specs.Views.{rest_view, part_view, taken_view};
ghost use Rattle.pending_count.specs.Steps.{IsSplit, IsTaken};
ghost use Rattle.pending_count.specs.Pairs.{slot_of, side_of, side_slot};
ghost use Rattle.pending_count.specs.PairSteps.{HoldsSide, IsPlaced, IsPaired, IsHanded};
ghost use Rattle.pending_count.specs.Seats.{Content, view_of, actor_of, table_of, IsSameSeat, IsSeatOf, nodes_of};
ghost use Rattle.pending_count.specs.PairSeats.{pair_seat, pair_reply, IsClosed, HasAll, IsInOrder};
ghost use Rattle.pending_count.specs.declared.place.Slot.TheVariants.{Value, Kept};
ghost use Rattle.pending_count.specs.declared.place.Side.TheVariants.{Whole};

use crate::counts::Counts;
use crate::place::{Fits, Place, Side, Slot};
use crate::rule::{ArmPair, Arming, Hand, Handing, Parting, SplitArrivals, TakeKept, TakeSide};
use crate::seat::{ArrivedPair, FinishPair, Seat, SeatToken};
use completion_core::Node;
use std::marker::Brand;

impl<V, K: Fits<V>> Counts<V, K> {
    /// Arms a node that the seat drew as a pair, which owes two arrivals, a left and a right one. It keeps `kept` for
    /// the last of them. A load, and one store.
    pub fn arm_pair(&self, seat: Seat<V, K>, node: Node, onward: &[Node], kept: K) -> Seat<V, K>
        requires table { IsSeatOf self.now seat }
        requires claimed { 0 < count node (view_of seat).claims }
        requires have { (i : ℕ) → count i onward.now ≤ count i (view_of seat).held }
        requires smaller { (i : ℕ) → 0 < count i onward.now → i < node }
        requires one_side { (i : ℕ) → 0 < count i onward.now
            → count (left_slot i) (view_of seat).sides + count (right_slot i) (view_of seat).sides ≤ 1 }
        requires placed { IsPlaced K.place_of kept onward.now (view_of seat) }
        ensures seat { IsSameSeat seat result }
        ensures took { IsTaken (Content V K) (nodes_of self.now) (actor_of seat) node (kept_slot node) (view_of seat)
            (taken_view (kept_slot node) (view_of seat)) }
        ensures paired { IsPaired K.fits K.tag_of K.place_of (nodes_of self.now) (actor_of seat) node onward.now kept
            (view_of seat) (view_of result) }
    {
        self.arm_pair_by::<Brand>(seat, node, onward, kept)
    }

    fn arm_pair_by<A: Arming>(
        &self,
        seat: Seat<V, K>,
        node: Node,
        onward: &[Node],
        kept: K,
    ) -> Seat<V, K>
        requires table { IsSeatOf self.now seat }
        requires claimed { 0 < count node (view_of seat).claims }
        requires have { (i : ℕ) → count i onward.now ≤ count i (view_of seat).held }
        requires smaller { (i : ℕ) → 0 < count i onward.now → i < node }
        requires one_side { (i : ℕ) → 0 < count i onward.now
            → count (left_slot i) (view_of seat).sides + count (right_slot i) (view_of seat).sides ≤ 1 }
        requires placed { IsPlaced K.place_of kept onward.now (view_of seat) }
        requires picked { (A.nodes ≡ nodes_of self.now) × (A.actor ≡ actor_of seat) × (A.onward ≡ onward.now)
            × (A.slot ≡ kept_slot node) }
        ensures seat { IsSameSeat seat result }
        ensures took { IsTaken (Content V K) (nodes_of self.now) (actor_of seat) node (kept_slot node) (view_of seat)
            (taken_view (kept_slot node) (view_of seat)) }
        ensures paired { IsPaired K.fits K.tag_of K.place_of (nodes_of self.now) (actor_of seat) node onward.now kept
            (view_of seat) (view_of result) }
    {
        let Seat { mut token, credit } = seat;
        let shared = &self.table.shared;
        let word = node as usize;
        shared.load::<TakeKept<A>>(&mut token, word);
        drop_none(shared.exchange(&mut token, 3 * word + 2, Some(Slot::Kept(kept))));
        shared.store::<ArmPair<V, K, A>>(&mut token, word, 2);
        Seat { token, credit }
    }

    /// One arrival at a pair, with the value for the place's side. The last of the two gets both values and what the
    /// node kept. A load, and one `fetch_sub`.
    pub fn arrive_with(&self, seat: Seat<V, K>, place: Place<K::Tag>, value: V) -> ArrivedPair<V, K>
        requires table { IsSeatOf self.now seat }
        requires have { 0 < count place.node (view_of seat).held }
        requires side { HoldsSide place (view_of seat) }
        requires tag { note_of place.node (view_of seat).tags ≡ Some place.tag }
        requires fits { K.fits place.tag place.side value }
        ensures seat { IsSameSeat seat (pair_seat result) }
        ensures took { IsTaken (Content V K) (nodes_of self.now) (actor_of seat) place.node
            (slot_of place.node place.side) (view_of seat) (taken_view (slot_of place.node place.side) (view_of seat)) }
        ensures handed { (n : ℕ) × (pair_reply result ≡ reply_of_arrival (n - 1))
            × IsHanded K.fits K.tag_of K.place_of (nodes_of self.now) (actor_of seat) place.node
            (slot_of place.node place.side) (view_of seat) n (view_of (pair_seat result)) }
        ensures closed { IsClosed place.node (slot_of place.node place.side) place.tag (view_of seat) result }
    {
        match place.side {
            Side::Left => self.hand_in::<Brand>(seat, place.node, true, value),
            Side::Right => self.hand_in::<Brand>(seat, place.node, false, value),
            Side::Whole => unreachable!(),
        }
    }

    /// A second seat with the arrival of one side of a pair, and some of this seat's credit. It knows what this one
    /// knows. One load.
    pub fn split_side(
        &self,
        seat: Seat<V, K>,
        node: Node,
        side: Side,
        credit: u64,
    ) -> (Seat<V, K>, Seat<V, K>)
        requires table { IsSeatOf self.now seat }
        requires have { (0 < node) × (0 < count node (view_of seat).held) }
        requires side { (0 < count (slot_of node side) (view_of seat).sides) × (side ≢ Whole) }
        requires credit { credit ≤ (view_of seat).credit }
        ensures seat { IsSameSeat seat result.0 × (table_of result.1 ≡ table_of seat) }
        ensures parts { (view_of result.0 ≡ rest_view node 1 credit (slot_of node side ∷ []) (view_of seat))
            × (view_of result.1 ≡ part_view node 1 credit (slot_of node side ∷ []) (view_of seat)) }
        ensures split { IsSplit (Content V K) (nodes_of self.now) node 1 (view_of seat)
            (view_of result.0) (view_of result.1) }
    {
        self.split_side_by::<Brand>(seat, node, side, credit)
    }

    fn split_side_by<A: Parting>(
        &self,
        seat: Seat<V, K>,
        node: Node,
        side: Side,
        credit: u64,
    ) -> (Seat<V, K>, Seat<V, K>)
        requires table { IsSeatOf self.now seat }
        requires have { (0 < node) × (0 < count node (view_of seat).held) }
        requires side { (0 < count (slot_of node side) (view_of seat).sides) × (side ≢ Whole) }
        requires credit { credit ≤ (view_of seat).credit }
        requires picked { (A.node ≡ node) × (A.arrivals ≡ 1) × (A.credit ≡ credit)
            × (A.sides ≡ slot_of node side ∷ []) }
        ensures seat { IsSameSeat seat result.0 × (table_of result.1 ≡ table_of seat) }
        ensures parts { (view_of result.0 ≡ rest_view node 1 credit (slot_of node side ∷ []) (view_of seat))
            × (view_of result.1 ≡ part_view node 1 credit (slot_of node side ∷ []) (view_of seat)) }
    {
        let Seat {
            mut token,
            credit: all,
        } = seat;
        let part = self.table.shared.split_seat::<SplitArrivals<A>>(&mut token);
        let rest = Seat {
            token,
            credit: all - credit,
        };
        (
            rest,
            Seat {
                token: part,
                credit,
            },
        )
    }

    fn hand_in<A: Handing>(
        &self,
        seat: Seat<V, K>,
        node: Node,
        is_left: bool,
        value: V,
    ) -> ArrivedPair<V, K>
        requires table { IsSeatOf self.now seat }
        requires have { 0 < count node (view_of seat).held }
        requires side { 0 < count (side_slot node is_left) (view_of seat).sides }
        requires known { (tag : K.Tag) × (note_of node (view_of seat).tags ≡ Some tag)
            × K.fits tag (side_of is_left) value }
        requires picked { (A.nodes ≡ nodes_of self.now) × (A.actor ≡ actor_of seat) × (A.slot ≡ side_slot node is_left)
            × (A.left ≡ is_left) }
        ensures seat { IsSameSeat seat (pair_seat result) }
        ensures took { IsTaken (Content V K) (nodes_of self.now) (actor_of seat) node (side_slot node is_left)
            (view_of seat) (taken_view (side_slot node is_left) (view_of seat)) }
        ensures handed { (n : ℕ) × (pair_reply result ≡ reply_of_arrival (n - 1))
            × IsHanded K.fits K.tag_of K.place_of (nodes_of self.now) (actor_of seat) node (side_slot node is_left)
            (view_of seat) n (view_of (pair_seat result)) }
        ensures closed { (tag : K.Tag) → note_of node (view_of seat).tags ≡ Some tag
            → IsClosed node (side_slot node is_left) tag (view_of seat) result }
    {
        let Seat { mut token, credit } = seat;
        let shared = &self.table.shared;
        let word = node as usize;
        let own = slot_number(node, is_left);
        shared.load::<TakeSide<A>>(&mut token, word);
        drop_none(shared.exchange(&mut token, own, Some(Slot::Value(value))));
        let found = shared.fetch_sub::<Hand<V, K, A>>(&mut token, word, 1);
        if found != 1 {
            return ArrivedPair::Pending(Seat { token, credit }, found - 2);
        }
        let (token, finish) = self.collect(token, node, is_left);
        ArrivedPair::Last(Seat { token, credit }, finish)
    }

    /// Empties the slots that came to the token with the last arrival: the kept value's, the other side's, and its own.
    fn collect(
        &self,
        mut token: SeatToken<V, K, K::Tag>,
        node: Node,
        is_left: bool,
    ) -> (SeatToken<V, K, K::Tag>, FinishPair<V, K>)
        requires table { token.table_id ≡ self.now.table.shared.table_id }
        requires slots { (kept : K) × (theirs : V) × (ours : V) × HasAll node is_left kept theirs ours token.me.1 }
        ensures seat { (result.0.table_id ≡ token.table_id) × (result.0.id ≡ token.id) × (result.0.me.0 ≡ token.me.0) }
        ensures values { (kept : K) (theirs ours : V) → HasAll node is_left kept theirs ours token.me.1
            → IsInOrder is_left kept theirs ours result.1 }
    {
        let shared = &self.table.shared;
        let kept = kept_in(shared.exchange(&mut token, 3 * node as usize + 2, None));
        token.turn();
        let theirs = value_in(shared.exchange(&mut token, slot_number(node, !is_left), None));
        token.turn();
        let ours = value_in(shared.exchange(&mut token, slot_number(node, is_left), None));
        let finish = in_order(is_left, ours, theirs, kept);
        (token, finish)
    }
}

fn in_order<V, K>(is_left: bool, ours: V, theirs: V, kept: K) -> FinishPair<V, K>
    ensures { IsInOrder is_left kept theirs ours result }
{
    if is_left {
        FinishPair {
            left: ours,
            right: theirs,
            kept,
        }
    } else {
        FinishPair {
            left: theirs,
            right: ours,
            kept,
        }
    }
}

/// The slot of a side's value.
fn slot_number(node: Node, is_left: bool) -> usize
    ensures { result ≡ side_slot node is_left }
{
    let first = 3 * node as usize;
    if is_left { first } else { first + 1 }
}

fn drop_none<S>(slot: Option<S>)
    requires { slot ≡ None }
{
    let None = slot else { unreachable!() };
}

fn value_in<V, K>(slot: Option<Slot<V, K>>) -> V
    requires { (x : V) × (slot ≡ Some (Value x)) }
    ensures { slot ≡ Some (Value result) }
{
    let Some(Slot::Value(value)) = slot else {
        unreachable!()
    };
    value
}

fn kept_in<V, K>(slot: Option<Slot<V, K>>) -> K
    requires { (k : K) × (slot ≡ Some (Kept k)) }
    ensures { slot ≡ Some (Kept result) }
{
    let Some(Slot::Kept(kept)) = slot else {
        unreachable!()
    };
    kept
}
