//! Seats that are split and joined, and what a seat sees of END.

ghost use Rattle.std.specs.Prelude.{◌≡◌, ℕ, ◌+◌, ◌-◌, ◌<◌, ◌≤◌, []};
ghost use Rattle.completion_core.specs.Legal.{count};
ghost use Rattle.pending_count.specs.Views.{IsPlainAt, joined_view, rest_view, part_view};
ghost use Rattle.pending_count.specs.Steps.{IsEndSeen, IsSplit, IsJoined};
ghost use Rattle.pending_count.specs.Seats.{Content, view_of, actor_of, table_of, IsSameSeat, IsSeatOf, nodes_of};

use crate::counts::Counts;
use crate::place::Fits;
use crate::rule::{Acting, All, Both, Look, Parting, SplitArrivals};
use crate::seat::Seat;
use crate::steps::CREDIT;
use completion_core::Node;
use std::marker::Brand;

impl<V, K: Fits<V>> Counts<V, K> {
    /// How many arrivals at END are owed and not made: one load.
    pub fn left(&self, seat: Seat<V, K>) -> (Seat<V, K>, u64)
        requires table { IsSeatOf self.now seat }
        ensures seat { IsSameSeat seat result.0 }
        ensures left { IsEndSeen (Content V K) (nodes_of self.now) (actor_of seat)
            (view_of seat) result.1 (view_of result.0) }
    {
        self.left_by::<Brand>(seat)
    }

    fn left_by<A: Acting>(&self, seat: Seat<V, K>) -> (Seat<V, K>, u64)
        requires table { IsSeatOf self.now seat }
        requires picked { (A.nodes ≡ nodes_of self.now) × (A.actor ≡ actor_of seat) }
        ensures seat { IsSameSeat seat result.0 }
        ensures left { IsEndSeen (Content V K) (nodes_of self.now) (actor_of seat)
            (view_of seat) result.1 (view_of result.0) }
    {
        let Seat { mut token, credit } = seat;
        let found = self.table.shared.load::<Look<A>>(&mut token, 0);
        (Seat { token, credit }, found)
    }

    /// A second seat with `k` of this seat's arrivals at the node, and some of its credit. It knows what this seat
    /// knows. One load.
    pub fn split(
        &self,
        seat: Seat<V, K>,
        node: Node,
        k: u64,
        credit: u64,
    ) -> (Seat<V, K>, Seat<V, K>)
        requires table { IsSeatOf self.now seat }
        requires have { k ≤ count node (view_of seat).held }
        requires plain { 0 < node → IsPlainAt node (view_of seat) }
        requires end { k ≡ 0 → node ≡ 0 }
        requires credit { credit ≤ (view_of seat).credit }
        ensures seat { IsSameSeat seat result.0 × (table_of result.1 ≡ table_of seat) }
        ensures parts { (view_of result.0 ≡ rest_view node k credit [] (view_of seat))
            × (view_of result.1 ≡ part_view node k credit [] (view_of seat)) }
        ensures split { IsSplit (Content V K) (nodes_of self.now) node k (view_of seat)
            (view_of result.0) (view_of result.1) }
    {
        self.split_by::<Brand>(seat, node, k, credit)
    }

    fn split_by<A: Parting>(
        &self,
        seat: Seat<V, K>,
        node: Node,
        k: u64,
        credit: u64,
    ) -> (Seat<V, K>, Seat<V, K>)
        requires table { IsSeatOf self.now seat }
        requires have { k ≤ count node (view_of seat).held }
        requires plain { 0 < node → IsPlainAt node (view_of seat) }
        requires end { k ≡ 0 → node ≡ 0 }
        requires credit { credit ≤ (view_of seat).credit }
        requires picked { (A.node ≡ node) × (A.arrivals ≡ k) × (A.credit ≡ credit) × (A.sides ≡ []) }
        ensures seat { IsSameSeat seat result.0 × (table_of result.1 ≡ table_of seat) }
        ensures parts { (view_of result.0 ≡ rest_view node k credit [] (view_of seat))
            × (view_of result.1 ≡ part_view node k credit [] (view_of seat)) }
    {
        let Seat {
            mut token,
            credit: all,
        } = seat;
        let part = self.table.shared.split_seat::<SplitArrivals<A>>(&mut token);
        let rest = Seat {
            token,
            credit: all - credit,
        };
        (
            rest,
            Seat {
                token: part,
                credit,
            },
        )
    }

    /// One seat with all that the two hold. The second one has armed every node that it claimed. Two loads.
    pub fn join(&self, seat: Seat<V, K>, other: Seat<V, K>) -> Seat<V, K>
        requires tables { IsSeatOf self.now seat × IsSeatOf self.now other }
        requires armed { (i : ℕ) → count i (view_of other).claims ≡ 0 }
        ensures seat { IsSameSeat seat result }
        ensures both { view_of result ≡ joined_view (view_of seat) (view_of other) }
        ensures joined { IsJoined (Content V K) (nodes_of self.now) (view_of seat) (view_of other) (view_of result) }
    {
        let Seat { mut token, credit } = seat;
        let Seat {
            token: mut second,
            credit: more,
        } = other;
        // Slots that are out with the second seat for good stay with its old token.
        let whole = self.table.shared.split_seat::<All>(&mut second);
        self.table.shared.join_seat::<Both>(&mut token, whole);
        Seat {
            token,
            credit: (credit + more).min(CREDIT),
        }
    }
}
