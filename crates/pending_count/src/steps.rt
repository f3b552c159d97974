//! New counts, and the steps of their seats.
ghost use Rattle.std.specs.Prelude.{◌≡◌, None, ℕ, ◌+◌, ◌-◌, ◌*◌, ◌^◌, ◌<◌, ◌≤◌, ◌∷◌, IfOk, IfErr, replicate};
ghost use Rattle.completion_core.specs.Legal.{count, reply_of_arrival};
ghost use Rattle.pending_count.specs.Views.{left_slot, right_slot, IsPlainAt, first_view};
ghost use Rattle.pending_count.specs.Steps.{IsOpened, IsClaimed, IsArmed, IsArrived, IsAdded, IsSettled, drawn_node};
ghost use Rattle.pending_count.specs.Seats.{Content, view_of, actor_of, IsSameSeat, seat_back};
ghost use Rattle.pending_count.specs.Seats.{reply_back, IsFinishOf, IsSeatOf, nodes_of};

use crate::counts::Counts;
use crate::place::Fits;
use crate::rule::{Acting, Add, Arm, Arming, Arrive, Claim, Settle};
use crate::seat::{Arrived, Finish, Seat};
use crate::view::Sizes;
use atomic_table::Table;
use completion_core::Node;
use std::alloc::{AllocError, Global};
use std::marker::Brand;

pub(crate) const CREDIT: u64 = 1 << 62;

impl<V, K: Fits<V>> Counts<V, K> {
    /// Counts of nodes 1 to `nodes`, all still to be drawn, and of END, which owes `ends` arrivals. The seat holds all
    /// of these arrivals, and a credit of 2^62. `Err` where memory is refused: 8 bytes for each word, and three slots a
    /// node.
    pub fn new(
        alloc: Global,
        nodes: u32,
        ends: u64,
    ) -> Result<(Counts<V, K>, Seat<V, K>), AllocError>
        ensures seat { IfOk result (λ c. IsSeatOf c.0 c.1 × (nodes_of c.0 ≡ nodes) × (actor_of c.1 ≡ 0)
            × (view_of c.1 ≡ first_view ends)) }
        ensures opened { IfOk result (λ c. IsOpened (Content V K) nodes ends (view_of c.1)) }
    {
        let words = opening(alloc, nodes, ends)?;
        let slots = 3 * (nodes as usize + 1);
        let (table, token) = Table::vacant(alloc, words.as_slice(), slots, &Sizes { nodes, ends })?;
        let seat = Seat {
            token,
            credit: CREDIT,
        };
        Ok((Counts { table, nodes }, seat))
    }

    /// The greatest number that a node may have.
    pub fn nodes(&self) -> Node
        ensures { result ≡ nodes_of self.now }
    {
        self.nodes
    }

    /// Draws the next node, for one credit: `None` where the credit is 0 or no node is left. The node is larger than
    /// all that the seat holds. One `fetch_add`; none without credit.
    pub fn claim(&self, seat: Seat<V, K>) -> (Seat<V, K>, Option<Node>)
        requires table { IsSeatOf self.now seat }
        ensures seat { IsSameSeat seat result.0 }
        ensures unpaid { (view_of seat).credit ≡ 0 → (result.1 ≡ None) × (view_of result.0 ≡ view_of seat) }
        ensures claimed { 0 < (view_of seat).credit → (n : ℕ) × (result.1 ≡ drawn_node (nodes_of self.now) n)
            × IsClaimed (Content V K) (nodes_of self.now) (actor_of seat) (view_of seat) n (view_of result.0) }
    {
        self.claim_by::<Brand>(seat)
    }

    fn claim_by<A: Acting>(&self, seat: Seat<V, K>) -> (Seat<V, K>, Option<Node>)
        requires table { IsSeatOf self.now seat }
        requires picked { (A.nodes ≡ nodes_of self.now) × (A.actor ≡ actor_of seat) }
        ensures seat { IsSameSeat seat result.0 }
        ensures unpaid { (view_of seat).credit ≡ 0 → (result.1 ≡ None) × (view_of result.0 ≡ view_of seat) }
        ensures claimed { 0 < (view_of seat).credit → (n : ℕ) × (result.1 ≡ drawn_node (nodes_of self.now) n)
            × IsClaimed (Content V K) (nodes_of self.now) (actor_of seat) (view_of seat) n (view_of result.0) }
    {
        let Seat { mut token, credit } = seat;
        if credit == 0 {
            return (Seat { token, credit }, None);
        }
        let word = self.nodes as usize + 1;
        let found = self.table.shared.fetch_add::<Claim<A>>(&mut token, word, 1);
        let seat = Seat {
            token,
            credit: credit - 1,
        };
        if found < self.nodes as u64 {
            (seat, Some(found as Node + 1))
        } else {
            (seat, None)
        }
    }

    /// Arms a node that the seat drew. It owes `pending + 1` arrivals from then on, which the seat has; and it keeps
    /// one arrival of the seat's for each entry of `onward`, all at smaller nodes, until it runs. One store. Java:
    /// `CountedCompleter.setPendingCount`.
    pub fn arm(&self, seat: Seat<V, K>, node: Node, pending: u32, onward: &[Node]) -> Seat<V, K>
        requires table { IsSeatOf self.now seat }
        requires claimed { 0 < count node (view_of seat).claims }
        requires have { (i : ℕ) → count i onward.now ≤ count i (view_of seat).held }
        requires smaller { (i : ℕ) → 0 < count i onward.now → i < node }
        requires one_side { (i : ℕ) → 0 < count i onward.now
            → count (left_slot i) (view_of seat).sides + count (right_slot i) (view_of seat).sides ≤ 1 }
        ensures seat { IsSameSeat seat result }
        ensures armed { IsArmed (Content V K) (nodes_of self.now) (actor_of seat) node pending onward.now
            (view_of seat) (view_of result) }
    {
        self.arm_by::<Brand>(seat, node, pending, onward)
    }

    fn arm_by<A: Arming>(
        &self,
        seat: Seat<V, K>,
        node: Node,
        pending: u32,
        onward: &[Node],
    ) -> Seat<V, K>
        requires table { IsSeatOf self.now seat }
        requires claimed { 0 < count node (view_of seat).claims }
        requires have { (i : ℕ) → count i onward.now ≤ count i (view_of seat).held }
        requires smaller { (i : ℕ) → 0 < count i onward.now → i < node }
        requires one_side { (i : ℕ) → 0 < count i onward.now
            → count (left_slot i) (view_of seat).sides + count (right_slot i) (view_of seat).sides ≤ 1 }
        requires picked { (A.nodes ≡ nodes_of self.now) × (A.actor ≡ actor_of seat) × (A.pending ≡ pending)
            × (A.onward ≡ onward.now) }
        ensures seat { IsSameSeat seat result }
        ensures armed { IsArmed (Content V K) (nodes_of self.now) (actor_of seat) node pending onward.now
            (view_of seat) (view_of result) }
    {
        let Seat { mut token, credit } = seat;
        self.table
            .shared
            .store::<Arm<A>>(&mut token, node as usize, pending as u64 + 1);
        Seat { token, credit }
    }

    /// `d` more arrivals at a node of `arm` at which the seat holds one, for a credit of `d`. `Err` where the credit is
    /// less; then nothing changes. One `fetch_add`. Java: `CountedCompleter.addToPendingCount`.
    pub fn add(&self, seat: Seat<V, K>, node: Node, d: u32) -> Result<Seat<V, K>, Seat<V, K>>
        requires table { IsSeatOf self.now seat }
        requires node { 0 < node }
        requires have { 0 < count node (view_of seat).held }
        requires plain { IsPlainAt node (view_of seat) }
        ensures added { IfOk result (λ later. IsSameSeat seat later
            × IsAdded (Content V K) (nodes_of self.now) (actor_of seat) node d (view_of seat) (view_of later)) }
        ensures paid { IfOk result (λ _. d ≤ (view_of seat).credit) }
        ensures unpaid { IfErr result (λ same. ((view_of seat).credit < d) × IsSameSeat seat same
            × (view_of same ≡ view_of seat)) }
    {
        self.add_by::<Brand>(seat, node, d)
    }

    fn add_by<A: Acting>(
        &self,
        seat: Seat<V, K>,
        node: Node,
        d: u32,
    ) -> Result<Seat<V, K>, Seat<V, K>>
        requires table { IsSeatOf self.now seat }
        requires node { 0 < node }
        requires have { 0 < count node (view_of seat).held }
        requires plain { IsPlainAt node (view_of seat) }
        requires picked { (A.nodes ≡ nodes_of self.now) × (A.actor ≡ actor_of seat) }
        ensures added { IfOk result (λ later. IsSameSeat seat later
            × IsAdded (Content V K) (nodes_of self.now) (actor_of seat) node d (view_of seat) (view_of later)) }
        ensures paid { IfOk result (λ _. d ≤ (view_of seat).credit) }
        ensures unpaid { IfErr result (λ same. ((view_of seat).credit < d) × IsSameSeat seat same
            × (view_of same ≡ view_of seat)) }
    {
        let Seat { mut token, credit } = seat;
        let price = d as u64;
        if credit < price {
            return Err(Seat { token, credit });
        }
        self.table
            .shared
            .fetch_add::<Add<A>>(&mut token, node as usize, price);
        Ok(Seat {
            token,
            credit: credit - price,
        })
    }

    /// One arrival at a node of `arm`. It is `Last` exactly where one was owed and not made. One `fetch_sub`. It lowers
    /// the count that Java's `CountedCompleter.tryComplete` lowers.
    pub fn arrive(&self, seat: Seat<V, K>, node: Node) -> Arrived<V, K>
        requires table { IsSeatOf self.now seat }
        requires node { 0 < node }
        requires have { 0 < count node (view_of seat).held }
        requires plain { IsPlainAt node (view_of seat) }
        ensures seat { IsSameSeat seat (seat_back result) }
        ensures arrived { (n : ℕ) × (reply_back result ≡ reply_of_arrival (n - 1)) × IsArrived (Content V K)
            (nodes_of self.now) (actor_of seat) node (view_of seat) n (view_of (seat_back result)) }
        ensures finish { IsFinishOf node result }
    {
        self.arrive_by::<Brand>(seat, node)
    }

    fn arrive_by<A: Acting>(&self, seat: Seat<V, K>, node: Node) -> Arrived<V, K>
        requires table { IsSeatOf self.now seat }
        requires node { 0 < node }
        requires have { 0 < count node (view_of seat).held }
        requires plain { IsPlainAt node (view_of seat) }
        requires picked { (A.nodes ≡ nodes_of self.now) × (A.actor ≡ actor_of seat) }
        ensures seat { IsSameSeat seat (seat_back result) }
        ensures arrived { (n : ℕ) × (reply_back result ≡ reply_of_arrival (n - 1)) × IsArrived (Content V K)
            (nodes_of self.now) (actor_of seat) node (view_of seat) n (view_of (seat_back result)) }
        ensures finish { IsFinishOf node result }
    {
        let Seat { mut token, credit } = seat;
        let found = self
            .table
            .shared
            .fetch_sub::<Arrive<A>>(&mut token, node as usize, 1);
        let seat = Seat { token, credit };
        if found == 1 {
            Arrived::Last(seat, Finish { node })
        } else {
            Arrived::Pending(seat, found - 2)
        }
    }

    /// One arrival at END: one `fetch_sub`.
    pub fn settle(&self, seat: Seat<V, K>) -> Seat<V, K>
        requires table { IsSeatOf self.now seat }
        requires have { 0 < count 0 (view_of seat).held }
        ensures seat { IsSameSeat seat result }
        ensures settled { IsSettled (Content V K) (nodes_of self.now) (actor_of seat) (view_of seat) (view_of result) }
    {
        self.settle_by::<Brand>(seat)
    }

    fn settle_by<A: Acting>(&self, seat: Seat<V, K>) -> Seat<V, K>
        requires table { IsSeatOf self.now seat }
        requires have { 0 < count 0 (view_of seat).held }
        requires picked { (A.nodes ≡ nodes_of self.now) × (A.actor ≡ actor_of seat) }
        ensures seat { IsSameSeat seat result }
        ensures settled { IsSettled (Content V K) (nodes_of self.now) (actor_of seat) (view_of seat) (view_of result) }
    {
        let Seat { mut token, credit } = seat;
        self.table.shared.fetch_sub::<Settle<A>>(&mut token, 0, 1);
        Seat { token, credit }
    }
}

/// The words at the start.
fn opening(alloc: Global, nodes: u32, ends: u64) -> Result<Vec<u64>, AllocError>
    ensures { IfOk result (λ v. v.items ≡ ends ∷ replicate (nodes + 1) 0) }
{
    let mut words = Vec::new(alloc);
    words.push(ends)?;
    words.resize(nodes as usize + 2, 0)?;
    Ok(words)
}
