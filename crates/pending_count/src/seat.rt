//! Seats: the tokens that hold arrivals.
ghost use Rattle.std.specs.Prelude.{◌≡◌, ℕ, ◌+◌, ◌^◌, ◌≤◌, []};
ghost use Rattle.pending_count.specs.Views.{InRange};

use crate::place::{Fits, Slot};
use crate::view::View;
use completion_core::Node;

pub(crate) type SeatToken<V, K, T> = atomic_table::Seat<Option<Slot<V, K>>, View<T>>;

/// A token that holds arrivals and credit. It is passed to each call of the counts and given back; no two threads have
/// it at once.
#[derive(Drop)]
pub struct Seat<V, K: Fits<V>> {
    pub(crate) token: SeatToken<V, K, K::Tag>,
    pub(crate) credit: u64,
    ghost paid: { (token.me.0.credit ≡ credit) × (credit ≤ 2 ^ 62) },
    ghost idle: { token.me.0.taken ≡ [] },
    ghost ranged: { (nodes : ℕ) → token.table_id.words ≡ nodes + 2 → InRange nodes token.me.0 },
}

/// The right to run the continuation of a node. It comes with the last arrival at that node, and with no other.
#[derive(Drop, Debug)]
pub struct Finish {
    pub(crate) node: Node,
}

/// What an arrival found.
#[derive(Drop)]
pub enum Arrived<V, K: Fits<V>> {
    /// It wasn't the last; the number is the pending count that is left.
    Pending(Seat<V, K>, u64),
    /// It was the last that was owed. The seat has what the node kept.
    Last(Seat<V, K>, Finish),
}

impl<V, K: Fits<V>> Seat<V, K> {
    /// What the seat may still pay with: a claim costs one, and an addition of `d` arrivals costs `d`.
    pub fn credit(&self) -> u64
        ensures { result ≡ self.now.token.me.0.credit }
    {
        self.credit
    }
}

impl Finish {
    /// The node that is to run.
    pub fn node(&self) -> Node
        ensures { result ≡ self.now.node }
    {
        self.node
    }
}

/// The right to run the continuation of a pair, with what came in on its sides and what was kept for it.
#[derive(Drop)]
pub struct FinishPair<V, K> {
    pub left: V,
    pub right: V,
    pub kept: K,
}

/// What an arrival at a pair found.
#[derive(Drop)]
pub enum ArrivedPair<V, K: Fits<V>> {
    /// The other side is still owed; the number is the pending count that is left.
    Pending(Seat<V, K>, u64),
    /// It was the last. The seat has what the node kept.
    Last(Seat<V, K>, FinishPair<V, K>),
}
