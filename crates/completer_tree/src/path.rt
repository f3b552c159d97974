//! Arrivals along a path of nodes, with no continuations.
ghost use Rattle.std.specs.Prelude.{◌≡◌, ◌≤◌, length};
ghost use Rattle.pending_count.specs.Seats.{Content, view_of, actor_of, nodes_of, IsSeatOf, IsSameSeat};
ghost use Rattle.completer_tree.specs.Paths.{IsPath, Propagates};

use crate::tree::Tree;
use completion_core::Node;
use pending_count::{Arrived, Fits, Seat};

impl<'a, V, K: Fits<V>> Tree<'a, V, K> {
    /// Arrives at the nodes of a path in turn, as long as each arrival is the last at its node (Java:
    /// `propagateCompletion`). No continuation runs. It answers at how many nodes its arrival was the last. One
    /// `fetch_sub` for each arrival.
    pub fn propagate_completion(&self, seat: Seat<V, K>, path: &[Node]) -> (Seat<V, K>, usize)
        requires table { IsSeatOf self.now.counts.now seat }
        requires path { IsPath path.now (view_of seat) }
        ensures seat { IsSameSeat seat result.0 }
        ensures finished { Propagates (Content V K) (nodes_of self.now.counts.now) (actor_of seat) path.now
            (view_of seat) (view_of result.0) result.1 }
        ensures most { result.1 ≤ length path.now }
    {
        let Some((&node, rest)) = path.split_first() else {
            return (seat, 0);
        };
        match self.counts.arrive(seat, node) {
            Arrived::Pending(seat, _pending) => (seat, 0),
            Arrived::Last(seat, _finish) => {
                let (seat, finished) = self.propagate_completion(seat, rest);
                (seat, finished + 1)
            }
        }
    }
}
