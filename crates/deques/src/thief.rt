//! The calls of a thread that steals from a deque.
ghost use Rattle.std.specs.Prelude.{◌≡◌, ◌<◌, ◌⊎◌, [], MatchOption};
ghost use Rattle.deques.specs.Tasks.{IsOldestOut, WasNearlyEmpty};
ghost use Rattle.deques.specs.Handles.{thief_calls, thief_seen, SamePrey};
ghost use Rattle.crossbeam_deque.specs.Handles.{stealer_deque};

use crate::calls::Calls;
use crate::handles::Thief;
use crate::rule::{History, Theft};
use crossbeam_deque::{Steal, Stealer};
use std::alloc::Global;

impl<T> Thief<T> {
    /// A thief with a pass of its own.
    #[tactic(auto, using(crate::proofs::Keeps::admits))]
    pub(crate) fn of(stealer: Stealer<T, Global, Calls<T>, History>) -> Thief<T>
        ensures { (stealer_deque result.stealer ≡ stealer_deque stealer) × (thief_calls result ≡ []) }
    {
        let pass = stealer.pass();
        Thief { stealer, pass }
    }
}

impl<T: Drop> Thief<T> {
    /// The oldest task. `None` only if one task was held at most at one moment of the call, which the owner may be
    /// popping, or if another thread was faster.
    #[tactic(auto, using(crate::proofs::Keeps::takes))]
    pub fn steal(&mut self) -> Option<T>
        ensures same { SamePrey self.old self.new }
        ensures stolen { MatchOption result ((thief_calls self.new ≡ thief_calls self.old)
            × ((thief_seen self.old < thief_seen self.new) ⊎ WasNearlyEmpty (thief_calls self.old)))
            (λ task. IsOldestOut (thief_calls self.old) (thief_calls self.new) task) }
    {
        match self.stealer.steal_as::<Theft>(&mut self.pass) {
            Steal::Success(task) => Some(task),
            Steal::Empty => None,
            Steal::Retry => None,
        }
    }
}
