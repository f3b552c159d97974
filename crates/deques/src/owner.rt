//! The calls of the thread that owns a deque.
ghost use Rattle.std.specs.Prelude.{◌≡◌, ◌≤◌, [], length, IfErr, IfOk, MatchOption, MatchResult};
ghost use Rattle.deques.specs.Tasks.{IsAdded, IsNewestOut, WasEmpty};
ghost use Rattle.deques.specs.Handles.{owner_calls, thief_calls, SameDeque, IsThiefOf};

use crate::handles::{Owner, Thief};
use crate::rule::{Pop, Put};
use crossbeam_deque::Worker;
use std::alloc::{AllocError, Global};

// The slots of a new deque. It grows by rings of twice the size.
const FIRST: usize = 64;

impl<T: Drop> Owner<T> {
    /// A deque without tasks.
    #[tactic(auto, using(crate::proofs::Keeps::opens))]
    pub fn new(alloc: Global) -> Result<Owner<T>, AllocError>
        ensures { IfOk result (λ o. owner_calls o ≡ []) }
    {
        let worker = Worker::lifo_as(alloc, FIRST)?;
        Ok(Owner { worker })
    }

    /// A thief of this deque, for another thread.
    pub fn thief(&self) -> Result<Thief<T>, AllocError>
        ensures { IfOk result (λ t. IsThiefOf self.now t × (thief_calls t ≡ [])) }
    {
        Ok(Thief::of(self.worker.stealer()?))
    }

    /// Adds the task as the newest. If the deque is full and can't grow, the task comes back.
    #[tactic(auto, using(crate::proofs::Keeps::adds))]
    pub fn push(&mut self, task: T) -> Result<(), T>
        ensures same { SameDeque self.old self.new }
        ensures pushed { MatchResult result (λ _. IsAdded (owner_calls self.old) (owner_calls self.new) task)
            (λ back. (back ≡ task) × (owner_calls self.new ≡ owner_calls self.old)) }
        ensures refused { IfErr result (λ _. 64 ≤ length (owner_calls self.old)) }
    {
        self.worker.push_as::<Put>(task)
    }

    /// The newest task. `None` only if the deque was empty at one moment of the call.
    #[tactic(auto, using(crate::proofs::Keeps::pops))]
    pub fn pop(&mut self) -> Option<T>
        ensures same { SameDeque self.old self.new }
        ensures popped { MatchOption result
            ((owner_calls self.new ≡ owner_calls self.old) × WasEmpty (owner_calls self.old))
            (λ task. IsNewestOut (owner_calls self.old) (owner_calls self.new) task) }
    {
        self.worker.pop_as::<Pop>()
    }
}
