//! The calls of threads that share an inbox.
ghost use Rattle.std.specs.Prelude.{◌≡◌, [], IfOk, MatchOption, MatchResult};
ghost use Rattle.deques.specs.Tasks.{IsAdded, IsOldestOut, WasEmpty};
ghost use Rattle.deques.specs.Handles.{pass_calls, IsOf};

use crate::handles::{Inbox, Pass};
use crate::rule::{Put, Take};
use crossbeam_deque::{Injector, Steal};
use std::alloc::{AllocError, Global};
use std::sync::Wait;

impl<T> Inbox<T> {
    /// An inbox without tasks, and its first pass.
    #[tactic(auto, using(crate::proofs::Keeps::opens))]
    pub fn new(alloc: Global) -> Result<(Inbox<T>, Pass<T>), AllocError>
        ensures { IfOk result (λ made. IsOf made.0 made.1 × (pass_calls made.1 ≡ [])) }
    {
        let (injector, pass) = Injector::new_as(alloc)?;
        Ok((Inbox { injector }, Pass { pass }))
    }

    /// A pass for another thread.
    #[tactic(auto, using(crate::proofs::Keeps::admits))]
    pub fn pass(&self) -> Pass<T>
        ensures { IsOf self.now result × (pass_calls result ≡ []) }
    {
        Pass {
            pass: self.injector.pass(),
        }
    }
}

impl<T: Drop> Inbox<T> {
    /// Adds the task as the newest. If there is no memory for it, it comes back.
    #[tactic(auto, using(crate::proofs::Keeps::adds))]
    pub fn put<R: Wait>(&self, rt: &R, pass: Pass<T>, task: T) -> (Pass<T>, Result<(), T>)
        requires { IsOf self.now pass }
        ensures same { IsOf self.now result.0 }
        ensures put { MatchResult result.1 (λ _. IsAdded (pass_calls pass) (pass_calls result.0) task)
            (λ back. (back ≡ task) × (pass_calls result.0 ≡ pass_calls pass)) }
    {
        let Pass { mut pass } = pass;
        let put = self.injector.push_as::<Put, R>(rt, &mut pass, task);
        (Pass { pass }, put)
    }

    /// The oldest task. `None` only if the inbox was empty at one moment of the call. Waits only while other threads
    /// are inside a `put` or a `take`.
    pub fn take<R: Wait>(&self, rt: &R, pass: Pass<T>) -> (Pass<T>, Option<T>)
        requires { IsOf self.now pass }
        ensures same { IsOf self.now result.0 }
        ensures taken { MatchOption result.1 ((pass_calls result.0 ≡ pass_calls pass) × WasEmpty (pass_calls pass))
            (λ task. IsOldestOut (pass_calls pass) (pass_calls result.0) task) }
    {
        let Pass { mut pass } = pass;
        for _ in rt.forever() {
            match self.injector.steal_as::<Take, R>(rt, &mut pass) {
                Steal::Success(task) => return (Pass { pass }, Some(task)),
                Steal::Empty => return (Pass { pass }, None),
                Steal::Retry => {}
            }
        }
        unreachable!()
    }
}
