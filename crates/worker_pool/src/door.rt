//! The inbox as one worker uses it.
ghost use Rattle.std.specs.Prelude.{◌≡◌, MatchOption, MatchResult};
ghost use Rattle.deques.specs.Tasks.{IsAdded, IsOldestOut};
ghost use Rattle.deques.specs.Handles.{IsOf, pass_calls};

use deques::{Inbox, Pass};
use std::sync::Wait;

/// An inbox with a pass of its own.
#[derive(Drop)]
pub struct Door<'a, T> {
    inbox: &'a Inbox<T>,
    pub pass: Pass<T>,
    ghost of: { IsOf inbox.now pass },
}

impl<'a, T: Drop> Door<'a, T> {
    /// A door with a new pass of the inbox.
    pub fn of(inbox: &'a Inbox<T>) -> Door<'a, T> {
        let pass = inbox.pass();
        Door { inbox, pass }
    }

    /// Puts a task into the inbox. If there is no memory for it, it comes back.
    pub fn put<R: Wait>(self, rt: &R, task: T) -> (Door<'a, T>, Result<(), T>)
        ensures put { MatchResult result.1 (λ _. IsAdded (pass_calls self.entry.pass) (pass_calls result.0.pass) task)
            (λ back. back ≡ task) }
    {
        let Door { inbox, pass } = self;
        let (pass, put) = inbox.put(rt, pass, task);
        (Door { inbox, pass }, put)
    }

    /// Takes the oldest task; `None` if the inbox was empty at one moment of the call.
    pub fn take<R: Wait>(self, rt: &R) -> (Door<'a, T>, Option<T>)
        ensures taken { MatchOption result.1 (pass_calls result.0.pass ≡ pass_calls self.entry.pass)
            (λ task. IsOldestOut (pass_calls self.entry.pass) (pass_calls result.0.pass) task) }
    {
        let Door { inbox, pass } = self;
        let (pass, task) = inbox.take(rt, pass);
        (Door { inbox, pass }, task)
    }
}
