//! The rule that holds between any two steps, and what a thread learns from each kind of step.
ghost use Rattle.deques.specs.Rule.{Kept, none_yet, Adds, Hands, FoundEmpty, FoundNearlyEmpty};
ghost use Rattle.deques.specs.declared.calls.Call.TheVariants.{Newest, Oldest};

use crate::calls::Calls;
use crossbeam_deque::protocol::{Outcome, Protocol};

/// There is one history of calls which leaves what is held, and in which each pass finds exactly its own calls.
pub struct History;

impl<T> Protocol<T, Calls<T>> for History {
    ghost holds = { Kept };

    ghost first = { none_yet };

    ghost guest = { none_yet };
}

/// The task was added as the newest.
pub struct Put;

impl<T> Outcome<T, Calls<T>> for Put {
    ghost then = { Adds };
}

/// The newest task was handed out, or none was held at one moment.
pub struct Pop;

impl<T> Outcome<T, Calls<T>> for Pop {
    ghost then = { Hands Newest };

    ghost empty = { FoundEmpty };
}

/// The oldest task was handed out, or one task was held at most at one moment.
pub struct Theft;

impl<T> Outcome<T, Calls<T>> for Theft {
    ghost then = { Hands Oldest };

    ghost empty = { FoundNearlyEmpty };
}

/// The oldest task was handed out, or none was held at one moment.
pub struct Take;

impl<T> Outcome<T, Calls<T>> for Take {
    ghost then = { Hands Oldest };

    ghost empty = { FoundEmpty };
}
