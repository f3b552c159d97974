//! How far a step over lanes came.

ghost use Rattle.batch_eval.specs.Lanes.{after};
ghost use Rattle.std.specs.Prelude.{◌≡◌, None};

use lambda_values::FaultKind;

/// How many lanes have a value, and the fault of the lane after them, if it has one.
#[derive(Clone, Copy)]
pub(crate) struct Reached {
    pub(crate) live: usize,
    pub(crate) fault: Option<FaultKind>,
}

/// All lanes.
pub(crate) fn all(live: usize) -> Reached
    ensures { result ≡ record { live = live; fault = None } }
{
    Reached { live, fault: None }
}

impl Reached {
    /// What an earlier and this later step came to together: a fault of the later step is at an earlier lane.
    pub(crate) fn after(self, earlier: Reached) -> Reached
        ensures { result ≡ after self earlier }
    {
        Reached {
            live: self.live,
            fault: match self.fault {
                Some(kind) => Some(kind),
                None => earlier.fault,
            },
        }
    }
}
