//! The two continuations of a node.
ghost use Rattle.std.specs.Prelude.{◌≡◌, Bool, Option, Some, None, Ok, Result};
ghost use Rattle.pending_count.specs.declared.place.Side.TheVariants.{Left, Right, Whole};
ghost use Rattle.completer_tree.specs.declared.part.Failure.{Failure};
ghost use Rattle.completer_tree.specs.Places.{Goes, IsLeftmost};

use crate::part::{Failure, Handed, PartValue};

/// The continuations of one node: exactly one of them runs, once, after both sides were handed in. The answer goes to
/// the parent, or at the top of a tree to whoever handed in the last value.
pub trait Continuation<T: PartValue>: Drop {
    ghost tag_of: { Self → T.Tag };

    // The tag of the parent, and whether it is its left side; none at the top.
    ghost goes_to: { Self → Option (T.Tag × Bool) };

    /// The tag of the node.
    fn tag(&self) -> T::Tag
        ensures { result ≡ tag_of self.now };

    /// The tag of the parent, and whether the node is on its left side; `None` at the top.
    fn goes_to(&self) -> Option<(T::Tag, bool)>
        ensures { result ≡ goes_to self.now };

    /// Runs if both sides have values (Java: `onCompletion`).
    fn on_completion(self, left: T, right: T) -> Handed<T>
        requires left { T.fits (tag_of self) Left (Ok left) }
        requires right { T.fits (tag_of self) Right (Ok right) }
        ensures goes { Goes T.fits (tag_of self) (goes_to self) result };

    /// Runs if a side has no value, on the failure of the leftmost side without one (Java: `onExceptionalCompletion`).
    /// It answers `Err` to pass a failure on to the parent, or `Ok` to hand in a value instead.
    fn on_exceptional_completion(self, failure: Failure) -> Handed<T>
        requires leftmost { IsLeftmost T.fits (tag_of self) failure }
        ensures goes { Goes T.fits (tag_of self) (goes_to self) result };

    /// A node's place in the tree leads to the parent: the whole tree gives one answer for both. At the top it is the
    /// node's own answer.
    ghost leads: { (c : Self) (p : T.Tag × Bool) → goes_to c ≡ Some p → (v : Result T Failure) → T.result p.0 v
        → T.result (tag_of c) v };

    ghost ends: { (c : Self) → goes_to c ≡ None → (v : Result T Failure) → T.fits (tag_of c) Whole v
        → T.result (tag_of c) v };
}
