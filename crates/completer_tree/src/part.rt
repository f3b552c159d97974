//! Values that describe parts of a whole, and why a part has no value.
ghost use Rattle.std.specs.Prelude.{Result};
ghost use Rattle.completer_tree.specs.declared.part.Failure.{Failure};
ghost use Rattle.pending_count.specs.declared.place.Side.{Side};

use trace::Fault;

/// Why a part of a tree has no value.
#[derive(Clone, Copy, PartialEq, Eq)]
pub enum Failure {
    /// The walk over the part met this fault.
    Fault(Fault),
    /// An allocation failed. It says nothing about the part.
    NoMemory,
}

/// What is handed in at a place.
pub type Handed<T> = Result<T, Failure>;

/// A value that describes a part of a whole.
pub trait PartValue: Drop {
    /// What distinguishes one node from another, for example the range of items below it. It has to be one struct of
    /// plain fields without type parameters (see `pending_count::Fits`).
    type Tag: Copy;

    // The fact about a tag, a side of its node or the whole of it, and what is handed in there.
    ghost fits: { Self.Tag → Side → Result Self Failure → Type 0 };

    // What the whole tree gives that has a node with this tag.
    ghost result: { Self.Tag → Result Self Failure → Type 0 };
}
