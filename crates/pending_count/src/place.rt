//! Places in a completion tree, and what a kept value says of its node.
ghost use Rattle.std.specs.Prelude.{◌≡◌, Option};
ghost use Rattle.pending_count.specs.declared.place.Place.{Place};
ghost use Rattle.pending_count.specs.declared.place.Side.{Side};

use completion_core::Node;

/// The arrival of a pair that a value is for; `Whole` is the value that the top node of a tree gives.
#[derive(Clone, Copy, Debug, PartialEq, Eq)]
pub enum Side {
    Left,
    Right,
    Whole,
}

/// Where the value of a node goes: to one side of the pair at `node`, in the tree whose top is `root`. `tag` is that
/// pair's.
#[derive(Clone, Copy, Debug, PartialEq, Eq)]
pub struct Place<T> {
    pub node: Node,
    pub side: Side,
    pub root: Node,
    pub tag: T,
}

impl<T> Place<T> {
    /// The top node of the tree (Java: `CountedCompleter.getRoot`). For other programs: no climb of `streamrun` asks
    /// for it.
    pub fn root(&self) -> Node
        ensures { result ≡ self.now.root }
    {
        self.root
    }
}

/// What is kept at a pair for the last of its two arrivals. It has the pair's tag, and the place to which the pair's
/// own value goes.
pub trait Fits<V> {
    /// Distinguishes one pair from another, for example by the range of items that the pair covers. It has to be one
    /// struct of plain fields without type parameters: the toolchain doesn't prove generic callers over a tuple or a
    /// generic struct here.
    type Tag: Copy;

    // The fact about a tag, a side of its pair and a value that is handed in on that side.
    ghost fits: { Self.Tag → Side → V → Type 0 };

    ghost tag_of: { Self → Self.Tag };

    ghost place_of: { Self → Option (Place Self.Tag) };

    /// The tag of the pair.
    fn tag(&self) -> Self::Tag
        ensures { result ≡ tag_of self.now };

    /// The place to which the pair's value goes; `None` at the top of a tree.
    fn place(&self) -> Option<Place<Self::Tag>>
        ensures { result ≡ place_of self.now };
}

/// The content of a slot of the table.
#[derive(Drop)]
pub(crate) enum Slot<V, K> {
    Value(V),
    Kept(K),
}
