//! What is kept at a pair for the last of its two arrivals.
ghost use Rattle.std.specs.Prelude.{◌≡◌, Option, Some, None};
ghost use Rattle.completer_tree.specs.Places.{place_at, place_by};

use crate::continuation::Continuation;
use crate::part::{Handed, PartValue};
use completion_core::Node;
use pending_count::{Fits, Place, Side};
use std::marker::PhantomData;

/// A continuation at its node, with the parent's number (0 at the top of a tree) and the top's.
#[derive(Drop)]
pub struct Completer<T: PartValue, C: Continuation<T>> {
    pub(crate) run: C,
    pub(crate) root: Node,
    pub(crate) parent: Node,
    pub(crate) of: PhantomData<T>,
}

impl<T: PartValue, C: Continuation<T>> Fits<Handed<T>> for Completer<T, C> {
    type Tag = T::Tag;

    ghost fits = { λ tag side v. T.fits tag side v };

    ghost tag_of = { λ k. C.tag_of k.run };

    ghost place_of = { λ k. place_by k.parent k.root (C.goes_to k.run) };

    fn tag(&self) -> T::Tag {
        self.run.tag()
    }

    fn place(&self) -> Option<Place<T::Tag>> {
        let (tag, is_left) = self.run.goes_to()?;
        Some(place_at(self.parent, self.root, tag, is_left))
    }
}

/// The place of one side of a node.
pub fn place_at<T: Copy>(node: Node, root: Node, tag: T, is_left: bool) -> Place<T>
    ensures { result ≡ place_at node root (tag, is_left) }
{
    Place {
        node,
        side: if is_left { Side::Left } else { Side::Right },
        root,
        tag,
    }
}
