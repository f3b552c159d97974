//! Chunks that are cut at the first item that ends a walk.

ghost use Rattle.std.specs.Prelude.{◌≡◌, Option, ℕ, ◌+◌, IfSome, IfNone, MatchOption, flat_map, is_some};
ghost use Rattle.trace.specs.Cuts.{IsCut};
ghost use Rattle.trace.specs.Stops.{stop_at, kept_before, kept_from};
ghost use Rattle.trace.specs.declared.item.End.{End};
ghost use Rattle.lambda_values.specs.declared.item.Item.{Item};

use crate::chunk::Chunk;
use crate::chunk::shortening::{keep_back, keep_front};
use crate::item::End;
use lambda_values::Item;

/// What may end a walk at an item.
pub trait EndTest {
    // How a walk ends before this item, or nothing if it goes on.
    ghost stops: { Self → Item → Option End };

    /// How a walk ends before this item, or `None` if it goes on.
    fn end_before(&self, item: Item) -> Option<End>
        ensures { result ≡ stops self.now item };
}

impl Chunk {
    /// Keeps the items before the first one that ends the walk, and ends as that item says. It takes no memory.
    ///
    /// The answer says whether an item ends the walk; if not, the chunk stays as it is.
    pub fn keep_until<S: EndTest>(&mut self, stop: &S) -> bool
        ensures kept { self.new ≡ kept_before (stop_at (S.stops stop.now) self.old.items) self.old }
        ensures found { result ≡ is_some (stop_at (S.stops stop.now) self.old.items) }
    {
        let Some((whole, within, end)) = first_stop(&self.pieces, stop) else {
            return false;
        };
        keep_front(&mut self.pieces, whole, within);
        self.end = end;
        true
    }

    /// Keeps the items from the first one on that ends the walk. It takes no memory.
    ///
    /// If the walk ends there with a fault, no item and this fault are left.
    pub fn keep_from<S: EndTest>(&mut self, stop: &S)
        ensures { self.new ≡ kept_from (stop_at (S.stops stop.now) self.old.items) self.old }
    {
        match first_stop(&self.pieces, stop) {
            Some((whole, within, End::Done)) => keep_back(&mut self.pieces, whole, within),
            Some((_, _, fault)) => {
                self.pieces.clear();
                self.end = fault;
            }
            None => self.pieces.clear(),
        }
    }
}

/// The first item that ends the walk: after whole pieces and some items of the next one.
fn first_stop<S: EndTest>(pieces: &[Vec<Item>], stop: &S) -> Option<(usize, usize, End)>
    ensures some { IfSome result (λ at. (n : ℕ)
        × (stop_at (S.stops stop.now) (flat_map (λ piece. piece.items) pieces.now) ≡ Some (n, at.2))
        × IsCut (λ piece. piece.items) pieces.now n at.0 at.1) }
    ensures none { IfNone result (stop_at (S.stops stop.now) (flat_map (λ piece. piece.items) pieces.now) ≡ None) }
{
    for (whole, piece) in pieces.iter().enumerate() {
        if let Some((within, end)) = stop_in(piece, stop) {
            return Some((whole, within, end));
        }
    }
    None
}

/// The position of the first of these items that ends the walk, and how it ends.
fn stop_in<S: EndTest>(items: &[Item], stop: &S) -> Option<(usize, End)>
    ensures { result ≡ stop_at (S.stops stop.now) items.now }
{
    for (at, item) in items.iter().enumerate() {
        if let Some(end) = stop.end_before(*item) {
            return Some((at, end));
        }
    }
    None
}
