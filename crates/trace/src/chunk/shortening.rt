//! Chunks that become shorter in place.

ghost use Rattle.std.specs.Prelude.{true, false, ◌≡◌, ◌≢◌, [], ◌++◌, ℕ, ◌<◌, ◌≤◌, ◌⊎◌, List, length};
ghost use Rattle.std.specs.Prelude.{All, IfNone, IfSome, MatchOption, drop, flat_map, take, vec_len};
ghost use Rattle.trace.specs.Trace.{trace};
ghost use Rattle.trace.specs.Cuts.{IsCut, IsInside};

use crate::chunk::Chunk;
use crate::item::End;
use lambda_values::Item;

impl Chunk {
    /// Whether there are at least `n` items.
    pub fn has_items(&self, n: u64) -> bool
        ensures yes { result ≡ true → n ≤ length self.now.items }
        ensures no { result ≡ false → length self.now.items < n }
    {
        cut_at(&self.pieces, n).is_some()
    }

    /// Keeps the first `n` items, or all if there are fewer, and ends the chunk as said. It takes no memory.
    pub fn cut_to(&mut self, n: u64, end: End)
        ensures { self.new ≡ trace (take n self.old.items) end }
    {
        if let Some((whole, within)) = cut_at(&self.pieces, n) {
            keep_front(&mut self.pieces, whole, within);
        }
        self.end = end;
    }

    /// Removes the first `n` items, or all if there are fewer. It takes no memory.
    pub fn remove_first(&mut self, n: u64)
        ensures { self.new ≡ trace (drop n self.old.items) self.old.ending }
    {
        match cut_at(&self.pieces, n) {
            Some((whole, within)) => keep_back(&mut self.pieces, whole, within),
            None => self.pieces.clear(),
        }
    }
}

/// Where the first `n` items end: after whole pieces and some items of the next one. `None` if there are fewer.
fn cut_at(pieces: &[Vec<Item>], n: u64) -> Option<(usize, usize)>
    ensures cut { IfSome result (λ at. IsCut (λ piece. piece.items) pieces.now n at.0 at.1) }
    ensures enough { IfSome result (λ _. n ≤ length (flat_map (λ piece. piece.items) pieces.now)) }
    ensures few { IfNone result (length (flat_map (λ piece. piece.items) pieces.now) < n) }
{
    let mut left = n;
    for (whole, piece) in pieces.iter().enumerate() {
        if left < piece.len() as u64 {
            return Some((whole, left as usize));
        }
        left -= piece.len() as u64;
    }
    if left == 0 {
        Some((pieces.len(), 0))
    } else {
        None
    }
}

/// Keeps whole pieces and some items of the next one.
pub(super) fn keep_front(pieces: &mut Vec<Vec<Item>>, whole: usize, within: usize)
    requires inside { IsInside (λ piece. piece.items) pieces.old.items whole within }
    ensures items { flat_map (λ piece. piece.items) pieces.new.items
        ≡ flat_map (λ piece. piece.items) (take whole pieces.old.items)
        ++ take within (flat_map (λ piece. piece.items) (drop whole pieces.old.items)) }
    ensures full { All (λ piece. piece.items ≢ []) pieces.old.items → All (λ piece. piece.items ≢ []) pieces.new.items }
{
    if within == 0 {
        pieces.truncate(whole);
        return;
    }
    pieces.truncate(whole + 1);
    pieces[whole].truncate(within);
}

/// Removes whole pieces and some items of the next one.
pub(super) fn keep_back(pieces: &mut Vec<Vec<Item>>, whole: usize, within: usize)
    requires inside { IsInside (λ piece. piece.items) pieces.old.items whole within }
    ensures items { flat_map (λ piece. piece.items) pieces.new.items
        ≡ drop within (flat_map (λ piece. piece.items) (drop whole pieces.old.items)) }
    ensures full { All (λ piece. piece.items ≢ []) pieces.old.items → All (λ piece. piece.items ≢ []) pieces.new.items }
{
    drop_front(pieces, whole);
    if within > 0 {
        drop_front(&mut pieces[0], within);
    }
}

/// Removes the first `n` elements.
fn drop_front<T: Drop>(elements: &mut Vec<T>, n: usize)
    requires { n ≤ vec_len elements.old }
    ensures { elements.new.items ≡ drop n elements.old.items }
{
    let kept = elements.len() - n;
    elements.rotate_left(n);
    elements.truncate(kept);
}
