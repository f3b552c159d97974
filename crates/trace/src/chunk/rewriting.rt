//! Chunks whose items are changed in place.

ghost use Rattle.std.specs.Prelude.{◌≡◌, ◌≢◌, [], ◌++◌, All, List, flat_map, length};
ghost use Rattle.trace.specs.Trace.{trace};
ghost use Rattle.lambda_values.specs.declared.item.Item.{Item};

use crate::chunk::Chunk;
use lambda_values::Item;

/// A pass that changes items where they are stored.
pub trait Rewrite {
    // What it makes of all items that are still to come.
    ghost rewritten: { Self → List Item → List Item };

    // Without items to come it makes none.
    ghost nothing: { (pass : Self) → rewritten pass [] ≡ [] };

    /// Changes the next items. It neither adds nor removes any.
    fn rewrite(&mut self, items: &mut [Item])
        ensures next { (rest : List Item)
            → rewritten self.old (items.old ++ rest) ≡ items.new ++ rewritten self.new rest }
        ensures count { length items.new ≡ length items.old };
}

impl Chunk {
    /// Changes the items where they are stored, one piece after the other. It takes no memory.
    pub fn rewrite<R: Rewrite>(&mut self, pass: &mut R)
        ensures { self.new ≡ trace (R.rewritten pass.old self.old.items) self.old.ending }
    {
        rewrite_pieces(&mut self.pieces, pass);
    }
}

/// Changes the items of these pieces.
fn rewrite_pieces<R: Rewrite>(pieces: &mut [Vec<Item>], pass: &mut R)
    ensures items { flat_map (λ piece. piece.items) pieces.new
        ≡ R.rewritten pass.old (flat_map (λ piece. piece.items) pieces.old) }
    ensures full { All (λ piece. piece.items ≢ []) pieces.old → All (λ piece. piece.items ≢ []) pieces.new }
{
    for piece in pieces {
        pass.rewrite(piece);
    }
}
