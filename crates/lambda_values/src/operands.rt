//! The operands of `of` in an inner stream.

ghost use Rattle.std.specs.Prelude.{◌≡◌, ◌<◌, ◌≤◌, IfNone, IfSome, length};

use crate::expr::LongExpr;

/// At most 64 expressions, in order of writing.
#[derive(Drop)]
pub struct Operands {
    exprs: Vec<LongExpr>,
    ghost few: { length exprs.items ≤ 64 },
}

impl Operands {
    /// How many operands there may be.
    pub const MAX: usize = 64;

    /// The operands, or none if there are more than 64.
    pub fn new(exprs: Vec<LongExpr>) -> Option<Operands>
        ensures some { IfSome result (λ operands. operands.exprs.items ≡ exprs.items) }
        ensures none { IfNone result (64 < length exprs.items) }
    {
        if exprs.len() > Operands::MAX {
            return None;
        }
        Some(Operands { exprs })
    }

    /// The operands, in order of writing.
    pub fn exprs(&self) -> &[LongExpr]
        ensures value { result.now ≡ self.now.exprs.items }
        ensures few { length result.now ≤ 64 }
    {
        self.exprs.as_slice()
    }
}
