//! A stack of what waits for the operand to its right.

ghost use Rattle.lambda_expr.specs.declared.parse.Pending.{Pending as pending};
ghost use Rattle.std.specs.Prelude.{◌≡◌, [], ◌∷◌, IfNone, IfSome, List, OnOk, reverse};

use crate::parse::Pending;
use std::alloc::{AllocError, Global};
use std::marker::Model;

/// What waits, the innermost last in memory; contracts see it first.
#[derive(Drop)]
pub(crate) struct Stack {
    items: Vec<Pending>,
}

impl Model for Stack {
    ghost use Rattle.std.specs.Prelude.{List, reverse};
    ghost use Rattle.lambda_expr.specs.declared.parse.Pending.{Pending as pending};

    ghost Value = { List pending };

    ghost view = { λ stack. reverse stack.items.items };
}

impl Stack {
    /// A stack of nothing; it takes no memory yet.
    pub(crate) fn new(alloc: Global) -> Stack
        ensures { result ≡ [] }
    {
        Stack {
            items: Vec::new(alloc),
        }
    }

    /// Puts what waits on top. The one error is that an allocation failed.
    pub(crate) fn put(&mut self, innermost: Pending) -> Result<(), AllocError>
        ensures { OnOk result (self.new ≡ innermost ∷ self.old) }
    {
        self.items.push(innermost)?;
        Ok(())
    }

    /// Takes the innermost off the stack, if anything waits.
    pub(crate) fn take(&mut self) -> Option<Pending>
        ensures some { IfSome result (λ innermost. self.old ≡ innermost ∷ self.new) }
        ensures none { IfNone result (self.old ≡ []) }
    {
        self.items.pop()
    }

    /// The innermost, which stays where it is.
    pub(crate) fn innermost(&self) -> Option<Pending>
        ensures some { IfSome result (λ innermost. (rest : List pending) × (self.now ≡ innermost ∷ rest)) }
        ensures none { IfNone result (self.now ≡ []) }
    {
        self.items.last().copied()
    }
}
