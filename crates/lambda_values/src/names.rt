//! The names of the earlier jobs that a lambda refers to.

ghost use Rattle.lambda_values.specs.Earlier.{Numbers};
ghost use Rattle.lambda_values.specs.References.{Agree, each_names, inner_names, long_names, names_of, truth_names};
ghost use Rattle.lambda_values.specs.Lambda.{body_of};
ghost use Rattle.lambda_values.specs.Streams.{Inner, exprs_of, inner_of, inner_value};
ghost use Rattle.lambda_values.specs.Term.{Long, Truth, long_of, truth_of};
ghost use Rattle.lambda_values.specs.Value.{long_value, truth_value};
ghost use Rattle.lambda_values.specs.declared.item.Item.{Item};
ghost use Rattle.std.specs.Prelude.{◌≡◌, ◌++◌, [], ◌∷◌, IfOk};

use crate::expr::{BoolExpr, LongExpr};
use crate::inner::InnerExpr;
use crate::lambda::{Body, Lambda};
use std::alloc::{AllocError, Global};
use stream_tokens::Bytes;

/// Puts a copy of a name after the others.
pub(crate) fn push_name(
    alloc: Global,
    name: &Bytes,
    names: &mut Vec<Bytes>,
) -> Result<(), AllocError>
    ensures { IfOk result (λ _. names.new.items ≡ names.old.items ++ name.now ∷ []) }
{
    let copy = Vec::from_slice(alloc, name.as_slice())?;
    names.push(Bytes::from(copy))?;
    Ok(())
}

impl LongExpr {
    /// Adds the names of its references, in order of writing. One call for each node; the one error is that an
    /// allocation failed.
    #[cycle(names)]
    pub fn push_names(&self, alloc: Global, names: &mut Vec<Bytes>) -> Result<(), AllocError>
        ensures { IfOk result (λ _. names.new.items ≡ names.old.items ++ long_names (long_of self.now)) }
    {
        match self {
            LongExpr::Number(_) | LongExpr::Parameter(_) | LongExpr::Cell(_) | LongExpr::Row => Ok(
                (),
            ),
            LongExpr::Reference(name) => push_name(alloc, name, names),
            LongExpr::Unary(_, operand) => operand.push_names(alloc, names),
            LongExpr::Binary(_, pair) => {
                pair.left.push_names(alloc, names)?;
                pair.right.push_names(alloc, names)
            }
            LongExpr::Choose(choice) => {
                choice.condition.push_names(alloc, names)?;
                choice.chosen.push_names(alloc, names)?;
                choice.other.push_names(alloc, names)
            }
        }
    }
}

impl BoolExpr {
    /// Adds the names of its references, in order of writing. One call for each node; the one error is that an
    /// allocation failed.
    #[cycle(names)]
    pub fn push_names(&self, alloc: Global, names: &mut Vec<Bytes>) -> Result<(), AllocError>
        ensures { IfOk result (λ _. names.new.items ≡ names.old.items ++ truth_names (truth_of self.now)) }
    {
        match self {
            BoolExpr::Literal(_) => Ok(()),
            BoolExpr::Compare(_, pair) => {
                pair.left.push_names(alloc, names)?;
                pair.right.push_names(alloc, names)
            }
            BoolExpr::Not(operand) => operand.push_names(alloc, names),
            BoolExpr::Connect(_, pair) => {
                pair.left.push_names(alloc, names)?;
                pair.right.push_names(alloc, names)
            }
            BoolExpr::Choose(choice) => {
                choice.condition.push_names(alloc, names)?;
                choice.chosen.push_names(alloc, names)?;
                choice.other.push_names(alloc, names)
            }
        }
    }
}

/// The names of expressions, one expression after the other.
fn push_each(alloc: Global, exprs: &[LongExpr], names: &mut Vec<Bytes>) -> Result<(), AllocError>
    ensures { IfOk result (λ _. names.new.items ≡ names.old.items ++ each_names (exprs_of exprs.now)) }
{
    for expr in exprs {
        expr.push_names(alloc, names)?;
    }
    Ok(())
}

impl InnerExpr {
    /// Adds the names of its references, in order of writing. The one error is that an allocation failed.
    pub fn push_names(&self, alloc: Global, names: &mut Vec<Bytes>) -> Result<(), AllocError>
        ensures { IfOk result (λ _. names.new.items ≡ names.old.items ++ inner_names (inner_of self.now)) }
    {
        match self {
            InnerExpr::Range(from, to) | InnerExpr::RangeClosed(from, to) => {
                from.push_names(alloc, names)?;
                to.push_names(alloc, names)
            }
            InnerExpr::Of(operands) => push_each(alloc, operands.exprs(), names),
        }
    }
}

impl Lambda {
    /// The names that follow the `$` of its references, in order of writing, repeated where they are repeated. A lambda
    /// of two parameters has none, since only its form is kept. The one error is that an allocation failed.
    pub fn names(&self, alloc: Global) -> Result<Vec<Bytes>, AllocError>
        ensures { IfOk result (λ names. names.items ≡ names_of (body_of self.now.body)) }
    {
        let mut names = Vec::new(alloc);
        match &self.body {
            Body::Long(expr) => expr.push_names(alloc, &mut names)?,
            Body::Bool(expr) => expr.push_names(alloc, &mut names)?,
            Body::Stream(inner) => inner.push_names(alloc, &mut names)?,
            Body::Pair(_) => {}
        }
        Ok(names)
    }
}

/// What an expression gives depends on the environment by the names of its references and the table alone.
pub fn references_decide()
    ensures number { (e : Long) (x : Item) (a b : Numbers) →
        Agree (long_names e) a b → long_value e x a ≡ long_value e x b }
    ensures boolean { (e : Truth) (x : Item) (a b : Numbers) →
        Agree (truth_names e) a b → truth_value e x a ≡ truth_value e x b }
    ensures stream { (g : Inner) (x : Item) (a b : Numbers) →
        Agree (inner_names g) a b → inner_value g x a ≡ inner_value g x b }
{}
