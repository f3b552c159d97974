//! The names of the columns whose cells a lambda is made of.

ghost use Rattle.lambda_values.specs.Cells.{cells_of, each_cells, inner_cells, long_cells, truth_cells};
ghost use Rattle.lambda_values.specs.Lambda.{body_of};
ghost use Rattle.lambda_values.specs.Streams.{exprs_of, inner_of};
ghost use Rattle.lambda_values.specs.Term.{long_of, truth_of};
ghost use Rattle.std.specs.Prelude.{◌≡◌, ◌++◌, IfOk};

use crate::expr::{BoolExpr, LongExpr};
use crate::inner::InnerExpr;
use crate::lambda::{Body, Lambda};
use crate::names::push_name;
use std::alloc::{AllocError, Global};
use stream_tokens::Bytes;

impl LongExpr {
    /// Adds the names of its columns, in order of writing. One call for each node; the one error is that an
    /// allocation failed.
    #[cycle(cells)]
    pub fn push_cells(&self, alloc: Global, names: &mut Vec<Bytes>) -> Result<(), AllocError>
        ensures { IfOk result (λ _. names.new.items ≡ names.old.items ++ long_cells (long_of self.now)) }
    {
        match self {
            LongExpr::Number(_) | LongExpr::Parameter(_) | LongExpr::Reference(_) | LongExpr::Row =>
                Ok(()),
            LongExpr::Cell(name) => push_name(alloc, name, names),
            LongExpr::Unary(_, operand) => operand.push_cells(alloc, names),
            LongExpr::Binary(_, pair) => {
                pair.left.push_cells(alloc, names)?;
                pair.right.push_cells(alloc, names)
            }
            LongExpr::Choose(choice) => {
                choice.condition.push_cells(alloc, names)?;
                choice.chosen.push_cells(alloc, names)?;
                choice.other.push_cells(alloc, names)
            }
        }
    }
}

impl BoolExpr {
    /// Adds the names of its columns, in order of writing. One call for each node; the one error is that an
    /// allocation failed.
    #[cycle(cells)]
    pub fn push_cells(&self, alloc: Global, names: &mut Vec<Bytes>) -> Result<(), AllocError>
        ensures { IfOk result (λ _. names.new.items ≡ names.old.items ++ truth_cells (truth_of self.now)) }
    {
        match self {
            BoolExpr::Literal(_) => Ok(()),
            BoolExpr::Compare(_, pair) => {
                pair.left.push_cells(alloc, names)?;
                pair.right.push_cells(alloc, names)
            }
            BoolExpr::Not(operand) => operand.push_cells(alloc, names),
            BoolExpr::Connect(_, pair) => {
                pair.left.push_cells(alloc, names)?;
                pair.right.push_cells(alloc, names)
            }
            BoolExpr::Choose(choice) => {
                choice.condition.push_cells(alloc, names)?;
                choice.chosen.push_cells(alloc, names)?;
                choice.other.push_cells(alloc, names)
            }
        }
    }
}

/// The names of expressions, one expression after the other.
fn push_each_cells(
    alloc: Global,
    exprs: &[LongExpr],
    names: &mut Vec<Bytes>,
) -> Result<(), AllocError>
    ensures { IfOk result (λ _. names.new.items ≡ names.old.items ++ each_cells (exprs_of exprs.now)) }
{
    for expr in exprs {
        expr.push_cells(alloc, names)?;
    }
    Ok(())
}

impl InnerExpr {
    /// Adds the names of its columns, in order of writing. The one error is that an allocation failed.
    pub fn push_cells(&self, alloc: Global, names: &mut Vec<Bytes>) -> Result<(), AllocError>
        ensures { IfOk result (λ _. names.new.items ≡ names.old.items ++ inner_cells (inner_of self.now)) }
    {
        match self {
            InnerExpr::Range(from, to) | InnerExpr::RangeClosed(from, to) => {
                from.push_cells(alloc, names)?;
                to.push_cells(alloc, names)
            }
            InnerExpr::Of(operands) => push_each_cells(alloc, operands.exprs(), names),
        }
    }
}

impl Lambda {
    /// The names of the columns whose cells it is made of, in order of writing, repeated where they are repeated. A
    /// lambda of two parameters has none, since only its form is kept. The one error is that an allocation failed.
    pub fn cells(&self, alloc: Global) -> Result<Vec<Bytes>, AllocError>
        ensures { IfOk result (λ names. names.items ≡ cells_of (body_of self.now.body)) }
    {
        let mut names = Vec::new(alloc);
        match &self.body {
            Body::Long(expr) => expr.push_cells(alloc, &mut names)?,
            Body::Bool(expr) => expr.push_cells(alloc, &mut names)?,
            Body::Stream(inner) => inner.push_cells(alloc, &mut names)?,
            Body::Pair(_) => {}
        }
        Ok(names)
    }
}
