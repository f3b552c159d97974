//! Why an expression has no value.
ghost use Rattle.std.specs.Prelude.{◌≡◌, Some};
ghost use Rattle.lambda_values.specs.FaultTexts.{kind_text};

use std::fmt;
use std::fmt::{Display, Formatter, Write};
use thiserror::Error;

/// Why an expression has no value at an item, or a source no items.
///
/// A report names each kind; a program that keeps numbers has 1 to 4, in this order.
#[derive(Clone, Copy, Debug, PartialEq, Eq, Error)]
pub enum FaultKind {
    /// A quotient or a remainder whose divisor is 0.
    DivideByZero,
    /// An exact operation whose result is outside 64 bits.
    Overflow,
    /// A range of places that ends past the end of an array.
    OutOfArray,
    /// More than 2^62 values.
    SourceTooLong,
}

impl FaultKind {
    /// The name of the kind, as every form of the report has it.
    pub fn name(&self) -> &'static str
        ensures { result.now ≡ kind_text self.now }
    {
        match self {
            FaultKind::DivideByZero => "divide-by-zero",
            FaultKind::Overflow => "overflow",
            FaultKind::OutOfArray => "out-of-array",
            FaultKind::SourceTooLong => "source-too-long",
        }
    }
}

impl Display for FaultKind {
    ghost output = { λ kind. Some (kind_text kind) };

    fn fmt<W: Write>(&self, f: &mut Formatter<W>) -> fmt::Result {
        f.write_str(self.name())
    }
}
