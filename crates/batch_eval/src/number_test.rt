//! Comparisons with a number, which need no register of flags.

ghost use Rattle.batch_eval.specs.Lanes.{is_set};
ghost use Rattle.batch_eval.specs.NumberTests.{seen_of, to_least};
ghost use Rattle.lambda_values.specs.Operators.{comparison_value};
ghost use Rattle.lambda_values.specs.Wrap.{wrap};
ghost use Rattle.std.specs.Int.{w64, int_bit_and};
ghost use Rattle.std.specs.Int.Signed.{le_z};
ghost use Rattle.std.specs.Ordering.{int_eq};
ghost use Rattle.std.specs.Prelude.{◌≡◌, ℤ, ◌-ℤ◌, FitsSigned, IfSome, not};

use crate::power::mask;
use lambda_values::Comparison;

/// What a comparison sees of a number.
#[derive(Clone, Copy)]
pub(crate) enum Seen {
    All,
    /// The bits of a mask.
    Masked(i64),
    /// The bits below the power of two with this exponent: what is left of a division by it that is rounded down.
    Rest(i64),
}

impl Seen {
    /// The bits that are seen.
    #[tactic(auto, using(crate::proofs::FlagLemmas::all_bits, crate::proofs::RestLemmas::rest_bits))]
    fn bits(self) -> i64
        ensures { (z : ℤ) → FitsSigned w64 z → int_bit_and w64 z result ≡ seen_of self z }
    {
        match self {
            Seen::All => -1,
            Seen::Masked(bits) => bits,
            Seen::Rest(exponent) => mask(exponent).cast_signed(),
        }
    }
}

/// A comparison with a number of what it sees of another one. `shift` makes the integers for which it holds the least
/// ones, up to `most`: a loop over lanes needs one comparison for it, whichever of the six it is.
#[derive(Clone, Copy)]
pub struct NumberTest {
    seen: Seen,
    comparison: Comparison,
    number: i64,
    bits: i64,
    shift: i64,
    most: i64,
    ghost masks: { (z : ℤ) → FitsSigned w64 z → int_bit_and w64 z bits ≡ seen_of seen z },
    ghost agrees: { (z : ℤ) → FitsSigned w64 z
        → le_z (wrap (z -ℤ shift)) most ≡ comparison_value comparison z number },
}

impl NumberTest {
    /// The comparison with this number of what it sees. `None` if it holds for no integer.
    pub(crate) fn new(seen: Seen, comparison: Comparison, number: i64) -> Option<NumberTest>
        ensures seen { IfSome result (λ test. test.seen ≡ seen) }
        ensures comparison { IfSome result (λ test. test.comparison ≡ comparison) }
        ensures number { IfSome result (λ test. test.number ≡ number) }
    {
        let (shift, most) = shift_of(comparison, number)?;
        Some(NumberTest {
            seen,
            comparison,
            number,
            bits: seen.bits(),
            shift,
            most,
        })
    }

    /// Whether a flag is set: it isn't 0.
    pub(crate) fn is_set() -> NumberTest
        ensures { (z : ℤ) → comparison_value result.comparison (seen_of result.seen z) result.number ≡ is_set z }
    {
        let (shift, most) = shift_of_others(0);
        NumberTest {
            seen: Seen::All,
            comparison: Comparison::NotEqual,
            number: 0,
            bits: Seen::All.bits(),
            shift,
            most,
        }
    }

    /// Whether the comparison holds.
    pub fn holds(self, z: i64) -> bool
        ensures { result ≡ comparison_value self.comparison (seen_of self.seen z) self.number }
    {
        self.compares(z & self.bits)
    }

    /// Whether it compares all of a number.
    pub(crate) fn sees_all(self) -> bool {
        matches!(self.seen, Seen::All)
    }

    /// Whether the comparison holds of what it sees.
    fn compares(self, z: i64) -> bool
        ensures { result ≡ comparison_value self.comparison z self.number }
    {
        z.wrapping_sub(self.shift) <= self.most
    }
}

/// A shift, and the greatest integer that it makes of those for which a comparison holds: it makes greater ones of all
/// others. `None` if the comparison holds for no integer.
fn shift_of(comparison: Comparison, number: i64) -> Option<(i64, i64)>
    ensures { IfSome result (λ parts. (z : ℤ) → FitsSigned w64 z
        → le_z (wrap (z -ℤ parts.0)) parts.1 ≡ comparison_value comparison z number) }
{
    match comparison {
        Comparison::Equal => Some((to_least(number), i64::MIN)),
        Comparison::NotEqual => Some(shift_of_others(number)),
        Comparison::Less => Some((0, number.checked_sub(1)?)),
        Comparison::LessOrEqual => Some((0, number)),
        Comparison::Greater => Some((to_least(number.checked_add(1)?), -2 - number)),
        Comparison::GreaterOrEqual => Some((to_least(number), -1 - number)),
    }
}

/// The shift that makes a number the greatest integer, and the next one below that.
fn shift_of_others(number: i64) -> (i64, i64)
    ensures { (z : ℤ) → FitsSigned w64 z → le_z (wrap (z -ℤ result.0)) result.1 ≡ not (int_eq z number) }
{
    match number.checked_add(1) {
        Some(next) => (to_least(next), i64::MAX - 1),
        None => (0, i64::MAX - 1),
    }
}

/// The shift that makes a number the least integer.
fn to_least(number: i64) -> i64
    ensures { result ≡ to_least number }
{
    number.wrapping_sub(i64::MIN)
}
