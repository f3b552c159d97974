//! Reciprocals of divisors, by which magnitudes are divided with a multiplication instead of the processor's division.

ghost use Rattle.batch_eval.specs.Reciprocals.{IsReciprocal, IsShortReciprocal};
ghost use Rattle.std.specs.Prelude.{◌≡◌, ◌<◌, ◌≤◌, ◌+◌, ◌*◌, ◌/◌, ◌^◌, ◌⊎◌, ℕ, ℤ, MatchOption, unsigned_abs};

/// A number of 64 bits is its upper half times this, and its lower half.
pub(crate) const HALF: u64 = 1 << 32;

/// The greatest magnitude that has a short reciprocal, and the greatest one that is divided by it.
const MOST_SHORT: u64 = 1 << 31;

/// A divisor and what is needed to divide magnitudes by its own.
pub(crate) trait Divisor: Copy {
    // The divisor as an integer.
    ghost number: { Self → ℤ };

    // Whether it divides.
    ghost divides: { Self → Type 0 };

    // The greatest magnitude that it divides.
    ghost most: { ℕ };

    /// The divisor as an integer.
    fn number(self) -> i64
        requires { divides self }
        ensures value { result ≡ number self }
        ensures above { 1 < unsigned_abs result };

    /// A magnitude divided by the magnitude of the divisor.
    fn quotient(self, n: u64) -> u64
        requires divides { divides self }
        requires n { n ≤ most }
        ensures value { result ≡ n / unsigned_abs (number self) }
        ensures bound { result < 2 ^ 63 };
}

/// A divisor, what a magnitude is multiplied by, and how far the upper 64 bits of the product are shifted. The factor
/// is given by its halves, so that no product has more than 64 bits, and a loop can make several at a time.
#[derive(Clone, Copy)]
pub(crate) struct Reciprocal {
    divisor: i64,
    low: u32,
    high: u32,
    shift: u32,
}

/// A divisor of at most 32 bits, what a magnitude of at most 32 bits is multiplied by, and how far the upper 32 bits of
/// the product are shifted. No product has more than 64 bits, so a loop can make several at a time.
#[derive(Clone, Copy)]
pub(crate) struct ShortReciprocal {
    divisor: i64,
    factor: u32,
    shift: u32,
}

/// The reciprocal of a number other than -1, 0 and 1.
pub(crate) fn reciprocal_of(y: i64) -> Option<Reciprocal>
    ensures { MatchOption result (unsigned_abs y < 2) (λ r. (r.divisor ≡ y) × IsReciprocal r) }
{
    let magnitude = y.unsigned_abs();
    if magnitude < 2 {
        return None;
    }
    Some(reciprocal_from(y, magnitude))
}

/// The factor is 2^(64 + shift) over the magnitude, rounded up, for the greatest 2^shift below the magnitude.
fn reciprocal_from(y: i64, magnitude: u64) -> Reciprocal
    requires size { magnitude ≡ unsigned_abs y }
    requires above { 1 < magnitude }
    ensures divisor { result.divisor ≡ y }
    ensures is { IsReciprocal result }
{
    let shift = (magnitude - 1).ilog2();
    let below = (1u128 << (64 + shift)) - 1;
    let factor = (below / u128::from(magnitude) + 1) as u64;
    Reciprocal {
        divisor: y,
        low: (factor % HALF) as u32,
        high: (factor / HALF) as u32,
        shift,
    }
}

/// The upper 64 bits of the product of a magnitude and a factor that is given by its halves.
fn product_above(n: u64, low: u32, high: u32) -> u64
    requires n { n ≤ 2 ^ 63 }
    ensures { result ≡ n * (high * 2 ^ 32 + low) / 2 ^ 64 }
{
    let (low, high) = (u64::from(low), u64::from(high));
    let n_low = n % HALF;
    let n_high = n / HALF;
    let across = n_high * low + n_low * low / HALF;
    let middle = n_low * high + across % HALF;
    n_high * high + across / HALF + middle / HALF
}

/// The reciprocal for magnitudes up to 2^31 of a number other than -1, 0 and 1 whose own is no more than that.
pub(crate) fn short_reciprocal_of(y: i64) -> Option<ShortReciprocal>
    ensures { MatchOption result ((unsigned_abs y < 2) ⊎ (2 ^ 31 < unsigned_abs y))
        (λ r. (r.divisor ≡ y) × IsShortReciprocal r) }
{
    let magnitude = y.unsigned_abs();
    if magnitude < 2 || magnitude > MOST_SHORT {
        return None;
    }
    Some(short_reciprocal_from(y, magnitude))
}

/// The factor is 2^(32 + shift) over the magnitude, rounded up, for the greatest 2^shift below the magnitude.
fn short_reciprocal_from(y: i64, magnitude: u64) -> ShortReciprocal
    requires size { magnitude ≡ unsigned_abs y }
    requires above { 1 < magnitude }
    requires short { magnitude ≤ 2 ^ 31 }
    ensures divisor { result.divisor ≡ y }
    ensures is { IsShortReciprocal result }
{
    let shift = (magnitude - 1).ilog2();
    let below = (1u64 << (32 + shift)) - 1;
    let factor = (below / magnitude + 1) as u32;
    ShortReciprocal {
        divisor: y,
        factor,
        shift,
    }
}

impl Divisor for Reciprocal {
    ghost number = { λ r. r.divisor };

    ghost divides = { IsReciprocal };

    ghost most = { 2 ^ 63 };

    fn number(self) -> i64 {
        self.divisor
    }

    fn quotient(self, n: u64) -> u64 {
        product_above(n, self.low, self.high) >> self.shift
    }
}

impl Divisor for ShortReciprocal {
    ghost number = { λ r. r.divisor };

    ghost divides = { IsShortReciprocal };

    ghost most = { 2 ^ 31 };

    fn number(self) -> i64 {
        self.divisor
    }

    fn quotient(self, n: u64) -> u64 {
        let product = u64::from(n as u32) * u64::from(self.factor);
        product >> 32 >> self.shift
    }
}
