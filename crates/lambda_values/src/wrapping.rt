//! The law of `wrap`: what 64 bits keep of an integer.

ghost use Rattle.lambda_values.specs.Wrap.{wrap};
ghost use Rattle.std.specs.Int.{w64};
ghost use Rattle.std.specs.Prelude.{◌≡◌, ◌^◌, ℤ, pos, ◌+ℤ◌, ◌*ℤ◌, FitsSigned};

/// `wrap` gives the one number from -2^63 to 2^63 - 1 that differs from its argument by a multiple
/// of 2^64 (JLS 17, 15.17.1 and 15.18.2). The function does nothing; its contract is the law.
pub fn wrap_is_the_remainder_in_64_bits()
    ensures in_range { (z : ℤ) → FitsSigned w64 (wrap z) }
    ensures differs { (z : ℤ) → (k : ℤ) × (wrap z ≡ z +ℤ k *ℤ pos (2 ^ 64)) }
    ensures only { (z k : ℤ) → FitsSigned w64 (z +ℤ k *ℤ pos (2 ^ 64)) → wrap z ≡ z +ℤ k *ℤ pos (2 ^ 64) }
{}
