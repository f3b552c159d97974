//! Laws of the toolchain's division, remainder and bit operators, on which values rest.

ghost use Rattle.std.specs.Int.{bit_at, cast_unsigned, int_bit_and, int_bit_or, int_bit_xor, w64};
ghost use Rattle.std.specs.Prelude.{◌≡◌, ◌≢◌, ◌<◌, ◌≤ℤ◌, ◌+◌, ◌%◌, ℕ, ℤ, pos, ◌+ℤ◌, ◌*ℤ◌};
ghost use Rattle.std.specs.Prelude.{FitsSigned, int_div, int_rem, max, min, unsigned_abs};

/// The quotient is rounded toward zero: what is left has the sign of the dividend, or is 0, and is smaller than
/// the divisor (JLS 17, 15.17.2 and 15.17.3). The function does nothing; its contract is the law.
pub fn division_rounds_toward_zero()
    ensures whole { (x y : ℤ) → y ≢ pos 0 → int_div x y *ℤ y +ℤ int_rem x y ≡ x }
    ensures small { (x y : ℤ) → y ≢ pos 0 → unsigned_abs (int_rem x y) < unsigned_abs y }
    ensures above { (x y : ℤ) → pos 0 ≤ℤ x → pos 0 ≤ℤ int_rem x y }
    ensures below { (x y : ℤ) → x ≤ℤ pos 0 → int_rem x y ≤ℤ pos 0 }
{}

/// Each of the 64 places of the result has the lesser bit of the operands, the greater one, or whether they differ
/// (JLS 17, 15.22.1). The function does nothing; its contract is the law.
pub fn bits_are_combined_place_by_place()
    ensures and { (x y : ℤ) → FitsSigned w64 x → FitsSigned w64 y → FitsSigned w64 (int_bit_and w64 x y)
        × ((i : ℕ) → bit_at (cast_unsigned w64 (int_bit_and w64 x y)) i
        ≡ min (bit_at (cast_unsigned w64 x) i) (bit_at (cast_unsigned w64 y) i)) }
    ensures or { (x y : ℤ) → FitsSigned w64 x → FitsSigned w64 y → FitsSigned w64 (int_bit_or w64 x y)
        × ((i : ℕ) → bit_at (cast_unsigned w64 (int_bit_or w64 x y)) i
        ≡ max (bit_at (cast_unsigned w64 x) i) (bit_at (cast_unsigned w64 y) i)) }
    ensures xor { (x y : ℤ) → FitsSigned w64 x → FitsSigned w64 y → FitsSigned w64 (int_bit_xor w64 x y)
        × ((i : ℕ) → bit_at (cast_unsigned w64 (int_bit_xor w64 x y)) i
        ≡ (bit_at (cast_unsigned w64 x) i + bit_at (cast_unsigned w64 y) i) % 2) }
{}
