//! The digits at the front of sixteen bytes, made a number eight at a time.
//!
//! How many they are is found without a branch for each of them, which a processor guesses wrong where numbers are of
//! many lengths. Eight digits are one word, and three multiplications make them a number: of pairs, of fours, of all.
ghost use Rattle.std.specs.Prelude.{◌≡◌, ◌+◌, ◌<◌, ◌≤◌, ◌^◌, ℕ, List, length, take, drop, nat_le, not, true};
ghost use Rattle.std.specs.Char.{is_ascii_digit};
ghost use Rattle.std.specs.Int.Digits.{AllBelowBase, number_from_digits};
ghost use Rattle.std.specs.List.{list_all, prefix_len};
ghost use Rattle.std.specs.Simd.Lanes.{number_l};
ghost use Rattle.columns.specs.Cell.{digits_value};

use std::simd::prelude::*;

/// How many bytes are looked at together.
pub(crate) const BLOCK: usize = 16;

/// What the digits at the front of the sixteen bytes from `at` on are worth, and how many they are.
#[inline(always)]
pub(crate) fn front_digits(text: &[u8], at: usize) -> (u64, usize)
    requires { at + 16 ≤ length text.now }
    ensures count { result.1 ≡ prefix_len is_ascii_digit (take 16 (drop at text.now)) }
    ensures digits { list_all is_ascii_digit (take result.1 (drop at text.now)) ≡ true }
    ensures value { result.0 ≡ digits_value (take result.1 (drop at text.now)) }
    ensures few { (result.1 ≤ 16) × (result.0 < 10 ^ 16) }
{
    let lanes = u8x16::from_slice(&text[at..]) - u8x16::splat(b'0');
    let count = lanes_below_ten(lanes);
    if count == 0 {
        return (0, 0);
    }
    (value_of_lanes(lanes, count), count)
}

/// How many lanes are below ten, from the first one on.
#[inline(always)]
fn lanes_below_ten(lanes: u8x16) -> usize
    ensures { result ≡ prefix_len (λ x. not (nat_le 10 x)) lanes }
{
    let others = lanes.simd_ge(u8x16::splat(10)).to_bitmask();
    if others == 0 {
        16
    } else {
        others.trailing_zeros() as usize
    }
}

/// The number that the first lanes write, which are digits.
#[inline(always)]
fn value_of_lanes(lanes: u8x16, count: usize) -> u64
    requires count { (0 < count) × (count ≤ 16) }
    requires digits { AllBelowBase 10 (take count lanes) }
    ensures { result ≡ number_from_digits 10 (take count lanes) }
{
    let [first, second] = u64x2::from_le_bytes(lanes).to_array();
    // The other lanes are shifted out, and zeros stand before the digits.
    if count <= 8 {
        return eight_digits(first << (64 - 8 * count));
    }
    let both = ((u128::from(second) << 64) + u128::from(first)) << (128 - 8 * count);
    eight_digits((both % (1 << 64)) as u64) * 100_000_000 + eight_digits((both >> 64) as u64)
}

/// The number that eight digits write. The first digit is the lowest byte of the word.
#[inline(always)]
fn eight_digits(word: u64) -> u64
    ensures value { (digits : List ℕ) → length digits ≡ 8 → AllBelowBase 10 digits → word ≡ number_l 256 digits
        → result ≡ number_from_digits 10 digits }
{
    let pairs = (word & 0x00ff_00ff_00ff_00ff) * 10 + ((word >> 8) & 0x00ff_00ff_00ff_00ff);
    let fours = (pairs & 0x0000_ffff_0000_ffff) * 100 + ((pairs >> 16) & 0x0000_ffff_0000_ffff);
    (fours & 0xffff_ffff) * 10_000 + (fours >> 32)
}
