//! The code of a number: the bits of the double that equals it.

ghost use Rattle.std.specs.Prelude.{◌≡◌, ◌<◌, ◌≤◌, ℕ, ◌+◌, ◌*◌, ◌^◌, Some};
ghost use Rattle.bd_wide_number.specs.Code.{double_code, double_part as double_part_of};
ghost use Rattle.bd_wide_number.specs.Value.{decimal128_value, double_value, infinite_bits, magnitude, signed as signed_of, value_of};

use crate::decimal128::{biased_exponent, coefficient, five_bits};
use crate::number::Number;
use crate::odd::odd_part;

/// The bits of an infinite double.
const INFINITE: u64 = 0x7FF0_0000_0000_0000;

/// The bits of -0.0: only the sign is set.
const SIGN: u64 = 0x8000_0000_0000_0000;

/// 1 is 10 ^ 6176 units.
const ONE: u64 = 6176;

/// The code of a number, if a double equals it: the bits of this double; for a negative one the bits without the sign, negated.
/// So 0 and -0.0 have the code 0, and NaN has the least code, -2 ^ 63.
pub fn code_of(number: Number) -> Option<i64>
    ensures { result ≡ double_code (value_of number) }
{
    match number {
        Number::Whole(z) => double_part(z < 0, z.unsigned_abs() as u128, ONE),
        Number::Double(bits) => Some(code_of_double(bits)),
        Number::Decimal128(low, high) => decimal128_code(low, high),
    }
}

/// The code of a decimal128 by the equal double, from the halves of its bits.
fn decimal128_code(low: u64, high: u64) -> Option<i64>
    ensures { result ≡ double_code (decimal128_value low high) }
{
    let five = five_bits(high);
    let negative = high >= SIGN;
    if five == 31 {
        return Some(i64::MIN);
    }
    if five == 30 {
        return Some(signed(negative, INFINITE));
    }
    double_part(negative, coefficient(low, high), biased_exponent(high))
}

/// The code of a double, from its bits.
pub fn code_of_double(bits: u64) -> i64
    ensures { double_code (double_value bits) ≡ Some result }
{
    let size = bits % SIGN;
    if size > INFINITE {
        i64::MIN
    } else {
        signed(bits >= SIGN, size)
    }
}

/// The number with its sign.
fn signed(negative: bool, n: u64) -> i64
    requires { n < 2 ^ 63 }
    ensures { result ≡ signed_of negative n }
{
    if negative { -(n as i64) } else { n as i64 }
}

/// The least number of more than 53 bits.
const TOO_PRECISE: u64 = 0x0020_0000_0000_0000;

/// The code by the equal double for a number times 10 ^ exponent units.
fn double_part(negative: bool, number: u128, exponent: u64) -> Option<i64>
    requires number { number < 2 ^ 113 }
    requires exponent { exponent < 2 ^ 14 }
    ensures { result ≡ double_part_of negative (number * 10 ^ exponent) }
{
    if number == 0 {
        return Some(0);
    }
    let odd = odd_part(number, exponent, exponent)?;
    if odd.odd >= TOO_PRECISE {
        return None;
    }
    Some(signed(negative, double_bits(odd.odd, odd.twos)))
}

/// The bits of the double that is an odd number times 2 ^ twos, in units of 2 ^ -6176.
fn double_bits(odd: u64, twos: u64) -> u64
    requires odd { (0 < odd) × (odd < 2 ^ 53) }
    requires twos { (6128 ≤ twos) × (twos < 6400) }
    ensures below { result < infinite_bits }
    ensures is { (d : ℕ) → 5102 + d ≡ twos → magnitude result ≡ odd * 2 ^ d }
{
    let shift = odd.leading_zeros() - 11;
    let exponent = twos - 5102 - shift as u64;
    exponent * 0x0010_0000_0000_0000 + (odd << shift)
}
