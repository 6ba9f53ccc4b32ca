//! The parts of a decimal128, by the halves of its bits.

ghost use Rattle.std.specs.Prelude.{◌≡◌, ◌<◌, ◌^◌};
ghost use Rattle.bd_wide_number.specs.Decimal128.{biased_exponent as biased_exponent_of, coefficient_of, five_bits as five_bits_of};

/// The least coefficient of more than 34 digits.
const TOO_LARGE: u128 = 10_000_000_000_000_000_000_000_000_000_000_000;

/// The five bits after the sign: 31 for NaN, and 30 for an infinity.
pub fn five_bits(high: u64) -> u64
    ensures { result ≡ five_bits_of high }
{
    high / 0x0400_0000_0000_0000 % 32
}

/// The coefficient; 0 if it has more than 34 digits.
pub fn coefficient(low: u64, high: u64) -> u128
    ensures gives { result ≡ coefficient_of low high }
    ensures below { result < 10 ^ 34 }
{
    let upper = (high % 0x0002_0000_0000_0000) as u128;
    let all = upper * 0x0001_0000_0000_0000_0000 + low as u128;
    if five_bits(high) >= 24 || all >= TOO_LARGE {
        0
    } else {
        all
    }
}

/// The exponent of ten, plus 6176.
pub fn biased_exponent(high: u64) -> u64
    ensures gives { result ≡ biased_exponent_of high }
    ensures below { result < 2 ^ 14 }
{
    if five_bits(high) >= 24 {
        high / 0x8000_0000_0000 % 0x4000
    } else {
        high / 0x0002_0000_0000_0000 % 0x4000
    }
}
