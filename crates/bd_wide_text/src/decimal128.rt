//! The text of a decimal128. On `NoMemory` a prefix of it may remain.

ghost use Rattle.std.specs.Prelude.{◌≡◌, ◌<◌, ◌≤◌, ◌^◌, ◌++◌, length, OnErr, OnOk};
ghost use Rattle.std.specs.Io.{StartsWith};
ghost use Rattle.bd_wide_text.specs.Decimal128.{decimal128_size, decimal128_text};
ghost use Rattle.bd_wide_text.specs.BiasedText.{biased_power_text, biased_string};

use crate::layout::{write_mantissa, write_zeros};
use bd_value::NoMemory;
use bd_wide_number::{biased_exponent, coefficient, five_bits};
use itoa::Buffer;

/// Appends the text of the decimal128 with these halves of its bits.
#[tactic(auto, using(bd_value::proofs::PrefixLemmas::prefixes), unfolding(crate::specs::Decimal128::decimal128_text))]
pub fn write_decimal128(low: u64, high: u64, out: &mut Vec<u8>) -> Result<(), NoMemory>
    ensures ok { OnOk result (out.new.items ≡ out.old.items ++ decimal128_text low high) }
    ensures prefix { OnErr result (StartsWith out.new.items out.old.items) }
{
    if five_bits(high) == 31 {
        return out.extend_from_slice(b"NaN");
    }
    if high < 0x8000_0000_0000_0000 {
        return write_size(low, high, out);
    }
    out.extend_from_slice(b"-")?;
    write_size(low, high, out)
}

/// The same without the sign.
#[tactic(auto, using(crate::proofs::Decimal128Lemmas::some_digits), unfolding(crate::specs::Decimal128::decimal128_size))]
fn write_size(low: u64, high: u64, out: &mut Vec<u8>) -> Result<(), NoMemory>
    ensures ok { OnOk result (out.new.items ≡ out.old.items ++ decimal128_size low high) }
    ensures prefix { OnErr result (StartsWith out.new.items out.old.items) }
{
    if five_bits(high) == 30 {
        return out.extend_from_slice(b"Infinity");
    }
    let mut buffer = Buffer::new();
    let digits = buffer.format(coefficient(low, high)).as_bytes();
    write_scientific_string(digits, biased_exponent(high) as usize, out)
}

/// Appends the number with these digits, times the power of ten that is 6176 below `biased`.
#[tactic(auto, using(bd_value::proofs::PrefixLemmas::prefixes), unfolding(crate::specs::BiasedText::biased_string))]
fn write_scientific_string(digits: &[u8], biased: usize, out: &mut Vec<u8>) -> Result<(), NoMemory>
    requires digits { (0 < length digits.now) × (length digits.now ≤ 40) }
    requires biased { biased < 2 ^ 14 }
    ensures ok { OnOk result
        (out.new.items ≡ out.old.items ++ biased_string digits.now biased) }
    ensures prefix { OnErr result (StartsWith out.new.items out.old.items) }
{
    let sum = biased + digits.len();
    if biased > 6176 || sum < 6171 {
        write_mantissa(digits, b"", out)?;
        return write_power(sum, out);
    }
    let places = 6176 - biased;
    if places == 0 {
        return out.extend_from_slice(digits);
    }
    if places < digits.len() {
        let (whole, fraction) = digits.split_at(digits.len() - places);
        out.extend_from_slice(whole)?;
        out.extend_from_slice(b".")?;
        return out.extend_from_slice(fraction);
    }
    out.extend_from_slice(b"0.")?;
    write_zeros(places - digits.len(), out)?;
    out.extend_from_slice(digits)
}

/// Appends the power of ten of the first digit, which is 6177 below the sum.
#[tactic(auto, using(bd_value::proofs::PrefixLemmas::prefixes))]
fn write_power(sum: usize, out: &mut Vec<u8>) -> Result<(), NoMemory>
    requires { sum < 2 ^ 15 }
    ensures ok { OnOk result (out.new.items ≡ out.old.items ++ biased_power_text sum) }
    ensures prefix { OnErr result (StartsWith out.new.items out.old.items) }
{
    let mut buffer = Buffer::new();
    if sum < 6177 {
        out.extend_from_slice(b"E-")?;
        return out.extend_from_slice(buffer.format(6177 - sum).as_bytes());
    }
    out.extend_from_slice(b"E+")?;
    out.extend_from_slice(buffer.format(sum - 6177).as_bytes())
}
