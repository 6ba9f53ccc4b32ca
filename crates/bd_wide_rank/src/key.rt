//! Keys of doubles: whole numbers in the order of the doubles.

ghost use Rattle.std.specs.Prelude.{◌≡◌, ℕ, ◌^◌, ◌≤◌, ◌+ℤ◌, pos, ◌+◌};
ghost use Rattle.bd_wide_number.specs.Value.{infinite_bits};
ghost use Rattle.bd_wide_rank.specs.Key.{key_bits};
ghost use Rattle.bd_wide_rank.specs.inside.Key.{IsKey};

/// The bits of an infinite double.
const INFINITE: u64 = 0x7FF0_0000_0000_0000;

/// The key of 0, and the bits of -0.0.
pub(crate) const ZERO: u64 = 0x8000_0000_0000_0000;

/// The key of -Infinity.
pub(crate) const LEAST: u64 = ZERO - INFINITE;

/// The key of Infinity.
pub(crate) const MOST: u64 = ZERO + INFINITE;

/// The bits of a NaN.
const NOT_A_NUMBER: u64 = 0x7FFF_FFFF_FFFF_FFFF;

/// The key of the double with a code of `bd_wide_number`.
pub(crate) fn key_of(code: i64) -> u64
    ensures { pos result ≡ code +ℤ pos (2 ^ 63) }
{
    if code < 0 {
        ZERO - code.unsigned_abs()
    } else {
        ZERO + code as u64
    }
}

/// The bits of the double with a key.
pub(crate) fn bits_of(key: u64) -> u64
    requires { IsKey key }
    ensures { result ≡ key_bits key }
{
    if key == 0 {
        NOT_A_NUMBER
    } else if key < ZERO {
        ZERO + (ZERO - key)
    } else {
        key - ZERO
    }
}
