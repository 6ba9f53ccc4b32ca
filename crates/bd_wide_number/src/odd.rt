//! Numbers as an odd number times a power of two.

ghost use Rattle.std.specs.Prelude.{◌≡◌, ◌≢◌, ◌<◌, ◌≤◌, ℕ, ◌*◌, ◌^◌, IfSome, IfNone};
ghost use Rattle.std.specs.Option.{SomeIff};
ghost use Rattle.bd_wide_number.specs.inside.Odd.{IsOddOf, IsWide, fives as fives_unit};

/// An odd number times a power of two.
#[derive(Clone, Copy)]
pub(crate) struct Odd {
    pub odd: u64,
    pub twos: u64,
}

/// A number times 2 ^ twos and 5 ^ fives, in units of 5 ^ 6176; None if it is not a 64-bit number times a power of two.
pub(crate) fn odd_part(number: u128, twos: u64, fives: u64) -> Option<Odd>
    requires number { (0 < number) × (number < 2 ^ 113) }
    requires twos { twos < 2 ^ 60 }
    ensures is { IfSome result (λ o.
        (n : ℕ) × (n * fives_unit ≡ number * 2 ^ twos * 5 ^ fives) × IsOddOf n twos o) }
    ensures near { IfSome result (λ _. (6128 ≤ fives) × (fives < 6204)) }
    ensures wide { IfNone result
        ((n : ℕ) → n * fives_unit ≡ number * 2 ^ twos * 5 ^ fives → IsWide n) }
{
    if fives < 6176 {
        return stripped(divided(number, 6176 - fives)?, twos, 0);
    }
    stripped(number, twos, fives - 6176)
}

/// For a greater n, 5 ^ n is above each number of 113 bits.
const MOST_FIVES: u64 = 48;

/// A number divided by 5 ^ n, if it is divisible.
fn divided(number: u128, n: u64) -> Option<u128>
    requires { (0 < number) × (number < 2 ^ 113) }
    ensures is { IfSome result (λ q. q * 5 ^ n ≡ number) }
    ensures near { IfSome result (λ q. (n ≤ 48) × (0 < q) × (q ≤ number)) }
    ensures not { IfNone result ((q : ℕ) → q * 5 ^ n ≢ number) }
{
    if n > MOST_FIVES {
        return None;
    }
    let power = 5u128.pow(n as u32);
    if number % power != 0 {
        return None;
    }
    Some(number / power)
}

/// A number times 2 ^ twos and 5 ^ n.
fn stripped(number: u128, twos: u64, n: u64) -> Option<Odd>
    requires number { (0 < number) × (number < 2 ^ 113) }
    requires twos { twos < 2 ^ 60 }
    ensures is { IfSome result (λ o. IsOddOf (number * 2 ^ twos * 5 ^ n) twos o) }
    ensures near { IfSome result (λ _. n ≤ 27) }
    ensures wide { IfNone result (IsWide (number * 2 ^ twos * 5 ^ n)) }
{
    let zeros = number.trailing_zeros();
    let odd = multiplied(number >> zeros, n)?;
    Some(Odd {
        odd,
        twos: twos + zeros as u64,
    })
}

/// For a greater n, 5 ^ n has more than 64 bits.
const MOST_FIVES_OF_64: u64 = 27;

/// A number times 5 ^ n, if that has 64 bits.
fn multiplied(number: u128, n: u64) -> Option<u64>
    requires { 0 < number }
    ensures gives { SomeIff result (number * 5 ^ n < 2 ^ 64) (number * 5 ^ n) }
    ensures near { IfSome result (λ _. n ≤ 27) }
{
    if n > MOST_FIVES_OF_64 || number > u64::MAX as u128 {
        return None;
    }
    let product = number * 5u128.pow(n as u32);
    if product > u64::MAX as u128 {
        return None;
    }
    Some(product as u64)
}
