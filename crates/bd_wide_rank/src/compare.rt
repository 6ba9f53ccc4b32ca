//! The order of any two numbers, by their worths.

ghost use Rattle.std.specs.Prelude.{◌≡◌, ◌↔◌, ◌<ℤ◌};
ghost use Rattle.bd_wide_number.specs.Value.{IsEqual, IsLess, Value, decimal128_value, double_value, finite, infinite, nan, rank, value_of};
ghost use Rattle.std.specs.Ordering.{int_cmp};
ghost use Rattle.bd_wide_rank.specs.Worth.{value_worth, worth_of};
ghost use Rattle.bd_wide_rank.specs.inside.Compare.{value_cmp};
ghost use Rattle.bd_wide_rank.specs.inside.Shape.{IsOfNumber, IsShapeOf};
ghost use Rattle.bd_wide_rank.specs.inside.Size.{IsNumberSize, size_of};

use crate::size::{Size, compare_sizes};
use bd_wide_number::{Number, biased_exponent, code_of_double, coefficient, five_bits};
use std::cmp::Ordering;

/// The order of two numbers, exact by value: NaN first and equal to itself, then -Infinity; -0.0 is equal to 0.
pub fn compare_numbers(a: Number, b: Number) -> Ordering
    ensures { result ≡ int_cmp (worth_of a) (worth_of b) }
{
    match (a, b) {
        (Number::Double(m), Number::Double(n)) => compare_doubles(m, n),
        _ => compare_parts(parts(a), parts(b)),
    }
}

/// The order of two doubles, by their codes.
fn compare_doubles(m: u64, n: u64) -> Ordering
    ensures { result ≡ int_cmp (value_worth (double_value m)) (value_worth (double_value n)) }
{
    code_of_double(m).cmp(&code_of_double(n))
}

/// A number by its kind, its sign and its size.
#[derive(Clone, Copy)]
pub(crate) enum Shape {
    NotANumber,
    Infinite(bool),
    Finite(bool, Size),
}

/// The bits of an infinite double.
const INFINITE: u64 = 0x7FF0_0000_0000_0000;

/// The bits of -0.0: only the sign is set.
const SIGN: u64 = 0x8000_0000_0000_0000;

/// The parts of a number.
pub(crate) fn parts(number: Number) -> Shape
    ensures is { IsShapeOf (value_of number) result }
    ensures powers { IsOfNumber result }
{
    match number {
        Number::Whole(z) => Shape::Finite(
            z < 0,
            Size {
                number: z.unsigned_abs() as u128,
                twos: 6176,
                fives: 6176,
            },
        ),
        Number::Double(bits) => double_parts(bits),
        Number::Decimal128(low, high) => decimal128_parts(low, high),
    }
}

/// The parts of a double, from its bits.
fn double_parts(bits: u64) -> Shape
    ensures { IsShapeOf (double_value bits) result }
{
    let size = bits % SIGN;
    let negative = bits >= SIGN;
    if size > INFINITE {
        return Shape::NotANumber;
    }
    if size == INFINITE {
        return Shape::Infinite(negative);
    }
    let exponent = size / 0x0010_0000_0000_0000;
    let fraction = size % 0x0010_0000_0000_0000;
    if exponent == 0 {
        return Shape::Finite(
            negative,
            Size {
                number: fraction as u128,
                twos: 5102,
                fives: 6176,
            },
        );
    }
    let number = 0x0010_0000_0000_0000 + fraction;
    Shape::Finite(
        negative,
        Size {
            number: number as u128,
            twos: 5101 + exponent,
            fives: 6176,
        },
    )
}

/// The parts of a decimal128, from the halves of its bits.
fn decimal128_parts(low: u64, high: u64) -> Shape
    ensures { IsShapeOf (decimal128_value low high) result }
{
    let five = five_bits(high);
    let negative = high >= SIGN;
    if five == 31 {
        return Shape::NotANumber;
    }
    if five == 30 {
        return Shape::Infinite(negative);
    }
    let exponent = biased_exponent(high);
    Shape::Finite(
        negative,
        Size {
            number: coefficient(low, high),
            twos: exponent,
            fives: exponent,
        },
    )
}

/// The order of two numbers by their parts.
fn compare_parts(a: Shape, b: Shape) -> Ordering
    requires a { IsOfNumber a }
    requires b { IsOfNumber b }
    ensures { (v w : Value) → IsShapeOf v a → IsShapeOf w b → result ≡ value_cmp v w }
{
    match (a, b) {
        (Shape::Finite(m, s), Shape::Finite(n, t)) => compare_finite(m, s, n, t),
        _ => kind_rank(a).cmp(&kind_rank(b)),
    }
}

/// NaN below -Infinity, then all finite numbers, then Infinity.
fn kind_rank(a: Shape) -> u8
    ensures { (v : Value) → IsShapeOf v a → result ≡ rank v }
{
    match a {
        Shape::NotANumber => 0,
        Shape::Infinite(true) => 1,
        Shape::Finite(..) => 2,
        Shape::Infinite(false) => 3,
    }
}

/// The order of two finite numbers.
fn compare_finite(m: bool, a: Size, n: bool, b: Size) -> Ordering
    requires a { IsNumberSize a }
    requires b { IsNumberSize b }
    ensures { result ≡ value_cmp (finite m (size_of a)) (finite n (size_of b)) }
{
    if a.number == 0 && b.number == 0 {
        return Ordering::Equal;
    }
    match (m, n) {
        (false, false) => compare_sizes(a, b),
        (true, true) => compare_sizes(b, a),
        (true, false) => Ordering::Less,
        (false, true) => Ordering::Greater,
    }
}

/// The worths of two numbers are in the order of the numbers.
pub fn worths_are_in_order(a: Number, b: Number)
    ensures less { (worth_of a <ℤ worth_of b) ↔ IsLess (value_of a) (value_of b) }
    ensures equal { (worth_of a ≡ worth_of b) ↔ IsEqual (value_of a) (value_of b) }
{
    let _first = parts(a);
    let _second = parts(b);
}
