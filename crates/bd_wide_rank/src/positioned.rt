//! The position of a number beside the doubles.

ghost use Rattle.std.specs.Prelude.{◌≡◌, ◌≤◌, ◌<◌, ◌⊎◌, ◌+◌, ◌-◌, ◌^◌, None};
ghost use Rattle.bd_wide_number.specs.Code.{double_code};
ghost use Rattle.bd_wide_number.specs.Value.{infinite_bits, value_of};
ghost use Rattle.bd_wide_rank.specs.Worth.{worth_of};
ghost use Rattle.bd_wide_rank.specs.inside.Key.{IsBetween, IsNoDouble};
ghost use Rattle.bd_wide_rank.specs.inside.Position.{IsPosition, position_worth};

use crate::between::Between;
use crate::compare::{Shape, compare_numbers, parts};
use crate::guess::guess;
use crate::key::{LEAST, MOST, bits_of, key_of};
use crate::position::Position;
use bd_wide_number::{Number, code_of};
use std::cmp::Ordering;

/// The position of a number.
pub(crate) fn positioned(number: Number) -> Position
    ensures is { IsPosition result }
    ensures worth { position_worth result ≡ worth_of number }
{
    match code_of(number) {
        Some(code) => Position::Double(key_of(code)),
        None => Position::Between(between(number)),
    }
}

/// A number that no double equals, with its key.
fn between(number: Number) -> Between
    requires { double_code (value_of number) ≡ None }
    ensures { result.number ≡ number }
{
    let Shape::Finite(negative, size) = parts(number) else {
        unreachable!()
    };
    let bounds = guessed(number, guess(negative, size));
    let key = searched(number, bounds);
    Between { key, number }
}

/// The keys of two doubles with a number between them.
#[derive(Clone, Copy)]
struct Bounds {
    low: u64,
    high: u64,
}

/// The bounds of a number by a guess at its key: with the right one, or the next one, they are next to each other.
fn guessed(number: Number, guess: u64) -> Bounds
    requires none { IsNoDouble (worth_of number) }
    requires between { IsBetween (2 ^ 63 - infinite_bits) (2 ^ 63 + infinite_bits)
        (worth_of number) }
    ensures { IsBetween result.low result.high (worth_of number) }
{
    let all = Bounds {
        low: LEAST,
        high: MOST,
    };
    let above = narrowed(number, all, guess);
    let below = narrowed(number, above, guess.saturating_add(1));
    narrowed(number, below, guess.saturating_sub(1))
}

/// The bounds of a number with a double between them as one of the bounds.
fn narrowed(number: Number, bounds: Bounds, key: u64) -> Bounds
    requires none { IsNoDouble (worth_of number) }
    requires between { IsBetween bounds.low bounds.high (worth_of number) }
    ensures between { IsBetween result.low result.high (worth_of number) }
    ensures inside { (bounds.low ≤ result.low) × (result.high ≤ bounds.high) }
    ensures narrower { bounds.low < key → key < bounds.high →
        (result.low ≡ key) ⊎ (result.high ≡ key) }
{
    if key <= bounds.low || key >= bounds.high {
        return bounds;
    }
    match compare_numbers(Number::Double(bits_of(key)), number) {
        Ordering::Less => Bounds {
            low: key,
            high: bounds.high,
        },
        _ => Bounds {
            low: bounds.low,
            high: key,
        },
    }
}

/// The key of the next double below a number within bounds.
fn searched(number: Number, bounds: Bounds) -> u64
    requires none { IsNoDouble (worth_of number) }
    requires between { IsBetween bounds.low bounds.high (worth_of number) }
    ensures { IsBetween result (result + 1) (worth_of number) }
{
    let mut bounds = bounds;
    while bounds.high - bounds.low > 1 {
        bounds = narrowed(number, bounds, bounds.low + (bounds.high - bounds.low) / 2);
    }
    bounds.low
}
