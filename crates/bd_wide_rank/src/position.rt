//! Where numbers are beside the doubles, and their order by that.

ghost use Rattle.std.specs.Prelude.{◌≡◌};
ghost use Rattle.std.specs.Ordering.{int_cmp, is_eq};
ghost use Rattle.bd_wide_number.specs.Value.{nan};
ghost use Rattle.bd_wide_rank.specs.Worth.{value_worth, worth_of};
ghost use Rattle.bd_wide_rank.specs.Key.{key_worth};
ghost use Rattle.bd_wide_rank.specs.inside.Key.{IsKey};
ghost use Rattle.bd_wide_rank.specs.inside.Position.{IsPosition, position_worth};

use crate::between::Between;
use crate::compare::compare_numbers;
use std::cmp::Ordering;

/// Where a number is beside the doubles.
#[derive(Clone, Copy, Drop)]
pub(crate) enum Position {
    /// It is the double with this key.
    Double(u64),
    /// No double equals it.
    Between(Between),
}

/// The order of a number that no double equals beside another number: their keys decide, unless they are equal.
pub(crate) fn beside(a: Between, b: Position) -> Ordering
    requires { IsPosition b }
    ensures { result ≡ int_cmp (worth_of a.number) (position_worth b) }
{
    match b {
        Position::Double(key) => beside_double(a, key),
        Position::Between(b) => compare_between(a, b),
    }
}

/// The order of a number that no double equals beside the double with a key.
fn beside_double(a: Between, key: u64) -> Ordering
    requires { IsKey key }
    ensures { result ≡ int_cmp (worth_of a.number) (key_worth key) }
{
    if a.key < key {
        Ordering::Less
    } else {
        Ordering::Greater
    }
}

/// The order of two numbers that no double equals.
pub(crate) fn compare_between(a: Between, b: Between) -> Ordering
    ensures { result ≡ int_cmp (worth_of a.number) (worth_of b.number) }
{
    if a.key < b.key {
        return Ordering::Less;
    }
    if b.key < a.key {
        return Ordering::Greater;
    }
    compare_numbers(a.number, b.number)
}

/// Whether a number is NaN, by its position.
pub(crate) fn is_nan(position: Position) -> bool
    requires { IsPosition position }
    ensures { result ≡ is_eq (int_cmp (position_worth position) (value_worth nan)) }
{
    match position {
        Position::Double(key) => key == 0,
        Position::Between(_) => false,
    }
}
