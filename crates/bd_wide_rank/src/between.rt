//! A number that no double equals.

ghost use Rattle.std.specs.Prelude.{◌+◌};
ghost use Rattle.std.proofs.Props.{props};
ghost use Rattle.bd_wide_rank.specs.Worth.{worth_of};
ghost use Rattle.bd_wide_rank.specs.inside.Key.{IsBetween};

use bd_wide_number::Number;

/// A number that no double equals, and the key of the next lower double.
#[derive(Clone, Copy, Drop)]
pub(crate) struct Between {
    pub key: u64,
    pub number: Number,
    ghost between: { IsBetween key (key + 1) (worth_of number) } by { Prim.hlevel props },
}
