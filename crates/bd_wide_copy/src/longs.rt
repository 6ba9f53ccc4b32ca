//! Which types of numbers are an int64 in a copy.

ghost use Rattle.std.specs.Prelude.{◌≡◌};
ghost use Rattle.bd_wide_copy.specs.Classes.{is_long as is_long_of, no_longs};

use bd_bson_view::ElementType;
use bd_value::Kind;

/// Which types of numbers are an int64 in a copy. Every other number is an int32, and so is each int32: so no number gets longer.
#[derive(Clone, Copy)]
pub struct Longs {
    /// Whether doubles are.
    pub double: bool,
    /// Whether int64 numbers are.
    pub int64: bool,
    /// Whether decimal128 numbers are.
    pub decimal128: bool,
}

impl Longs {
    /// No types: every number is an int32.
    pub fn none() -> Longs
        ensures { result ≡ no_longs }
    {
        Longs {
            double: false,
            int64: false,
            decimal128: false,
        }
    }

    /// Whether numbers of a type are.
    pub fn is_long(self, typed: ElementType) -> bool
        ensures { result ≡ is_long_of self typed }
    {
        match typed {
            ElementType::Double => self.double,
            ElementType::Decimal128 => self.decimal128,
            ElementType::Kept(Kind::Int64) => self.int64,
            _ => false,
        }
    }
}
