//! The codes of a table of numbers.

ghost use Rattle.bd_wide_rank.specs.{Rank.code, Table.worths, Worth.worth};

use crate::copy::Codes;
use bd_bson_view::ElementType;
use bd_wide_rank::Table;

impl Codes for Table {
    ghost worth_of = { λ _. worth };

    ghost code_of = { λ table. code (worths table) };

    fn code(&self, typed: ElementType, value: &[u8]) -> i32 {
        self.code_of_value(typed, value)
    }
}
