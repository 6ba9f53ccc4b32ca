//! Numbers in values.

ghost use Rattle.std.specs.Prelude.{◌≡◌, ◌≤◌, length};
ghost use Rattle.bd_wide.specs.Numbers.{number_at};
ghost use Rattle.bd_wide.specs.Rewritten.{least};

use crate::bytes::long;
use bd_bson_view::{ElementType, raw_parts as raw};
use bd_value::Kind;
use bd_wide_number::Number;

/// The number in a value, if it is numeric.
#[tactic(auto, unfolding(crate::specs::Numbers::number_at, crate::specs::Rewritten::least))]
pub fn number_in(typed: ElementType, value: &[u8]) -> Option<Number>
    requires { least typed ≤ length value.now }
    ensures { result ≡ number_at typed value.now }
{
    let kind = match typed {
        ElementType::Kept(kind) => kind,
        ElementType::Double => return Some(Number::Double(long(value))),
        ElementType::Decimal128 => {
            let (_, upper) = value.split_at(8);
            return Some(Number::Decimal128(long(value), long(upper)));
        }
    };
    match kind {
        Kind::Int32 => Some(Number::Whole(raw::number(value).cast_signed() as i64)),
        Kind::Int64 => Some(Number::Whole(long(value).cast_signed())),
        _ => None,
    }
}
