//! Numbers in order.
use bd_wide_number::Number;

/// How many there are.
pub(crate) const COUNT: usize = 32;

/// NaN, then numbers each of which is greater than the one before: many are next to another by a double or a decimal128.
pub(crate) fn rising() -> [Number; 32] {
    [
        Number::Double(0x7ff8000000000000),
        Number::Decimal128(0, 0xf800000000000000),
        Number::Decimal128(0x378d8e63ffffffff, 0xdfffed09bead87c0),
        Number::Double(0xffefffffffffffff),
        Number::Whole(i64::MIN),
        Number::Decimal128(0x5f, 0xb03e000000000000),
        Number::Decimal128(0x1, 0x8000000000000000),
        Number::Whole(0),
        Number::Decimal128(0x1, 0x0000000000000000),
        Number::Double(0x0000000000000001),
        Number::Decimal128(0x5, 0x2db8000000000000),
        Number::Decimal128(0x1, 0x303e000000000000),
        Number::Double(0x3fb999999999999a),
        Number::Double(0x3fd3333333333333),
        Number::Decimal128(0x3, 0x303e000000000000),
        Number::Whole(1),
        Number::Decimal128(0x1f3, 0x303c000000000000),
        Number::Double(0x4013f5c28f5c28f6),
        Number::Double(0x403df33333333333),
        Number::Decimal128(0xbb3, 0x303c000000000000),
        Number::Whole(9007199254740992),
        Number::Decimal128(0x140000000000005, 0x303e000000000000),
        Number::Whole(9007199254740993),
        Number::Double(0x4340000000000001),
        Number::Whole(i64::MAX),
        Number::Double(0x43e0000000000000),
        Number::Double(0x46fed09bead87c03),
        Number::Decimal128(0x378d8e63ffffffff, 0x3041ed09bead87c0),
        Number::Double(0x7fefffffffffffff),
        Number::Decimal128(0xfda54ce688e7efa1, 0x326658a213cc7a4f),
        Number::Decimal128(0x378d8e63ffffffff, 0x5fffed09bead87c0),
        Number::Double(0x7ff0000000000000),
    ]
}
