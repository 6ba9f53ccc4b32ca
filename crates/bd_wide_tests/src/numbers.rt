//! Numbers and their codes, from Python's `struct` and `fractions`.
use bd_wide_number::{Number, code_of};
use std::process::Abort;

fn row(rt: &impl Abort, number: Number, code: Option<i64>) {
    assert!(rt; code_of(number) == code);
}

macro_rules! row {
    ($rt:ident; $number:expr => $code:expr) => {
        row(&$rt, $number, $code)
    };
}

#[test]
fn doubles(rt: HostRuntime) {
    // 0.0
    row!(rt; Number::Double(0) => Some(0));
    // -0.0
    row!(rt; Number::Double(0x8000_0000_0000_0000) => Some(0));
    // NaN
    row!(rt; Number::Double(0x7ff8_0000_0000_0000) => Some(i64::MIN));
    // NaN with its sign and a payload
    row!(rt; Number::Double(0xfff8_0000_0000_0001) => Some(i64::MIN));
    // Infinity
    row!(rt; Number::Double(0x7ff0_0000_0000_0000) => Some(0x7ff0_0000_0000_0000));
    // -Infinity
    row!(rt; Number::Double(0xfff0_0000_0000_0000) => Some(-0x7ff0_0000_0000_0000));
    // the least
    row!(rt; Number::Double(1) => Some(1));
    // the greatest below zero
    row!(rt; Number::Double(0x8000_0000_0000_0001) => Some(-1));
    // the least that is not subnormal
    row!(rt; Number::Double(0x0010_0000_0000_0000) => Some(0x0010_0000_0000_0000));
    // the greatest
    row!(rt; Number::Double(0x7fef_ffff_ffff_ffff) => Some(0x7fef_ffff_ffff_ffff));
    // 2 ^ 53 - 1
    row!(rt; Number::Double(0x433f_ffff_ffff_ffff) => Some(0x433f_ffff_ffff_ffff));
    // 2 ^ 53
    row!(rt; Number::Double(0x4340_0000_0000_0000) => Some(0x4340_0000_0000_0000));
    // 2 ^ 53 + 2
    row!(rt; Number::Double(0x4340_0000_0000_0001) => Some(0x4340_0000_0000_0001));
}

#[test]
fn doubles_more(rt: HostRuntime) {
    // 0.1
    row!(rt; Number::Double(0x3fb9_9999_9999_999a) => Some(0x3fb9_9999_9999_999a));
    // 0.5
    row!(rt; Number::Double(0x3fe0_0000_0000_0000) => Some(0x3fe0_0000_0000_0000));
    // -2.5
    row!(rt; Number::Double(0xc004_0000_0000_0000) => Some(-0x4004_0000_0000_0000));
    // 9.99
    row!(rt; Number::Double(0x4023_fae1_47ae_147b) => Some(0x4023_fae1_47ae_147b));
    // 0.25
    row!(rt; Number::Double(0x3fd0_0000_0000_0000) => Some(0x3fd0_0000_0000_0000));
    // -2 ^ 63
    row!(rt; Number::Double(0xc3e0_0000_0000_0000) => Some(-0x43e0_0000_0000_0000));
    // 2 ^ 63
    row!(rt; Number::Double(0x43e0_0000_0000_0000) => Some(0x43e0_0000_0000_0000));
}

#[test]
fn whole_numbers(rt: HostRuntime) {
    // 0
    row!(rt; Number::Whole(0) => Some(0));
    // -1
    row!(rt; Number::Whole(-1) => Some(-0x3ff0_0000_0000_0000));
    // 2 ^ 53 - 1
    row!(rt; Number::Whole(9007199254740991) => Some(0x433f_ffff_ffff_ffff));
    // 2 ^ 53
    row!(rt; Number::Whole(9007199254740992) => Some(0x4340_0000_0000_0000));
    // 2 ^ 53 + 1
    row!(rt; Number::Whole(9007199254740993) => None);
    // 2 ^ 53 + 2
    row!(rt; Number::Whole(9007199254740994) => Some(0x4340_0000_0000_0001));
    // the least
    row!(rt; Number::Whole(i64::MIN) => Some(-0x43e0_0000_0000_0000));
    // the greatest
    row!(rt; Number::Whole(9223372036854775807) => None);
    // the greatest that fits when multiplied by a thousand
    row!(rt; Number::Whole(9223372036854775) => None);
    // one more
    row!(rt; Number::Whole(9223372036854776) => Some(0x4340_624d_d2f1_a9fc));
    // -3 * 2 ^ 59
    row!(rt; Number::Whole(-1729382256910270464) => Some(-0x43b8_0000_0000_0000));
}

#[test]
fn decimals(rt: HostRuntime) {
    // 9.99
    row!(rt; Number::Decimal128(0x0000_0000_0000_03e7, 0x303c_0000_0000_0000) => None);
    // 9.99 times 10
    row!(rt; Number::Decimal128(0x0000_0000_0000_03e7, 0x303c_0000_0000_0000) => None);
    // -9.990
    row!(rt; Number::Decimal128(0x0000_0000_0000_2706, 0xb03a_0000_0000_0000) => None);
    // 1.5
    row!(rt; Number::Decimal128(0x0000_0000_0000_000f, 0x303e_0000_0000_0000) => Some(0x3ff8_0000_0000_0000));
    // 0.1
    row!(rt; Number::Decimal128(1, 0x303e_0000_0000_0000) => None);
    // 1E+2
    row!(rt; Number::Decimal128(1, 0x3044_0000_0000_0000) => Some(0x4059_0000_0000_0000));
    // 1E+18
    row!(rt; Number::Decimal128(1, 0x3064_0000_0000_0000) => Some(0x43ab_c16d_674e_c800));
    // 1E+19
    row!(rt; Number::Decimal128(1, 0x3066_0000_0000_0000) => Some(0x43e1_58e4_6091_3d00));
    // 1E+22
    row!(rt; Number::Decimal128(1, 0x306c_0000_0000_0000) => Some(0x4480_f0cf_064d_d592));
    // 1E+23
    row!(rt; Number::Decimal128(1, 0x306e_0000_0000_0000) => None);
    // 2 ^ -48, which has 34 digits
    row!(rt; Number::Decimal128(0x95d6_9670_b12b_7f41, 0x2fe0_af29_8d05_0e43) => Some(0x3cf0_0000_0000_0000));
    // 1E-18
    row!(rt; Number::Decimal128(1, 0x301c_0000_0000_0000) => None);
    // 9223372036854775807
    row!(rt; Number::Decimal128(0x7fff_ffff_ffff_ffff, 0x3040_0000_0000_0000) => None);
}

#[test]
fn decimals_more(rt: HostRuntime) {
    // -9223372036854775808
    row!(rt; Number::Decimal128(0x8000_0000_0000_0000, 0xb040_0000_0000_0000) => Some(-0x43e0_0000_0000_0000));
    // 9007199254740993
    row!(rt; Number::Decimal128(0x0020_0000_0000_0001, 0x3040_0000_0000_0000) => None);
    // the least
    row!(rt; Number::Decimal128(1, 0) => None);
    // 1E+6144
    row!(rt; Number::Decimal128(0x38c1_5b0a_0000_0000, 0x5ffe_314d_c644_8d93) => None);
    // the greatest
    row!(rt; Number::Decimal128(0x378d_8e63_ffff_ffff, 0x5fff_ed09_bead_87c0) => None);
    // 0E+6111
    row!(rt; Number::Decimal128(0, 0x5ffe_0000_0000_0000) => Some(0));
    // -0E-3
    row!(rt; Number::Decimal128(0, 0xb03a_0000_0000_0000) => Some(0));
    // a coefficient of 35 digits
    row!(rt; Number::Decimal128(0x378d_8e64_0000_0000, 0x3041_ed09_bead_87c0) => Some(0));
    // a coefficient that is too large
    row!(rt; Number::Decimal128(1, 0x6000_0000_0000_0000) => Some(0));
    // NaN
    row!(rt; Number::Decimal128(0, 0x7c00_0000_0000_0000) => Some(i64::MIN));
    // a signaling NaN
    row!(rt; Number::Decimal128(1, 0xfe00_0000_0000_0000) => Some(i64::MIN));
    // Infinity
    row!(rt; Number::Decimal128(0, 0x7800_0000_0000_0000) => Some(0x7ff0_0000_0000_0000));
    // -Infinity
    row!(rt; Number::Decimal128(0, 0xf800_0000_0000_0000) => Some(-0x7ff0_0000_0000_0000));
}
