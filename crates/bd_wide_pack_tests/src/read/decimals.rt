//! Texts of decimal128, most of them of the vectors of its specification. The upper half of the bits begins with the sign and the
//! exponent plus 6176: 0x3040 for the exponent 0, and 2 more for each power of ten.
use bd_wide_read::{TextFault, read_decimal128};
use std::process::Abort;

fn is(rt: &impl Abort, text: &[u8], low: u64, high: u64) {
    assert!(rt; read_decimal128(text) == Ok((low, high)));
}

fn is_beyond(rt: &impl Abort, text: &[u8]) {
    assert!(rt; read_decimal128(text) == Err(TextFault::OutOfRange));
}

fn is_bad(rt: &impl Abort, text: &[u8]) {
    assert!(rt; read_decimal128(text) == Err(TextFault::BadText));
}

#[test]
fn numbers(rt: HostRuntime) {
    is(&rt, b"1", 1, 0x3040_0000_0000_0000);
    is(&rt, b"-1", 1, 0xb040_0000_0000_0000);
    is(&rt, b"+5", 5, 0x3040_0000_0000_0000);
    is(&rt, b".5", 5, 0x303e_0000_0000_0000);
    is(&rt, b"5.", 5, 0x3040_0000_0000_0000);
    is(&rt, b"0.1", 1, 0x303e_0000_0000_0000);
    is(&rt, b"1.5", 15, 0x303e_0000_0000_0000);
    is(&rt, b"-9.990", 9990, 0xb03a_0000_0000_0000);
    is(&rt, b"1E+2", 1, 0x3044_0000_0000_0000);
    is(&rt, b"1e2", 1, 0x3044_0000_0000_0000);
    is(&rt, b"12E-1", 12, 0x303e_0000_0000_0000);
    is(
        &rt,
        b"00000000000000000000000000000000000000000001",
        1,
        0x3040_0000_0000_0000,
    );
    // 2 ^ 64, in the upper half
    is(&rt, b"18446744073709551616", 0, 0x3040_0000_0000_0001);
    // 34 digits
    is(
        &rt,
        b"9999999999999999999999999999999999",
        0x378d_8e63_ffff_ffff,
        0x3041_ed09_bead_87c0,
    );
}

#[test]
fn zeros(rt: HostRuntime) {
    is(&rt, b"0", 0, 0x3040_0000_0000_0000);
    is(&rt, b"-0", 0, 0xb040_0000_0000_0000);
    is(&rt, b"0.00", 0, 0x303c_0000_0000_0000);
    is(&rt, b"-0.0", 0, 0xb03e_0000_0000_0000);
    is(&rt, b"0E-6176", 0, 0);
    is(&rt, b"0E-6177", 0, 0);
    is(&rt, b"-0E-9999", 0, 0x8000_0000_0000_0000);
    is(&rt, b"0E+6111", 0, 0x5ffe_0000_0000_0000);
    is(&rt, b"0E+6112", 0, 0x5ffe_0000_0000_0000);
    is(&rt, b"-0E+6144", 0, 0xdffe_0000_0000_0000);
    is(
        &rt,
        b"0E99999999999999999999999999999999999999999999",
        0,
        0x5ffe_0000_0000_0000,
    );
    is(
        &rt,
        b"0E-99999999999999999999999999999999999999999999",
        0,
        0,
    );
}

#[test]
fn ends(rt: HostRuntime) {
    is(&rt, b"1E-6176", 1, 0);
    is(&rt, b"-1E-6176", 1, 0x8000_0000_0000_0000);
    is(&rt, b"1E+6111", 1, 0x5ffe_0000_0000_0000);
    is(
        &rt,
        b"9.999999999999999999999999999999999E+6144",
        0x378d_8e63_ffff_ffff,
        0x5fff_ed09_bead_87c0,
    );
    is_beyond(&rt, b"1E-6177");
    is_beyond(&rt, b"1E+6145");
    is_beyond(&rt, b"-1E+6145");
    is_beyond(&rt, b"10E+6144");
    is_beyond(&rt, b"9.9E-6176");
    is_beyond(&rt, b"1E99999999999999999999999999999999999999999999");
    is_beyond(&rt, b"1E-99999999999999999999999999999999999999999999");
}

#[test]
fn zeros_move(rt: HostRuntime) {
    // to the coefficient
    is(&rt, b"1E+6112", 10, 0x5ffe_0000_0000_0000);
    is(&rt, b"-12E+6113", 1200, 0xdffe_0000_0000_0000);
    is(
        &rt,
        b"1E+6144",
        0x38c1_5b0a_0000_0000,
        0x5ffe_314d_c644_8d93,
    );
    // to the exponent, as few as must
    is(&rt, b"10E-6177", 1, 0);
    is(&rt, b"1.0E-6176", 1, 0);
    is(&rt, b"-100E-6177", 10, 0x8000_0000_0000_0000);
    is_beyond(&rt, b"101E-6177");
    // 35 digits, of which the last is zero: 10 ^ 33 and the exponent 1
    is(
        &rt,
        b"10000000000000000000000000000000000",
        0x38c1_5b0a_0000_0000,
        0x3042_314d_c644_8d93,
    );
    // 39 zeros after the point: 10 ^ 33 and the exponent -33
    is(
        &rt,
        b"1.000000000000000000000000000000000000000",
        0x38c1_5b0a_0000_0000,
        0x2ffe_314d_c644_8d93,
    );
    is_beyond(&rt, b"12345678901234567890123456789012345");
    is_beyond(&rt, b"1.0000000000000000000000000000000001");
    is_beyond(&rt, b"100000000000000000000000000000000010");
    is_beyond(&rt, b"10000000000000000000000000000000000E+6111");
}

#[test]
fn words(rt: HostRuntime) {
    is(&rt, b"Infinity", 0, 0x7800_0000_0000_0000);
    is(&rt, b"-Infinity", 0, 0xf800_0000_0000_0000);
    is(&rt, b"+inf", 0, 0x7800_0000_0000_0000);
    is(&rt, b"-INF", 0, 0xf800_0000_0000_0000);
    is(&rt, b"iNfInItY", 0, 0x7800_0000_0000_0000);
    is(&rt, b"NaN", 0, 0x7c00_0000_0000_0000);
    is(&rt, b"-nan", 0, 0x7c00_0000_0000_0000);
    is(&rt, b"+NAN", 0, 0x7c00_0000_0000_0000);
}

#[test]
fn bad_texts(rt: HostRuntime) {
    is_bad(&rt, b"");
    is_bad(&rt, b"-");
    is_bad(&rt, b"+");
    is_bad(&rt, b".");
    is_bad(&rt, b"e5");
    is_bad(&rt, b".e5");
    is_bad(&rt, b"1e");
    is_bad(&rt, b"1e+");
    is_bad(&rt, b"1e1.5");
    is_bad(&rt, b"1.2.3");
    is_bad(&rt, b"--1");
    is_bad(&rt, b" 1");
    is_bad(&rt, b"1 ");
    is_bad(&rt, b"1_0");
    is_bad(&rt, b"0x1");
    is_bad(&rt, b"in");
    is_bad(&rt, b"infinit");
    is_bad(&rt, b"Infinity1");
    is_bad(&rt, b"NaN1");
    is_bad(&rt, b"sNaN");
    is_bad(&rt, b"--inf");
}
