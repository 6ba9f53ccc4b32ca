//! Texts of doubles.
use bd_wide_read::{TextFault, read_double, read_number};
use std::process::Abort;

fn is(rt: &impl Abort, text: &[u8], bits: u64) {
    assert!(rt; read_double(text) == Ok(bits));
}

fn is_refused(rt: &impl Abort, text: &[u8], fault: TextFault) {
    assert!(rt; read_double(text) == Err(fault));
}

#[test]
fn numbers(rt: HostRuntime) {
    is(&rt, b"0", 0);
    is(&rt, b"-0", 0x8000_0000_0000_0000);
    is(&rt, b"0.0", 0);
    is(&rt, b"1", 0x3ff0_0000_0000_0000);
    is(&rt, b"1.5", 0x3ff8_0000_0000_0000);
    is(&rt, b"-2.5", 0xc004_0000_0000_0000);
    is(&rt, b"1E2", 0x4059_0000_0000_0000);
    is(&rt, b"1e+2", 0x4059_0000_0000_0000);
    is(&rt, b"250e-2", 0x4004_0000_0000_0000);
    is(&rt, b"0.1", 0x3fb9_9999_9999_999a);
    // 2 ^ 53 + 1 lies between two doubles: the even one.
    is(&rt, b"9007199254740993", 0x4340_0000_0000_0000);
    // 2 ^ 64
    is(&rt, b"18446744073709551616", 0x43f0_0000_0000_0000);
}

#[test]
fn ends(rt: HostRuntime) {
    is(&rt, b"1.7976931348623157e308", 0x7fef_ffff_ffff_ffff);
    is(&rt, b"-1.7976931348623157E+308", 0xffef_ffff_ffff_ffff);
    // The greatest double is nearer than 2 ^ 1024, which is 1.7976931348623159077..e308.
    is(&rt, b"1.7976931348623158e308", 0x7fef_ffff_ffff_ffff);
    is_refused(&rt, b"1.7976931348623159e308", TextFault::OutOfRange);
    is_refused(&rt, b"1e309", TextFault::OutOfRange);
    is_refused(&rt, b"-1e99999999999999999999", TextFault::OutOfRange);
    // The least is 4.94..e-324; half of it is 2.47..e-324.
    is(&rt, b"5e-324", 1);
    is(&rt, b"3e-324", 1);
    is(&rt, b"2e-324", 0);
    is(&rt, b"-1e-400", 0x8000_0000_0000_0000);
}

#[test]
fn words(rt: HostRuntime) {
    is(&rt, b"NaN", 0x7ff8_0000_0000_0000);
    is(&rt, b"Infinity", 0x7ff0_0000_0000_0000);
    is(&rt, b"-Infinity", 0xfff0_0000_0000_0000);
}

fn is_bad(rt: &impl Abort, text: &[u8]) {
    is_refused(rt, text, TextFault::BadText);
    assert!(rt; read_number(text) == Err(TextFault::BadText));
}

#[test]
fn bad_words(rt: HostRuntime) {
    is_bad(&rt, b"inf");
    is_bad(&rt, b"nan");
    is_bad(&rt, b"infinity");
    is_bad(&rt, b"+Infinity");
    is_bad(&rt, b"-NaN");
    is_bad(&rt, b"NaN ");
    is_bad(&rt, b"Infinit");
}

#[test]
fn bad_numbers(rt: HostRuntime) {
    is_bad(&rt, b"");
    is_bad(&rt, b"-");
    is_bad(&rt, b"+1");
    is_bad(&rt, b".5");
    is_bad(&rt, b"1.");
    is_bad(&rt, b"1.e5");
    is_bad(&rt, b"1e");
    is_bad(&rt, b"1e+");
    is_bad(&rt, b"01");
    is_bad(&rt, b"--1");
    is_bad(&rt, b"0x1p3");
    is_bad(&rt, b"1_0");
    is_bad(&rt, b" 1");
    is_bad(&rt, b"1 ");
    is_bad(&rt, b"1.5.5");
    is_bad(&rt, b"1\0");
}

#[test]
fn bare_numbers(rt: HostRuntime) {
    assert!(rt; read_number(b"1.5") == Ok(0x3ff8_0000_0000_0000));
    assert!(rt; read_number(b"-1e2") == Ok(0xc059_0000_0000_0000));
    assert!(rt; read_number(b"1e309") == Err(TextFault::OutOfRange));
    assert!(rt; read_number(b"NaN") == Err(TextFault::BadText));
    assert!(rt; read_number(b"-Infinity") == Err(TextFault::BadText));
}
