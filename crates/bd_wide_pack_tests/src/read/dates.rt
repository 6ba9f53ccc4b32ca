//! Texts of dates and of UUIDs. The expected values are those of Python's `datetime` and `uuid`.
use bd_wide_read::{read_date, read_uuid};
use std::process::Abort;

fn is(rt: &impl Abort, text: &[u8], milliseconds: i64) {
    assert!(rt; read_date(text) == Some(milliseconds));
}

fn is_none(rt: &impl Abort, text: &[u8]) {
    assert!(rt; read_date(text).is_none());
}

#[test]
fn dates(rt: HostRuntime) {
    is(&rt, b"1970-01-01T00:00:00Z", 0);
    is(&rt, b"2026-10-01T00:00:00Z", 1_790_812_800_000);
    is(&rt, b"2026-10-01T00:00:00.5Z", 1_790_812_800_500);
    is(&rt, b"2026-10-01T12:34:56.78+05:30", 1_790_838_296_780);
    is(&rt, b"2026-10-01T00:00:00.123-01:30", 1_790_818_200_123);
    is(&rt, b"2026-10-01T00:00:00.123-0130", 1_790_818_200_123);
    is(&rt, b"1969-12-31T23:59:59.999Z", -1);
    is(&rt, b"0001-01-01T00:00:00Z", -62_135_596_800_000);
    is(&rt, b"9999-12-31T23:59:59.999Z", 253_402_300_799_999);
    is(&rt, b"2024-02-29T23:59:59Z", 1_709_251_199_000);
    is(&rt, b"2000-02-29T00:00:00Z", 951_782_400_000);
    is(&rt, b"1900-03-01T00:00:00-00:00", -2_203_891_200_000);
    // zeros after the thousandths
    is(&rt, b"1970-01-01T00:00:00.120000Z", 120);
}

#[test]
fn no_dates(rt: HostRuntime) {
    is_none(&rt, b"");
    is_none(&rt, b"2026-10-01");
    is_none(&rt, b"2026-10-01T00:00:00");
    is_none(&rt, b"2026-10-01 00:00:00Z");
    is_none(&rt, b"2026-10-01t00:00:00z");
    is_none(&rt, b"2026-10-01T00:00Z");
    is_none(&rt, b"26-10-01T00:00:00Z");
    is_none(&rt, b"02026-10-01T00:00:00Z");
    is_none(&rt, b"2026-10-01T00:00:00Z ");
    is_none(&rt, b"2026-10-01T00:00:00.Z");
    is_none(&rt, b"2026-10-01T00:00:00,5Z");
    // no such day, no such time
    is_none(&rt, b"2026-02-29T00:00:00Z");
    is_none(&rt, b"1900-02-29T00:00:00Z");
    is_none(&rt, b"2026-00-01T00:00:00Z");
    is_none(&rt, b"2026-13-01T00:00:00Z");
    is_none(&rt, b"2026-10-00T00:00:00Z");
    is_none(&rt, b"2026-10-01T24:00:00Z");
    is_none(&rt, b"2026-10-01T00:60:00Z");
    is_none(&rt, b"2026-12-31T23:59:60Z");
    // parts of a thousandth
    is_none(&rt, b"2026-10-01T00:00:00.1234Z");
    // no such offset
    is_none(&rt, b"2026-10-01T00:00:00+24:00");
    is_none(&rt, b"2026-10-01T00:00:00+01:60");
    is_none(&rt, b"2026-10-01T00:00:00+01");
    is_none(&rt, b"2026-10-01T00:00:00+1:000");
    is_none(&rt, b"2026-10-01T00:00:00Z+01:00");
}

#[test]
fn uuids(rt: HostRuntime) {
    let bytes = *b"\xc8\xed\xab\xc3\xf7\x38\x4c\xa3\xb6\x8d\xab\x92\xa9\x14\x78\xa3";
    assert!(rt; read_uuid(b"c8edabc3-f738-4ca3-b68d-ab92a91478a3") == Some(bytes));
    assert!(rt; read_uuid(b"C8EDABC3-F738-4CA3-B68D-AB92A91478A3") == Some(bytes));
    assert!(rt; read_uuid(b"c8edabc3f7384ca3b68dab92a91478a3").is_none());
    assert!(rt; read_uuid(b"{c8edabc3-f738-4ca3-b68d-ab92a91478a3}").is_none());
    assert!(rt; read_uuid(b"c8edabc3-f738-4ca3-b68d-ab92a91478a").is_none());
    assert!(rt; read_uuid(b"c8edabc3-f738-4ca3-b68dab92-a91478a3").is_none());
    assert!(rt; read_uuid(b"g8edabc3-f738-4ca3-b68d-ab92a91478a3").is_none());
}
