//! Lines of devices in memory, with expected results worked out by hand.
use bd_io_device::{Limits, MemoryInput, ReadFault};
use bd_io_lines::LineBuffer;
use std::test::Fail;

const AMPLE: Limits = Limits {
    bytes: 4_294_967_295,
    turns: 4_294_967_296,
};

/// The last line counts without a newline if it is not empty. A carriage return is a byte of its line.
#[test]
fn each_line_in_its_order(rt: HostRuntime) {
    let rows: [(&[u8], &[&[u8]]); 8] = [
        (b"", &[]),
        (b"\n", &[b""]),
        (b"a", &[b"a"]),
        (b"a\n", &[b"a"]),
        (b"a\nbc", &[b"a", b"bc"]),
        (b"\n\na\r\n \n", &[b"", b"", b"a\r", b" "]),
        (b"\r", &[b"\r"]),
        (
            b"a\0\n\xff\n\nlong line",
            &[b"a\0", b"\xff", b"", b"long line"],
        ),
    ];
    for (text, wanted) in rows {
        for most in [1, 2, 3, 100] {
            assert!(rt; most > 0);
            let mut input = MemoryInput::new(text, most, None);
            let mut lines = LineBuffer::new(rt.alloc(), AMPLE);
            for line in wanted {
                assert!(rt; lines.read_next(&mut input) == Ok(true), "{most} a read");
                assert!(rt; lines.line() == *line, "{most} a read");
            }
            for _ in 0..2 {
                assert!(rt; lines.read_next(&mut input) == Ok(false), "{most} a read");
                assert!(rt; lines.line().is_empty());
            }
        }
    }
}

/// How many reads were made at each line, and at the end. One read finds the end, and none is made after it.
#[test]
fn no_read_if_a_line_is_buffered(rt: HostRuntime) {
    for (most, counts, end) in [(1, [2, 4, 6], 6), (3, [1, 2, 3], 3), (100, [1, 1, 2], 2)] {
        assert!(rt; most > 0);
        let mut input = MemoryInput::new(b"a\nb\nc", most, None);
        let mut lines = LineBuffer::new(rt.alloc(), AMPLE);
        assert!(rt; input.calls() == 0 && lines.buffered() == 0);
        for calls in counts {
            assert!(rt; lines.read_next(&mut input) == Ok(true), "{most} a read");
            assert!(rt; input.calls() == calls, "{most} a read");
        }
        for _ in 0..3 {
            assert!(rt; lines.read_next(&mut input) == Ok(false), "{most} a read");
            assert!(rt; input.calls() == end, "{most} a read");
        }
    }
}

/// The byte after the limit may be the first of the line or the last of a block.
#[test]
fn a_line_of_the_limit_and_one_longer(rt: HostRuntime) -> Result<(), Fail> {
    let mut bytes = Vec::new(rt.alloc());
    bytes.resize(16_777_217, b'x')?;
    bytes.extend_from_slice(b"\n")?;
    for (start, most, answer) in [
        (1, 65_536, Ok(true)),
        (1, 1_000_003, Ok(true)),
        (0, 65_536, Err(ReadFault::TooLong)),
        (0, 1_000_003, Err(ReadFault::TooLong)),
    ] {
        assert!(rt; start <= bytes.len() && most > 0);
        let mut input = MemoryInput::new(&bytes[start..], most, None);
        let mut lines = LineBuffer::new(rt.alloc(), AMPLE);
        assert!(rt; lines.read_next(&mut input) == answer, "{most} a read");
        let is_whole = lines.line().len() == 16_777_216;
        assert!(rt; is_whole == answer.is_ok() && lines.buffered() <= 16_842_752);
    }
    Ok(())
}

/// The fault after n lines of seven bytes, which a later call returns too. No read is made after one that failed.
#[test]
fn a_fault_ends_the_lines(rt: HostRuntime) {
    for (bytes, turns, failing, count, fault) in [
        (7, 8, None, 3, None),
        (6, 8, None, 2, Some(ReadFault::TooLong)),
        (3, 8, None, 1, Some(ReadFault::TooLong)),
        (7, 7, None, 2, Some(ReadFault::TooManyTurns)),
        (7, 4, None, 1, Some(ReadFault::TooManyTurns)),
        (0, 0, None, 0, Some(ReadFault::TooManyTurns)),
        (9, 9, Some(1), 0, Some(ReadFault::Device)),
        (9, 9, Some(3), 0, Some(ReadFault::Device)),
        (9, 9, Some(4), 1, Some(ReadFault::Device)),
        (9, 9, Some(5), 1, Some(ReadFault::Device)),
        (9, 9, Some(6), 2, Some(ReadFault::Device)),
        (9, 9, Some(7), 2, Some(ReadFault::Device)),
        (9, 9, Some(8), 2, Some(ReadFault::Device)),
    ] {
        let mut input = MemoryInput::new(b"ab\nc\nde", 1, failing);
        let mut lines = LineBuffer::new(rt.alloc(), Limits { bytes, turns });
        for _ in 0..count {
            assert!(rt;
                lines.read_next(&mut input) == Ok(true),
                "{fault:?} after {count}"
            );
        }
        for _ in 0..2 {
            let next = lines.read_next(&mut input);
            assert!(rt; next.err() == fault, "{fault:?} after {count}");
            assert!(rt; input.calls() <= failing.unwrap_or(turns) && lines.line().is_empty());
            assert!(rt; input.failures() == u64::from(failing.is_some()));
        }
    }
}
