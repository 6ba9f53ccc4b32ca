//! Reads of devices in memory, with expected results worked out by hand.
use bd_io_device::ReadFault::{Device, NoMemory, TooLong, TooManyTurns};
use bd_io_device::{FillCounts, Limits, MemoryInput, fill, fill_after, read_all};
use std::test::Fail;

const AMPLE: Limits = Limits {
    bytes: 100,
    turns: 100,
};

/// What ends the reading, if anything, how many reads were made, and how many bytes they took: one read finds the end, and
/// one that fails takes nothing and is not retried. The next call continues after them.
#[test]
fn reads_all_within_limits(rt: HostRuntime) -> Result<(), Fail> {
    let mut long = Vec::new(rt.alloc());
    long.resize(200_000, 7u8)?;
    let hello = b"hello".as_slice();
    for (all, most, failing, bytes, turns, fault, calls, taken) in [
        (hello, 1, None, 4, 9, Some(TooLong), 5, 5),
        (hello, 1, None, 5, 3, Some(TooManyTurns), 3, 3),
        (hello, 1, None, 5, 5, Some(TooManyTurns), 5, 5),
        (hello, 1, None, 5, 6, None, 6, 5),
        (hello, 1, None, 0, 0, Some(TooManyTurns), 0, 0),
        (hello, 2, Some(2), 100, 100, Some(Device), 2, 2),
        (b"", 8, None, 0, 1, None, 1, 0),
        // More bytes than one read takes: 13 reads of at most 16 KiB, and the one that finds the end.
        (&long, 1_000_000, None, 200_000, 14, None, 14, 200_000),
    ] {
        assert!(rt; most > 0 && taken <= all.len());
        let mut input = MemoryInput::new(all, most, failing);
        let is_right = match read_all(rt.alloc(), &mut input, Limits { bytes, turns }) {
            Ok(read) => fault.is_none() && read.as_slice() == all,
            Err(why) => fault == Some(why),
        };
        assert!(rt;
            is_right && input.calls() == calls,
            "{bytes} bytes, {turns} reads"
        );
        let rest = read_all(rt.alloc(), &mut input, AMPLE)?;
        assert!(rt;
            rest.as_slice() == &all[taken..],
            "{bytes} bytes, {turns} reads"
        );
        assert!(rt; input.failures() == u64::from(failing.is_some()));
    }
    Ok(())
}

#[test]
fn the_program_says_each_fault(rt: HostRuntime) {
    for (fault, number, words) in [
        (Device, 1, "cannot read"),
        (TooLong, 2, "input too long"),
        (TooManyTurns, 3, "too many reads"),
        (NoMemory, 4, "no memory"),
    ] {
        assert!(rt; fault as u8 == number && fault.words() == words);
    }
}

#[test]
fn a_buffer_is_filled(rt: HostRuntime) {
    let mut input = MemoryInput::new(b"hello, you", 2, None);
    let mut buffer = [0; 5];
    let filled = fill(&mut input, &mut buffer, AMPLE);
    assert!(rt; matches!(filled, Ok(FillCounts { bytes: 5, turns: 3 })) && &buffer == b"hello");
    let filled = fill_after(&mut input, &mut buffer, *b"well", 5, AMPLE);
    assert!(rt; matches!(filled, Ok(FillCounts { bytes: 1, turns: 1 })) && &buffer == b"well,");
    // The device is at its end before the buffer is full.
    let filled = fill(&mut input, &mut buffer, AMPLE);
    assert!(rt; matches!(filled, Ok(FillCounts { bytes: 4, turns: 3 })) && &buffer == b" you,");
}
