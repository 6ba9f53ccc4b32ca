//! Writes to devices in memory, with expected results worked out by hand.
use bd_io_device::FailingWrite::{Error, Zero};
use bd_io_device::{Input, MemoryInput, MemoryOutput, Output, write_all};

/// An empty write makes no call, and one that fails takes nothing, so that a later call writes the rest if there is space.
#[test]
fn writes_until_a_call_fails(rt: HostRuntime) {
    let hello = b"hello";
    for (size, most, failing, written, calls, has_buffer) in [
        (8, 1, None, 5, 5, true),
        (8, 8, None, 5, 1, true),
        (3, 8, None, 3, 2, false),
        (8, 2, Some(Error(2)), 2, 2, true),
        (8, 2, Some(Zero(2)), 2, 2, true),
    ] {
        assert!(rt; size <= 8 && most > 0 && written <= hello.len());
        let mut buffer = [0; 8];
        let mut output = MemoryOutput::new(&mut buffer[..size], most, failing);
        let is_well = write_all(&mut output, b"").is_ok();
        let is_whole = write_all(&mut output, hello).is_ok();
        assert!(rt; is_well && is_whole == (written == 5) && output.bytes() == &hello[..written]);
        assert!(rt; output.calls() == calls && output.failures() == u64::from(written < 5));
        assert!(rt; write_all(&mut output, &hello[written..]).is_ok() == has_buffer);
        assert!(rt; !has_buffer || output.bytes() == hello.as_slice());
    }
}

#[test]
fn part_by_part(rt: HostRuntime) {
    let mut input = MemoryInput::new(b"hello", 4, None);
    let mut part = [0; 3];
    for (count, bytes) in [(3, b"hel"), (2, b"lol"), (0, b"lol")] {
        assert!(rt; input.read(&mut part) == Ok(count) && &part == bytes);
    }
    let mut buffer = [0; 8];
    let mut output = MemoryOutput::new(&mut buffer, 4, Some(Zero(2)));
    assert!(rt; output.write(b"hello") == Ok(4) && output.write(b"o") == Ok(0));
    assert!(rt; output.bytes() == b"hell".as_slice());
}
