//! Devices over the readers and writers of the system.
use bd_io_device::{
    BufferedInput, DeviceFault, Input, Limits, ReadFault, SystemInput, SystemOutput, fill,
    read_all, write_all,
};
use std::cell::Cell;
use std::io::{self, BufReader, ErrorKind, Read, Write};
use std::test::Fail;

const LIMITS: Limits = Limits {
    bytes: 100,
    turns: 100,
};

#[test]
fn reads_and_writes_by_the_system(rt: HostRuntime) -> Result<(), Fail> {
    let mut input = SystemInput::new(b"hello".as_slice());
    let read = read_all(rt.alloc(), &mut input, LIMITS)?;
    assert!(rt; read.as_slice() == b"hello".as_slice());

    let mut buffer = [0; 7];
    let mut output = SystemOutput::new(buffer.as_mut_slice());
    assert!(rt; write_all(&mut output, b"hello") == Ok(()));
    // Two bytes fit, and then a write takes none.
    assert!(rt; write_all(&mut output, b"you") == Err(DeviceFault));
    drop(output);
    assert!(rt; &buffer == b"helloyo");
    Ok(())
}

/// Blocks are of four bytes.
#[test]
fn reads_what_is_buffered(rt: HostRuntime) -> Result<(), Fail> {
    let reader = BufReader::with_capacity(rt.alloc(), 4, b"hello you".as_slice())?;
    let mut input = BufferedInput::new(reader);
    let mut buffer = [0; 3];
    assert!(rt; !input.read_buffered(&mut buffer));
    assert!(rt; input.read(&mut buffer) == Ok(3) && &buffer == b"hel");
    // One byte is buffered.
    assert!(rt; !input.read_buffered(&mut buffer) && !input.read_buffered(&mut []));
    assert!(rt; input.read_buffered(&mut buffer[..1]) && &buffer == b"lel");
    let rest = read_all(rt.alloc(), &mut input, LIMITS)?;
    assert!(rt; rest.as_slice() == b"o you".as_slice());
    Ok(())
}

/// A reader and a writer of which one call fails, and each other call is of one byte. It counts the calls in a cell of the
/// test.
#[derive(Clone, Copy)]
struct FailsOnce<'a> {
    calls: &'a Cell<u32>,
    failing: u32,
    kind: ErrorKind,
}

impl FailsOnce<'_> {
    fn call(&self) -> io::Result<()> {
        let call = self.calls.get().saturating_add(1);
        self.calls.set(call);
        if call == self.failing {
            return Err(io::Error::from(self.kind));
        }
        Ok(())
    }
}

impl Read for FailsOnce<'_> {
    fn read(&mut self, buffer: &mut [u8]) -> io::Result<usize> {
        self.call()?;
        Ok(buffer.len().min(1))
    }
}

impl Write for FailsOnce<'_> {
    fn write(&mut self, bytes: &[u8]) -> io::Result<usize> {
        self.call()?;
        Ok(bytes.len().min(1))
    }

    fn flush(&mut self) -> io::Result<()> {
        Ok(())
    }
}

/// The call that fails is the last, though the next one would work: only the next read or write makes it.
#[test]
fn requests_once_where_a_call_fails(rt: HostRuntime) {
    for (failing, kind) in [
        (1, ErrorKind::Interrupted),
        (1, ErrorKind::WouldBlock),
        (3, ErrorKind::Interrupted),
        (3, ErrorKind::WouldBlock),
    ] {
        let calls = Cell::new(0);
        let once = FailsOnce {
            calls: &calls,
            failing,
            kind,
        };
        let mut input = SystemInput::new(once);
        let is_fault = read_all(rt.alloc(), &mut input, LIMITS) == Err(ReadFault::Device);
        assert!(rt; is_fault && calls.get() == failing);
        let is_filled = fill(&mut input, &mut [0; 4], LIMITS).is_ok();
        assert!(rt; is_filled && calls.get() == failing.saturating_add(4));

        calls.set(0);
        let mut other = SystemInput::new(once);
        let is_fault = fill(&mut other, &mut [0; 4], LIMITS).is_err();
        assert!(rt; is_fault && calls.get() == failing);

        calls.set(0);
        let mut output = SystemOutput::new(once);
        let is_fault = write_all(&mut output, b"hello") == Err(DeviceFault);
        assert!(rt; is_fault && calls.get() == failing);
        let is_written = write_all(&mut output, b"hello") == Ok(());
        assert!(rt; is_written && calls.get() == failing.saturating_add(5));
    }
}
