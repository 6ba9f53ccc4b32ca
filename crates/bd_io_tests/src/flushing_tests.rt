//! The buffer of standard output, which is flushed before a read, before a message, and at the end.
use bd_io_device::{SystemInput, SystemOutput, write_all};
use bd_io_stdout::{
    BufferedOutput, FlushingError, FlushingInput, OutputBuffer, WriteState, hand_on,
};
use std::cell::{Cell, RefCell};
use std::io::{self, Read, Write};

/// A device that counts its writes in a cell of the test.
#[derive(Drop)]
struct Counting<'a> {
    writes: &'a Cell<u32>,
}

impl Write for Counting<'_> {
    fn write(&mut self, bytes: &[u8]) -> io::Result<usize> {
        self.writes.set(self.writes.get().saturating_add(1));
        Ok(bytes.len())
    }

    fn flush(&mut self) -> io::Result<()> {
        Ok(())
    }
}

/// A reader and a writer that note how many writes the other device had before their last call.
#[derive(Clone, Copy)]
struct Noting<'a> {
    writes: &'a Cell<u32>,
    noted: &'a Cell<u32>,
}

impl Read for Noting<'_> {
    fn read(&mut self, _buffer: &mut [u8]) -> io::Result<usize> {
        self.noted.set(self.writes.get());
        Ok(0)
    }
}

impl Write for Noting<'_> {
    fn write(&mut self, bytes: &[u8]) -> io::Result<usize> {
        self.noted.set(self.writes.get());
        Ok(bytes.len())
    }

    fn flush(&mut self) -> io::Result<()> {
        Ok(())
    }
}

#[test]
fn nothing_waits_before_a_read_or_a_message(rt: HostRuntime) {
    let writes = Cell::new(0);
    let noted = Cell::new(0);
    let system = SystemOutput::new(Counting { writes: &writes });
    let output_buffer = RefCell::new(OutputBuffer::new(rt.alloc(), system));
    let output_buffer = &output_buffer;
    let noting = Noting {
        writes: &writes,
        noted: &noted,
    };
    let mut out = SystemOutput::new(BufferedOutput { output_buffer });
    let mut input = FlushingInput {
        reader: SystemInput::new(noting),
        output_buffer,
    };
    let mut err = FlushingError {
        writer: SystemOutput::new(noting),
        output_buffer,
    };
    assert!(rt; write_all(&mut out, b"a line\n") == Ok(()) && writes.get() == 0);
    assert!(rt; input.read(&mut [0; 1]).is_ok() && noted.get() == 1);
    assert!(rt; write_all(&mut out, b"another\n") == Ok(()) && writes.get() == 1);
    assert!(rt; err.write(b"a message\n").is_ok() && noted.get() == 2);
    assert!(rt; write_all(&mut out, b"the last\n") == Ok(()) && writes.get() == 2);
    assert!(rt; hand_on(output_buffer) == WriteState::Intact && writes.get() == 3);
}
