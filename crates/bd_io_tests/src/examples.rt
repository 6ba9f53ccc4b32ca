//! The examples of use in the roots of `bd_io_device`, `bd_io_stdout` and `bd_io_lines`.
use crate::numbered::Numbered;
use bd_io_device::{Limits, MemoryInput, MemoryOutput, SystemOutput, read_all, write_all};
use bd_io_lines::{LineBuffer, reply_to_lines};
use bd_io_stdout::{BufferedOutput, OutputBuffer, WriteState, hand_on};
use std::cell::RefCell;
use std::test::Fail;

#[test]
fn lines(rt: HostRuntime) -> Result<(), Fail> {
    let alloc = rt.alloc();
    let limits = Limits {
        bytes: 100,
        turns: 100,
    };
    let mut input = MemoryInput::new(b"one\ntwo", 100, None);
    let mut lines = LineBuffer::new(alloc, limits);
    assert!(rt; lines.read_next(&mut input)? && lines.line() == b"one".as_slice());
    assert!(rt; lines.read_next(&mut input)? && lines.line() == b"two".as_slice());
    assert!(rt; !lines.read_next(&mut input)?);
    Ok(())
}

#[test]
fn replies(rt: HostRuntime) -> Result<(), Fail> {
    let limits = Limits {
        bytes: 100,
        turns: 100,
    };
    let mut input = MemoryInput::new(b"find\n\ncount", 100, None);
    let mut session = Numbered {
        digit: b'1',
        last: b'9',
    };
    let mut buffer = [0; 20];
    let mut output = MemoryOutput::new(&mut buffer, 20, None);
    reply_to_lines(rt.alloc(), limits, &mut input, &mut session, &mut output)?;
    assert!(rt; output.bytes() == b"1find\n2count\n".as_slice());
    Ok(())
}

#[test]
fn device(rt: HostRuntime) -> Result<(), Fail> {
    let alloc = rt.alloc();
    let limits = Limits {
        bytes: 100,
        turns: 100,
    };
    let mut input = MemoryInput::new(b"hello", 2, None);
    let bytes = read_all(alloc, &mut input, limits)?;
    assert!(rt; bytes.as_slice() == b"hello".as_slice());
    // Three reads give bytes, and one finds the end.
    assert!(rt; input.calls() == 4);
    Ok(())
}

#[test]
fn buffered(rt: HostRuntime) {
    let alloc = rt.alloc();
    let system = SystemOutput::new(Vec::new(alloc));
    let output_buffer = RefCell::new(OutputBuffer::new(alloc, system));
    let mut out = SystemOutput::new(BufferedOutput {
        output_buffer: &output_buffer,
    });
    assert!(rt; write_all(&mut out, b"a line\n").is_ok());
    assert!(rt; hand_on(&output_buffer) == WriteState::Intact);
}
