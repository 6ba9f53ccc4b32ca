//! Replies to commands of devices in memory, with expected results worked out by hand.
use crate::numbered::Numbered;
use bd_io_device::FailingWrite::{Error, Zero};
use bd_io_device::ReadFault::{Device, TooLong, TooManyTurns};
use bd_io_device::{Limits, MemoryInput, MemoryOutput};
use bd_io_lines::ServeFault::{NoMemory, Unread, Unwritten};
use bd_io_lines::reply_to_lines;

const AMPLE: Limits = Limits {
    bytes: 1000,
    turns: 1000,
};

const TWO: &[u8] = b"ab\n\ncd\n";

#[test]
fn a_reply_to_each_command(rt: HostRuntime) {
    let rows: [(&[u8], &[u8]); 8] = [
        (b"", b""),
        (b"\n \t\r\n\r\n ", b""),
        (b"ab", b"1ab\n"),
        (b"ab\n", b"1ab\n"),
        (TWO, b"1ab\n2cd\n"),
        (b"ab\r\ncd", b"1ab\r\n2cd\n"),
        (b" ab \n\t\nb\nb", b"1 ab \n2b\n3b\n"),
        (b"\x0b\n\0", b"1\x0b\n2\0\n"),
    ];
    for (commands, wanted) in rows {
        for (most, size) in [(1, 1), (3, 2), (100, 100)] {
            assert!(rt; most > 0 && size > 0);
            let mut input = MemoryInput::new(commands, most, None);
            let mut buffer = [0; 64];
            let mut output = MemoryOutput::new(&mut buffer, size, None);
            let mut session = Numbered {
                digit: b'1',
                last: b'9',
            };
            let result = reply_to_lines(rt.alloc(), AMPLE, &mut input, &mut session, &mut output);
            assert!(rt; result == Ok(()), "{most} a read");
            assert!(rt; output.bytes() == wanted, "{most} a read");
        }
    }
}

/// How many bytes of two replies are written, and how many one-byte reads were made. A reply is written as soon as its line
/// was read, by two bytes in a write.
#[test]
fn a_call_that_fails(rt: HostRuntime) {
    let replies = b"1ab\n2cd\n";
    for (failing, bytes, turns, last, write_failed, fault, printed, calls) in [
        // The replies to the whole lines are written, and no other.
        (Some(1), 1000, 1000, b'9', None, Unread(Device), 0, 1),
        (Some(3), 1000, 1000, b'9', None, Unread(Device), 0, 3),
        (Some(4), 1000, 1000, b'9', None, Unread(Device), 4, 4),
        (Some(7), 1000, 1000, b'9', None, Unread(Device), 4, 7),
        (Some(8), 1000, 1000, b'9', None, Unread(Device), 8, 8),
        (None, 6, 1000, b'9', None, Unread(TooLong), 4, 7),
        (None, 1000, 7, b'9', None, Unread(TooManyTurns), 8, 7),
        // No line is read after one whose reply was not written, or for which memory ran out.
        (None, 1000, 1000, b'9', Some(Error(1)), Unwritten, 0, 3),
        (None, 1000, 1000, b'9', Some(Zero(1)), Unwritten, 0, 3),
        (None, 1000, 1000, b'9', Some(Error(2)), Unwritten, 2, 3),
        (None, 1000, 1000, b'9', Some(Zero(2)), Unwritten, 2, 3),
        (None, 1000, 1000, b'9', Some(Error(3)), Unwritten, 4, 7),
        (None, 1000, 1000, b'9', Some(Zero(3)), Unwritten, 4, 7),
        (None, 1000, 1000, b'9', Some(Error(4)), Unwritten, 6, 7),
        (None, 1000, 1000, b'9', Some(Zero(4)), Unwritten, 6, 7),
        (None, 1000, 1000, b'1', None, NoMemory, 0, 3),
        (None, 1000, 1000, b'2', None, NoMemory, 4, 7),
    ] {
        assert!(rt; printed <= replies.len());
        let limits = Limits { bytes, turns };
        let mut input = MemoryInput::new(TWO, 1, failing);
        let mut session = Numbered { digit: b'1', last };
        let mut buffer = [0; 64];
        let mut output = MemoryOutput::new(&mut buffer, 2, write_failed);
        let result = reply_to_lines(rt.alloc(), limits, &mut input, &mut session, &mut output);
        assert!(rt; result == Err(fault), "{printed} bytes, {calls} reads");
        assert!(rt;
            output.bytes() == &replies[..printed],
            "{printed} bytes, {calls} reads"
        );
        assert!(rt; input.calls() == calls, "{printed} bytes, {calls} reads");
    }
}
