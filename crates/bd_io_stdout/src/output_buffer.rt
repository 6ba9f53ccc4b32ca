//! Standard output in large writes, tied to what is read and to standard error, as `cin` and `cout` of C++ are tied.
//!
//! Output is buffered in memory. The buffer is flushed if the next write does not fit after it, before more input is read
//! from the system, before anything is written to standard error, and at the end. So a reader of the output gets each
//! line before the program waits for input, and before standard error reports on it.
//!
//! So the device can refuse bytes of a write that already returned success. Then no more input is read, and nothing is
//! written to standard error, until a write has returned that loss as its error. If no write follows, the end of the program
//! has to report it.
ghost use Rattle.std.specs.Prelude.{◌≡◌, ◌≢◌, [], length, IfOk, None};
ghost use Rattle.std.specs.Io.{WritesAtMost};
ghost use Rattle.std.specs.Io.KnownBytes.{WriteAppends};
ghost use Rattle.bd_io_stdout.specs.declared.output_buffer.WriteState.TheVariants.{Intact};

use bd_io_device::{DeviceFault, Input, Output, write_all};
use std::alloc::Global;
use std::cell::RefCell;
use std::io;
use std::io::{ErrorKind, Read, Write};
use std::marker::Model;

/// How many bytes are buffered at most.
const CAPACITY: usize = 65_536;

/// What became of the bytes that were written.
#[derive(Debug, Clone, Copy, PartialEq, Eq)]
pub enum WriteState {
    /// They are buffered, or the device has them.
    Intact,
    /// The device refused some of them, and no write has returned the error yet.
    Lost,
    /// The device refused some of them, and a write returned the error; its caller reports it.
    Reported,
}

/// Bytes that are buffered for a device.
#[derive(Drop)]
pub struct OutputBuffer<D: Output + Drop> {
    waiting: Vec<u8>,
    /// How many bytes are buffered at most: `CAPACITY`, or 0 if there was no memory for it.
    capacity: usize,
    device: D,
    write_state: WriteState,
}

/// A contract sees the buffered bytes, how many these may be, the device, and what became of the bytes before.
impl<D: Output + Drop> Model for OutputBuffer<D> {
    ghost use Rattle.std.specs.Prelude.{◌≡◌, ◌≢◌, ◌≤◌, [], length, vec_capacity};
    ghost use Rattle.bd_io_stdout.specs.OutputBuffer.{BufferState};
    ghost use Rattle.bd_io_stdout.specs.declared.output_buffer.WriteState.TheVariants.{Intact};

    ghost Value = { BufferState D };

    ghost view = { λ s. record {
      waiting = s.waiting.items;
      capacity = s.capacity;
      device = s.device;
      write_state = s.write_state;
    } };

    ghost invariant = { λ s. (length s.waiting.items ≤ s.capacity) × (s.capacity ≤ 65536)
        × (s.capacity ≤ vec_capacity s.waiting)
        × (s.write_state ≢ Intact → s.waiting.items ≡ []) };
}

impl<D: Output + Drop> OutputBuffer<D> {
    ghost use Rattle.std.specs.Prelude.{◌++◌, ◌≤◌, ◌⊎◌, IsErr, IsOk, OnErr, OnOk, false, true};
    ghost use Rattle.std.specs.Io.KnownBytes.{ReadConsumes};
    ghost use Rattle.bd_io_device.specs.Devices.{after_more};
    ghost use Rattle.bd_io_stdout.specs.OutputBuffer.{Buffers, FitsBuffer, HandsOn, WriteFails};
    ghost use Rattle.bd_io_stdout.specs.declared.output_buffer.WriteState.TheVariants.{Lost, Reported};

    /// An empty buffer for this device. Without memory for it, each write goes to the device directly.
    pub fn new(alloc: Global, device: D) -> OutputBuffer<D>
        ensures device { result.device ≡ device }
        ensures empty { result.waiting ≡ [] }
        ensures capacity { (result.capacity ≡ 65536) ⊎ (result.capacity ≡ 0) }
        ensures intact { result.write_state ≡ Intact }
    {
        let mut waiting = Vec::new(alloc);
        let capacity = match waiting.reserve(CAPACITY) {
            Ok(()) => CAPACITY,
            Err(_) => 0,
        };
        OutputBuffer {
            waiting,
            capacity,
            device,
            write_state: WriteState::Intact,
        }
    }

    /// Flushes the buffer, and returns what became of the bytes so far. After a loss the buffer is empty.
    fn hand_on(&mut self) -> WriteState
        ensures write_state { result ≡ self.new.write_state }
        ensures handed { HandsOn D.Output self.old self.new }
        ensures empty { self.new.waiting ≡ [] }
        ensures capacity { self.new.capacity ≡ self.old.capacity }
    {
        if self.waiting.is_empty() {
            return self.write_state;
        }
        let written = write_all(&mut self.device, &self.waiting);
        self.waiting.clear();
        if written.is_err() {
            self.write_state = WriteState::Lost;
            return WriteState::Lost;
        }
        self.write_state
    }

    /// Appends bytes to the buffer, if they are few and fit; else it changes nothing.
    fn buffers(&mut self, bytes: &[u8]) -> bool
        requires { self.old.write_state ≡ Intact }
        ensures fits { FitsBuffer self.old bytes.now → result ≡ true }
        ensures buffered { result ≡ true →
            self.new.waiting ≡ self.old.waiting ++ bytes.now }
        ensures not_buffered { result ≡ false → self.new.waiting ≡ self.old.waiting }
        ensures capacity { self.new.capacity ≡ self.old.capacity }
        ensures device { self.new.device ≡ self.old.device }
        ensures write_state { self.new.write_state ≡ self.old.write_state }
    {
        if bytes.len() >= CAPACITY || self.capacity - self.waiting.len() < bytes.len() {
            return false;
        }
        // They fit.
        let _ = self.waiting.extend_from_slice(bytes);
        true
    }

    /// Appends bytes to the buffer, which is flushed first if they do not fit. Many bytes go to the device directly.
    fn append(&mut self, bytes: &[u8]) -> Result<(), DeviceFault>
        ensures buffered { OnOk result ((self.old.write_state ≡ Intact)
            × (self.new.write_state ≡ Intact) × Buffers D.Output self.old bytes.now self.new) }
        ensures fits { self.old.write_state ≡ Intact → FitsBuffer self.old bytes.now →
            IsOk result × (self.new.device ≡ self.old.device) }
        ensures write_failed { OnErr result (self.old.write_state ≡ Intact →
            WriteFails D.Output self.old.device (self.old.waiting ++ bytes.now) self.new.device) }
        ensures empty { OnErr result (self.new.waiting ≡ []) }
        ensures capacity { self.new.capacity ≡ self.old.capacity }
        ensures after_loss { self.old.write_state ≢ Intact → self.new.device ≡ self.old.device }
    {
        if self.write_state != WriteState::Intact {
            return Err(DeviceFault);
        }
        if self.buffers(bytes) {
            return Ok(());
        }
        let handed = self.hand_on();
        if handed != WriteState::Intact {
            return Err(DeviceFault);
        }
        if self.buffers(bytes) {
            return Ok(());
        }
        write_all(&mut self.device, bytes)
    }

    /// The same; an error reports the loss.
    fn take(&mut self, bytes: &[u8]) -> Result<(), DeviceFault>
        ensures taken { OnOk result ((self.old.write_state ≡ Intact)
            × (self.new.write_state ≡ Intact) × Buffers D.Output self.old bytes.now self.new) }
        // Few bytes that fit are buffered, and the device is not written to.
        ensures fits { self.old.write_state ≡ Intact → FitsBuffer self.old bytes.now →
            IsOk result × (self.new.device ≡ self.old.device) }
        ensures capacity { self.new.capacity ≡ self.old.capacity }
        ensures write_failed { OnErr result (self.old.write_state ≡ Intact →
            WriteFails D.Output self.old.device (self.old.waiting ++ bytes.now) self.new.device) }
        ensures reported { OnErr result (self.new.write_state ≡ Reported) }
        ensures after_loss { self.old.write_state ≢ Intact → self.new.device ≡ self.old.device }
    {
        let taken = self.append(bytes);
        if taken.is_err() {
            self.write_state = WriteState::Reported;
        }
        taken
    }

    /// Reads after the buffer was flushed: one read, whose result it is. After a loss it fails without reading, since a read could
    /// wait for input that serves no one.
    #[tactic(auto, using(crate::proofs::OutputBufferLemmas::hands_none))]
    fn read_after<R: Input>(
        &mut self,
        reader: &mut R,
        buffer: &mut [u8],
    ) -> Result<usize, DeviceFault>
        ensures handed { HandsOn D.Output self.old self.new }
        ensures empty { self.new.waiting ≡ [] }
        ensures capacity { self.new.capacity ≡ self.old.capacity }
        ensures lost { self.new.write_state ≢ Intact →
            IsErr result × (reader.new ≡ reader.old) × (buffer.new ≡ buffer.old) }
        ensures within { IfOk result (λ n. n ≤ length buffer.new) }
        ensures bytes { ReadConsumes
            (R.state reader.old).remaining (R.state reader.new).remaining result buffer.new }
        ensures called { self.new.write_state ≡ Intact →
            (R.state reader.new).calls ≡ after_more (R.state reader.old).calls 1 }
        ensures no_failure { OnOk result
            ((R.state reader.new).failures ≡ (R.state reader.old).failures) }
        ensures failed { OnErr result (self.new.write_state ≡ Intact →
            (R.state reader.new).failures ≡ after_more (R.state reader.old).failures 1) }
    {
        if self.hand_on() != WriteState::Intact {
            return Err(DeviceFault);
        }
        reader.read(buffer)
    }

    /// Writes to another device after the buffer was flushed: one write, whose result it is. It fails and writes nothing while a
    /// loss is unreported, so that no count is printed of lines that did not arrive.
    #[tactic(auto, using(crate::proofs::OutputBufferLemmas::hands_none))]
    fn write_after<E: Output>(&mut self, writer: &mut E, bytes: &[u8]) -> Result<usize, DeviceFault>
        ensures handed { HandsOn D.Output self.old self.new }
        ensures empty { self.new.waiting ≡ [] }
        ensures capacity { self.new.capacity ≡ self.old.capacity }
        ensures unreported { self.new.write_state ≡ Lost →
            IsErr result × (writer.new ≡ writer.old) }
        ensures within { IfOk result (λ n. n ≤ length bytes.now) }
        ensures bytes { WriteAppends
            (E.state writer.old).contents (E.state writer.new).contents result bytes.now }
        ensures called { self.new.write_state ≢ Lost →
            (E.state writer.new).calls ≡ after_more (E.state writer.old).calls 1 }
        ensures failed { OnErr result (self.new.write_state ≢ Lost →
            (E.state writer.new).failures ≡ after_more (E.state writer.old).failures 1) }
    {
        if self.hand_on() == WriteState::Lost {
            return Err(DeviceFault);
        }
        writer.write(bytes)
    }
}

/// The error of a call that is refused because of a loss. Nothing reads its kind.
fn refusal() -> io::Error {
    io::Error::from(ErrorKind::Other)
}

// Readers and writers over one `OutputBuffer`, which they share in a cell. No contract knows what a cell contains, so the
// contracts are those of the methods of `OutputBuffer`.

/// Flushes the buffer, and returns what became of the bytes so far.
pub fn hand_on<D: Output + Drop>(output_buffer: &RefCell<OutputBuffer<D>>) -> WriteState {
    match output_buffer.try_borrow_mut() {
        Ok(mut output_buffer) => output_buffer.hand_on(),
        Err(_) => WriteState::Lost,
    }
}

/// Standard output, which is buffered.
#[derive(Drop)]
pub struct BufferedOutput<'a, D: Output + Drop> {
    pub output_buffer: &'a RefCell<OutputBuffer<D>>,
}

impl<D: Output + Drop> Write for BufferedOutput<'_, D> {
    /// It takes all bytes or none.
    fn write(&mut self, bytes: &[u8]) -> io::Result<usize>
        ensures bound { WritesAtMost result bytes.now }
        ensures bytes { WriteAppends None None result bytes.now }
        ensures whole { IfOk result (λ n. n ≡ length bytes.now) }
    {
        let Ok(mut output_buffer) = self.output_buffer.try_borrow_mut() else {
            return Err(refusal());
        };
        match output_buffer.take(bytes) {
            Ok(()) => Ok(bytes.len()),
            Err(_) => Err(refusal()),
        }
    }

    fn flush(&mut self) -> io::Result<()> {
        Ok(())
    }
}

/// An input: the buffer is flushed before a read. After a loss a read fails without a system call.
#[derive(Drop)]
pub struct FlushingInput<'a, R: Input + Drop, D: Output + Drop> {
    pub reader: R,
    pub output_buffer: &'a RefCell<OutputBuffer<D>>,
}

impl<R: Input + Drop, D: Output + Drop> Read for FlushingInput<'_, R, D> {
    /// The bytes are those of the reader.
    ghost remaining = { λ s. (R.state s.reader).remaining };

    fn read(&mut self, buffer: &mut [u8]) -> io::Result<usize> {
        let Ok(mut output_buffer) = self.output_buffer.try_borrow_mut() else {
            return Err(refusal());
        };
        match output_buffer.read_after(&mut self.reader, buffer) {
            Ok(n) => Ok(n),
            Err(_) => Err(refusal()),
        }
    }
}

/// Standard error: the buffer is flushed before a write. A write fails while a loss is unreported.
#[derive(Drop)]
pub struct FlushingError<'a, E: Output + Drop, D: Output + Drop> {
    pub writer: E,
    pub output_buffer: &'a RefCell<OutputBuffer<D>>,
}

impl<E: Output + Drop, D: Output + Drop> Write for FlushingError<'_, E, D> {
    /// The bytes are those of the writer.
    ghost contents = { λ s. (E.state s.writer).contents };

    fn write(&mut self, bytes: &[u8]) -> io::Result<usize> {
        let Ok(mut output_buffer) = self.output_buffer.try_borrow_mut() else {
            return Err(refusal());
        };
        match output_buffer.write_after(&mut self.writer, bytes) {
            Ok(n) => Ok(n),
            Err(_) => Err(refusal()),
        }
    }

    fn flush(&mut self) -> io::Result<()> {
        Ok(())
    }
}
