//! Devices that give bytes, with counts of calls and of failures.
ghost use Rattle.std.specs.Prelude.{◌≡◌, ℕ, List, Option, None, Some, false, IfOk, IfSome, IsTrue, OnOk, OnErr, length, ◌<◌, ◌≤◌, min, ⊤};
ghost use Rattle.std.proofs.Common.{rules};
ghost use Rattle.std.specs.Io.Buffered.{reader_remaining};
ghost use Rattle.std.specs.Io.KnownBytes.{Consumes, ReadConsumes};
ghost use Rattle.bd_io_device.specs.Devices.{Reader, after_more, bytes_given, greatest};

use std::io::{BufRead, BufReader, Read};
use thiserror::Error;

/// A read or a write that failed.
#[derive(Debug, Clone, Copy, Drop, PartialEq, Eq, Error)]
#[error("a read or a write failed")]
pub struct DeviceFault;

/// A device that gives bytes.
///
/// Its two counts saturate at 2^64 - 1.
pub trait Input {
    /// The bytes that reads will still give, if known; how many reads were made; and how many failed.
    ghost state: { Self → Reader };

    /// A read of the first device may give these bytes, or fail if `None`, and change it to the second.
    ghost read_gives: { Self → Option (List ℕ) → Self → Type 0 } = { λ _ _ _. ⊤ };

    /// Reads into the start of `buffer` and returns how many bytes it read: 0 only at the end, or if `buffer` is empty. A
    /// read that fails takes no bytes from the device.
    fn read(&mut self, buffer: &mut [u8]) -> Result<usize, DeviceFault>
        ensures within { IfOk result (λ n. n ≤ length buffer.new) }
        ensures bytes { ReadConsumes
            (state self.old).remaining (state self.new).remaining result buffer.new }
        ensures gives { read_gives self.old (bytes_given result buffer.new) self.new }
        ensures called { (state self.new).calls ≡ after_more (state self.old).calls 1 }
        ensures no_failure { OnOk result ((state self.new).failures ≡ (state self.old).failures) }
        ensures failed { OnErr result ((state self.new).failures
            ≡ after_more (state self.old).failures 1) };

    /// Fills all of `buffer` by one read and returns true, if the device has that many bytes buffered and `buffer` is not
    /// empty; else it does nothing and returns false. A device without a buffer always returns false.
    #[inline(always)]
    fn read_buffered(&mut self, buffer: &mut [u8]) -> bool
        ensures bytes { IsTrue result → (0 < length buffer.old)
            × Consumes (state self.old).remaining (state self.new).remaining buffer.new }
        ensures gives { IsTrue result → read_gives self.old (Some buffer.new) self.new }
        ensures called { IsTrue result →
            (state self.new).calls ≡ after_more (state self.old).calls 1 }
        ensures no_failure { (state self.new).failures ≡ (state self.old).failures }
        ensures none { result ≡ false → (self.new ≡ self.old) × (buffer.new ≡ buffer.old) }
    {
        false
    }

    /// A number of bytes that the device has at least, if it knows one before they are read. It makes no read.
    #[inline(always)]
    fn least_bytes(&self) -> Option<u64>
        ensures { IfSome result (λ n. IfSome (state self.now).remaining (λ xs. n ≤ length xs)) }
    {
        None
    }

    /// The count of reads is at most 2^64 - 1.
    ghost calls_fit: { (s : Self) → (state s).calls ≤ greatest };

    /// The count of failed reads is at most 2^64 - 1.
    ghost failures_fit: { (s : Self) → (state s).failures ≤ greatest };
}

/// A reader of the operating system, such as a file or standard input.
#[derive(Drop)]
pub struct SystemInput<R: Read + Drop> {
    reader: R,
    tally: Tally,
}

impl<R: Read + Drop> SystemInput<R> {
    /// The device over this reader, with both counts at 0.
    pub fn new(reader: R) -> SystemInput<R>
        ensures state { ⟦<SystemInput<R> as Input>⟧.state result
            ≡ record { remaining = R.remaining reader; calls = 0; failures = 0 } }
    {
        let tally = Tally::default();
        SystemInput { reader, tally }
    }
}

impl<R: Read + Drop> Input for SystemInput<R> {
    ghost use Rattle.bd_io_device.specs.Input.{system_reader};

    ghost state = { system_reader R.remaining };

    ghost calls_fit = { λ s. Prim.search rules };

    ghost failures_fit = { λ s. Prim.search rules };

    fn read(&mut self, buffer: &mut [u8]) -> Result<usize, DeviceFault> {
        self.tally.call();
        let Ok(n) = self.reader.read(buffer) else {
            return Err(self.tally.fail());
        };
        Ok(n)
    }
}

/// A reader of the operating system, read in blocks. Bytes that are buffered already are read without a system call.
#[derive(Drop)]
pub struct BufferedInput<R: Read + Drop> {
    device: SystemInput<BufReader<R>>,
}

impl<R: Read + Drop> BufferedInput<R> {
    /// The device over this reader, with both counts at 0.
    pub fn new(reader: BufReader<R>) -> BufferedInput<R>
        ensures state { ⟦<BufferedInput<R> as Input>⟧.state result
            ≡ record { remaining = reader_remaining R.remaining reader; calls = 0; failures = 0 } }
    {
        let device = SystemInput::new(reader);
        BufferedInput { device }
    }
}

impl<R: Read + Drop> Input for BufferedInput<R> {
    ghost use Rattle.std.specs.Prelude.{true};
    ghost use Rattle.bd_io_device.specs.Input.{buffered_reader, bytes_ahead};

    ghost state = { buffered_reader R.remaining };

    ghost calls_fit = { λ s. Prim.search rules };

    ghost failures_fit = { λ s. Prim.search rules };

    fn read(&mut self, buffer: &mut [u8]) -> Result<usize, DeviceFault> {
        self.device.read(buffer)
    }

    /// It returns true whenever `buffer` is not empty and that many bytes are buffered.
    #[inline(always)]
    fn read_buffered(&mut self, buffer: &mut [u8]) -> bool
        ensures buffered { 0 < length buffer.old →
            length buffer.old ≤ length (bytes_ahead self.old) → result ≡ true }
        ensures bytes { IsTrue result → (0 < length buffer.old)
            × Consumes (⟦<BufferedInput<R> as Input>⟧.state self.old).remaining
            (⟦<BufferedInput<R> as Input>⟧.state self.new).remaining buffer.new }
        ensures gives { IsTrue result →
            ⟦<BufferedInput<R> as Input>⟧.read_gives self.old (Some buffer.new) self.new }
        ensures called { IsTrue result → (⟦<BufferedInput<R> as Input>⟧.state self.new).calls
            ≡ after_more (⟦<BufferedInput<R> as Input>⟧.state self.old).calls 1 }
        ensures no_failure { (⟦<BufferedInput<R> as Input>⟧.state self.new).failures
            ≡ (⟦<BufferedInput<R> as Input>⟧.state self.old).failures }
        ensures none { result ≡ false → (self.new ≡ self.old) × (buffer.new ≡ buffer.old) }
    {
        let buffered = self.device.reader.buffer();
        if buffer.is_empty() || buffered.len() < buffer.len() {
            return false;
        }
        let (prefix, _) = buffered.split_at(buffer.len());
        buffer.copy_from_slice(prefix);
        self.device.reader.consume(buffer.len());
        self.device.tally.call();
        true
    }
}

/// Bytes in memory, given a few at a time, with one call that may fail.
#[derive(Drop)]
pub struct MemoryInput<'a> {
    /// How many bytes a call gives at most, above 0.
    pub most: usize,
    /// The number of the call that fails, counted from 1.
    pub failing: Option<u64>,
    bytes: &'a [u8],
    tally: Tally,
    ghost gives: { 0 < most },
}

impl<'a> MemoryInput<'a> {
    /// The device that gives `bytes`, at most `most` of them in a call. The call with the number `failing`, counted from 1,
    /// fails and gives none. Both counts are at 0.
    pub fn new(bytes: &'a [u8], most: usize, failing: Option<u64>) -> MemoryInput<'a>
        requires { 0 < most }
        ensures state { ⟦<MemoryInput<'a> as Input>⟧.state result ≡ record {
          remaining = Some bytes.now;
          calls = 0;
          failures = 0;
        } }
        ensures most { result.most ≡ most }
        ensures failing { result.failing ≡ failing }
    {
        MemoryInput {
            most,
            failing,
            bytes,
            tally: Tally::default(),
        }
    }

    /// How many reads were made.
    pub fn calls(&self) -> u64
        ensures { result ≡ (⟦<MemoryInput<'a> as Input>⟧.state self.now).calls }
    {
        self.tally.calls
    }

    /// How many reads failed.
    pub fn failures(&self) -> u64
        ensures { result ≡ (⟦<MemoryInput<'a> as Input>⟧.state self.now).failures }
    {
        self.tally.failures
    }
}

impl<'a> Input for MemoryInput<'a> {
    ghost use Rattle.bd_io_device.specs.Input.{MemoryGives, input_bytes, memory_reader};

    ghost state = { memory_reader };

    ghost read_gives = { MemoryGives };

    ghost calls_fit = { λ s. Prim.search rules };

    ghost failures_fit = { λ s. Prim.search rules };

    /// As many bytes as `buffer`, the device and `most` allow.
    fn read(&mut self, buffer: &mut [u8]) -> Result<usize, DeviceFault>
        ensures within { IfOk result (λ n. n ≤ length buffer.new) }
        ensures count { IfOk result (λ n.
            n ≡ min (min (length (input_bytes self.old)) (length buffer.old)) self.old.most) }
        ensures bytes { ReadConsumes (⟦<MemoryInput<'a> as Input>⟧.state self.old).remaining
            (⟦<MemoryInput<'a> as Input>⟧.state self.new).remaining result buffer.new }
        ensures gives { ⟦<MemoryInput<'a> as Input>⟧.read_gives self.old
            (bytes_given result buffer.new) self.new }
        ensures called { (⟦<MemoryInput<'a> as Input>⟧.state self.new).calls
            ≡ after_more (⟦<MemoryInput<'a> as Input>⟧.state self.old).calls 1 }
        ensures no_failure { OnOk result ((⟦<MemoryInput<'a> as Input>⟧.state self.new).failures
            ≡ (⟦<MemoryInput<'a> as Input>⟧.state self.old).failures) }
        ensures failed { OnErr result ((⟦<MemoryInput<'a> as Input>⟧.state self.new).failures
            ≡ after_more (⟦<MemoryInput<'a> as Input>⟧.state self.old).failures 1) }
    {
        self.tally.call();
        if self.failing == Some(self.tally.calls) {
            return Err(self.tally.fail());
        }
        let n = self.bytes.len().min(buffer.len()).min(self.most);
        let (given, rest) = self.bytes.split_at(n);
        buffer[..n].copy_from_slice(given);
        self.bytes = rest;
        Ok(n)
    }
}

/// A file that is not read, since it has more bytes than its reader takes. Each read fails.
#[derive(Drop)]
pub struct OversizedInput {
    size: u64,
    tally: Tally,
}

impl OversizedInput {
    /// The device of a file of this many bytes, with both counts at 0.
    pub fn new(size: u64) -> OversizedInput
        ensures state { ⟦<OversizedInput as Input>⟧.state result
            ≡ record { remaining = None; calls = 0; failures = 0 } }
    {
        let tally = Tally::default();
        OversizedInput { size, tally }
    }
}

impl Input for OversizedInput {
    ghost use Rattle.bd_io_device.specs.Devices.{reader_of};

    ghost state = { λ s. reader_of None s.tally };

    ghost calls_fit = { λ s. Prim.search rules };

    ghost failures_fit = { λ s. Prim.search rules };

    fn read(&mut self, _buffer: &mut [u8]) -> Result<usize, DeviceFault> {
        self.tally.call();
        Err(self.tally.fail())
    }

    fn least_bytes(&self) -> Option<u64> {
        Some(self.size)
    }
}

/// How many calls a device took, and how many of them failed; both start at 0 and saturate at 2^64 - 1.
#[derive(Default, Drop)]
pub(crate) struct Tally {
    pub(crate) calls: u64,
    pub(crate) failures: u64,
}

impl Tally {
    /// Counts a call.
    pub(crate) fn call(&mut self)
        ensures calls { self.new.calls ≡ after_more self.old.calls 1 }
        ensures failures { self.new.failures ≡ self.old.failures }
    {
        self.calls = self.calls.saturating_add(1);
    }

    /// Counts a failure of a call that is counted already, and returns it.
    pub(crate) fn fail(&mut self) -> DeviceFault
        ensures calls { self.new.calls ≡ self.old.calls }
        ensures failures { self.new.failures ≡ after_more self.old.failures 1 }
    {
        self.failures = self.failures.saturating_add(1);
        DeviceFault
    }
}
