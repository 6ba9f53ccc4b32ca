//! Devices that take bytes, with counts of calls and of failures.
ghost use Rattle.std.specs.Prelude.{◌≡◌, ◌≢◌, ℕ, List, None, Some, Option, IfOk, OnOk, OnErr, length, ◌<◌, ◌≤◌, ⊤, ◌⊎◌, []};
ghost use Rattle.std.proofs.Common.{rules};
ghost use Rattle.std.specs.Io.KnownBytes.{WriteAppends, Appends};
ghost use Rattle.bd_io_device.specs.Devices.{Writer, AreWrites, WriteFailsWithin, TakesText, after_more, count_taken, greatest, over};

use crate::input::{DeviceFault, Tally};
use std::io::Write;

/// A device that takes bytes.
///
/// Its two counts saturate at 2^64 - 1.
pub trait Output {
    /// The bytes that it contains, if known; how many writes were made; and how many failed. A write that took 0 bytes of
    /// some is a failure.
    ghost state: { Self → Writer };

    /// A write of these bytes to the first device may take this many, or fail if `None`, and change it to the second.
    ghost write_takes: { Self → List ℕ → Option ℕ → Self → Type 0 } = { λ _ _ _ _. ⊤ };

    /// Appends a prefix of `bytes` and returns its length. A write that fails takes nothing.
    fn write(&mut self, bytes: &[u8]) -> Result<usize, DeviceFault>
        ensures within { IfOk result (λ n. n ≤ length bytes.now) }
        ensures bytes { WriteAppends
            (state self.old).contents (state self.new).contents result bytes.now }
        ensures takes { write_takes self.old bytes.now (count_taken result) self.new }
        ensures called { (state self.new).calls ≡ after_more (state self.old).calls 1 }
        ensures no_failure { IfOk result (λ n. (0 < n) ⊎ (bytes.now ≡ []) →
            (state self.new).failures ≡ (state self.old).failures) }
        ensures none { IfOk result (λ n. n ≡ 0 →
            bytes.now ≢ [] → (state self.new).failures ≡ after_more (state self.old).failures 1) }
        ensures failed { OnErr result ((state self.new).failures
            ≡ after_more (state self.old).failures 1) };

    /// The count of writes is at most 2^64 - 1.
    ghost calls_fit: { (s : Self) → (state s).calls ≤ greatest };

    /// The count of failed writes is at most 2^64 - 1.
    ghost failures_fit: { (s : Self) → (state s).failures ≤ greatest };
}

/// A writer of the operating system, such as a file or standard output.
#[derive(Drop)]
pub struct SystemOutput<W: Write + Drop> {
    writer: W,
    tally: Tally,
}

impl<W: Write + Drop> SystemOutput<W> {
    /// The device over this writer, with both counts at 0.
    pub fn new(writer: W) -> SystemOutput<W>
        ensures state { ⟦<SystemOutput<W> as Output>⟧.state result
            ≡ record { contents = W.contents writer; calls = 0; failures = 0 } }
    {
        let tally = Tally::default();
        SystemOutput { writer, tally }
    }
}

impl<W: Write + Drop> Output for SystemOutput<W> {
    ghost use Rattle.bd_io_device.specs.Output.{system_writer};

    ghost state = { system_writer W.contents };

    ghost calls_fit = { λ s. Prim.search rules };

    ghost failures_fit = { λ s. Prim.search rules };

    fn write(&mut self, bytes: &[u8]) -> Result<usize, DeviceFault> {
        self.tally.call();
        let Ok(n) = self.writer.write(bytes) else {
            return Err(self.tally.fail());
        };
        if n == 0 && !bytes.is_empty() {
            self.tally.fail();
        }
        Ok(n)
    }
}

/// The call of a `MemoryOutput` that fails, by its number, counted from 1, and how it fails.
#[derive(Debug, Clone, Copy, PartialEq, Eq)]
pub enum FailingWrite {
    /// It returns an error.
    Error(u64),
    /// It takes 0 bytes.
    Zero(u64),
}

/// A buffer in memory that is filled a few bytes at a time, with one call that may fail. It never grows.
#[derive(Drop)]
pub struct MemoryOutput<'a> {
    /// How many bytes a call takes at most, above 0.
    pub most: usize,
    /// The call that fails.
    pub failing: Option<FailingWrite>,
    buffer: &'a mut [u8],
    filled: usize,
    tally: Tally,
    ghost takes: { 0 < most },
    ghost inside: { filled ≤ length buffer.now },
}

impl<'a> MemoryOutput<'a> {
    ghost use Rattle.bd_io_device.specs.Output.{output_size};

    /// The device that fills `buffer` from its start, with at most `most` bytes in a call. A write takes 0 bytes if the
    /// buffer is full. The call that `failing` names takes none. Both counts are at 0.
    pub fn new(buffer: &'a mut [u8], most: usize, failing: Option<FailingWrite>) -> MemoryOutput<'a>
        requires { 0 < most }
        ensures state { ⟦<MemoryOutput<'a> as Output>⟧.state result ≡ record {
          contents = Some [];
          calls = 0;
          failures = 0;
        } }
        ensures buffer { output_size result ≡ length buffer.old }
        ensures most { result.most ≡ most }
        ensures failing { result.failing ≡ failing }
    {
        MemoryOutput {
            most,
            failing,
            buffer,
            filled: 0,
            tally: Tally::default(),
        }
    }

    /// The bytes that it contains.
    pub fn bytes(&self) -> &[u8]
        ensures { (⟦<MemoryOutput<'a> as Output>⟧.state self.now).contents ≡ Some result.now }
    {
        &self.buffer[..self.filled]
    }

    /// How many writes were made.
    pub fn calls(&self) -> u64
        ensures { result ≡ (⟦<MemoryOutput<'a> as Output>⟧.state self.now).calls }
    {
        self.tally.calls
    }

    /// How many writes failed. A write that took 0 bytes of some is a failure.
    pub fn failures(&self) -> u64
        ensures { result ≡ (⟦<MemoryOutput<'a> as Output>⟧.state self.now).failures }
    {
        self.tally.failures
    }
}

impl Output for MemoryOutput<'_> {
    ghost use Rattle.bd_io_device.specs.Output.{MemoryTakes, memory_writer};

    ghost state = { memory_writer };

    ghost write_takes = { MemoryTakes };

    ghost calls_fit = { λ s. Prim.search rules };

    ghost failures_fit = { λ s. Prim.search rules };

    fn write(&mut self, bytes: &[u8]) -> Result<usize, DeviceFault> {
        self.tally.call();
        if self.failing == Some(FailingWrite::Error(self.tally.calls)) {
            return Err(self.tally.fail());
        }
        let spare = self.buffer.len() - self.filled;
        let mut n = bytes.len().min(spare).min(self.most);
        if self.failing == Some(FailingWrite::Zero(self.tally.calls)) {
            n = 0;
        }
        if n == 0 && !bytes.is_empty() {
            self.tally.fail();
        }
        self.buffer[self.filled..self.filled + n].copy_from_slice(&bytes[..n]);
        self.filled += n;
        Ok(n)
    }
}

/// Writes all of `bytes`, in as few calls as the device allows.
///
/// No call is retried: an error ends it, and so does a call that takes 0 bytes. What the device took until then is a prefix
/// of `bytes`.
pub fn write_all<W: Output>(writer: &mut W, bytes: &[u8]) -> Result<(), DeviceFault>
    // What the device contains, if known, and its count of failures, which rises by one exactly if a write fails.
    ensures written { OnOk result (TakesText (over W.state writer.old writer.new) bytes.now) }
    ensures write_failed { OnErr result
        (WriteFailsWithin (over W.state writer.old writer.new) bytes.now) }

    // The writes, for any device: each of all the remaining bytes, and none after a failure.
    ensures writes { OnOk result (AreWrites W.write_takes bytes.now writer.old [] writer.new) }
    ensures stopped { OnErr result ((rest : List ℕ)
        × (last : W) × AreWrites W.write_takes bytes.now writer.old rest last × (rest ≢ [])
        × (W.write_takes last rest None writer.new ⊎ W.write_takes last rest (Some 0) writer.new)) }
{
    let mut rest = bytes;
    while !rest.is_empty() {
        let n = writer.write(rest)?;
        if n == 0 {
            return Err(DeviceFault);
        }
        rest = &rest[n..];
    }
    Ok(())
}
