//! The next line of a device, in a buffer that all lines share.

ghost use Rattle.std.specs.Prelude.{◌≡◌, ◌++◌, ◌∷◌, [], None, true, IfSome, drop, length, take, ◌+◌, ◌<◌, ◌≤◌};
ghost use Rattle.bd_value.specs.Limits.{longest_command};
ghost use Rattle.bd_io_lines.specs.Lines.{IsLine};

use bd_io_device::{Input, Limits, ReadFault};
use bd_value::LONGEST_COMMAND;
use memchr::memchr;
use std::alloc::Global;
use std::marker::Model;

/// How many bytes a read gives at most.
const BLOCK: usize = 16_384;

/// One line of a device, and the bytes that the device gave after it, which are fewer than those of one read.
#[derive(Drop)]
pub struct LineBuffer {
    /// How much may still be read from the device.
    remaining: Limits,
    line: Vec<u8>,
    /// The bytes of the last read.
    block: Vec<u8>,
    /// The offset in them at which the next line begins.
    start: usize,
    /// The end of the device was found.
    ended: bool,
    /// The fault of an earlier call.
    failed: Option<ReadFault>,
}

/// A contract sees the line, the bytes after it, how many bytes the last read gave, and what may still be read.
impl Model for LineBuffer {
    ghost use Rattle.std.specs.Prelude.{◌≡◌, ◌≤◌, [], drop, length, true};
    ghost use Rattle.bd_value.specs.Limits.{longest_command};
    ghost use Rattle.bd_io_lines.specs.LineBuffer.{Buffered};

    ghost Value = { Buffered };

    ghost view = { λ s. record {
      remaining = s.remaining;
      line = s.line.items;
      rest = drop s.start s.block.items;
      block = length s.block.items;
      ended = s.ended;
      failed = s.failed;
    } };

    ghost invariant = { λ s. (s.start ≤ length s.block.items)
        × (length s.line.items ≤ longest_command) × (length s.block.items ≤ 16384)
        × (s.ended ≡ true → drop s.start s.block.items ≡ []) };
}

impl LineBuffer {
    ghost use Rattle.std.specs.Prelude.{Ok, Err, false, Some, IfErr, List, OnErr, OnOk, ℕ};
    ghost use Rattle.bd_io_lines.specs.LineBuffer.{FailsToReadLine, FindsNoLine, GivesBytes, ReadsLine};
    ghost use Rattle.bd_io_lines.specs.inside.LineBuffer.{StopsLine};

    /// No line yet. It takes no memory.
    pub fn new(alloc: Global, limits: Limits) -> LineBuffer
        ensures empty { (result.remaining ≡ limits)
            × (result.line ≡ []) × (result.rest ≡ []) × (result.block ≡ 0) }
        ensures starts { (result.ended ≡ false) × (result.failed ≡ None) }
    {
        LineBuffer {
            remaining: limits,
            line: Vec::new(alloc),
            block: Vec::new(alloc),
            start: 0,
            ended: false,
            failed: None,
        }
    }

    /// The line that was read last, without its newline; empty before the first, at the end and after a fault.
    pub fn line(&self) -> &[u8]
        ensures { (result.now ≡ self.now.line) × (length result.now ≤ longest_command) }
    {
        &self.line
    }

    /// How many bytes are buffered: those of a line and those of a read, at most 16,842,752.
    pub fn buffered(&self) -> usize
        ensures { (result ≡ length self.now.line + self.now.block)
            × (result ≤ 16842752) }
    {
        self.line.len() + self.block.len()
    }

    /// Reads the next line of a device into the buffer; false at the end.
    ///
    /// A line is the bytes before a newline. The last line needs no newline if it is not empty. The device is read only if no
    /// whole line is buffered, and never after its end was found. Pass the same device to all calls.
    ///
    /// # Errors
    /// - `Device`: a read failed before the line was whole;
    /// - `TooLong`: the line is longer than 16,777,216 bytes, or the device gave more than the limit of bytes;
    /// - `TooManyTurns`: another read is needed, and the limit of reads is reached;
    /// - `NoMemory`: memory ran out for a line that is not too long; it is whole, or another read is allowed.
    ///
    /// After an error, each call returns the same error, and reads nothing.
    pub fn read_next<R: Input>(&mut self, reader: &mut R) -> Result<bool, ReadFault>
        ensures reads { result ≡ Ok true →
            ReadsLine R.state R.read_gives self.old self.new reader.old reader.new }
        ensures end { result ≡ Ok false →
            FindsNoLine R.state R.read_gives self.old self.new reader.old reader.new }
        ensures fails { self.old.failed ≡ None →
            IfErr result (FailsToReadLine R.state R.read_gives self.old.remaining
            self.old.rest reader.old reader.new) }
        // After the end no read is made.
        ensures no_read { self.old.ended ≡ true →
            (reader.new ≡ reader.old) × (self.new.remaining ≡ self.old.remaining) }
        ensures ends { self.old.ended ≡ true → self.old.failed ≡ None → result ≡ Ok false }
        // After an error, each call returns it again, and reads nothing.
        ensures again { IfSome self.old.failed (λ f. (result ≡ Err f) × (reader.new ≡ reader.old)) }
        ensures failed { IfErr result (λ f. (self.new.failed ≡ Some f)
            × (self.new.line ≡ [])) }
        ensures not_failed { OnOk result (self.new.failed ≡ None) }
    {
        self.line.clear();
        if let Some(fault) = self.failed {
            return Err(fault);
        }
        let result = self.advance(reader);
        if let Err(fault) = result {
            self.failed = Some(fault);
            self.line.clear();
        }
        result
    }

    /// Reads the next line into the buffer, which is empty; false at the end.
    fn advance<R: Input>(&mut self, reader: &mut R) -> Result<bool, ReadFault>
        requires empty { self.old.line ≡ [] }
        ensures reads { result ≡ Ok true →
            ReadsLine R.state R.read_gives self.old self.new reader.old reader.new }
        ensures end { result ≡ Ok false →
            FindsNoLine R.state R.read_gives self.old self.new reader.old reader.new }
        ensures fails { IfErr result (FailsToReadLine R.state R.read_gives self.old.remaining
            self.old.rest reader.old reader.new) }
        ensures no_read { self.old.ended ≡ true →
            (reader.new ≡ reader.old) × (self.new.remaining ≡ self.old.remaining) }
        ensures ends { self.old.ended ≡ true → result ≡ Ok false }
        ensures state { self.new.failed ≡ self.old.failed }
    {
        while !self.ended {
            if self.take_part()? {
                return Ok(true);
            }
            self.fetch(reader)?;
        }
        Ok(!self.line.is_empty())
    }

    /// Appends to the line what is buffered after it, up to a newline; false if there is no newline.
    fn take_part(&mut self) -> Result<bool, ReadFault>
        ensures found { result ≡ Ok true →
            (part : List ℕ) × IsLine part × (self.new.line ≡ self.old.line ++ part)
            × (self.old.rest ≡ part ++ 10 ∷ self.new.rest) }
        ensures none { result ≡ Ok false →
            IsLine self.old.rest × (self.new.line ≡ self.old.line ++ self.old.rest)
            × (self.new.rest ≡ []) }
        ensures unchanged { (self.new.remaining ≡ self.old.remaining)
            × (self.new.ended ≡ self.old.ended) × (self.new.failed ≡ self.old.failed) }
        ensures stops { IfErr result
            (StopsLine self.old.line self.old.rest self.old.remaining.turns) }
        ensures short { length self.new.line ≤ longest_command }
        ensures allowed { result ≡ Ok false → 0 < self.old.remaining.turns }
    {
        let rest = &self.block[self.start..];
        match find_newline(rest) {
            Some(end) => {
                if LONGEST_COMMAND - self.line.len() < end {
                    return Err(ReadFault::TooLong);
                }
                if self.line.extend_from_slice(&rest[..end]).is_err() {
                    return Err(ReadFault::NoMemory);
                }
                self.start += end + 1;
                Ok(true)
            }
            None => {
                if LONGEST_COMMAND - self.line.len() < rest.len() {
                    return Err(ReadFault::TooLong);
                }
                if self.remaining.turns == 0 {
                    return Err(ReadFault::TooManyTurns);
                }
                if self.line.extend_from_slice(rest).is_err() {
                    return Err(ReadFault::NoMemory);
                }
                self.start = self.block.len();
                Ok(false)
            }
        }
    }

    /// Reads once, if a part of a line is buffered and nothing after it.
    #[tactic(auto, using(crate::proofs::LineBufferLemmas::fails_device))]
    fn fetch<R: Input>(&mut self, reader: &mut R) -> Result<(), ReadFault>
        requires drained { self.old.rest ≡ [] }
        requires part { IsLine self.old.line }
        requires allowed { 0 < self.old.remaining.turns }
        ensures gives { OnOk result (GivesBytes R.state R.read_gives self.old.remaining
            self.new.remaining self.new.ended self.new.rest reader.old reader.new) }
        ensures one { OnOk result
            (R.read_gives reader.old (Some self.new.rest) reader.new) }
        ensures turned { OnOk result (self.new.remaining.turns < self.old.remaining.turns) }
        ensures fails { IfErr result (FailsToReadLine
            R.state R.read_gives self.old.remaining self.old.line reader.old reader.new) }
        ensures unchanged { (self.new.line ≡ self.old.line) × (self.new.failed ≡ self.old.failed) }
    {
        self.block.clear();
        self.start = 0;
        if self.block.reserve(BLOCK).is_err() {
            return Err(ReadFault::NoMemory);
        }
        let mut capacity = [0u8; BLOCK];
        let Ok(n) = reader.read(&mut capacity) else {
            return Err(ReadFault::Device);
        };
        if self.remaining.bytes < n as u64 {
            return Err(ReadFault::TooLong);
        }
        // They fit.
        let _ = self.block.extend_from_slice(&capacity[..n]);
        self.remaining.turns -= 1;
        self.remaining.bytes -= n as u64;
        self.ended = n == 0;
        Ok(())
    }
}

/// The offset of the first newline (byte 0x0A).
pub fn find_newline(bytes: &[u8]) -> Option<usize>
    ensures found { IfSome result (λ k. (k < length bytes.now) × IsLine (take k bytes.now)
        × (bytes.now ≡ take k bytes.now ++ 10 ∷ drop (k + 1) bytes.now)) }
    ensures none { result ≡ None → IsLine bytes.now }
{
    memchr(b'\n', bytes)
}
