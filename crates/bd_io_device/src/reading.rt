//! The bytes of a device: all of them, or as many as a buffer takes.
ghost use Rattle.std.specs.Prelude.{◌≡◌, ℕ, List, [], Some, None, IfOk, IfSome, IsErrOf, OnErr, OnOk, length, vec_len, ◌+◌, ◌<◌, ◌≤◌, ◌++◌, take, IfErr, ◌-◌};
ghost use Rattle.std.specs.Io.KnownBytes.{IsAtEnd, Consumes};
ghost use Rattle.bd_io_device.specs.Devices.{AreReads, FailsToFill, FillsBuffer, after_more, over, read_words};

use crate::input::Input;
use std::alloc::Global;
use std::error::Error;
use std::fmt::{self, Display, Formatter, Write};

/// How much may be read from a device.
#[derive(Debug, Clone, Copy, PartialEq, Eq)]
pub struct Limits {
    /// How many bytes it may give.
    pub bytes: u64,
    /// How many reads may be made, the one that finds the end included.
    pub turns: u64,
}

/// Why a device was not read to its end.
#[derive(Debug, Clone, Copy, Drop, PartialEq, Eq)]
pub enum ReadFault {
    /// A read failed.
    Device = 1,
    /// The device gave more bytes than the limit.
    TooLong = 2,
    /// The limit of reads was reached before the end was found.
    TooManyTurns = 3,
    /// Memory ran out.
    NoMemory = 4,
}

impl Error for ReadFault {}

impl Display for ReadFault {
    /// Writes the message.
    fn fmt<W: Write>(&self, out: &mut Formatter<W>) -> fmt::Result {
        out.write_str(self.words())
    }
}

const CANNOT_READ: &str = "cannot read";

const INPUT_TOO_LONG: &str = "input too long";

const TOO_MANY_READS: &str = "too many reads";

const NO_MEMORY: &str = "no memory";

impl ReadFault {
    /// The message of the fault.
    pub fn words(self) -> &'static str
        ensures { result.now ≡ read_words self }
    {
        match self {
            ReadFault::Device => CANNOT_READ,
            ReadFault::TooLong => INPUT_TOO_LONG,
            ReadFault::TooManyTurns => TOO_MANY_READS,
            ReadFault::NoMemory => NO_MEMORY,
        }
    }
}

/// Reads all bytes of a device, to its end. A turn is one read, and no read is retried.
///
/// On an error the bytes taken are a prefix of the device's bytes. `Device`: a read failed. `TooLong`: the reads gave more
/// bytes than `limits.bytes`. `TooManyTurns`: `limits.turns` reads each gave at least one byte, so another is needed.
/// `NoMemory`: memory ran out for bytes that were read, and another read was allowed.
pub fn read_all<R: Input>(
    alloc: Global,
    reader: &mut R,
    limits: Limits,
) -> Result<Vec<u8>, ReadFault>
    // All bytes, if the device's are known; for any device those that the reads gave.
    ensures bytes { IfOk result (λ v. IfSome (R.state reader.old).remaining (λ xs. v.items ≡ xs)) }
    ensures end { OnOk result (IsAtEnd (R.state reader.new).remaining) }
    ensures whole { IfOk result (λ v. (n : ℕ)
        × (last : R) × (n < limits.turns) × AreReads R.read_gives n reader.old v.items last
        × R.read_gives last (Some []) reader.new) }
    ensures short { IfOk result (λ v. vec_len v ≤ limits.bytes) }
    ensures prefix { OnErr result ((given : List ℕ)
        × Consumes (R.state reader.old).remaining (R.state reader.new).remaining given) }
    ensures turns { (R.state reader.new).calls
        ≤ after_more (R.state reader.old).calls limits.turns }

    // The last read exceeded the limit of bytes.
    ensures too_long { IsErrOf result ReadFault.TooLong →
        (n : ℕ) × (given : List ℕ) × (part : List ℕ) × (last : R) × (n < limits.turns)
        × (length given ≤ limits.bytes) × (limits.bytes < length given + length part)
        × AreReads R.read_gives n reader.old given last × R.read_gives last (Some part) reader.new }
    ensures too_long_known { IsErrOf result ReadFault.TooLong →
        IfSome (R.state reader.old).remaining (λ xs. limits.bytes < length xs) }

    // All allowed reads were made, and each gave at least one byte.
    ensures too_many { IsErrOf result ReadFault.TooManyTurns →
        (given : List ℕ) × (length given ≤ limits.bytes)
        × AreReads R.read_gives limits.turns reader.old given reader.new
        × Consumes (R.state reader.old).remaining (R.state reader.new).remaining given }
    ensures too_many_calls { IsErrOf result ReadFault.TooManyTurns →
        (R.state reader.new).calls ≡ after_more (R.state reader.old).calls limits.turns }

    // Only the last read failed; exactly then the count of failures rises.
    ensures device { IsErrOf result ReadFault.Device →
        (n : ℕ) × (given : List ℕ) × (last : R) × (n < limits.turns) × (length given ≤ limits.bytes)
        × AreReads R.read_gives n reader.old given last × R.read_gives last None reader.new }
    ensures failed { IsErrOf result ReadFault.Device →
        (R.state reader.new).failures ≡ after_more (R.state reader.old).failures 1 }
    ensures no_failure { ¬ (IsErrOf result ReadFault.Device) →
        (R.state reader.new).failures ≡ (R.state reader.old).failures }

    // Memory ran out for bytes that a read gave, and another read was allowed.
    ensures memory { IsErrOf result ReadFault.NoMemory →
        (n : ℕ) × (given : List ℕ) × (0 < n) × (n < limits.turns)
        × (length given ≤ limits.bytes) × AreReads R.read_gives n reader.old given reader.new
        × Consumes (R.state reader.old).remaining (R.state reader.new).remaining given }
{
    let mut buffer = [0u8; 16384];
    let mut bytes = Vec::new(alloc);
    for turn in 0..limits.turns {
        let Ok(n) = reader.read(&mut buffer) else {
            return Err(ReadFault::Device);
        };
        if n == 0 {
            return Ok(bytes);
        }
        if limits.bytes - (bytes.len() as u64) < n as u64 {
            return Err(ReadFault::TooLong);
        }
        if turn + 1 == limits.turns {
            return Err(ReadFault::TooManyTurns);
        }
        if bytes.extend_from_slice(&buffer[..n]).is_err() {
            return Err(ReadFault::NoMemory);
        }
    }
    Err(ReadFault::TooManyTurns)
}

/// The result of filling a buffer.
#[derive(Clone, Copy)]
pub struct FillCounts {
    /// How many bytes were read: the whole buffer, unless the device is at its end.
    pub bytes: usize,
    /// How many reads were made.
    pub turns: u64,
}

/// Reads until the buffer is full or the device is at its end, within the limits. No read is retried.
#[inline(always)]
pub fn fill<R: Input>(
    reader: &mut R,
    buffer: &mut [u8],
    limits: Limits,
) -> Result<FillCounts, ReadFault>
    ensures fits { IfOk result (λ f. f.bytes ≤ length buffer.old) }
    ensures bytes { IfOk result (λ f. Consumes
        (R.state reader.old).remaining (R.state reader.new).remaining (take f.bytes buffer.new)) }
    ensures end { IfOk result (λ f. f.bytes < length buffer.old →
        IsAtEnd (R.state reader.new).remaining) }
    ensures within { IfOk result (λ f. (f.bytes ≤ limits.bytes) × (f.turns ≤ limits.turns)) }
    ensures called { IfOk result (λ f.
        (R.state reader.new).calls ≡ after_more (R.state reader.old).calls f.turns) }
    ensures turns { (R.state reader.new).calls
        ≤ after_more (R.state reader.old).calls limits.turns }
    // The reads, for any device. If too many would be needed, all allowed ones were made, and each gave at least one byte.
    ensures reads { IfOk result (λ f. FillsBuffer R.read_gives
        (length buffer.old) f.turns reader.old (take f.bytes buffer.new) reader.new) }
    ensures unfilled { IfErr result
        (FailsToFill R.read_gives R.state limits (length buffer.old) reader.old reader.new) }
    ensures too_many_calls { IsErrOf result ReadFault.TooManyTurns →
        (R.state reader.new).calls ≡ after_more (R.state reader.old).calls limits.turns }
    // Only the last read failed; exactly then the count of failures rises.
    ensures failed { IsErrOf result ReadFault.Device →
        (R.state reader.new).failures ≡ after_more (R.state reader.old).failures 1 }
    ensures no_failure { ¬ (IsErrOf result ReadFault.Device) →
        (R.state reader.new).failures ≡ (R.state reader.old).failures }
{
    let size = buffer.len();
    if 0 < limits.turns && size as u64 <= limits.bytes && reader.read_buffered(buffer) {
        return Ok(FillCounts {
            bytes: size,
            turns: 1,
        });
    }
    let mut bytes = 0;
    let mut turns = 0;
    while bytes < buffer.len() {
        if turns == limits.turns {
            return Err(ReadFault::TooManyTurns);
        }
        let Ok(n) = reader.read(&mut buffer[bytes..]) else {
            return Err(ReadFault::Device);
        };
        turns += 1;
        if n == 0 {
            return Ok(FillCounts { bytes, turns });
        }
        if limits.bytes - (bytes as u64) < n as u64 {
            return Err(ReadFault::TooLong);
        }
        bytes += n;
    }
    Ok(FillCounts { bytes, turns })
}

/// Puts four bytes at the start of a buffer, and fills it after them up to `size`, which is at least 4 and at most the
/// buffer's length.
pub fn fill_after<R: Input>(
    reader: &mut R,
    buffer: &mut [u8],
    head: [u8; 4],
    size: usize,
    limits: Limits,
) -> Result<FillCounts, ReadFault>
    requires { (4 ≤ size) × (size ≤ length buffer.old) }
    ensures fits { IfOk result (λ f. f.bytes + 4 ≤ size) }
    ensures gives { IfOk result (λ f. (given : List ℕ)
        × Consumes (R.state reader.old).remaining (R.state reader.new).remaining given
        × (length given ≡ f.bytes) × (take (4 + f.bytes) buffer.new ≡ head ++ given)
        × FillsBuffer R.read_gives (size - 4) f.turns reader.old given reader.new) }
    ensures end { IfOk result (λ f. f.bytes + 4 < size → IsAtEnd (R.state reader.new).remaining) }
    ensures within { IfOk result (λ f. (f.bytes ≤ limits.bytes) × (f.turns ≤ limits.turns)) }
    ensures called { IfOk result (λ f.
        (R.state reader.new).calls ≡ after_more (R.state reader.old).calls f.turns) }
    ensures turns { (R.state reader.new).calls
        ≤ after_more (R.state reader.old).calls limits.turns }
    ensures unfilled { IfErr result
        (FailsToFill R.read_gives R.state limits (size - 4) reader.old reader.new) }
    ensures too_many_calls { IsErrOf result ReadFault.TooManyTurns →
        (R.state reader.new).calls ≡ after_more (R.state reader.old).calls limits.turns }
    ensures failed { IsErrOf result ReadFault.Device →
        (R.state reader.new).failures ≡ after_more (R.state reader.old).failures 1 }
    ensures no_failure { ¬ (IsErrOf result ReadFault.Device) →
        (R.state reader.new).failures ≡ (R.state reader.old).failures }
{
    buffer[..4].copy_from_slice(&head);
    fill(reader, &mut buffer[4..size], limits)
}
