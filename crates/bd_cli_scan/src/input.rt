//! An input that is read completely, how much of an input is read, and why it is not read to its end.

ghost use Rattle.std.specs.Prelude.{MatchResult, Ok, Err};
ghost use Rattle.bd_io_device.specs.Devices.{over};
ghost use Rattle.bd_cli_scan.specs.Input.{ReadsInput, ReadsNoFurther};

use bd_bson_check::Fault;
use bd_io_device::{Input, Limits, ReadFault, read_all};
use bd_value::{LONGEST_INPUT, MOST_READS};
use std::alloc::Global;

/// An input has at most 4,294,967,295 bytes, and takes at most 4,294,967,296 reads: one per byte, and the one that finds the end.
pub const LIMITS: Limits = Limits {
    bytes: LONGEST_INPUT,
    turns: MOST_READS,
};

/// Why an input is not read to its end as documents.
#[derive(Debug, Drop)]
pub enum InputFault {
    /// The bytes were not read, or memory ran out.
    Unread(ReadFault),
    /// A document has this fault.
    Faulty(Fault),
}

/// All bytes of an input, at most 4,294,967,295.
///
/// # Errors
///
/// `Device` after a failed read, and no read is made after it; `TooLong` if there is one more byte, with no read if that is known before;
/// `NoMemory`.
///
/// It is not inlined: it takes 16 KiB of the stack, which its caller does not need for long.
#[inline(never)]
pub fn read_input<R: Input>(alloc: Global, input: &mut R) -> Result<Vec<u8>, ReadFault>
    ensures input { MatchResult result (λ bytes.
        ReadsInput (over R.state input.old input.new) (Ok bytes.items)) (λ fault.
        ReadsInput (over R.state input.old input.new) (Err fault)) }
    ensures stops_reading { ReadsNoFurther R.read_gives input.old input.new }
{
    if matches!(input.least_bytes(), Some(n) if LIMITS.bytes < n) {
        return Err(ReadFault::TooLong);
    }
    read_all(alloc, input, LIMITS)
}
