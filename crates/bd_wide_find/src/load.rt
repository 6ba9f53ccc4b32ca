//! A dump of all types that is read into memory.

ghost use Rattle.std.specs.Prelude.{IfErr, IfOk};
ghost use Rattle.bd_io_device.specs.Devices.{over};
ghost use Rattle.bd_cli_scan.specs.Input.{ReadsNoFurther};
ghost use Rattle.bd_wide_find.specs.Load.{FailsToLoadWide, LoadsWide};

use bd_cli_scan::output::is_want_of_memory;
use bd_cli_scan::{InputFault, read_input};
use bd_io_device::{Input, ReadFault};
use bd_wide_copy::{WideDump, read_wide_dump};
use std::alloc::Global;

/// Reads the whole input, which must be a dump of all types of at most 4,294,967,295 bytes.
///
/// # Errors
///
/// - `Unread`: the input was not read completely, and no read is made after a failed one; or memory for the dump ran out.
/// - `Faulty`: the first fault of the first document that has one.
pub fn load_wide<R: Input>(alloc: Global, input: &mut R) -> Result<WideDump, InputFault>
    ensures loaded { IfOk result (LoadsWide (over R.state input.old input.new)) }
    ensures fault { IfErr result (FailsToLoadWide (over R.state input.old input.new)) }
    ensures stops_reading { ReadsNoFurther R.read_gives input.old input.new }
{
    let bytes = match read_input(alloc, input) {
        Ok(bytes) => bytes,
        Err(fault) => return Err(InputFault::Unread(fault)),
    };
    match read_wide_dump(alloc, bytes) {
        Ok(dump) => Ok(dump),
        Err(fault) => {
            if is_want_of_memory(&fault) {
                return Err(InputFault::Unread(ReadFault::NoMemory));
            }
            Err(InputFault::Faulty(fault))
        }
    }
}
