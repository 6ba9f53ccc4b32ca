//! A dump that is read into memory, for `find` and `serve`.

ghost use Rattle.std.specs.Prelude.{◌<◌, ℕ, IfErr, IfOk, slice_index};
ghost use Rattle.bd_io_device.specs.Devices.{over};
ghost use Rattle.bd_bson_dump.specs.Collection.{bytes_of, documents};
ghost use Rattle.bd_cli_scan.specs.Input.{ReadsNoFurther};
ghost use Rattle.bd_cli_files.specs.Load.{FailsToLoad, LoadsDump, ReportsLoadFault};

use bd_bson_dump::{Dump, read_dump};
use bd_cli_scan::output::{is_want_of_memory, message_of, report_error, report_no_memory};
use bd_cli_scan::{InputFault, Status, read_input};
use bd_io_device::{Input, Output, ReadFault};
use std::alloc::Global;

/// Reads the whole input, which must be a dump of at most 4,294,967,295 bytes.
///
/// # Errors
///
/// - `Unread`: the input was not read completely, and no read is made after a failed one; or memory for the dump ran out.
/// - `Faulty`: the first fault of the first document that has one.
pub fn load<R: Input>(alloc: Global, input: &mut R) -> Result<Dump, InputFault>
    ensures loaded { IfOk result (λ dump. LoadsDump
        (over R.state input.old input.new) (bytes_of dump) (documents dump)) }
    ensures fault { IfErr result (FailsToLoad (over R.state input.old input.new)) }
    ensures stops_reading { ReadsNoFurther R.read_gives input.old input.new }
{
    let bytes = match read_input(alloc, input) {
        Ok(bytes) => bytes,
        Err(fault) => return Err(InputFault::Unread(fault)),
    };
    are_bytes(&bytes);
    match read_dump(alloc, bytes) {
        Ok(dump) => Ok(dump),
        Err(fault) => {
            if is_want_of_memory(&fault) {
                return Err(InputFault::Unread(ReadFault::NoMemory));
            }
            Err(InputFault::Faulty(fault))
        }
    }
}

/// Each byte is below 256. It does nothing.
fn are_bytes(bytes: &[u8])
    ensures { (i : ℕ) → slice_index bytes.now i < 256 }
{}

/// Reports why an input is no dump in memory.
pub fn report_load_fault<E: Output>(
    alloc: Global,
    program: &str,
    fault: &InputFault,
    err: &mut E,
) -> Status
    ensures { ReportsLoadFault program.now (over E.state err.old err.new) result fault.now }
{
    match message_of(fault, &mut String::new(alloc)) {
        Ok(message) => report_error(program, message, err),
        Err(_) => report_no_memory(program, err),
    }
}
