//! The text of a query in a file.

ghost use Rattle.std.specs.Prelude.{◌≡◌, IfErr, IfOk, OnOk};
ghost use Rattle.bd_io_device.specs.Devices.{over, read_words};
ghost use Rattle.bd_cli_scan.specs.{Output.error_line, Run.ReportsMessage};
ghost use Rattle.bd_cli_main.specs.Query.{FailsToReadQuery, ReadsQuery};

use bd_cli_scan::Status;
use bd_cli_scan::output::report_read_fault;
use bd_io_device::{Input, Limits, Output, ReadFault, read_all};
use bd_value::LONGEST_COMMAND;
use std::alloc::Global;

/// A text has at most 16,777,216 bytes, and takes at most 16,777,217 reads: one per byte, and the one that finds the end.
const LIMITS: Limits = Limits {
    bytes: LONGEST_COMMAND as u64,
    turns: LONGEST_COMMAND as u64 + 1,
};

/// All bytes of a file, the text of a query; they may be no UTF-8.
///
/// # Errors
///
/// The exit status, after the fault was reported: a read failed, and none is made after it; the file has more than 16,777,216 bytes;
/// or memory ran out.
pub fn read_query<R: Input, E: Output>(
    alloc: Global,
    program: &str,
    file: &mut R,
    err: &mut E,
) -> Result<Vec<u8>, Status>
    ensures text { IfOk result (λ text.
        ReadsQuery R.state R.read_gives file.old file.new text.items) }
    ensures silent { OnOk result (err.new ≡ err.old) }
    ensures fault { IfErr result (λ status. (fault : ReadFault)
        × FailsToReadQuery R.state R.read_gives file.old file.new fault
        × ReportsMessage (over E.state err.old err.new)
        (error_line program.now (read_words fault)) Status.Failed status) }
{
    match read_all(alloc, file, LIMITS) {
        Ok(text) => Ok(text),
        Err(fault) => Err(report_read_fault(program, fault, err)),
    }
}
