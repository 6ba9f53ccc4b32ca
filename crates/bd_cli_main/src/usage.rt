//! The output for arguments that are not a command, and for a request for the version. It takes no memory.

ghost use Rattle.std.specs.Prelude.{◌≡◌};
ghost use Rattle.bd_io_device.specs.Devices.{over};
ghost use Rattle.bd_cli_scan.specs.Run.{Prints, run_of};
ghost use Rattle.bd_cli_main.specs.Usage.{WriterFails, report_output, text_output};

use bd_cli_args::WordsFault;
use bd_cli_scan::Status;
use bd_cli_scan::output::{report_no_memory, report_unwritten, status_of};
use bd_io_device::{Output, write_all};

/// Reports why arguments are not a command, and returns the exit status.
///
/// A request for help prints the usage on `out`, with status 0; invalid arguments print it on `err`, with status 2; out of
/// memory is reported on `err`, with status 1. A device that fails makes the status 1.
pub fn report<O: Output, E: Output>(
    program: &str,
    usage: &str,
    fault: &WordsFault,
    out: &mut O,
    err: &mut E,
) -> Status
    ensures output { Prints program.now (run_of (report_output usage.now fault.now))
        (over O.state out.old out.new) (over E.state err.old err.new) result }
    ensures failed { WriterFails (over O.state out.old out.new) (over E.state err.old err.new) →
        result ≡ Status.Failed }
{
    match fault {
        WordsFault::Help => print_text(program, usage, out, err),
        WordsFault::Usage => status_of(write_all(err, usage.as_bytes()), Status::Usage),
        WordsFault::NoMemory => report_no_memory(program, err),
    }
}

/// Prints a text on `out`, and returns the exit status: 0, or 1 if a write fails.
pub fn print_text<O: Output, E: Output>(
    program: &str,
    text: &str,
    out: &mut O,
    err: &mut E,
) -> Status
    ensures output { Prints program.now (run_of (text_output text.now))
        (over O.state out.old out.new) (over E.state err.old err.new) result }
    ensures failed { WriterFails (over O.state out.old out.new) (over E.state err.old err.new) →
        result ≡ Status.Failed }
{
    match write_all(out, text.as_bytes()) {
        Ok(()) => Status::Done,
        Err(_) => report_unwritten(program, err),
    }
}
