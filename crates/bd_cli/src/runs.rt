//! Runs of a command over devices, and the output for arguments that are not a command.

ghost use Rattle.std.specs.Prelude.{◌≡◌, codes};
ghost use Rattle.bd_io_device.specs.{Devices.over};
ghost use Rattle.bd_cli_scan.specs.{Input.ReadsNoFurther, Run.Prints, Run.run_of};
ghost use Rattle.bd_cli_main.specs.Usage.{WriterFails, report_output};
ghost use Rattle.bd_cli.specs.Runs.{DeviceFails, ReadsNoCommands, ReadsNoFile, order_run, usage};

use crate::serve::serve;
use bd_cli_args::{Order, USAGE, WordsFault};
use bd_cli_files::pack::pack;
use bd_cli_find::find::find;
use bd_cli_scan::Status;
use bd_cli_scan::check::check;
use bd_cli_scan::dump::dump;
use bd_io_device::{Input, Output};
use std::alloc::Global;

/// The name of the program, before each message.
pub const PROGRAM: &str = "bsonfind";

/// Runs a command, and returns the exit status: 0 if all was done, 1 after a fault of the input, of a query, a sort,
/// the path of an index or a token, or of a device, or if memory runs out.
///
/// The file that the command names is read from `file`, the commands of a session from `commands`, the results go to
/// `out`, and messages to `err`. A device that fails is not tried again.
pub fn run<F: Input, C: Input, O: Output, E: Output>(
    alloc: Global,
    order: &Order,
    file: &mut F,
    commands: &mut C,
    out: &mut O,
    err: &mut E,
) -> Status
    ensures ran { Prints (codes "bsonfind")
        (order_run C.state C.read_gives commands.old commands.new
        order.now (over F.state file.old file.new)) (over O.state out.old out.new)
        (over E.state err.old err.new) result }
    // After a failed read, or at the end, the file is read no more.
    ensures stops_reading { ReadsNoFurther F.read_gives file.old file.new }
    // An input that is not needed is not read.
    ensures file { ReadsNoFile order.now → file.new ≡ file.old }
    ensures commands { ReadsNoCommands order.now → commands.new ≡ commands.old }
    // A failed device sets the status.
    ensures failed { DeviceFails
        (over F.state file.old file.new) (over C.state commands.old commands.new)
        (over O.state out.old out.new) (over E.state err.old err.new) → result ≡ Status.Failed }
{
    match order {
        Order::Dump { .. } => dump(alloc, PROGRAM, file, out, err),
        Order::Check { .. } => check(alloc, PROGRAM, file, out, err),
        Order::Pack { .. } => pack(alloc, PROGRAM, file, out, err),
        Order::Find { options, .. } => find(alloc, PROGRAM, options, file, out, err),
        Order::Serve { .. } => serve(alloc, PROGRAM, file, commands, out, err),
    }
}

/// Reports why arguments are not a command, and returns the exit status. It takes no memory.
///
/// A request for help prints the usage on `out`, with status 0; invalid arguments print it on `err`, with
/// status 2; out of memory is reported on `err`, with status 1. A device that fails makes the status 1.
pub fn report<O: Output, E: Output>(fault: &WordsFault, out: &mut O, err: &mut E) -> Status
    ensures output { Prints (codes "bsonfind") (run_of (report_output usage fault.now))
        (over O.state out.old out.new) (over E.state err.old err.new) result }
    ensures failed { WriterFails (over O.state out.old out.new) (over E.state err.old err.new) →
        result ≡ Status.Failed }
{
    bd_cli_main::report(PROGRAM, USAGE, fault, out, err)
}
