//! `serve`: a reply to each command, over the documents of a file.

ghost use Rattle.bd_io_device.specs.Devices.{over};
ghost use Rattle.bd_bson_dump.specs.Collection.{bytes_of, documents};
ghost use Rattle.bd_cli_scan.specs.{Input.ReadsNoFurther, Run.Prints};
ghost use Rattle.bd_cli.specs.Serve.{serve_run, session_run, talk_run};

use bd_bson_dump::Dump;
use bd_cli_files::load::{load, report_load_fault};
use bd_cli_scan::output::{report_no_memory, report_read_fault, report_unwritten};
use bd_cli_scan::{LIMITS, Status};
use bd_cli_service::Service;
use bd_io_device::{Input, Output};
use bd_io_lines::{Replier, ServeFault};
use std::alloc::Global;

/// Reads the whole input, and writes the reply to each command, before a later read of the commands. No command is read if the
/// input is not a dump.
///
/// It is not inlined, so that the other commands do not need its stack.
#[inline(never)]
pub(crate) fn serve<F: Input, C: Input, O: Output, E: Output>(
    alloc: Global,
    program: &str,
    file: &mut F,
    commands: &mut C,
    out: &mut O,
    err: &mut E,
) -> Status
    ensures serves { Prints program.now (serve_run C.state C.read_gives commands.old commands.new
        (over F.state file.old file.new)) (over O.state out.old out.new)
        (over E.state err.old err.new) result }
    ensures stops_reading { ReadsNoFurther F.read_gives file.old file.new }
{
    match load(alloc, file) {
        Ok(dump) => serve_dump(alloc, program, dump, commands, out, err),
        Err(fault) => report_load_fault(alloc, program, &fault, err),
    }
}

/// Writes the reply to each command over the documents of a dump, before a later read of the commands.
pub fn serve_dump<C: Input, O: Output, E: Output>(
    alloc: Global,
    program: &str,
    dump: Dump,
    commands: &mut C,
    out: &mut O,
    err: &mut E,
) -> Status
    ensures { Prints program.now (talk_run C.state C.read_gives commands.old commands.new
        (bytes_of dump) (documents dump)) (over O.state out.old out.new)
        (over E.state err.old err.new) result }
{
    let mut service = Service::new(alloc, dump);
    reply_to_commands(alloc, program, &mut service, commands, out, err)
}

/// Writes what a session replies to each command, before a later read of the commands, and reports what ended it early.
pub fn reply_to_commands<S: Replier, C: Input, O: Output, E: Output>(
    alloc: Global,
    program: &str,
    session: &mut S,
    commands: &mut C,
    out: &mut O,
    err: &mut E,
) -> Status
    ensures { Prints program.now (session_run C.state C.read_gives commands.old commands.new
        S.replies session.old S.stays) (over O.state out.old out.new)
        (over E.state err.old err.new) result }
{
    match bd_io_lines::reply_to_lines(alloc, LIMITS, commands, session, out) {
        Ok(()) => Status::Done,
        Err(ServeFault::Unread(fault)) => report_read_fault(program, fault, err),
        Err(ServeFault::NoMemory) => report_no_memory(program, err),
        Err(ServeFault::Unwritten) => report_unwritten(program, err),
    }
}
