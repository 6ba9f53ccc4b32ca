//! `serve` over documents of all types.

ghost use Rattle.std.specs.Prelude.{◌≡◌, IsTrue, List, Ok, false};
ghost use Rattle.bd_value.specs.Tree.{Doc};
ghost use Rattle.bd_bson_check.specs.Dump.{IsDump};
ghost use Rattle.bd_io_device.specs.Devices.{Over, Reader, over};
ghost use Rattle.bd_cli_scan.specs.{Input.ReadsInput, Input.ReadsNoFurther, Run.Prints};
ghost use Rattle.bd_wide_copy.specs.Dump.{AreDocuments, bytes_of};
ghost use Rattle.bd_wide_service.specs.Serve.{IsServedByValue, wide_serve_run};

use crate::plain::PlainService;
use crate::service::WideService;
use bd_bson_dump::read_dump;
use bd_cli::reply_to_commands;
use bd_cli_files::load::report_load_fault;
use bd_cli_scan::Status;
use bd_cli_scan::output::report_no_memory;
use bd_io_device::{Input, Output};
use bd_wide_copy::WideDump;
use bd_wide_find::load_wide;
use std::alloc::Global;

/// Reads the whole file, and writes the reply to each command, before a later read of the commands. No command is read if the file is
/// not a dump of documents of all types.
///
/// A dump without doubles and decimal128 is served as `bsonfind serve` does it, unless it is to be served `by_value`: then commands may
/// have doubles and decimal128 over any dump.
///
/// It takes the memory of the dump; if it is served by value, also that of a copy, and of each distinct number.
/// It is not inlined, so that the other commands do not need its stack.
#[inline(never)]
pub fn serve<F: Input, C: Input, O: Output, E: Output>(
    alloc: Global,
    program: &str,
    by_value: bool,
    file: &mut F,
    commands: &mut C,
    out: &mut O,
    err: &mut E,
) -> Status
    ensures serves { Prints program.now (wide_serve_run C.state C.read_gives commands.old
        commands.new by_value (over F.state file.old file.new)) (over O.state out.old out.new)
        (over E.state err.old err.new) result }
    ensures stops_reading { ReadsNoFurther F.read_gives file.old file.new }
{
    match load_wide(alloc, file) {
        Ok(dump) => serve_loaded(alloc, program, by_value, dump, commands, out, err),
        Err(fault) => report_load_fault(alloc, program, &fault, err),
    }
}

/// Serves the commands over a dump: by value if that is requested, or if a document has a double or a decimal128.
fn serve_loaded<C: Input, O: Output, E: Output>(
    alloc: Global,
    program: &str,
    by_value: bool,
    dump: WideDump,
    commands: &mut C,
    out: &mut O,
    err: &mut E,
) -> Status
    requires { AreDocuments (bytes_of dump) }
    ensures { (file : Over Reader) → ReadsInput file (Ok (bytes_of dump)) →
        Prints program.now
        (wide_serve_run C.state C.read_gives commands.old commands.new by_value file)
        (over O.state out.old out.new) (over E.state err.old err.new) result }
{
    if is_served_plainly(by_value, &dump) {
        return serve_plain(alloc, program, dump, commands, out, err);
    }
    match WideService::new(alloc, dump) {
        Ok(service) => {
            let mut service = service;
            reply_to_commands(alloc, program, &mut service, commands, out, err)
        }
        Err(_) => report_no_memory(program, err),
    }
}

/// Whether a dump is served as `bsonfind serve` does it: it has no double and no decimal128, and is not to be served by value.
fn is_served_plainly(by_value: bool, dump: &WideDump) -> bool
    ensures plain { IsTrue result → by_value ≡ false }
    ensures dump { IsTrue result → (ds : List Doc) × IsDump ds (bytes_of dump.now) }
    ensures by_value { result ≡ false → IsServedByValue by_value (bytes_of dump.now) }
{
    !by_value && dump.is_plain()
}

/// Serves the commands over a dump whose documents have no double and no decimal128.
fn serve_plain<C: Input, O: Output, E: Output>(
    alloc: Global,
    program: &str,
    dump: WideDump,
    commands: &mut C,
    out: &mut O,
    err: &mut E,
) -> Status
    ensures { (file : Over Reader) → ReadsInput file (Ok (bytes_of dump)) →
        Prints program.now
        (wide_serve_run C.state C.read_gives commands.old commands.new false file)
        (over O.state out.old out.new) (over E.state err.old err.new) result }
{
    match read_dump(alloc, dump.into_bytes()) {
        Ok(dump) => {
            let mut service = PlainService::new(alloc, dump);
            reply_to_commands(alloc, program, &mut service, commands, out, err)
        }
        Err(_) => report_no_memory(program, err),
    }
}
