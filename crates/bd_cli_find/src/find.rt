//! `find`: the requested documents of an input, in their order, one per line. An index changes how they are searched, but
//! not the output.

ghost use Rattle.std.specs.Prelude.{◌≡◌};
ghost use Rattle.bd_cli_find.specs.Options.{RequestsNothing};
ghost use Rattle.bd_cli_find.specs.Find.{find_run};
ghost use Rattle.bd_cli_scan.specs.{Input.ReadsNoFurther, Run.Prints};
ghost use Rattle.bd_io_device.specs.Devices.{over};

use crate::batch::print_found;
use crate::options::{SearchFault, read_search, report_refused};
use bd_cli_args::FindOptions;
use bd_cli_files::load::{load, report_load_fault};
use bd_cli_print::NamedPrinter;
use bd_cli_scan::Status;
use bd_cli_scan::output::{report_error, report_no_memory};
use bd_io_device::{Input, Output};
use std::alloc::Global;

/// Reads the whole input unless an option is refused, and prints the first batch of the requested documents;
/// without a size, all of them. Nothing is written to standard output if the input is not a dump.
///
/// It is not inlined, so that the other commands do not need its stack.
#[inline(never)]
pub fn find<R: Input, O: Output, E: Output>(
    alloc: Global,
    program: &str,
    options: &FindOptions,
    input: &mut R,
    out: &mut O,
    err: &mut E,
) -> Status
    ensures found { Prints program.now (find_run options.now (over R.state input.old input.new))
        (over O.state out.old out.new) (over E.state err.old err.new) result }
    ensures stops_reading { ReadsNoFurther R.read_gives input.old input.new }
    ensures unread { RequestsNothing options.now → input.new ≡ input.old }
{
    let search = match read_search(alloc, options) {
        Ok(search) => search,
        Err(SearchFault::NoMemory) => return report_no_memory(program, err),
        Err(SearchFault::Refused(refused)) => return report_refused(alloc, program, &refused, err),
        Err(SearchFault::Message(message)) => return report_error(program, &message, err),
    };
    match load(alloc, input) {
        Ok(dump) => print_found(
            alloc,
            program,
            dump,
            search,
            options.batch,
            &NamedPrinter,
            b"\n",
            out,
            err,
        ),
        Err(fault) => report_load_fault(alloc, program, &fault, err),
    }
}
