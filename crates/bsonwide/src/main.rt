//! `bsonwide`: all types of BSON 1.1, over the system's files and standard streams.
#![tactic(auto)]

use bd_cli_args::{WideOrder, WordsFault};
use bd_cli_main::Program;
use bd_cli_scan::Status;
use bd_io_device::{Input, Output};
use bd_value::LONGEST_INPUT;
use bd_wide_cli::{PROGRAM, file_of, is_serve, parse, query_file_of, reads_first, version};
use std::alloc::Global;
use std::process::ExitCode;

/// How many bytes of its file a command requests from the system at once.
const BLOCK: usize = 65_536;

/// The program.
struct Bsonwide;

impl Program for Bsonwide {
    type Command = WideOrder;

    fn name(&self) -> &str {
        PROGRAM
    }

    fn version(&self) -> Option<&str> {
        Some(version())
    }

    fn parse(&self, alloc: Global, words: &[String]) -> Result<WideOrder, WordsFault> {
        parse(alloc, words)
    }

    fn file<'a>(&self, order: &'a WideOrder) -> &'a str {
        file_of(order)
    }

    fn query_file<'a>(&self, order: &'a WideOrder) -> Option<&'a str> {
        query_file_of(order)
    }

    fn longest(&self, order: &WideOrder) -> Option<u64> {
        reads_first(order).then_some(LONGEST_INPUT)
    }

    fn block(&self, _order: &WideOrder) -> usize {
        BLOCK
    }

    fn serves(&self, order: &WideOrder) -> bool {
        is_serve(order)
    }

    fn run<F: Input, C: Input, O: Output, E: Output>(
        &self,
        alloc: Global,
        order: &WideOrder,
        query: Option<&[u8]>,
        file: &mut F,
        commands: &mut C,
        out: &mut O,
        err: &mut E,
    ) -> Status {
        bd_wide_cli::run(alloc, order, query, file, commands, out, err)
    }

    fn report<O: Output, E: Output>(&self, fault: &WordsFault, out: &mut O, err: &mut E) -> Status {
        bd_wide_cli::report(fault, out, err)
    }
}

fn main(rt: HostRuntime) -> ExitCode {
    ExitCode::from(bd_cli_main::run(&rt, &Bsonwide).code())
}
