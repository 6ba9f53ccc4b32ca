//! `bsonfind`: the commands of bd_cli over the system's files and standard streams.
#![tactic(auto)]

use bd_cli::PROGRAM;
use bd_cli_args::{Order, WordsFault, parse_words};
use bd_cli_main::Program;
use bd_cli_scan::Status;
use bd_io_device::{Input, Output};
use std::alloc::Global;
use std::process::ExitCode;

/// The program.
struct Bsonfind;

impl Program for Bsonfind {
    type Command = Order;

    fn name(&self) -> &str {
        PROGRAM
    }

    fn version(&self) -> Option<&str> {
        None
    }

    fn parse(&self, alloc: Global, words: &[String]) -> Result<Order, WordsFault> {
        parse_words(alloc, words)
    }

    fn file<'a>(&self, order: &'a Order) -> &'a str {
        order.file()
    }

    fn block(&self, _order: &Order) -> usize {
        BLOCK
    }

    fn serves(&self, order: &Order) -> bool {
        order.is_serve()
    }

    fn run<F: Input, C: Input, O: Output, E: Output>(
        &self,
        alloc: Global,
        order: &Order,
        _query: Option<&[u8]>,
        file: &mut F,
        commands: &mut C,
        out: &mut O,
        err: &mut E,
    ) -> Status {
        bd_cli::run(alloc, order, file, commands, out, err)
    }

    fn report<O: Output, E: Output>(&self, fault: &WordsFault, out: &mut O, err: &mut E) -> Status {
        bd_cli::report(fault, out, err)
    }
}

/// How many bytes are requested from the system at once. It returns what is available.
const BLOCK: usize = 65_536;

fn main(rt: HostRuntime) -> ExitCode {
    ExitCode::from(bd_cli_main::run(&rt, &Bsonfind).code())
}
