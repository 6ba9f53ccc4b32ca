//! Runs over devices in memory.
use bd_cli::run;
use bd_cli_args::{FindOptions, Order};
use bd_cli_scan::Status;
use bd_io_device::{FailingWrite, MemoryInput, MemoryOutput};
use std::alloc::Global;

/// The document {"a":1}.
pub(crate) const ONE: &[u8] = b"\x0c\0\0\0\x10a\0\x01\0\0\0\0";

pub(crate) const ONE_LINE: &[u8] = b"{\"a\":{\"$numberInt\":\"1\"}}\n";

/// A document whose field `s` is a string of length 0, too short for its zero, and {"a":1}.
pub(crate) const BAD_AND_ONE: &[u8] = b"\x0c\0\0\0\x02s\0\0\0\0\0\0\x0c\0\0\0\x10a\0\x01\0\0\0\0";

#[derive(Clone, Copy)]
pub(crate) enum Command {
    Dump,
    Pack,
    /// All documents.
    Find,
    Serve,
}

/// The `Order` of a command; `find` by an index if one is named.
pub(crate) fn order_of(alloc: Global, command: Command, index: Option<String>) -> Order {
    let file = String::new(alloc);
    match command {
        Command::Dump => Order::Dump { file },
        Command::Pack => Order::Pack { file },
        Command::Find => Order::Find {
            file,
            options: FindOptions {
                query: None,
                sort: None,
                skip: 0,
                limit: 0,
                batch: None,
                index,
                after: None,
            },
        },
        Command::Serve => Order::Serve { file },
    }
}

/// The devices of a run.
#[derive(Clone, Copy)]
pub(crate) struct Devices<'a> {
    pub input: &'a [u8],
    /// How many bytes a call returns or takes at most.
    pub size: usize,
    pub failing_err: Option<FailingWrite>,
    /// How many bytes standard output can take.
    pub buffer: usize,
}

/// None of them fails.
pub(crate) const AMPLE: Devices<'static> = Devices {
    input: b"",
    size: 100,
    failing_err: None,
    buffer: 400,
};

/// How many reads a run makes, and how it ends; None if it prints anything else than this, or reads a command.
pub(crate) fn reads(
    alloc: Global,
    order: &Order,
    devices: Devices<'_>,
    wanted_out: &[u8],
    wanted_err: &str,
) -> Option<(u64, Status)> {
    let size = devices.size;
    if size == 0 || devices.buffer > 400 {
        return None;
    }
    let mut out_buffer = [0; 400];
    let mut err_buffer = [0; 400];
    let mut input = MemoryInput::new(devices.input, size, None);
    let mut commands = MemoryInput::new(b"{}", 1, None);
    let mut out = MemoryOutput::new(&mut out_buffer[..devices.buffer], size, None);
    let mut err = MemoryOutput::new(&mut err_buffer, size, devices.failing_err);
    let status = run(alloc, order, &mut input, &mut commands, &mut out, &mut err);
    let is_printed = out.bytes() == wanted_out && err.bytes() == wanted_err.as_bytes();
    if is_printed && commands.calls() == 0 {
        Some((input.calls(), status))
    } else {
        None
    }
}
