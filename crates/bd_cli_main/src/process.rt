//! A process: a program over the system's files and standard streams.

ghost use Rattle.std.specs.Prelude.{◌≡◌, ◌⊎◌, IfErr};
ghost use Rattle.bd_cli_args.specs.declared.order.WordsFault.TheVariants.{NoMemory, Usage};

use crate::program::Program;
use crate::query::read_query;
use crate::usage::print_text;
use crate::words::{is_standard_input, requests_version};
use bd_cli_args::WordsFault;
use bd_cli_scan::Status;
use bd_cli_scan::output::{report_open_fault, report_read_fault, report_unwritten};
use bd_io_device::{BufferedInput, Input, OversizedInput, ReadFault, SystemInput, SystemOutput};
use bd_io_stdout::{
    BufferedOutput, FlushingError, FlushingInput, OutputBuffer, WriteState, hand_on,
};
use std::cell::RefCell;
use std::fs::File;
use std::io::{BufReader, Read, Stderr, Stdout};
use std::os::fd::AsRawFd;
use std::{env, fs, io};

/// The buffer of standard output.
type Waiting = RefCell<OutputBuffer<SystemOutput<Stdout>>>;

/// Standard output, buffered.
type StandardOutput<'a> = SystemOutput<BufferedOutput<'a, SystemOutput<Stdout>>>;

/// Standard error, before whose messages the buffer is flushed.
type StandardError<'a> = SystemOutput<
    FlushingError<'a, SystemOutput<Stderr>, SystemOutput<Stdout>>,
>;

/// Runs the command in the process's arguments, up to the last byte of standard output, and returns the exit status. A loss that
/// the run did not notice is reported here; nothing else was reported then.
pub fn run<P: Program>(rt: &HostRuntime, program: &P) -> Status {
    let system = SystemOutput::new(rt.stdout());
    let output_buffer = RefCell::new(OutputBuffer::new(rt.alloc(), system));
    let status = execute(rt, program, &output_buffer);
    if hand_on(&output_buffer) == WriteState::Lost {
        return report_unwritten(program.name(), &mut SystemOutput::new(rt.stderr()));
    }
    status
}

/// Standard output and standard error over the buffer.
fn outputs<'a>(
    rt: &HostRuntime,
    output_buffer: &'a Waiting,
) -> (StandardOutput<'a>, StandardError<'a>) {
    let writer = SystemOutput::new(rt.stderr());
    let out = SystemOutput::new(BufferedOutput { output_buffer });
    let err = SystemOutput::new(FlushingError {
        writer,
        output_buffer,
    });
    (out, err)
}

/// Runs the command in the process's arguments.
fn execute<P: Program>(rt: &HostRuntime, program: &P, output_buffer: &Waiting) -> Status {
    let words = match arguments(rt) {
        Ok(words) => words,
        Err(fault) => return refuse(rt, program, &fault, output_buffer),
    };
    if requests_version(&words) {
        if let Some(version) = program.version() {
            let (mut out, mut err) = outputs(rt, output_buffer);
            return print_text(program.name(), version, &mut out, &mut err);
        }
    }
    match program.parse(rt.alloc(), &words) {
        Ok(command) => run_command(rt, program, &command, output_buffer),
        Err(fault) => refuse(rt, program, &fault, output_buffer),
    }
}

/// The process's arguments, without the name of the program. That they cannot be read is no request for help.
fn arguments(rt: &HostRuntime) -> Result<Vec<String>, WordsFault>
    ensures fault { IfErr result (λ f. (f ≡ NoMemory) ⊎ (f ≡ Usage)) }
{
    let words = match env::args(rt) {
        Ok(words) => words,
        Err(error) if error.kind() == io::ErrorKind::OutOfMemory => {
            return Err(WordsFault::NoMemory);
        }
        // An argument that is not UTF-8 is never accepted.
        Err(_) => return Err(WordsFault::Usage),
    };
    Ok(words.skip(1).collect(rt.alloc())?)
}

/// Reports why there is no command to run.
fn refuse<P: Program>(
    rt: &HostRuntime,
    program: &P,
    fault: &WordsFault,
    output_buffer: &Waiting,
) -> Status {
    let (mut out, mut err) = outputs(rt, output_buffer);
    program.report(fault, &mut out, &mut err)
}

/// Runs a command, after its query's file was read, if it names one.
fn run_command<P: Program>(
    rt: &HostRuntime,
    program: &P,
    command: &P::Command,
    output_buffer: &Waiting,
) -> Status {
    let Some(name) = program.query_file(command) else {
        return run_asking(rt, program, command, None, output_buffer);
    };
    match query_in(rt, program.name(), name) {
        Ok(query) => run_asking(rt, program, command, Some(query.as_slice()), output_buffer),
        Err(status) => status,
    }
}

/// The text of a query in the file of that name. A fault is reported, and has this status.
// Not inlined: it takes 16 KiB of the stack, which a run does not need afterwards.
#[inline(never)]
fn query_in(rt: &HostRuntime, program: &str, name: &str) -> Result<Vec<u8>, Status> {
    let mut err = SystemOutput::new(rt.stderr());
    if is_standard_input(name) {
        return read_query(
            rt.alloc(),
            program,
            &mut SystemInput::new(rt.stdin()),
            &mut err,
        );
    }
    match fs::open(rt, name) {
        Ok(opened) => read_query(rt.alloc(), program, &mut SystemInput::new(opened), &mut err),
        Err(_) => Err(report_open_fault(program, name, &mut err)),
    }
}

/// Runs a command with this text of its query over its file, which is opened here.
fn run_asking<P: Program>(
    rt: &HostRuntime,
    program: &P,
    command: &P::Command,
    query: Option<&[u8]>,
    output_buffer: &Waiting,
) -> Status {
    let file = program.file(command);
    if is_standard_input(file) {
        return run_over(rt, program, command, query, rt.stdin(), output_buffer);
    }
    let Ok(opened) = fs::open(rt, file) else {
        return report_open_fault(program.name(), file, &mut SystemOutput::new(rt.stderr()));
    };
    // This is the file number of standard input, which was closed: commands would be read from the end of the file.
    if opened.as_raw_fd() == 0 && program.serves(command) {
        let mut err = SystemOutput::new(rt.stderr());
        return report_read_fault(program.name(), ReadFault::Device, &mut err);
    }
    if let Some(size) = oversize(&opened, program.longest(command)) {
        let mut file = OversizedInput::new(size);
        return run_reading(rt, program, command, query, &mut file, output_buffer);
    }
    run_over(rt, program, command, query, opened, output_buffer)
}

/// The size of a regular file that is longer than this limit, if there is one.
fn oversize(file: &File, longest: Option<u64>) -> Option<u64> {
    let longest = longest?;
    let data = file.metadata().ok()?;
    (data.is_file() && longest < data.len()).then_some(data.len())
}

/// Runs a command over the input in its file.
// Not inlined, as `run_reading` is not: else a run takes the stack for all kinds of files together, which the system need not give.
#[inline(never)]
fn run_over<P: Program, F: Read + Drop>(
    rt: &HostRuntime,
    program: &P,
    command: &P::Command,
    query: Option<&[u8]>,
    reader: F,
    output_buffer: &Waiting,
) -> Status {
    let alloc = rt.alloc();
    let file = FlushingInput {
        reader: SystemInput::new(reader),
        output_buffer,
    };
    let Ok(file) = BufReader::with_capacity(alloc, program.block(command), file) else {
        return refuse(rt, program, &WordsFault::NoMemory, output_buffer);
    };
    run_reading(
        rt,
        program,
        command,
        query,
        &mut BufferedInput::new(file),
        output_buffer,
    )
}

/// Runs a command over its file. Its commands come from standard input.
#[inline(never)]
fn run_reading<P: Program, I: Input>(
    rt: &HostRuntime,
    program: &P,
    command: &P::Command,
    query: Option<&[u8]>,
    file: &mut I,
    output_buffer: &Waiting,
) -> Status {
    // They are read in blocks, so no reader with a buffer of its own, which is on the stack, is needed.
    let mut commands = SystemInput::new(FlushingInput {
        reader: SystemInput::new(rt.stdin()),
        output_buffer,
    });
    let (mut out, mut err) = outputs(rt, output_buffer);
    program.run(
        rt.alloc(),
        command,
        query,
        file,
        &mut commands,
        &mut out,
        &mut err,
    )
}
