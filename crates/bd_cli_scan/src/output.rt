//! The messages of a run, and how it ends. Only the path of a fault takes memory.

ghost use Rattle.std.specs.Prelude.{◌≡◌, ◌++◌, ◌↔◌, ◌⊎◌, IfOk, IsTrue, OnErr, OnOk, decimal, map, string_bytes};
ghost use Rattle.std.specs.List.{join_with_byte};
ghost use Rattle.bd_io_device.specs.Devices.{WriteFailsWithin, TakesText, over, read_words};
ghost use Rattle.bd_bson_check.specs.Fault.{fault_view};
ghost use Rattle.bd_bson_check.specs.declared.fault.FaultKind.TheVariants as kinds;
ghost use Rattle.bd_extjson_text.specs.Text.{quoted};
ghost use Rattle.bd_cli_scan.specs.Run.{ReportsMessage};
ghost use Rattle.bd_cli_scan.specs.Output.{cannot_write, error_line, fault_text, input_words, no_memory, location_text, open_words, reported_bytes, status_code, stop_words, wrong_line, wrong_status};
ghost use Rattle.bd_cli_scan.specs.declared.output.OutputFault.TheVariants.{NoMemory as memory, Unwritten};
ghost use Rattle.bd_cli_scan.specs.declared.output.Status.TheVariants.{Failed};

use crate::input::InputFault;
use bd_bson_check::{Fault, FaultKind};
use bd_extjson_text::write_path;
use bd_io_device::{DeviceFault, Output, ReadFault, write_all};
use bd_value::NoMemory;
use itoa::Buffer;
use std::alloc::AllocError;

/// The exit status of a run.
#[derive(Clone, Copy, Debug, PartialEq, Eq)]
pub enum Status {
    /// All was done.
    Done,
    /// A fault of the input, of a query, a sort, the path of an index or a token, or of a device, or out of memory.
    Failed,
    /// The arguments are invalid.
    Usage,
}

impl Status {
    /// The exit status of the process: 0, 1 or 2.
    pub fn code(self) -> u8
        ensures { result ≡ status_code self }
    {
        match self {
            Status::Done => 0,
            Status::Failed => 1,
            Status::Usage => 2,
        }
    }
}

/// Why a text was not written completely.
#[derive(Debug, Clone, Copy, PartialEq, Eq)]
pub enum OutputFault {
    /// Memory ran out.
    NoMemory,
    /// A write failed.
    Unwritten,
}

impl From<AllocError> for OutputFault {
    ghost from_gives = { λ _ s. s ≡ memory };

    fn from(_error: AllocError) -> OutputFault {
        OutputFault::NoMemory
    }
}

impl From<DeviceFault> for OutputFault {
    ghost from_gives = { λ _ s. s ≡ Unwritten };

    fn from(_fault: DeviceFault) -> OutputFault {
        OutputFault::Unwritten
    }
}

/// The message if memory runs out.
pub const NO_MEMORY: &str = "no memory";

/// The message if standard output fails.
pub const CANNOT_WRITE: &str = "cannot write";

/// Whether a fault is out of memory, which is no fault of the input.
pub fn is_want_of_memory(fault: &Fault) -> bool
    ensures { IsTrue result ↔ (fault.now.kind ≡ kinds.NoMemory) }
{
    matches!(fault.kind, FaultKind::NoMemory)
}

/// Writes the line of an error: the name of the program, and the message.
#[tactic(auto, using(crate::proofs::OutputLemmas::taking))]
pub fn write_error<E: Output>(program: &str, message: &str, err: &mut E) -> Result<(), DeviceFault>
    ensures ok { OnOk result (TakesText (over E.state err.old err.new)
        (error_line program.now message.now)) }
    ensures err { OnErr result
        (WriteFailsWithin (over E.state err.old err.new) (error_line program.now message.now)) }
{
    write_pair(program, ": ", err)?;
    write_pair(message, "\n", err)
}

/// Writes a text, and another after it.
#[tactic(auto, using(crate::proofs::OutputLemmas::taking))]
pub fn write_pair<E: Output>(first: &str, second: &str, err: &mut E) -> Result<(), DeviceFault>
    ensures ok { OnOk result (TakesText (over E.state err.old err.new) (first.now ++ second.now)) }
    ensures err { OnErr result
        (WriteFailsWithin (over E.state err.old err.new) (first.now ++ second.now)) }
{
    write_all(err, first.as_bytes())?;
    write_all(err, second.as_bytes())
}

/// Writes a number and the text after it.
#[tactic(auto, using(crate::proofs::OutputLemmas::taking))]
pub fn write_count<E: Output>(count: u64, words: &str, err: &mut E) -> Result<(), DeviceFault>
    ensures ok { OnOk result
        (TakesText (over E.state err.old err.new) (decimal count ++ words.now)) }
    ensures err { OnErr result
        (WriteFailsWithin (over E.state err.old err.new) (decimal count ++ words.now)) }
{
    let mut buffer = Buffer::new();
    write_all(err, buffer.format(count).as_bytes())?;
    write_all(err, words.as_bytes())
}

/// Writes a message, if there is one, and then a number and the text after it.
#[tactic(auto, using(crate::proofs::OutputLemmas::taking))]
pub fn write_end<E: Output>(
    program: &str,
    message: Option<&str>,
    count: u64,
    words: &str,
    err: &mut E,
) -> Result<(), DeviceFault>
    ensures ok { OnOk result (TakesText (over E.state err.old err.new)
        (wrong_line program.now (reported_bytes message.entry) ++ (decimal count ++ words.now))) }
    ensures err { OnErr result (WriteFailsWithin (over E.state err.old err.new)
        (wrong_line program.now (reported_bytes message.entry) ++ (decimal count ++ words.now))) }
{
    match message {
        None => write_count(count, words, err),
        Some(message) => {
            write_error(program, message, err)?;
            write_count(count, words, err)
        }
    }
}

/// The given status if a message was written, and 1 if it was not.
pub fn status_of(written: Result<(), DeviceFault>, wanted: Status) -> Status
    ensures ok { OnOk written (result ≡ wanted) }
    ensures err { OnErr written (result ≡ Failed) }
{
    match written {
        Ok(()) => wanted,
        Err(_) => Status::Failed,
    }
}

/// Reports a message of what is wrong, if there is one, and a count. It takes no memory.
pub fn report_end<E: Output>(
    program: &str,
    message: Option<&str>,
    count: u64,
    words: &str,
    err: &mut E,
) -> Status
    ensures { ReportsMessage (over E.state err.old err.new)
        (wrong_line program.now (reported_bytes message.entry) ++ (decimal count ++ words.now))
        (wrong_status (reported_bytes message.entry)) result }
{
    let wanted = match message {
        None => Status::Done,
        Some(_) => Status::Failed,
    };
    status_of(write_end(program, message, count, words, err), wanted)
}

/// Reports an error. It takes no memory.
pub fn report_error<E: Output>(program: &str, message: &str, err: &mut E) -> Status
    ensures { ReportsMessage (over E.state err.old err.new)
        (error_line program.now message.now) Failed result }
{
    status_of(write_error(program, message, err), Status::Failed)
}

/// Reports that a file does not open. It takes no memory.
pub fn report_open_fault<E: Output>(program: &str, file: &str, err: &mut E) -> Status
    ensures { ReportsMessage (over E.state err.old err.new)
        (error_line program.now (open_words file.now)) Failed result }
{
    status_of(write_open_fault(program, file, err), Status::Failed)
}

/// Writes the line of a file that does not open.
#[tactic(auto, using(crate::proofs::OutputLemmas::taking))]
fn write_open_fault<E: Output>(program: &str, file: &str, err: &mut E) -> Result<(), DeviceFault>
    ensures ok { OnOk result (TakesText (over E.state err.old err.new)
        (error_line program.now (open_words file.now))) }
    ensures err { OnErr result (WriteFailsWithin (over E.state err.old err.new)
        (error_line program.now (open_words file.now))) }
{
    write_pair(program, ": ", err)?;
    write_pair("cannot open ", file, err)?;
    write_all(err, b"\n")
}

/// Reports that memory ran out. It takes no memory itself.
pub fn report_no_memory<E: Output>(program: &str, err: &mut E) -> Status
    ensures { ReportsMessage (over E.state err.old err.new)
        (error_line program.now no_memory) Failed result }
{
    report_error(program, NO_MEMORY, err)
}

/// Reports that standard output failed.
pub fn report_unwritten<E: Output>(program: &str, err: &mut E) -> Status
    ensures { ReportsMessage
        (over E.state err.old err.new) (error_line program.now cannot_write) Failed result }
{
    report_error(program, CANNOT_WRITE, err)
}

/// Reports why standard output is incomplete.
pub fn report_stop<E: Output>(program: &str, fault: OutputFault, err: &mut E) -> Status
    ensures { ReportsMessage
        (over E.state err.old err.new) (error_line program.now (stop_words fault)) Failed result }
{
    match fault {
        OutputFault::NoMemory => report_no_memory(program, err),
        OutputFault::Unwritten => report_unwritten(program, err),
    }
}

/// Reports why an input was not read completely. It takes no memory.
pub fn report_read_fault<E: Output>(program: &str, fault: ReadFault, err: &mut E) -> Status
    ensures { ReportsMessage
        (over E.state err.old err.new) (error_line program.now (read_words fault)) Failed result }
{
    report_error(program, fault.words(), err)
}

/// Appends a number in decimal.
///
/// On `NoMemory`, `text` is unchanged.
pub fn push_number(number: u64, text: &mut String) -> Result<(), NoMemory>
    ensures ok { OnOk result (string_bytes text.new ≡ string_bytes text.old ++ decimal number) }
    ensures err { OnErr result (string_bytes text.new ≡ string_bytes text.old) }
{
    let mut buffer = Buffer::new();
    text.push_str(buffer.format(number))
}

/// Appends the names of a path, joined by dots, as one JSON string.
///
/// On `NoMemory`, `text` is unchanged.
pub fn push_path(path: &[String], text: &mut String) -> Result<(), NoMemory>
    ensures ok { OnOk result (string_bytes text.new
        ≡ string_bytes text.old ++ quoted (join_with_byte 46 (map string_bytes path.now))) }
    ensures err { OnErr result (string_bytes text.new ≡ string_bytes text.old) }
{
    let mut quoted = Vec::new(*text.allocator());
    write_path(path, &mut quoted)?;
    match str::from_utf8(&quoted) {
        Ok(quoted) => text.push_str(quoted),
        Err(_) => unreachable!(),
    }
}

/// Appends the document number and the offset of a fault. On `NoMemory` a prefix of it may remain.
fn push_location(fault: &Fault, text: &mut String) -> Result<(), NoMemory>
    ensures { OnOk result (string_bytes text.new
        ≡ string_bytes text.old ++ location_text fault.now.document fault.now.offset) }
{
    text.push_str("document ")?;
    push_number(u64::from(fault.document), text)?;
    text.push_str(", byte ")?;
    push_number(fault.offset, text)
}

/// Appends a fault: its document number and offset, the names of its path, its message. On `NoMemory` a prefix of it may remain.
pub fn push_fault(fault: &Fault, text: &mut String) -> Result<(), NoMemory>
    ensures { OnOk result (string_bytes text.new
        ≡ string_bytes text.old ++ fault_text fault.now.document (fault_view fault.now)) }
{
    push_location(fault, text)?;
    text.push_str(", path ")?;
    push_path(&fault.path, text)?;
    text.push_str(": ")?;
    text.push_str(fault.kind.words())
}

/// The message of a fault of an input. Only that of a document takes memory, in `text`, which has no other use.
pub fn message_of<'a>(fault: &InputFault, text: &'a mut String) -> Result<&'a str, NoMemory>
    ensures message { IfOk result (λ message. message.now ≡ input_words fault.now) }
    ensures memory { OnErr result ((f : Fault) × (fault.now ≡ InputFault.Faulty f)) }
{
    match fault {
        InputFault::Unread(fault) => Ok(fault.words()),
        InputFault::Faulty(fault) => {
            text.clear();
            push_fault(fault, text)?;
            Ok(text.as_str())
        }
    }
}
