//! The command that arguments mean, and runs of a command over devices.

ghost use Rattle.bd_io_device.specs.Devices.{over};
ghost use Rattle.std.specs.Prelude.{◌≡◌, ◌⊎◌, IfErr, IfOk, None, Some, option_map, string_bytes};
ghost use Rattle.bd_cli_args.specs.CommandLine.{words_of};
ghost use Rattle.bd_cli_args.specs.WideLine.{meant, order_of};
ghost use Rattle.bd_cli_args.specs.declared.order.WordsFault.TheVariants.{NoMemory};
ghost use Rattle.bd_wide_cli.specs.Command.{ReadsNoCommands, RunsCommand, file_in, has_one_layout, is_serve, query_file_in, query_text, reads_first, words_fault};

use crate::dump::dump;
use crate::find::find;
use crate::output::PROGRAM;
use crate::pack::pack;
use bd_cli_args::{FindOptions, WideOrder, WordsFault, parse_wide_words};
use bd_cli_scan::Status;
use bd_cli_scan::check::check_all_types;
use bd_io_device::{Input, Output};
use bd_wide_layout::go_together;
use bd_wide_service::serve::serve;
use std::alloc::Global;

/// The command that the arguments mean, without the program's name: that of `parse_wide_words`, if the options of its layout go
/// together.
///
/// # Errors
///
/// - `Help` if the arguments request help by a flag, such as `--help` and `check -h`.
/// - `Usage` if they are invalid otherwise.
/// - `NoMemory` if memory runs out.
pub fn parse(alloc: Global, words: &[String]) -> Result<WideOrder, WordsFault>
    ensures order { IfOk result (λ o. order_of (words_of words.now) ≡ Some (meant o)) }
    ensures only_taken { IfOk result (λ _. words_fault (words_of words.now) ≡ None) }
    ensures fault { IfErr result (λ f. (f ≡ NoMemory)
        ⊎ (words_fault (words_of words.now) ≡ Some f)) }
{
    let order = parse_wide_words(alloc, words)?;
    if has_one_layout(&order) {
        Ok(order)
    } else {
        Err(WordsFault::Usage)
    }
}

/// Whether the options of a command's layout go together.
fn has_one_layout(order: &WideOrder) -> bool
    ensures { result ≡ has_one_layout (meant order.now) }
{
    match order {
        WideOrder::Dump { layout, .. } | WideOrder::Find { layout, .. } => go_together(layout),
        WideOrder::Check { .. } | WideOrder::Pack { .. } | WideOrder::Serve { .. } => true,
    }
}

/// The file of a command.
pub fn file_of(order: &WideOrder) -> &str
    ensures { result.now ≡ file_in (meant order.now) }
{
    let (WideOrder::Dump { file, .. }
    | WideOrder::Check { file }
    | WideOrder::Pack { file }
    | WideOrder::Find { file, .. }
    | WideOrder::Serve { file, .. }) = order;
    file
}

/// The file of a command's query, if it names one.
pub fn query_file_of(order: &WideOrder) -> Option<&str>
    ensures { option_map (λ s. s.now) result ≡ query_file_in (meant order.entry.now) }
{
    match order {
        WideOrder::Find { query_file, .. } => query_file.as_deref(),
        _ => None,
    }
}

/// Runs a command over its file, and returns the exit status: 0 if all was done, 1 after a fault of the input or of a device, or
/// if memory runs out. It takes the memory of one document, and of what is written for it; for `Pack` that of all documents, and for
/// `Find` and `Serve` that of the dump, and of a copy if it is searched by value.
///
/// If the fields of a layout are refused, only that is reported, and the file is not read. `query` is what was read of the file of the
/// query, if the command has one. The commands of a session are read from `commands`.
pub fn run<R: Input, C: Input, O: Output, E: Output>(
    alloc: Global,
    order: &WideOrder,
    query: Option<&[u8]>,
    file: &mut R,
    commands: &mut C,
    out: &mut O,
    err: &mut E,
) -> Status
    ensures ran { RunsCommand C.state C.read_gives commands.old commands.new
        (option_map (λ q. q.now) query.entry) order.now
        (over R.state file.old file.new) (over O.state out.old out.new)
        (over E.state err.old err.new) result }
    // An input that is not needed is not read.
    ensures commands { ReadsNoCommands order.now → commands.new ≡ commands.old }
{
    match order {
        WideOrder::Check { .. } => check_all_types(alloc, PROGRAM, file, out, err),
        WideOrder::Dump { layout, .. } => dump(alloc, layout, file, out, err),
        WideOrder::Pack { .. } => pack(alloc, file, out, err),
        WideOrder::Find {
            options,
            layout,
            form,
            ..
        } => {
            let text = query_text(query, options);
            find(alloc, layout, *form, text, options, file, out, err)
        }
        WideOrder::Serve { by_value, .. } => {
            serve(alloc, PROGRAM, *by_value, file, commands, out, err)
        }
    }
}

/// The text of the query: what was read of its file, if it has one, else that of the options; without either it is `{}`.
fn query_text<'a>(read: Option<&'a [u8]>, options: &'a FindOptions) -> &'a [u8]
    ensures { result.now ≡ query_text (option_map (λ q. q.now) read.entry) options.entry.now }
{
    match (read, &options.query) {
        (Some(text), _) => text,
        (None, Some(text)) => text.as_bytes(),
        (None, None) => b"{}",
    }
}

/// Whether a command is a session, whose commands are read beside the file.
pub fn is_serve(order: &WideOrder) -> bool
    ensures { result ≡ is_serve (meant order.now) }
{
    matches!(order, WideOrder::Serve { .. })
}

/// Whether a command reads its whole file before it prints anything.
pub fn reads_first(order: &WideOrder) -> bool
    ensures { result ≡ reads_first (meant order.now) }
{
    matches!(order, WideOrder::Find { .. } | WideOrder::Serve { .. })
}
