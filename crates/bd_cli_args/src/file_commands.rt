//! What the command lines of both programs share: commands that take a FILE, and how a refusal of `clap` is reported.

ghost use Rattle.std.specs.Prelude.{◌≡◌, map, false, IfOk};
ghost use Rattle.clap.specs.Words.{app_of, kind_of, rule_of};
ghost use Rattle.clap.specs.declared.builder.command.Command.TheViews.{out-Command as fields_of};
ghost use Rattle.bd_cli_args.specs.inside.FileCommands.{IsBuiltAs};
ghost use Rattle.bd_cli_args.specs.FileCommands.{explain_refusal, file_app, file_rule, program_app, top_app, with_file_commands};

use crate::order::WordsFault;
use clap::error::ErrorKind;
use clap::{Arg, ArgAction, Command, Error};
use std::alloc::{AllocError, Global};

/// A command, unless memory ran out.
pub(crate) type Made<'a> = Result<Command<'a>, AllocError>;

/// The command line of a program, which has these commands, each with a FILE alone, and one more.
pub(crate) fn program_command<'a>(
    alloc: Global,
    name: &'a str,
    files: &[&'a str],
    more: Command<'a>,
) -> Made<'a>
    requires { (fields_of more).has_globals ≡ false }
    ensures { IfOk result (IsBuiltAs
        (program_app name.entry.now (map (λ name. name.now) files.now) (app_of more.entry))) }
{
    with_file_commands(alloc, top_command(alloc, name), files)?.subcommand(more)
}

/// The command line without its commands.
fn top_command<'a>(alloc: Global, name: &'a str) -> Command<'a>
    ensures { IsBuiltAs (top_app name.entry.now) result }
{
    Command::new(alloc, name)
        .no_binary_name(true)
        .subcommand_required(true)
        .disable_help_subcommand(true)
}

/// The command line with these commands too, each with a FILE alone.
fn with_file_commands<'a>(alloc: Global, line: Command<'a>, names: &[&'a str]) -> Made<'a>
    requires { (fields_of line).has_globals ≡ false }
    ensures app { IfOk result (λ c.
        app_of c ≡ with_file_commands (app_of line.entry) (map (λ name. name.now) names.now)) }
    ensures local { IfOk result (λ c. (fields_of c).has_globals ≡ false) }
{
    let mut with = line;
    for name in names {
        let command = of_file(alloc, name)?;
        with = with.subcommand(command)?;
    }
    Ok(with)
}

/// The command of this name, which takes a FILE and nothing else.
pub(crate) fn of_file<'a>(alloc: Global, name: &'a str) -> Made<'a>
    ensures { IfOk result (IsBuiltAs (file_app name.entry.now)) }
{
    let file = file_argument(alloc);
    Command::new(alloc, name).arg(file)
}

fn file_argument<'a>(alloc: Global) -> Arg<'a>
    ensures { (rule_of result ≡ file_rule) × (result.global ≡ false) }
{
    Arg::new(alloc, "file")
        .required(true)
        .action(ArgAction::Set)
}

/// How a refusal of `clap` is reported: as a request for help, as out of memory, else by the usage text.
pub(crate) fn explain_error(error: &Error) -> WordsFault
    ensures { result ≡ explain_refusal (kind_of error.now) }
{
    match error.kind() {
        ErrorKind::DisplayHelp => WordsFault::Help,
        ErrorKind::OutOfMemory => WordsFault::NoMemory,
        _ => WordsFault::Usage,
    }
}
