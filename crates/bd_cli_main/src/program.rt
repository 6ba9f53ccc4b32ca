//! What the programs differ in.

use bd_cli_args::WordsFault;
use bd_cli_scan::Status;
use bd_io_device::{Input, Output};
use std::alloc::Global;

/// A program: its commands, and what each of them does over devices.
pub trait Program {
    /// A command with its file and options.
    type Command: Drop;

    /// The name, which begins each message.
    fn name(&self) -> &str;

    /// What `--version` prints; None if that is no valid argument.
    fn version(&self) -> Option<&str>;

    /// The command that the arguments mean, without the program's name.
    fn parse(&self, alloc: Global, words: &[String]) -> Result<Self::Command, WordsFault>;

    /// The file that a command names.
    fn file<'a>(&self, command: &'a Self::Command) -> &'a str;

    /// The file that has the text of a command's query, if it names one. It is read before the file of the command is opened.
    fn query_file<'a>(&self, _command: &'a Self::Command) -> Option<&'a str> {
        None
    }

    /// The greatest number of bytes that a command takes of its file, if it reads all of it first. A longer file is not read.
    fn longest(&self, _command: &Self::Command) -> Option<u64> {
        None
    }

    /// How many bytes of its file a command requests from the system at once.
    fn block(&self, command: &Self::Command) -> usize;

    /// Whether a command reads standard input beside its file.
    fn serves(&self, command: &Self::Command) -> bool;

    /// Runs a command, and returns the exit status. `query` is what was read of its query's file. Its own file is read from `file`, and
    /// what else it reads from `commands`; the results go to `out`, and messages to `err`.
    fn run<F: Input, C: Input, O: Output, E: Output>(
        &self,
        alloc: Global,
        command: &Self::Command,
        query: Option<&[u8]>,
        file: &mut F,
        commands: &mut C,
        out: &mut O,
        err: &mut E,
    ) -> Status;

    /// Reports why arguments are not a command, and returns the exit status.
    fn report<O: Output, E: Output>(&self, fault: &WordsFault, out: &mut O, err: &mut E) -> Status;
}
