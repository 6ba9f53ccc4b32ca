//! The messages of a run on standard error. It takes no memory.

ghost use Rattle.std.specs.Prelude.{◌≡◌, codes};
ghost use Rattle.bd_io_device.specs.Devices.{over};
ghost use Rattle.bd_cli_main.specs.Usage.{WriterFails, report_output};
ghost use Rattle.bd_cli_scan.specs.Run.{Prints, run_of};
ghost use Rattle.bd_wide_cli.specs.Output.{usage, version as version_text};

use bd_cli_args::WordsFault;
use bd_cli_scan::Status;
use bd_io_device::Output;

/// The name of the program, before each message.
pub const PROGRAM: &str = "bsonwide";

/// The message for fields that are refused.
pub(crate) const FIELDS_REFUSED: &str = "fields: not paths to separate fields";

/// The answer to a request for help and to invalid arguments.
const USAGE: &str =
    "usage: bsonwide dump FILE [--type TYPE] [--jsonFormat FORMAT] [--jsonArray] [--pretty] [--fields FIELDS] [--noId] [--noHeaderLine]
       bsonwide check FILE
       bsonwide pack FILE
       bsonwide find FILE [--query Q | --queryFile FILE] [--sort S] [--skip N] [--limit N] [--batch N] [--index PATH] [--after TOKEN] [--type TYPE] [--jsonFormat FORMAT] [--jsonArray] [--pretty] [--fields FIELDS] [--noId] [--noHeaderLine] [--bson | --count]
       bsonwide serve FILE [--byValue]
";

/// Reports why arguments are not a command, and returns the exit status. It takes no memory.
///
/// A request for help prints the usage on `out`, with status 0; invalid arguments print it on `err`, with status 2;
/// out of memory is reported on `err`, with status 1. A device that fails makes the status 1.
pub fn report<O: Output, E: Output>(fault: &WordsFault, out: &mut O, err: &mut E) -> Status
    ensures output { Prints (codes "bsonwide") (run_of (report_output usage fault.now))
        (over O.state out.old out.new) (over E.state err.old err.new) result }
    ensures failed { WriterFails (over O.state out.old out.new) (over E.state err.old err.new) →
        result ≡ Status.Failed }
{
    bd_cli_main::report(PROGRAM, USAGE, fault, out, err)
}

/// The answer to `--version`: the name of the program and its version.
pub fn version() -> &'static str
    ensures { result.now ≡ version_text }
{
    "bsonwide 0.1.0\n"
}
