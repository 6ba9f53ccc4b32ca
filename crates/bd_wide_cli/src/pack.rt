//! `pack`: documents of all types in lines of text, as BSON.

ghost use Rattle.std.specs.Prelude.{codes};
ghost use Rattle.bd_io_device.specs.Devices.{over};
ghost use Rattle.bd_cli_scan.specs.Run.{Prints};
ghost use Rattle.bd_cli_files.specs.Pack.{pack_run_by};
ghost use Rattle.bd_wide_cli.specs.Pack.{all_types};

use crate::output::PROGRAM;
use bd_cli_files::pack::{LinePacker, pack_by};
use bd_cli_scan::Status;
use bd_extjson_pack::LineFault;
use bd_io_device::{Input, Output};
use bd_value::NoMemory;
use bd_wide_advice::advice_at;
use bd_wide_pack::WidePacker;
use std::alloc::Global;

/// Reads the whole file, and writes the BSON of its lines' documents, up to the first line that is not packed.
///
/// It is not inlined, so that the other commands do not need its stack.
#[inline(never)]
pub(crate) fn pack<R: Input, O: Output, E: Output>(
    alloc: Global,
    file: &mut R,
    out: &mut O,
    err: &mut E,
) -> Status
    ensures { Prints (codes "bsonwide")
        (pack_run_by all_types (over R.state file.old file.new))
        (over O.state out.old out.new) (over E.state err.old err.new) result }
{
    let packer = WidePacker::new(alloc);
    pack_by(
        alloc,
        PROGRAM,
        &mut WideLinePacker { packer },
        file,
        out,
        err,
    )
}

/// Packs lines of documents of all types.
#[derive(Drop)]
struct WideLinePacker {
    /// What packs each of them.
    packer: WidePacker,
}

impl LinePacker for WideLinePacker {
    ghost form = { all_types };

    #[inline(always)]
    fn pack_line(&mut self, line: &[u8], out: &mut Vec<u8>) -> Result<Option<LineFault>, NoMemory> {
        self.packer.pack_line(line, out)
    }

    fn advice(&self, line: &[u8], fault: LineFault) -> Option<&'static str> {
        match fault {
            LineFault::Unread(fault) => advice_at(line, fault),
            LineFault::TooLong => None,
        }
    }
}
