//! `dump`: documents of all types, in a layout.

ghost use Rattle.std.specs.Prelude.{codes};
ghost use Rattle.bd_io_device.specs.Devices.{over};
ghost use Rattle.bd_cli_scan.specs.{Dump.dump_run_by, Run.Prints};
ghost use Rattle.bd_wide_layout.specs.Layout.{layout_view};
ghost use Rattle.bd_wide_layout.specs.Options.{layout_named};
ghost use Rattle.bd_wide_cli.specs.Dump.{laid_out, layout_run};

use crate::output::{FIELDS_REFUSED, PROGRAM};
use bd_bson_check::Profile;
use bd_cli_args::LayoutOptions;
use bd_cli_scan::Status;
use bd_cli_scan::dump::{Pieces, dump_by};
use bd_cli_scan::output::{report_error, report_no_memory};
use bd_io_device::{Input, Output};
use bd_value::NoMemory;
use bd_wide_layout::{Layout, LayoutBuffer, read_layout};
use std::alloc::Global;

/// Prints each document of a file in the layout of these options; or reports that their fields are refused, and does not read the
/// file.
///
/// It is not inlined, so that the other commands do not need its stack.
#[inline(never)]
pub(crate) fn dump<R: Input, O: Output, E: Output>(
    alloc: Global,
    options: &LayoutOptions,
    file: &mut R,
    out: &mut O,
    err: &mut E,
) -> Status
    ensures { Prints (codes "bsonwide")
        (layout_run (layout_named options.now) (over R.state file.old file.new)
        (λ layout. dump_run_by (laid_out layout) (over R.state file.old file.new)))
        (over O.state out.old out.new) (over E.state err.old err.new) result }
{
    match read_layout(alloc, options) {
        Ok(Some(layout)) => dump_in(alloc, &layout, file, out, err),
        Ok(None) => report_error(PROGRAM, FIELDS_REFUSED, err),
        Err(_) => report_no_memory(PROGRAM, err),
    }
}

/// Prints each document of a file in a layout.
fn dump_in<R: Input, O: Output, E: Output>(
    alloc: Global,
    layout: &Layout,
    file: &mut R,
    out: &mut O,
    err: &mut E,
) -> Status
    ensures { Prints (codes "bsonwide")
        (dump_run_by (laid_out (layout_view layout.now)) (over R.state file.old file.new))
        (over O.state out.old out.new) (over E.state err.old err.new) result }
{
    let buffer = LayoutBuffer::new(alloc);
    let pieces = LaidOut { alloc, layout };
    dump_by(alloc, PROGRAM, &pieces, buffer, file, out, err)
}

/// The documents of all types, in a layout.
#[derive(Clone, Copy)]
struct LaidOut<'a> {
    alloc: Global,
    layout: &'a Layout,
}

impl Pieces<LayoutBuffer> for LaidOut<'_> {
    ghost form = { λ pieces. laid_out (layout_view pieces.layout.now) };

    fn profile(&self) -> Profile {
        Profile::All
    }

    fn opening(&self) -> &[u8] {
        self.layout.opening()
    }

    #[inline(always)]
    fn piece<'a>(
        &self,
        number: u32,
        document: &[u8],
        buffer: &'a mut LayoutBuffer,
    ) -> Result<&'a [u8], NoMemory> {
        buffer.piece(self.alloc, self.layout, number, document)
    }

    fn closing(&self) -> &[u8] {
        self.layout.closing()
    }
}
