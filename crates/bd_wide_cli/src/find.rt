//! `find`: documents of all types, in a layout.

ghost use Rattle.std.specs.Prelude.{codes};
ghost use Rattle.bd_io_device.specs.Devices.{over};
ghost use Rattle.bd_cli_scan.specs.Run.{Prints};
ghost use Rattle.bd_wide_find.specs.Find.{printing_of, wide_find_run};
ghost use Rattle.bd_wide_layout.specs.Options.{layout_named};
ghost use Rattle.bd_wide_cli.specs.Dump.{layout_run};

use crate::output::{FIELDS_REFUSED, PROGRAM};
use bd_cli_args::{FindOptions, Form, LayoutOptions};
use bd_cli_scan::Status;
use bd_cli_scan::output::{report_error, report_no_memory};
use bd_io_device::{Input, Output};
use bd_wide_find::find::find as find_in;
use bd_wide_layout::read_layout;
use std::alloc::Global;

/// Prints the documents that a query with this text and its options request, in this form, their texts in the layout of these options;
/// or reports that the fields of the layout are refused, and does not read the file.
///
/// It is not inlined, so that the other commands do not need its stack.
#[inline(never)]
pub(crate) fn find<R: Input, O: Output, E: Output>(
    alloc: Global,
    layout: &LayoutOptions,
    form: Form,
    text: &[u8],
    options: &FindOptions,
    file: &mut R,
    out: &mut O,
    err: &mut E,
) -> Status
    ensures { Prints (codes "bsonwide")
        (layout_run (layout_named layout.now) (over R.state file.old file.new)
        (λ layout. wide_find_run (printing_of layout form) text.now options.now
        (over R.state file.old file.new)))
        (over O.state out.old out.new) (over E.state err.old err.new) result }
{
    match read_layout(alloc, layout) {
        Ok(Some(layout)) => find_in(alloc, PROGRAM, &layout, form, text, options, file, out, err),
        Ok(None) => report_error(PROGRAM, FIELDS_REFUSED, err),
        Err(_) => report_no_memory(PROGRAM, err),
    }
}
