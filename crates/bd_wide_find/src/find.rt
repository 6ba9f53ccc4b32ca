//! `find` over documents of all types: numbers match, and are sorted, by their values.

ghost use Rattle.std.specs.Prelude.{◌≡◌, ◌<◌, ◌≤◌, ℕ, List, Ok, length, true};
ghost use Rattle.bd_value.specs.{Limits.greatest_count, Tree.Doc};
ghost use Rattle.bd_bson_check.specs.Dump.{IsDump};
ghost use Rattle.bd_bson_dump.specs.Collection.{bytes_of as bytes_of_dump, documents};
ghost use Rattle.bd_io_device.specs.Devices.{Over, Reader, over};
ghost use Rattle.bd_cursor_request.specs.Request.{request_view};
ghost use Rattle.bd_cli_scan.specs.{Input.ReadsInput, Input.ReadsNoFurther, Run.Prints};
ghost use Rattle.bd_cli_find.specs.{Find.around_of, Find.found_run, Options.fits_batch};
ghost use Rattle.bd_wide_copy.specs.Dump.{AreDocuments, bytes_of};
ghost use Rattle.bd_wide_find.specs.Find.{around_in, printing_in, printing_of, wide_find_run};
ghost use Rattle.bd_wide_layout.specs.Layout.{layout_view};
ghost use Rattle.bd_wide_find.specs.inside.Fault.{IsReported};
ghost use Rattle.bd_wide_find.specs.inside.Question.{ReadsOptions};

use crate::coded::{Coded, code};
use crate::load::load_wide;
use crate::printer::{LaidOut, LaidOutWide, NamedBytes, WideBytes};
use crate::question::{Question, read_question};
use bd_bson_dump::{Dump, index_dump};
use bd_cli_args::{FindOptions, Form};
use bd_cli_files::load::report_load_fault;
use bd_cli_find::{
    Around, Search, SearchFault, print_around, print_count, print_found, report_refused,
};
use bd_cli_print::PlacePrinter;
use bd_cli_scan::Status;
use bd_cli_scan::output::{report_error, report_no_memory};
use bd_io_device::{Input, Output};
use bd_wide_copy::WideDump;
use bd_wide_layout::Layout;
use std::alloc::Global;

/// Reads the whole input unless the query with this text or an option is refused, and prints the first batch of the requested
/// documents in this form, their texts in this layout; without a size, all of them. Nothing is written to standard output if the input
/// is not a dump. The query of the options is not read.
pub fn find<R: Input, O: Output, E: Output>(
    alloc: Global,
    program: &str,
    layout: &Layout,
    form: Form,
    text: &[u8],
    options: &FindOptions,
    input: &mut R,
    out: &mut O,
    err: &mut E,
) -> Status
    ensures found { Prints program.now
        (wide_find_run (printing_of (layout_view layout.now) form) text.now options.now
        (over R.state input.old input.new))
        (over O.state out.old out.new) (over E.state err.old err.new) result }
    ensures stops_reading { ReadsNoFurther R.read_gives input.old input.new }
{
    let question = match read_question(alloc, text, options) {
        Ok(question) => question,
        Err(fault) => return report_fault(alloc, program, &fault, err),
    };
    match load_wide(alloc, input) {
        Ok(dump) => answer(
            alloc, program, layout, form, options, question, dump, out, err,
        ),
        Err(fault) => report_load_fault(alloc, program, &fault, err),
    }
}

/// Prints the answer of a dump: by the dump itself if neither it nor the query has a double or a decimal128.
fn answer<O: Output, E: Output>(
    alloc: Global,
    program: &str,
    layout: &Layout,
    form: Form,
    options: &FindOptions,
    question: Question,
    dump: WideDump,
    out: &mut O,
    err: &mut E,
) -> Status
    requires documents { AreDocuments (bytes_of dump) }
    requires fits { fits_batch options.now.batch ≡ true }
    ensures { (text : List ℕ) (file : Over Reader) → ReadsOptions text options.now question →
        ReadsInput file (Ok (bytes_of dump)) →
        Prints program.now
        (wide_find_run (printing_of (layout_view layout.now) form) text options.now file)
        (over O.state out.old out.new) (over E.state err.old err.new) result }
{
    let Question { query, search } = question;
    if query.numbers.is_empty() && dump.is_plain() {
        return answer_plain(
            alloc, program, layout, form, options, search, dump, out, err,
        );
    }
    match code(alloc, options, &query, &dump) {
        Ok(Coded { search, copy }) => print_form(
            alloc,
            program,
            layout,
            form,
            copy,
            search,
            options.batch,
            &LaidOutWide {
                alloc,
                layout,
                dump: &dump,
            },
            &WideBytes { dump: &dump },
            out,
            err,
        ),
        Err(fault) => report_fault(alloc, program, &fault, err),
    }
}

/// The same by the dump itself.
fn answer_plain<O: Output, E: Output>(
    alloc: Global,
    program: &str,
    layout: &Layout,
    form: Form,
    options: &FindOptions,
    search: Search,
    dump: WideDump,
    out: &mut O,
    err: &mut E,
) -> Status
    requires plain { (ds : List Doc) × IsDump ds (bytes_of dump) }
    requires fits { fits_batch options.now.batch ≡ true }
    ensures { (ds : List Doc) → IsDump ds (bytes_of dump) →
        Prints program.now (found_run
        (printing_of (layout_view layout.now) form (bytes_of dump)) options.now.batch
        (request_view search.request, search.token) (bytes_of dump) ds)
        (over O.state out.old out.new) (over E.state err.old err.new) result }
{
    let (bytes, starts) = dump.into_parts();
    match index_dump(alloc, bytes) {
        Ok(dump) => print_form(
            alloc,
            program,
            layout,
            form,
            dump,
            search,
            options.batch,
            &LaidOut {
                alloc,
                layout,
                starts: &starts,
            },
            &NamedBytes { starts: &starts },
            out,
            err,
        ),
        Err(_) => report_no_memory(program, err),
    }
}

/// Prints the first batch of a search in this form: by a printer of texts, or by one of bytes.
fn print_form<T: PlacePrinter, B: PlacePrinter, O: Output, E: Output>(
    alloc: Global,
    program: &str,
    layout: &Layout,
    form: Form,
    dump: Dump,
    search: Search,
    size: Option<u32>,
    texts: &T,
    bytes: &B,
    out: &mut O,
    err: &mut E,
) -> Status
    requires within_limit { length (documents dump) ≤ greatest_count }
    requires fits { fits_batch size ≡ true }
    requires texts { (place : ℕ) → place < length (documents dump) →
        T.can_print texts.now dump place }
    requires bytes { (place : ℕ) → place < length (documents dump) →
        B.can_print bytes.now dump place }
    ensures { Prints program.now (found_run
        (printing_in (layout_view layout.now) form (T.is_text texts.now dump)
        (B.is_text bytes.now dump)) size
        (request_view search.request, search.token) (bytes_of_dump dump) (documents dump))
        (over O.state out.old out.new) (over E.state err.old err.new) result }
{
    match form {
        Form::Lines => {
            let around = around_in(layout);
            print_around(alloc, program, dump, search, size, texts, &around, out, err)
        }
        Form::Bson => print_found(alloc, program, dump, search, size, bytes, b"", out, err),
        Form::Count => print_count(alloc, program, dump, search, size, out, err),
    }
}

/// What is around the texts of documents in a layout.
fn around_in(layout: &Layout) -> Around<'_>
    ensures { around_of result ≡ around_in (layout_view layout.now) }
{
    Around {
        opening: layout.opening(),
        separator: layout.separator(),
        ending: layout.ending(),
        closing: layout.closing(),
    }
}

/// Reports why there is no search.
fn report_fault<E: Output>(alloc: Global, program: &str, fault: &SearchFault, err: &mut E) -> Status
    ensures { IsReported program.now (over E.state err.old err.new) result fault.now }
{
    match fault {
        SearchFault::NoMemory => report_no_memory(program, err),
        SearchFault::Refused(refused) => report_refused(alloc, program, refused, err),
        SearchFault::Message(message) => report_error(program, message, err),
    }
}
