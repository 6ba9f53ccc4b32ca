//! The first batch of a request, and what is around its documents.

ghost use Rattle.std.specs.Prelude.{◌≡◌, ◌++◌, ◌<◌, ◌≤◌, ℕ, List, IfErr, IfOk, Ok, OnOk, Option, length, true};
ghost use Rattle.std.specs.List.{All};
ghost use Rattle.bd_value.specs.Limits.{greatest_count};
ghost use Rattle.bd_io_device.specs.Devices.{over};
ghost use Rattle.bd_cursor_model.specs.Session.{OpenCursor};
ghost use Rattle.bd_bson_dump.specs.{Collection.bytes_of, Collection.documents};
ghost use Rattle.bd_cursor.specs.SessionView.{given_batch};
ghost use Rattle.bd_cursor_request.specs.Request.{request_view};
ghost use Rattle.bd_cli_scan.specs.Run.{Prints};
ghost use Rattle.bd_cli_find.specs.Options.{fits_batch};
ghost use Rattle.bd_cli_find.specs.Find.{IsPart, around_documents, around_of, batch_run, document_parts, found_run, parts};
ghost use Rattle.bd_cli_find.specs.inside.Find.{IsBatchOf, StopsAmong, WritesPieces};

use crate::batch::{first_batch, report_batch};
use crate::options::{Search, report_refused};
use bd_bson_dump::Dump;
use bd_cli_print::PlacePrinter;
use bd_cli_scan::Status;
use bd_cli_scan::output::{OutputFault, report_stop};
use bd_cursor::Session;
use bd_cursor_request::Batch;
use bd_extjson_text::append_few;
use bd_io_device::{Output, write_all};
use bd_value::NoMemory;
use std::alloc::Global;

/// What is around the texts of documents.
#[derive(Debug, Clone, Copy)]
pub struct Around<'a> {
    /// Before the first document.
    pub opening: &'a [u8],
    /// Between two documents.
    pub separator: &'a [u8],
    /// After each document.
    pub ending: &'a [u8],
    /// After the last document.
    pub closing: &'a [u8],
}

/// Prints the first batch, of this size, of a search in a dump; without a size all of its documents. The printer has a document
/// for each place of the dump, and `around` is written around the texts.
pub fn print_around<P: PlacePrinter, O: Output, E: Output>(
    alloc: Global,
    program: &str,
    dump: Dump,
    search: Search,
    size: Option<u32>,
    printer: &P,
    around: &Around<'_>,
    out: &mut O,
    err: &mut E,
) -> Status
    requires within_limit { length (documents dump) ≤ greatest_count }
    requires fits { fits_batch size ≡ true }
    requires printable { (place : ℕ) → place < length (documents dump) →
        P.can_print printer.now dump place }
    ensures { Prints program.now (found_run
        (around_documents (P.is_text printer.now dump) (around_of around.now)) size
        (request_view search.request, search.token) (bytes_of dump) (documents dump))
        (over O.state out.old out.new) (over E.state err.old err.new) result }
{
    let mut session = Session::new(alloc, dump);
    match first_batch(alloc, &mut session, search, size) {
        Ok(batch) => print_batch(
            alloc,
            program,
            session.dump(),
            &batch,
            printer,
            around,
            out,
            err,
        ),
        Err(refused) => report_refused(alloc, program, &refused, err),
    }
}

/// Prints a batch, and what is around its documents.
fn print_batch<P: PlacePrinter, O: Output, E: Output>(
    alloc: Global,
    program: &str,
    dump: &Dump,
    batch: &Batch,
    printer: &P,
    around: &Around<'_>,
    out: &mut O,
    err: &mut E,
) -> Status
    requires { All (P.can_print printer.now dump.now) batch.now.places.items }
    ensures { (size : Option ℕ) (cursor : OpenCursor) →
        IsBatchOf size cursor (given_batch batch.now) → Prints program.now (batch_run
        (around_documents (P.is_text printer.now dump.now) (around_of around.now)) size (Ok cursor))
        (over O.state out.old out.new) (over E.state err.old err.new) result }
{
    match write_around(alloc, printer, around, dump, &batch.places, out) {
        Ok(()) => report_batch(batch, err),
        Err(fault) => report_stop(program, fault, err),
    }
}

/// Writes what is before the documents at these places, the documents, and what is after them.
fn write_around<P: PlacePrinter, O: Output>(
    alloc: Global,
    printer: &P,
    around: &Around<'_>,
    dump: &Dump,
    places: &[u32],
    out: &mut O,
) -> Result<(), OutputFault>
    requires { All (P.can_print printer.now dump.now) places.now }
    ensures wrote { OnOk result (WritesPieces
        (IsPart (P.is_text printer.now dump.now) (around_of around.now))
        (parts places.now) (over O.state out.old out.new)) }
    ensures stops { IfErr result (StopsAmong
        (IsPart (P.is_text printer.now dump.now) (around_of around.now))
        (parts places.now) (over O.state out.old out.new)) }
{
    write_all(out, around.opening)?;
    write_between(alloc, printer, around, dump, places, out)?;
    Ok(write_all(out, around.closing)?)
}

/// Writes the documents at these places, and what is between them.
fn write_between<P: PlacePrinter, O: Output>(
    alloc: Global,
    printer: &P,
    around: &Around<'_>,
    dump: &Dump,
    places: &[u32],
    out: &mut O,
) -> Result<(), OutputFault>
    requires { All (P.can_print printer.now dump.now) places.now }
    ensures wrote { OnOk result (WritesPieces
        (IsPart (P.is_text printer.now dump.now) (around_of around.now))
        (document_parts places.now) (over O.state out.old out.new)) }
    ensures stops { IfErr result (StopsAmong
        (IsPart (P.is_text printer.now dump.now) (around_of around.now))
        (document_parts places.now) (over O.state out.old out.new)) }
{
    let mut buffer = Vec::new(alloc);
    let mut before: &[u8] = b"";
    for place in places {
        let piece = piece_between(printer, before, around.ending, dump, *place, &mut buffer)?;
        write_all(out, piece)?;
        before = around.separator;
    }
    Ok(())
}

/// The text of the document for a place between two other texts, in a buffer that has no other use.
#[inline(always)]
fn piece_between<'a, P: PlacePrinter>(
    printer: &P,
    before: &[u8],
    ending: &[u8],
    dump: &Dump,
    place: u32,
    buffer: &'a mut Vec<u8>,
) -> Result<&'a [u8], NoMemory>
    requires { P.can_print printer.now dump.now place }
    ensures { IfOk result (λ piece. (text : List ℕ)
        × P.is_text printer.now dump.now place text
        × (piece.now ≡ before.now ++ (text ++ ending.now))) }
{
    let at = append_few(before, buffer, 0)?;
    let at = printer.append(dump, place, buffer, at)?;
    let at = append_few(ending, buffer, at)?;
    Ok(&buffer[..at])
}
