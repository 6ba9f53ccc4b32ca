//! The first batch of a request, and its output.

ghost use Rattle.std.specs.Prelude.{◌≡◌, ◌<◌, ◌≤◌, ℕ, IfErr, IfOk, MatchOption, Ok, OnErr, OnOk, Option, length, option_map, true};
ghost use Rattle.std.specs.List.{All};
ghost use Rattle.bd_value.specs.Limits.{greatest_count};
ghost use Rattle.bd_io_device.specs.Devices.{TakesText, WriteFailsWithin, over};
ghost use Rattle.bd_path.specs.PathNames.{path_text};
ghost use Rattle.bd_cursor_model.specs.{Session.OpenCursor, Laws.new_state};
ghost use Rattle.bd_bson_dump.specs.{Collection.bytes_of, Collection.documents};
ghost use Rattle.bd_cursor_sort.specs.Selection.{query_of};
ghost use Rattle.bd_cursor.specs.{Access.way_of, SessionView.dump_of, SessionView.given_batch, SessionView.hint_of, SessionView.positioned_token, SessionView.state_of};
ghost use Rattle.bd_cursor_request.specs.Request.{request_view};
ghost use Rattle.bd_cursor_request.specs.declared.results.Refused.TheVariants.{NoMemory as memory};
ghost use Rattle.bd_cli_scan.specs.Run.{Prints, ReportsMessage};
ghost use Rattle.bd_cli_scan.specs.declared.output.Status.TheVariants.{Done};
ghost use Rattle.bd_cli_find.specs.Options.{fits_batch};
ghost use Rattle.bd_cli_find.specs.Find.{IsEnded, batch_run, each_document, end_words, find_count_line, found_run, their_count, token_words};
ghost use Rattle.bd_cli_find.specs.inside.Find.{AwaitsFirst, IsBatchOf, IsFirstBatch, IsOpenedOn, StopsAmong, WritesPieces, index_way};

use crate::options::{Search, report_refused};
use bd_bson_dump::Dump;
use bd_cli_print::PlacePrinter;
use bd_cli_scan::Status;
use bd_cli_scan::output::{OutputFault, report_stop, status_of, write_count};
use bd_cursor::{Choice, Session};
use bd_cursor_request::{Batch, Refused, Token};
use bd_extjson_text::append_few;
use bd_io_device::{DeviceFault, Output, write_all};
use bd_path::Path;
use bd_value::{GREATEST_COUNT, NoMemory};
use itoa::Buffer;
use std::alloc::Global;

/// After the number of documents, if nothing remains.
const DOCUMENTS_END: &str = " documents, end";

/// After the number of documents, if more remain.
const DOCUMENTS_MORE: &str = " documents, more";

/// Before a token.
const TOKEN: &str = ", token ";

/// Prints the first batch, of this size, of a search in a dump; without a size all of its documents. The printer has a document
/// for each place of the dump, and `end` is written after each document.
pub fn print_found<P: PlacePrinter, O: Output, E: Output>(
    alloc: Global,
    program: &str,
    dump: Dump,
    search: Search,
    size: Option<u32>,
    printer: &P,
    end: &[u8],
    out: &mut O,
    err: &mut E,
) -> Status
    requires within_limit { length (documents dump) ≤ greatest_count }
    requires fits { fits_batch size ≡ true }
    requires printable { (place : ℕ) → place < length (documents dump) →
        P.can_print printer.now dump place }
    ensures { Prints program.now (found_run
        (each_document (P.is_text printer.now dump) end.now) size
        (request_view search.request, search.token) (bytes_of dump) (documents dump))
        (over O.state out.old out.new) (over E.state err.old err.new) result }
{
    let mut session = Session::new(alloc, dump);
    match first_batch(alloc, &mut session, search, size) {
        Ok(batch) => print_batch(
            alloc,
            program,
            session.dump(),
            &batch,
            printer,
            end,
            out,
            err,
        ),
        Err(refused) => report_refused(alloc, program, &refused, err),
    }
}

/// Prints how many documents the first batch of a search has, on a line. No document is printed.
pub fn print_count<O: Output, E: Output>(
    alloc: Global,
    program: &str,
    dump: Dump,
    search: Search,
    size: Option<u32>,
    out: &mut O,
    err: &mut E,
) -> Status
    requires within_limit { length (documents dump) ≤ greatest_count }
    requires fits { fits_batch size ≡ true }
    ensures { Prints program.now (found_run their_count size
        (request_view search.request, search.token) (bytes_of dump) (documents dump))
        (over O.state out.old out.new) (over E.state err.old err.new) result }
{
    let mut session = Session::new(alloc, dump);
    match first_batch(alloc, &mut session, search, size) {
        Ok(batch) => print_number(program, &batch, out, err),
        Err(refused) => report_refused(alloc, program, &refused, err),
    }
}

/// The first batch of a search, by the first cursor of a session; without a size all of its documents.
pub(crate) fn first_batch(
    alloc: Global,
    session: &mut Session,
    search: Search,
    size: Option<u32>,
) -> Result<Batch, Refused>
    requires first { state_of session.now ≡ new_state }
    requires within_limit { length (documents (dump_of session.now)) ≤ greatest_count }
    requires fits { fits_batch size ≡ true }
    ensures batch { IsFirstBatch size (query_of (dump_of session.old) search.request)
        search.token result }
    ensures dump { dump_of session.new ≡ dump_of session.old }
{
    let id = open_first(alloc, session, search)?;
    match session.next(id, most_of(size)) {
        Ok(batch) => Ok(batch),
        // The cursor is open: memory ran out.
        Err(_) => Err(Refused::NoMemory),
    }
}

/// Opens the first cursor of a session: on an answer, or on what follows a token.
fn open_first(alloc: Global, session: &mut Session, search: Search) -> Result<u64, Refused>
    requires { state_of session.now ≡ new_state }
    ensures opened { IsOpenedOn (query_of (dump_of session.old) search.request) search.token
        (option_map path_text search.index) (state_of session.new) result }
    ensures dump { dump_of session.new ≡ dump_of session.old }
{
    let choice = choose(alloc, session, search.index)?;
    match search.token {
        Some(token) => session.resume(search.request, choice, &token),
        None => session.find(search.request, choice),
    }
}

/// How the documents are searched: by the index on that path, which is created, or without one by a scan. It fails only
/// if memory runs out.
fn choose(alloc: Global, session: &mut Session, index: Option<Path>) -> Result<Choice, Refused>
    requires { state_of session.now ≡ new_state }
    ensures choice { IfOk result (λ choice. AwaitsFirst (state_of session.new) (hint_of choice)) }
    ensures way { IfOk result (λ choice. way_of choice ≡ index_way (option_map path_text index)) }
    ensures fault { IfErr result (λ refused. refused ≡ memory) }
    ensures dump { dump_of session.new ≡ dump_of session.old }
{
    let Some(path) = index else {
        return Ok(Choice::Scan);
    };
    let copy = path.try_copy(alloc)?;
    session.create_index(path)?;
    Ok(Choice::Index(copy))
}

/// Prints a batch, a piece for each of its documents.
fn print_batch<P: PlacePrinter, O: Output, E: Output>(
    alloc: Global,
    program: &str,
    dump: &Dump,
    batch: &Batch,
    printer: &P,
    end: &[u8],
    out: &mut O,
    err: &mut E,
) -> Status
    requires { All (P.can_print printer.now dump.now) batch.now.places.items }
    ensures { (size : Option ℕ) (cursor : OpenCursor) →
        IsBatchOf size cursor (given_batch batch.now) → Prints program.now
        (batch_run (each_document (P.is_text printer.now dump.now) end.now) size (Ok cursor))
        (over O.state out.old out.new) (over E.state err.old err.new) result }
{
    match write_documents(alloc, printer, end, dump, &batch.places, out) {
        Ok(()) => report_batch(batch, err),
        Err(fault) => report_stop(program, fault, err),
    }
}

/// Prints how many documents a batch has.
fn print_number<O: Output, E: Output>(
    program: &str,
    batch: &Batch,
    out: &mut O,
    err: &mut E,
) -> Status
    ensures { (size : Option ℕ) (cursor : OpenCursor) →
        IsBatchOf size cursor (given_batch batch.now) →
        Prints program.now (batch_run their_count size (Ok cursor))
        (over O.state out.old out.new) (over E.state err.old err.new) result }
{
    match write_count(batch.places.len() as u64, "\n", out) {
        Ok(()) => report_batch(batch, err),
        Err(_) => report_stop(program, OutputFault::Unwritten, err),
    }
}

/// How many documents a batch size requests; without one, as many as a batch may have.
fn most_of(size: Option<u32>) -> u64
    ensures { MatchOption size (result ≡ greatest_count) (λ n. result ≡ n) }
{
    match size {
        Some(size) => u64::from(size),
        None => GREATEST_COUNT,
    }
}

/// Writes a piece for each of these places. If memory runs out, those for the first of them were written.
fn write_documents<P: PlacePrinter, O: Output>(
    alloc: Global,
    printer: &P,
    end: &[u8],
    dump: &Dump,
    places: &[u32],
    out: &mut O,
) -> Result<(), OutputFault>
    requires { All (P.can_print printer.now dump.now) places.now }
    ensures wrote { OnOk result (WritesPieces (IsEnded (P.is_text printer.now dump.now) end.now)
        places.now (over O.state out.old out.new)) }
    ensures stops { IfErr result (StopsAmong (IsEnded (P.is_text printer.now dump.now) end.now)
        places.now (over O.state out.old out.new)) }
{
    let mut buffer = Vec::new(alloc);
    for place in places {
        let piece = piece_at(printer, end, dump, *place, &mut buffer)?;
        write_all(out, piece)?;
    }
    Ok(())
}

/// What is printed for a place, in a buffer that has no other use.
#[inline(always)]
fn piece_at<'a, P: PlacePrinter>(
    printer: &P,
    end: &[u8],
    dump: &Dump,
    place: u32,
    buffer: &'a mut Vec<u8>,
) -> Result<&'a [u8], NoMemory>
    requires { P.can_print printer.now dump.now place }
    ensures { IfOk result (λ piece.
        IsEnded (P.is_text printer.now dump.now) end.now place piece.now) }
{
    let at = printer.append(dump, place, buffer, 0)?;
    let at = append_few(end, buffer, at)?;
    Ok(&buffer[..at])
}

/// Reports how many documents a batch has, whether nothing remains, and the token after it. It takes no memory.
pub(crate) fn report_batch<E: Output>(batch: &Batch, err: &mut E) -> Status
    ensures { ReportsMessage (over E.state err.old err.new)
        (find_count_line (length batch.now.places.items) batch.now.end
        (option_map positioned_token batch.now.token)) Done result }
{
    status_of(write_counts(batch, err), Status::Done)
}

/// Writes the line that counts the documents of a batch.
#[tactic(auto, using(bd_cli_scan::proofs::OutputLemmas::taking))]
fn write_counts<E: Output>(batch: &Batch, err: &mut E) -> Result<(), DeviceFault>
    ensures ok { OnOk result (TakesText (over E.state err.old err.new)
        (find_count_line (length batch.now.places.items) batch.now.end
        (option_map positioned_token batch.now.token))) }
    ensures err { OnErr result (WriteFailsWithin (over E.state err.old err.new)
        (find_count_line (length batch.now.places.items) batch.now.end
        (option_map positioned_token batch.now.token))) }
{
    let mut buffer = Buffer::new();
    write_all(err, buffer.format(batch.places.len() as u64).as_bytes())?;
    write_all(err, words_of_end(batch.end).as_bytes())?;
    write_token(batch.token, err)?;
    write_all(err, b"\n")
}

/// The text after the number of documents.
fn words_of_end(end: bool) -> &'static str
    ensures { result.now ≡ end_words end }
{
    if end { DOCUMENTS_END } else { DOCUMENTS_MORE }
}

/// Writes a token, if there is one.
#[tactic(auto, using(bd_cli_scan::proofs::OutputLemmas::taking, bd_io_device::proofs::DevicesLemmas::takes_none))]
fn write_token<E: Output>(token: Option<Token>, err: &mut E) -> Result<(), DeviceFault>
    ensures ok { OnOk result (TakesText (over E.state err.old err.new)
        (token_words (option_map positioned_token token))) }
    ensures err { OnErr result (WriteFailsWithin (over E.state err.old err.new)
        (token_words (option_map positioned_token token))) }
{
    let Some(token) = token else {
        return Ok(());
    };
    write_all(err, TOKEN.as_bytes())?;
    write_all(err, &token.characters())
}
