//! `dump`: the documents of an input, one per line.

ghost use Rattle.std.specs.Prelude.{◌≡◌, ◌⊎◌, ◌++◌, ℕ, IfErr, IfOk, None, Some, decimal, option_map};
ghost use Rattle.bd_io_device.specs.Devices.{over};
ghost use Rattle.bd_bson_check.specs.FirstFault.{fault_under};
ghost use Rattle.bd_cli_scan.specs.Dump.{Form, IsPieceOf, closing_after, dump_run, dump_run_by, named, objects_found};
ghost use Rattle.bd_cli_scan.specs.inside.Scan.{PrintsAll, StopsPrinting, dump_texts};
ghost use Rattle.bd_cli_scan.specs.Input.{ReadsNoFurther};
ghost use Rattle.bd_cli_scan.specs.Output.{error_line, input_words, no_memory, wrong_line, wrong_status};
ghost use Rattle.bd_cli_scan.specs.Run.{Prints, ReportsMessage};
ghost use Rattle.bd_cli_scan.specs.declared.output.Status.TheVariants.{Failed};

use crate::input::InputFault;
use crate::output::{OutputFault, Status, message_of, report_end, report_no_memory, report_stop};
use crate::scan::{DumpScan, Visitor, scan_documents};
use bd_bson_check::{Fault, Profile};
use bd_bson_view::RawDoc;
use bd_extjson_text::TextBuffer;
use bd_io_device::{Input, Output, write_all};
use bd_value::NoMemory;
use std::alloc::Global;

/// After the number of documents.
const OBJECTS_FOUND: &str = " objects found\n";

/// Reads an input document by document, and prints each before the next is read.
pub fn dump<R: Input, O: Output, E: Output>(
    alloc: Global,
    program: &str,
    input: &mut R,
    out: &mut O,
    err: &mut E,
) -> Status
    ensures dumps { Prints program.now (dump_run (over R.state input.old input.new))
        (over O.state out.old out.new) (over E.state err.old err.new) result }
    ensures stops_reading { ReadsNoFurther R.read_gives input.old input.new }
{
    let buffer = TextBuffer::new(alloc);
    dump_by(alloc, program, &NamedLines, buffer, input, out, err)
}

/// What makes the pieces that are printed: one for each document, in a buffer, and what is before and after them.
pub trait Pieces<B> {
    /// Which documents it reads, and how it prints them.
    ghost form: { Self → Form };

    /// Which types the documents may have.
    fn profile(&self) -> Profile
        ensures { result ≡ (form self.now).profile };

    /// What is before the first document.
    fn opening(&self) -> &[u8]
        ensures { result.now ≡ (form self.now).opening };

    /// What is printed for the document of that number, the first of which is 0.
    ///
    /// `NoMemory` if memory for it runs out.
    fn piece<'a>(
        &self,
        number: u32,
        document: &[u8],
        buffer: &'a mut B,
    ) -> Result<&'a [u8], NoMemory>
        requires { (base : ℕ) × (fault_under (form self.now).profile base document.now ≡ None) }
        ensures { IfOk result (λ piece. IsPieceOf (form self.now) number document.now piece.now) };

    /// What is after the last document, if nothing is wrong.
    fn closing(&self) -> &[u8]
        ensures { result.now ≡ (form self.now).closing };
}

/// Reads an input document by document, and prints the piece of each before the next is read.
pub fn dump_by<B: Drop, P: Pieces<B>, R: Input, O: Output, E: Output>(
    alloc: Global,
    program: &str,
    pieces: &P,
    buffer: B,
    input: &mut R,
    out: &mut O,
    err: &mut E,
) -> Status
    ensures dumps { Prints program.now
        (dump_run_by (P.form pieces.now) (over R.state input.old input.new))
        (over O.state out.old out.new) (over E.state err.old err.new) result }
    ensures stops_reading { ReadsNoFurther R.read_gives input.old input.new }
{
    let mut buffer = buffer;
    match print_all(alloc, pieces, &mut buffer, input, out) {
        Ok(scan) => report_scan(alloc, program, &scan, err),
        Err(fault) => report_stop(program, fault, err),
    }
}

/// Prints what is before the documents, the pieces of the documents up to the first fault, and what is after them.
fn print_all<B, P: Pieces<B>, R: Input, O: Output>(
    alloc: Global,
    pieces: &P,
    buffer: &mut B,
    input: &mut R,
    out: &mut O,
) -> Result<DumpScan, OutputFault>
    ensures prints { IfOk result (PrintsAll (P.form pieces.now)
        (over R.state input.old input.new) (over O.state out.old out.new)) }
    ensures stops { IfErr result (StopsPrinting (P.form pieces.now)
        (over R.state input.old input.new) (over O.state out.old out.new)) }
    ensures stops_reading { ReadsNoFurther R.read_gives input.old input.new }
{
    write_all(out, pieces.opening())?;
    let scan = scan_documents(alloc, input, &Printer { pieces }, buffer, out)?;
    write_all(out, closing_after::<B, P>(pieces, &scan))?;
    Ok(scan)
}

/// What is after the documents of a scan: nothing, if something is wrong.
fn closing_after<'a, B, P: Pieces<B>>(pieces: &'a P, scan: &DumpScan) -> &'a [u8]
    ensures { result.now ≡ closing_after (P.form pieces.entry.now)
        (option_map input_words scan.entry.now.fault) }
{
    match scan.fault {
        None => pieces.closing(),
        Some(_) => b"",
    }
}

/// The lines of documents of the nineteen kinds.
#[derive(Clone, Copy)]
struct NamedLines;

impl Pieces<TextBuffer> for NamedLines {
    ghost form = { λ _. named };

    fn profile(&self) -> Profile {
        Profile::Named
    }

    fn opening(&self) -> &[u8] {
        b""
    }

    #[inline(always)]
    fn piece<'a>(
        &self,
        _number: u32,
        document: &[u8],
        buffer: &'a mut TextBuffer,
    ) -> Result<&'a [u8], NoMemory> {
        buffer.line(RawDoc::whole(document).value())
    }

    fn closing(&self) -> &[u8] {
        b""
    }
}

/// Writes the piece of each document, up to the first fault.
#[derive(Clone, Copy)]
struct Printer<'a, P> {
    pieces: &'a P,
}

impl<B, O: Output, P: Pieces<B>> Visitor<B, O> for Printer<'_, P> {
    ghost texts = { λ printer. dump_texts (P.form printer.pieces.now) };

    fn profile(&self) -> Profile {
        self.pieces.profile()
    }

    fn visit(
        &self,
        number: u32,
        document: &[u8],
        buffer: &mut B,
        out: &mut O,
    ) -> Result<(), OutputFault> {
        let piece = self.pieces.piece(number, document, buffer)?;
        Ok(write_all(out, piece)?)
    }

    fn ends_at_fault(&self) -> bool {
        true
    }

    fn meet(&self, _fault: &Fault, _buffer: &mut B, _out: &mut O) -> Result<(), OutputFault> {
        Ok(())
    }
}

/// Reports the end of a scan on standard error, after its lines on standard output. Memory is taken only for the path of a fault.
fn report_scan<E: Output>(alloc: Global, program: &str, scan: &DumpScan, err: &mut E) -> Status
    ensures { ReportsMessage (over E.state err.old err.new)
        (wrong_line program.now (option_map input_words scan.now.fault) ++ (decimal scan.now.count
        ++ objects_found)) (wrong_status (option_map input_words scan.now.fault)) result
        ⊎ ((fault : Fault) × (scan.now.fault ≡ Some (InputFault.Faulty fault))
        × ReportsMessage (over E.state err.old err.new)
        (error_line program.now no_memory) Failed result) }
{
    let count = u64::from(scan.count);
    match &scan.fault {
        None => report_end(program, None, count, OBJECTS_FOUND, err),
        Some(fault) => match message_of(fault, &mut String::new(alloc)) {
            Ok(message) => report_end(program, Some(message), count, OBJECTS_FOUND, err),
            Err(_) => report_no_memory(program, err),
        },
    }
}
