//! `pack`: the documents in lines of text, as BSON.

ghost use Rattle.std.specs.Prelude.{◌≡◌, ◌++◌, ◌∷◌, ◌+◌, ◌≤◌, ℕ, List, [], Err, IfErr, IfOk, IfSome, None, OnErr, OnOk, Ok, codes, length, decimal};
ghost use Rattle.bd_value.specs.Limits.{longest_input};
ghost use Rattle.bd_io_device.specs.Devices.{TakesText, WriteFailsWithin, over};
ghost use Rattle.bd_io_lines.specs.Lines.{text_lines};
ghost use Rattle.bd_cli_scan.specs.Input.{ReadsInput, ReadsNoFurther};
ghost use Rattle.bd_cli_scan.specs.Output.{error_line, reported_bytes, wrong_line, wrong_status};
ghost use Rattle.bd_cli_scan.specs.Run.{Prints, ReportsMessage};
ghost use Rattle.bd_cli_files.specs.Pack.{Form, advised, bad_line_text, byte_text, line_fault_text, named, objects_packed, pack_run, pack_run_by, text_run};
ghost use Rattle.bd_cli_files.specs.inside.Pack.{ArePacked, IsTaken, packing_text};

use bd_cli_scan::Status;
use bd_cli_scan::output::{
    report_end, report_read_fault, report_unwritten, status_of, write_count, write_pair,
};
use bd_extjson_fault::{JsonFault, JsonFaultKind};
use bd_extjson_pack::{LineFault, Packer};
use bd_io_device::{DeviceFault, Input, Output, ReadFault, write_all};
use bd_io_lines::{find_newline, is_empty_line};
use bd_value::{LONGEST_INPUT, NoMemory};
use itoa::Buffer;
use std::alloc::Global;

/// After the number of documents.
const OBJECTS_PACKED: &str = " objects packed\n";

/// Reads the whole input, and writes the BSON of its lines' documents, up to the first line that is no document.
///
/// It is not inlined: a packer takes 16 KiB of the stack, which the other commands do not need.
#[inline(never)]
pub fn pack<R: Input, O: Output, E: Output>(
    alloc: Global,
    program: &str,
    input: &mut R,
    out: &mut O,
    err: &mut E,
) -> Status
    ensures packs { Prints program.now (pack_run (over R.state input.old input.new))
        (over O.state out.old out.new) (over E.state err.old err.new) result }
    ensures stops_reading { ReadsNoFurther R.read_gives input.old input.new }
{
    pack_by(alloc, program, &mut Packer::new(alloc), input, out, err)
}

/// What packs lines.
pub trait LinePacker {
    /// Which lines it packs, and as what.
    ghost form: { Form };

    /// Appends the BSON of the document that the line is, or returns why the line is not packed, with `out` unchanged.
    ///
    /// # Errors
    /// `NoMemory` if memory runs out; `out` is unchanged.
    fn pack_line(&mut self, line: &[u8], out: &mut Vec<u8>) -> Result<Option<LineFault>, NoMemory>
        ensures packed { result ≡ Ok None → (d : form.Document) × form.IsPackable line.now d
            × (out.new.items ≡ out.old.items ++ form.bson d) }
        ensures bad { IfOk result (λ o. IfSome o (λ f.
            form.IsBad line.now f × (out.new.items ≡ out.old.items))) }
        ensures err { OnErr result (out.new.items ≡ out.old.items) };

    /// What to write instead in a line that is not packed, for this reason, if that is known.
    fn advice(&self, line: &[u8], fault: LineFault) -> Option<&'static str>
        ensures { reported_bytes result ≡ form.advice line.now fault };
}

/// Reads the whole input, and writes the BSON of its lines' documents, up to the first line that is not packed.
///
/// It is not inlined: it takes 16 KiB of the stack, which the other commands do not need.
#[inline(never)]
pub fn pack_by<P: LinePacker + Drop, R: Input, O: Output, E: Output>(
    alloc: Global,
    program: &str,
    packer: P,
    input: &mut R,
    out: &mut O,
    err: &mut E,
) -> Status
    ensures packs { Prints program.now (pack_run_by P.form (over R.state input.old input.new))
        (over O.state out.old out.new) (over E.state err.old err.new) result }
    ensures stops_reading { ReadsNoFurther R.read_gives input.old input.new }
{
    let mut packing = Packing::new(alloc, packer);
    match pack_input(alloc, input, &mut packing) {
        Ok(()) => write_packing(program, &packing, out, err),
        Err(fault) => report_read_fault(program, fault, err),
    }
}

/// A borrowed packer, which is as small as a reference.
impl<P: LinePacker> LinePacker for &mut P {
    ghost form = { P.form };

    #[inline(always)]
    fn pack_line(&mut self, line: &[u8], out: &mut Vec<u8>) -> Result<Option<LineFault>, NoMemory> {
        LinePacker::pack_line(&mut **self, line, out)
    }

    #[inline(always)]
    fn advice(&self, line: &[u8], fault: LineFault) -> Option<&'static str> {
        LinePacker::advice(&**self, line, fault)
    }
}

impl LinePacker for Packer {
    ghost form = { named };

    #[inline(always)]
    fn pack_line(&mut self, line: &[u8], out: &mut Vec<u8>) -> Result<Option<LineFault>, NoMemory> {
        Packer::pack_line(self, line, out)
    }

    #[inline(always)]
    fn advice(&self, _line: &[u8], _fault: LineFault) -> Option<&'static str> {
        None
    }
}

/// Reads the whole input, and packs each of its lines as soon as its end was read.
fn pack_input<P: LinePacker, R: Input>(
    alloc: Global,
    input: &mut R,
    packing: &mut Packing<P>,
) -> Result<(), ReadFault>
    requires none { ArePacked P.form [] packing.old }
    requires counts { (packing.old.count ≡ 0) × (packing.old.lines ≡ 0) }
    ensures packs { OnOk result ((text : List ℕ)
        × ReadsInput (over R.state input.old input.new) (Ok text)
        × ArePacked P.form (text_lines text) packing.new) }
    ensures fault { IfErr result (λ fault.
        ReadsInput (over R.state input.old input.new) (Err fault)) }
    ensures stops_reading { ReadsNoFurther R.read_gives input.old input.new }
{
    let mut partial = Vec::new(alloc);
    let mut block = [0u8; 16384];
    let mut remaining = LONGEST_INPUT;
    loop {
        let Ok(n) = input.read(&mut block) else {
            return Err(ReadFault::Device);
        };
        if n == 0 {
            break;
        }
        if remaining < n as u64 {
            return Err(ReadFault::TooLong);
        }
        remaining -= n as u64;
        let Ok(()) = packing.pack_block(&mut partial, &block[..n]) else {
            return Err(ReadFault::NoMemory);
        };
    }
    match packing.pack_line(&partial) {
        Ok(()) => Ok(()),
        Err(_) => Err(ReadFault::NoMemory),
    }
}

/// Writes the documents of the lines that were packed, and reports them.
fn write_packing<P: LinePacker, O: Output, E: Output>(
    program: &str,
    packing: &Packing<P>,
    out: &mut O,
    err: &mut E,
) -> Status
    ensures { (text : List ℕ) → ArePacked P.form (text_lines text) packing.now →
        Prints program.now (text_run P.form text)
        (over O.state out.old out.new) (over E.state err.old err.new) result }
{
    match write_all(out, &packing.bytes) {
        Ok(()) => report_packing(program, packing, err),
        Err(_) => report_unwritten(program, err),
    }
}

/// A line that is not packed.
#[derive(Clone, Copy, Debug, Drop, PartialEq, Eq)]
pub struct BadLine {
    /// Its number, from 1.
    pub number: u64,
    /// Why it is not packed.
    pub fault: LineFault,
}

/// The lines of a text that have ended.
#[derive(Drop)]
struct Packing<P> {
    packer: P,
    /// The BSON of the documents before the first bad line.
    bytes: Vec<u8>,
    /// How many documents these are.
    count: u64,
    /// How many lines have ended.
    lines: u64,
    bad: Option<BadLine>,
    /// What to write instead in the bad line, if that is known.
    advice: Option<&'static str>,
}

impl<P: LinePacker> Packing<P> {
    /// No lines. It takes no memory yet.
    fn new(alloc: Global, packer: P) -> Packing<P>
        ensures none { ArePacked P.form [] result }
        ensures counts { (result.count ≡ 0) × (result.lines ≡ 0) }
    {
        Packing {
            packer,
            bytes: Vec::new(alloc),
            count: 0,
            lines: 0,
            bad: None,
            advice: None,
        }
    }

    /// Packs the lines that end in a block, the first of which begins with `partial`, and leaves there the part of a line after
    /// them.
    fn pack_block(&mut self, partial: &mut Vec<u8>, block: &[u8]) -> Result<(), NoMemory>
        requires { (self.old.count ≤ self.old.lines)
            × (self.old.lines + length block.now ≤ longest_input) }
        ensures packs { (text : List ℕ) → IsTaken P.form text self.old partial.old.items →
            OnOk result (IsTaken P.form (text ++ block.now) self.new partial.new.items) }
        ensures counts { OnOk result ((self.new.count ≤ self.new.lines)
            × (self.new.lines ≤ self.old.lines + length block.now)) }
    {
        let mut rest = block;
        while let Some(end) = find_newline(rest) {
            self.end_line(partial, &rest[..end])?;
            rest = &rest[end + 1..];
        }
        partial.extend_from_slice(rest)
    }

    /// Packs the line that begins with `partial`, which is then empty, and ends with these bytes.
    fn end_line(&mut self, partial: &mut Vec<u8>, end: &[u8]) -> Result<(), NoMemory>
        requires { (self.old.count ≤ self.old.lines) × (self.old.lines ≤ longest_input) }
        ensures packs { (lines : List (List ℕ)) → ArePacked P.form lines self.old →
            OnOk result (ArePacked P.form (lines ++ (partial.old.items ++ end.now) ∷ []) self.new) }
        ensures partial { OnOk result (partial.new.items ≡ []) }
        ensures counts { OnOk result ((self.new.count ≤ self.new.lines)
            × (self.new.lines ≡ self.old.lines + 1)) }
    {
        if partial.is_empty() {
            return self.pack_line(end);
        }
        partial.extend_from_slice(end)?;
        self.pack_line(partial)?;
        partial.clear();
        Ok(())
    }

    /// Packs a line, unless one before it is bad.
    fn pack_line(&mut self, line: &[u8]) -> Result<(), NoMemory>
        requires { (self.old.count ≤ self.old.lines) × (self.old.lines ≤ longest_input) }
        ensures packs { (lines : List (List ℕ)) → ArePacked P.form lines self.old →
            OnOk result (ArePacked P.form (lines ++ line.now ∷ []) self.new) }
        ensures counts { OnOk result ((self.new.count ≤ self.new.lines)
            × (self.new.lines ≡ self.old.lines + 1)) }
    {
        self.lines += 1;
        if self.bad.is_some() || is_empty_line(line) {
            return Ok(());
        }
        match self.packer.pack_line(line, &mut self.bytes)? {
            None => self.count += 1,
            Some(fault) => {
                let number = self.lines;
                self.bad = Some(BadLine { number, fault });
                self.advice = self.packer.advice(line, fault);
            }
        }
        Ok(())
    }
}

/// Reports how lines were packed, after the bytes on standard output. It takes no memory.
fn report_packing<P, E: Output>(program: &str, packing: &Packing<P>, err: &mut E) -> Status
    ensures { ReportsMessage (over E.state err.old err.new)
        (wrong_line program.now (packing_text packing.now)
        ++ (decimal packing.now.count ++ objects_packed))
        (wrong_status (packing_text packing.now)) result }
{
    match packing.bad {
        None => report_end(program, None, packing.count, OBJECTS_PACKED, err),
        Some(bad) => status_of(
            write_end(program, bad, packing.advice, packing.count, err),
            Status::Failed,
        ),
    }
}

/// Writes the line of a bad line, and how many documents were packed.
#[tactic(auto, using(bd_cli_scan::proofs::OutputLemmas::taking))]
fn write_end<E: Output>(
    program: &str,
    bad: BadLine,
    advice: Option<&str>,
    count: u64,
    err: &mut E,
) -> Result<(), DeviceFault>
    ensures ok { OnOk result (TakesText (over E.state err.old err.new)
        (error_line program.now (advised (bad_line_text bad) (reported_bytes advice.entry))
        ++ (decimal count ++ objects_packed))) }
    ensures err { OnErr result (WriteFailsWithin (over E.state err.old err.new)
        (error_line program.now (advised (bad_line_text bad) (reported_bytes advice.entry))
        ++ (decimal count ++ objects_packed))) }
{
    write_bad_line(program, bad, advice, err)?;
    write_count(count, OBJECTS_PACKED, err)
}

/// Writes the line of a bad line.
#[tactic(auto, using(bd_cli_scan::proofs::OutputLemmas::taking))]
fn write_bad_line<E: Output>(
    program: &str,
    bad: BadLine,
    advice: Option<&str>,
    err: &mut E,
) -> Result<(), DeviceFault>
    ensures ok { OnOk result (TakesText (over E.state err.old err.new)
        (error_line program.now (advised (bad_line_text bad) (reported_bytes advice.entry)))) }
    ensures err { OnErr result (WriteFailsWithin (over E.state err.old err.new)
        (error_line program.now (advised (bad_line_text bad) (reported_bytes advice.entry)))) }
{
    write_pair(program, ": ", err)?;
    write_advised(bad, advice, err)?;
    write_all(err, b"\n")
}

/// Writes which line is bad, why, and what to write instead, if that is known.
#[tactic(auto, using(bd_cli_scan::proofs::OutputLemmas::taking))]
fn write_advised<E: Output>(
    bad: BadLine,
    advice: Option<&str>,
    err: &mut E,
) -> Result<(), DeviceFault>
    ensures ok { OnOk result (TakesText (over E.state err.old err.new)
        (advised (bad_line_text bad) (reported_bytes advice.entry))) }
    ensures err { OnErr result (WriteFailsWithin (over E.state err.old err.new)
        (advised (bad_line_text bad) (reported_bytes advice.entry))) }
{
    match advice {
        None => write_message(bad, err),
        Some(advice) => {
            write_message(bad, err)?;
            write_pair("; ", advice, err)
        }
    }
}

/// Writes which line is bad, and why.
#[tactic(auto, using(bd_cli_scan::proofs::OutputLemmas::taking))]
fn write_message<E: Output>(bad: BadLine, err: &mut E) -> Result<(), DeviceFault>
    ensures ok { OnOk result (TakesText (over E.state err.old err.new) (bad_line_text bad)) }
    ensures err { OnErr result
        (WriteFailsWithin (over E.state err.old err.new) (bad_line_text bad)) }
{
    let mut buffer = Buffer::new();
    write_all(err, b"line ")?;
    write_all(err, buffer.format(bad.number).as_bytes())?;
    write_line_fault(bad.fault, err)
}

/// Writes why a line is bad, after its number.
#[tactic(auto, using(bd_cli_scan::proofs::OutputLemmas::taking))]
fn write_line_fault<E: Output>(fault: LineFault, err: &mut E) -> Result<(), DeviceFault>
    ensures ok { OnOk result (TakesText (over E.state err.old err.new) (line_fault_text fault)) }
    ensures err { OnErr result
        (WriteFailsWithin (over E.state err.old err.new) (line_fault_text fault)) }
{
    match fault {
        LineFault::Unread(fault) => {
            write_byte(fault, err)?;
            write_pair(": ", fault.kind.words(), err)
        }
        LineFault::TooLong => write_all(err, b": document too long"),
    }
}

/// Writes the byte of a fault, after the number of its line; nothing if the line as a whole is no document.
#[tactic(auto, using(bd_cli_scan::proofs::OutputLemmas::taking, bd_io_device::proofs::DevicesLemmas::takes_none))]
fn write_byte<E: Output>(fault: JsonFault, err: &mut E) -> Result<(), DeviceFault>
    ensures ok { OnOk result (TakesText
        (over E.state err.old err.new) (byte_text (codes ", byte ") fault.kind fault.at)) }
    ensures err { OnErr result (WriteFailsWithin
        (over E.state err.old err.new) (byte_text (codes ", byte ") fault.kind fault.at)) }
{
    match fault.kind {
        JsonFaultKind::NotADocument => Ok(()),
        _ => {
            let mut buffer = Buffer::new();
            write_all(err, b", byte ")?;
            write_all(err, buffer.format(fault.at).as_bytes())
        }
    }
}
