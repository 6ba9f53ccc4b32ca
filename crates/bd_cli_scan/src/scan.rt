//! A scan of the documents of an input, one after the other, for `dump` and for `check`.

ghost use Rattle.std.specs.Prelude.{◌≡◌, ◌<◌, ◌≤◌, ℕ, List, [], None, IfErr, IfOk, is_none, unwrap_or};
ghost use Rattle.bd_value.specs.Limits.{longest_input};
ghost use Rattle.bd_io_device.specs.Devices.{over};
ghost use Rattle.bd_bson_check.specs.Fault.{fault_view, Fault as DumpFault};
ghost use Rattle.bd_bson_check.specs.FirstFault.{fault_under};
ghost use Rattle.bd_cli_scan.specs.inside.Scan.{ScansDocuments, StopsScan, Texts};
ghost use Rattle.bd_cli_scan.specs.Input.{ReadsNoFurther};
ghost use Rattle.bd_cli_scan.specs.inside.Output.{WritesSome, WritesText};

use crate::input::{InputFault, LIMITS};
use crate::output::{OutputFault, is_want_of_memory};
use bd_bson_check::{Fault, Profile, check_bytes};
use bd_bson_stream::{DocBuffer, DocFault};
use bd_io_device::{Input, Output, ReadFault};
use std::alloc::Global;

/// Receives the documents of an input, each before the next is read, with a buffer for what it writes.
pub(crate) trait Visitor<B, O: Output> {
    /// What is written for them.
    ghost texts: { Self → Texts };

    /// Which types the documents may have.
    fn profile(&self) -> Profile
        ensures { result ≡ (texts self.now).profile };

    /// Receives the number and the bytes of a document without a fault.
    fn visit(
        &self,
        number: u32,
        document: &[u8],
        buffer: &mut B,
        out: &mut O,
    ) -> Result<(), OutputFault>
        requires { (base : ℕ) × (fault_under (texts self.now).profile base document.now ≡ None) }
        ensures { WritesSome ((texts self.now).IsGood number document.now)
            (over O.state out.old out.new) result };

    /// Whether the scan ends at the first document with a fault.
    fn ends_at_fault(&self) -> bool
        ensures { (number : ℕ) (f : DumpFault) →
            result ≡ is_none ((texts self.now).bad number f) };

    /// Receives the fault of a document.
    fn meet(&self, fault: &Fault, buffer: &mut B, out: &mut O) -> Result<(), OutputFault>
        ensures { WritesText
            (unwrap_or ((texts self.now).bad fault.now.document (fault_view fault.now)) [])
            (over O.state out.old out.new) result };
}

/// Scans the documents of an input.
pub(crate) fn scan_documents<B, R: Input, O: Output, V: Visitor<B, O>>(
    alloc: Global,
    input: &mut R,
    visitor: &V,
    line: &mut B,
    out: &mut O,
) -> Result<DumpScan, OutputFault>
    ensures within_limit { IfOk result (λ w. (w.count < longest_input) × (w.bad ≤ w.count)) }
    ensures scans { IfOk result (ScansDocuments (V.texts visitor.now)
        (over R.state input.old input.new) (over O.state out.old out.new)) }
    ensures stops { IfErr result (StopsScan (V.texts visitor.now)
        (over R.state input.old input.new) (over O.state out.old out.new)) }
    ensures stops_reading { ReadsNoFurther R.read_gives input.old input.new }
{
    let profile = visitor.profile();
    let mut buffer = DocBuffer::new(alloc, LIMITS);
    let mut bad = 0;
    loop {
        let base = buffer.offset();
        let count = buffer.number();
        match buffer.read_next(input) {
            Ok(true) => {
                let bytes = buffer.bytes();
                match check_bytes(alloc, profile, bytes, base, count) {
                    Ok(()) => visitor.visit(count, bytes, line, out)?,
                    Err(fault) => {
                        if is_want_of_memory(&fault) {
                            return Err(OutputFault::NoMemory);
                        }
                        if visitor.ends_at_fault() {
                            return Ok(ended(count, bad, InputFault::Faulty(fault)));
                        }
                        visitor.meet(&fault, line, out)?;
                        bad += 1;
                    }
                }
            }
            Ok(false) => {
                let fault = None;
                return Ok(DumpScan { count, bad, fault });
            }
            Err(DocFault::Frame(fault)) => {
                let fault = fault.to_fault(alloc);
                // A bad length: the scan cannot find the next document.
                visitor.meet(&fault, line, out)?;
                return Ok(ended(count, bad, InputFault::Faulty(fault)));
            }
            Err(DocFault::Read(ReadFault::NoMemory)) => return Err(OutputFault::NoMemory),
            Err(DocFault::Read(fault)) => {
                return Ok(ended(count, bad, InputFault::Unread(fault)));
            }
            Err(DocFault::Failed) => unreachable!(),
        }
    }
}

/// A scan that ended before the end of the input.
fn ended(count: u32, bad: u32, fault: InputFault) -> DumpScan
    ensures { (result.count ≡ count) × (result.bad ≡ bad) × (result.fault ≡ Some fault) }
{
    let fault = Some(fault);
    DumpScan { count, bad, fault }
}

/// The documents of an input that were scanned.
#[derive(Debug, Drop)]
pub struct DumpScan {
    /// How many there are.
    pub count: u32,
    /// How many of them have a fault.
    pub bad: u32,
    /// Why the scan ended before the end of the input, if it did.
    pub fault: Option<InputFault>,
}
