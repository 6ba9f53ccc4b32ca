//! `check`: a line for each document of an input that has a fault.

ghost use Rattle.std.specs.Prelude.{◌++◌, OnErr, OnOk};
ghost use Rattle.bd_io_device.specs.Devices.{WriteFailsWithin, TakesText, over};
ghost use Rattle.bd_cli_scan.specs.Check.{check_counts, check_run, check_run_under, check_status};
ghost use Rattle.bd_cli_scan.specs.Output.{reported_bytes, wrong_line};
ghost use Rattle.bd_cli_scan.specs.inside.Scan.{check_texts, profile_of};
ghost use Rattle.bd_bson_check.specs.declared.profile.Profile.TheVariants.{All};
ghost use Rattle.bd_cli_scan.specs.Input.{ReadsNoFurther};
ghost use Rattle.bd_cli_scan.specs.Run.{Prints, ReportsMessage};

use crate::input::InputFault;
use crate::output::{
    OutputFault, Status, push_fault, report_stop, status_of, write_count, write_end,
};
use crate::scan::{Visitor, scan_documents};
use bd_bson_check::{Fault, Profile};
use bd_io_device::{DeviceFault, Input, Output, write_all};
use std::alloc::Global;

/// After the number of documents.
const DOCUMENTS: &str = " documents, ";

/// After the number of those that have a fault.
const FAULTY: &str = " faulty\n";

/// Reads an input document by document, and prints the fault of each document that has one. No tree is built.
pub fn check<R: Input, O: Output, E: Output>(
    alloc: Global,
    program: &str,
    input: &mut R,
    out: &mut O,
    err: &mut E,
) -> Status
    ensures checks { Prints program.now (check_run (over R.state input.old input.new))
        (over O.state out.old out.new) (over E.state err.old err.new) result }
    ensures stops_reading { ReadsNoFurther R.read_gives input.old input.new }
{
    check_by::<false, R, O, E>(alloc, program, input, out, err)
}

/// Reads an input document by document, and prints the fault of each document that has one if all types are read. No tree
/// is built.
pub fn check_all_types<R: Input, O: Output, E: Output>(
    alloc: Global,
    program: &str,
    input: &mut R,
    out: &mut O,
    err: &mut E,
) -> Status
    ensures checks { Prints program.now (check_run_under All (over R.state input.old input.new))
        (over O.state out.old out.new) (over E.state err.old err.new) result }
    ensures stops_reading { ReadsNoFurther R.read_gives input.old input.new }
{
    check_by::<true, R, O, E>(alloc, program, input, out, err)
}

/// The same under either profile.
fn check_by<const ALL: bool, R: Input, O: Output, E: Output>(
    alloc: Global,
    program: &str,
    input: &mut R,
    out: &mut O,
    err: &mut E,
) -> Status
    ensures checks { Prints program.now
        (check_run_under (profile_of ALL) (over R.state input.old input.new))
        (over O.state out.old out.new) (over E.state err.old err.new) result }
    ensures stops_reading { ReadsNoFurther R.read_gives input.old input.new }
{
    let mut line = String::new(alloc);
    match scan_documents(alloc, input, &Checker::<ALL>, &mut line, out) {
        Ok(scan) => match scan.fault {
            None => report_findings(program, scan.count, scan.bad, None, err),
            // A bad length: the scan cannot find the next document.
            Some(InputFault::Faulty(_)) => {
                report_findings(program, scan.count + 1, scan.bad + 1, None, err)
            }
            Some(InputFault::Unread(fault)) => {
                report_findings(program, scan.count, scan.bad, Some(fault.words()), err)
            }
        },
        Err(fault) => report_stop(program, fault, err),
    }
}

/// Writes a line for each document that has a fault, if all types are read or not.
#[derive(Clone, Copy)]
struct Checker<const ALL: bool>;

impl<O: Output, const ALL: bool> Visitor<String, O> for Checker<ALL> {
    ghost texts = { λ _. check_texts (profile_of ALL) };

    fn profile(&self) -> Profile {
        if ALL { Profile::All } else { Profile::Named }
    }

    fn visit(
        &self,
        _number: u32,
        _document: &[u8],
        _line: &mut String,
        _out: &mut O,
    ) -> Result<(), OutputFault> {
        Ok(())
    }

    fn ends_at_fault(&self) -> bool {
        false
    }

    fn meet(&self, fault: &Fault, line: &mut String, out: &mut O) -> Result<(), OutputFault> {
        line.clear();
        push_fault(fault, line)?;
        line.push('\n')?;
        Ok(write_all(out, line.as_bytes())?)
    }
}

/// Reports how many documents were checked, how many have a fault, and why no more of the input was read. It takes no memory.
fn report_findings<E: Output>(
    program: &str,
    documents: u32,
    faulty: u32,
    message: Option<&str>,
    err: &mut E,
) -> Status
    ensures { ReportsMessage (over E.state err.old err.new)
        (wrong_line program.now (reported_bytes message.entry) ++ check_counts documents faulty)
        (check_status (reported_bytes message.entry) faulty) result }
{
    let wanted = match (faulty, message) {
        (0, None) => Status::Done,
        _ => Status::Failed,
    };
    status_of(
        write_findings(program, documents, faulty, message, err),
        wanted,
    )
}

/// Writes the text for standard error.
#[tactic(auto, using(crate::proofs::OutputLemmas::taking))]
fn write_findings<E: Output>(
    program: &str,
    documents: u32,
    faulty: u32,
    message: Option<&str>,
    err: &mut E,
) -> Result<(), DeviceFault>
    ensures ok { OnOk result (TakesText (over E.state err.old err.new)
        (wrong_line program.now (reported_bytes message.entry) ++ check_counts documents faulty)) }
    ensures err { OnErr result (WriteFailsWithin (over E.state err.old err.new)
        (wrong_line program.now (reported_bytes message.entry) ++ check_counts documents faulty)) }
{
    write_end(program, message, u64::from(documents), DOCUMENTS, err)?;
    write_count(u64::from(faulty), FAULTY, err)
}
