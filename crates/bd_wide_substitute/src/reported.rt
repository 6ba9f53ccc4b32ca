//! What is wrong with a line, by what is wrong with a text in which its numbers have other values.

ghost use Rattle.std.specs.Prelude.{◌≡◌, List, drop};
ghost use Rattle.bd_wide_substitute.specs.Reported.{IsKindHere, IsKindOfWrapper, IsReported};
ghost use Rattle.bd_wide_substitute.specs.Substitutes.{ArePieces, Piece, origin as origin_of};

use crate::scan::origin;
use crate::wrapped::{read_contents, wrapper_at};
use bd_extjson_fault::{JsonFault, JsonFaultKind};
use bd_wide_read::TextFault;

/// The fault of a line, by the fault of one of its two texts: at the byte of the line. Only a value that stayed in the text has
/// another: it is out of range, or its wrapper is bad.
pub fn fault_of_line(line: &[u8], fault: JsonFault) -> JsonFault
    ensures at { (pieces : List Piece) → ArePieces line.now pieces →
        result.at ≡ origin_of pieces fault.at }
    ensures kind { IsReported (drop result.at line.now) fault.kind result.kind }
{
    let at = origin(line, fault.at);
    JsonFault {
        kind: kind_at(line, at as usize, fault.kind),
        at,
    }
}

/// What is wrong with a line at a byte, by what is wrong with a text.
fn kind_at(line: &[u8], at: usize, kind: JsonFaultKind) -> JsonFaultKind
    ensures { IsReported (drop at line.now) kind result }
{
    match kind {
        JsonFaultKind::NotInProfile => kind_here(line.split_at(at.min(line.len())).1),
        _ => kind,
    }
}

/// What is wrong with a value that is not in the profile, by the bytes that it begins.
fn kind_here(bytes: &[u8]) -> JsonFaultKind
    ensures { IsKindHere bytes.now result }
{
    match bytes {
        [first, ..] if *first == b'-' || first.is_ascii_digit() => JsonFaultKind::NumberRange,
        _ => kind_of_wrapper(bytes),
    }
}

/// What is wrong with a wrapper that is not in the profile.
fn kind_of_wrapper(bytes: &[u8]) -> JsonFaultKind
    ensures { IsKindOfWrapper bytes.now result }
{
    let Some((value_type, string)) = wrapper_at(bytes) else {
        return JsonFaultKind::NotInProfile;
    };
    let Some((contents, _)) = string else {
        return JsonFaultKind::BadWrapper;
    };
    match read_contents(value_type, contents) {
        Ok(_) => JsonFaultKind::NotInProfile,
        Err(TextFault::BadText) => JsonFaultKind::BadWrapper,
        Err(TextFault::OutOfRange) => JsonFaultKind::NumberRange,
    }
}
