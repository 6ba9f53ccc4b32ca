//! Which of the faults of the two texts is reported.

ghost use Rattle.std.specs.Prelude.{◌≡◌};
ghost use Rattle.bd_wide_substitute.specs.Both.{earlier as earlier_of, has_no_byte as has_no_byte_of, is_bad_wrapper as is_bad_wrapper_of};

use bd_extjson_fault::{JsonFault, JsonFaultKind};

/// The earlier of two faults, by their bytes. At one byte a bad wrapper is first; that a text is no document comes last.
pub fn earlier(one: JsonFault, other: JsonFault) -> JsonFault
    ensures { result ≡ earlier_of one other }
{
    if has_no_byte(one) {
        return other;
    }
    if has_no_byte(other) || one.at < other.at {
        return one;
    }
    if one.at == other.at && !is_bad_wrapper(other) {
        return one;
    }
    other
}

/// Whether a fault has no byte, since the text as a whole is no document.
fn has_no_byte(fault: JsonFault) -> bool
    ensures { result ≡ has_no_byte_of fault.kind }
{
    matches!(fault.kind, JsonFaultKind::NotADocument)
}

/// Whether an object is not the wrapper that its name says.
fn is_bad_wrapper(fault: JsonFault) -> bool
    ensures { result ≡ is_bad_wrapper_of fault.kind }
{
    matches!(fault.kind, JsonFaultKind::BadWrapper)
}
