//! A dump of all types from its bytes.

ghost use Rattle.std.specs.Prelude.{◌≡◌, ◌≤◌, ◌<◌, ◌+◌, ◌&&◌, ℕ, IfErr, IfOk, None, drop, length, slice_index, true};
ghost use Rattle.std.specs.Option.{is_none};
ghost use Rattle.bd_value.specs.Limits.{longest_input};
ghost use Rattle.bd_bson_check.specs.Dump.{frame_fault_under};
ghost use Rattle.bd_bson_check.specs.Fault.{ReportsFault};
ghost use Rattle.bd_bson_check.specs.FirstFault.{fault_under};
ghost use Rattle.bd_bson_check.specs.declared.profile.Profile.TheVariants.{All, Named};
ghost use Rattle.bd_wide_copy.specs.Dump.{AreDocuments, IsUnread, bytes_of};
ghost use Rattle.bd_wide_copy.specs.Starts.{have_no_fault, starts_of};
ghost use Rattle.bd_wide_copy.specs.inside.Starts.{IsNext};

use crate::dump::WideDump;
use bd_bson_check::{
    Fault, FaultKind, Profile, check_bytes, frame_fault, next_frame, want_of_memory,
};
use bd_value::LONGEST_INPUT;
use std::alloc::Global;

/// Reads all documents of a dump of all types.
///
/// # Errors
///
/// - `FaultKind::DumpTooLong`, before anything is read, exactly if there are more than 4,294,967,295 bytes. It has no offset.
/// - The first fault of the first document that has one under all types, with its number, its offset from the start of the bytes,
///   and its path.
/// - `FaultKind::NoMemory` if memory runs out. It has no offset.
pub fn read_wide_dump(alloc: Global, bytes: Vec<u8>) -> Result<WideDump, Fault>
    ensures documents { IfOk result (λ dump. AreDocuments (bytes_of dump)) }
    ensures bytes { IfOk result (λ dump. bytes_of dump ≡ bytes.items) }
    ensures fault { IfErr result (IsUnread bytes.items) }
{
    if bytes.len() as u64 > LONGEST_INPUT {
        return Err(frame_fault(alloc, FaultKind::DumpTooLong, 0, 0));
    }
    let (starts, plain) = starts_in(alloc, &bytes)?;
    Ok(WideDump {
        bytes,
        starts,
        plain,
    })
}

/// The offsets of the documents in a dump within the limit, and whether they have no double and no decimal128.
fn starts_in(alloc: Global, bytes: &[u8]) -> Result<(Vec<u32>, bool), Fault>
    requires { length bytes.now ≤ longest_input }
    ensures fit { IfOk result (λ r. (i : ℕ) → slice_index bytes.now i < 256) }
    ensures starts { IfOk result (λ r. r.0.items ≡ starts_of bytes.now) }
    ensures sound { IfOk result (λ r. have_no_fault All bytes.now r.0.items ≡ true) }
    ensures plain { IfOk result (λ r. r.1 ≡ have_no_fault Named bytes.now r.0.items) }
    ensures fault { IfErr result (IsUnread bytes.now) }
{
    let mut starts = Vec::new(alloc);
    let mut plain = true;
    let mut at = 0;
    while let Some(next) = next_document(alloc, plain, bytes, at, starts.len() as u32)? {
        if starts.push(at as u32).is_err() {
            return Err(want_of_memory(alloc));
        }
        at = next.end;
        plain = next.plain;
    }
    Ok((starts, plain))
}

/// Where a document ends, and whether neither it nor one before it has a double or a decimal128.
#[derive(Clone, Copy)]
pub(crate) struct Next {
    end: usize,
    plain: bool,
}

/// The document at the offset `at` of a dump, in which it has that number; None at the end.
fn next_document(
    alloc: Global,
    plain: bool,
    bytes: &[u8],
    at: usize,
    number: u32,
) -> Result<Option<Next>, Fault>
    requires inside { at ≤ length bytes.now }
    requires short { length bytes.now ≤ longest_input }
    ensures next { IfOk result (IsNext plain bytes.now at) }
    ensures fault { IfErr result
        (ReportsFault number (frame_fault_under All at (drop at bytes.now))) }
{
    let Some(frame) = next_frame(alloc, bytes, at, number)? else {
        return Ok(None);
    };
    let end = at + frame.length;
    let plain = check(alloc, plain, &bytes[at..end], at as u64, number)?;
    Ok(Some(Next { end, plain }))
}

/// Checks a document under all types. Whether it has no double and no decimal128, if those before it have none.
fn check(alloc: Global, plain: bool, document: &[u8], base: u64, number: u32) -> Result<bool, Fault>
    requires { base + length document.now ≤ longest_input }
    ensures sound { IfOk result (λ p. fault_under All base document.now ≡ None) }
    ensures plain { IfOk result (λ p.
        p ≡ (plain && is_none (fault_under Named base document.now))) }
    ensures fault { IfErr result (ReportsFault number (fault_under All base document.now)) }
{
    if plain {
        match check_bytes(alloc, Profile::Named, document, base, number) {
            Ok(()) => return Ok(true),
            Err(_) => {}
        }
    }
    check_bytes(alloc, Profile::All, document, base, number)?;
    Ok(false)
}
