//! A dump from its bytes.

ghost use Rattle.std.specs.Prelude.{◌≡◌, ◌≤◌, List, length, IfOk, IfErr, Some, Ok, Err};
ghost use Rattle.bd_value.specs.{Limits.longest_input, Tree.Doc};
ghost use Rattle.bd_bson_check.specs.Dump.{IsDump};
ghost use Rattle.bd_bson_dump.specs.Collection.{documents, bytes_of, IsUnread};
ghost use Rattle.bd_bson_dump.specs.Starts.{AreAt, documents_starting_at};

use crate::collection::Dump;
use bd_bson_check::{Fault, FaultKind, frame_fault, next_document, want_of_memory};
use bd_bson_view::raw_parts as raw;
use bd_value::{LONGEST_INPUT, NoMemory};
use std::alloc::Global;
use std::cell::Cell;

/// Reads all documents of a dump.
///
/// # Errors
///
/// - `FaultKind::DumpTooLong`, before anything is read, exactly if there are more than 4,294,967,295 bytes. It has no offset.
/// - The first fault of the first document that has one, with its number, its offset from the start of the bytes, and its path.
/// - `FaultKind::NoMemory` if memory runs out. It has no offset.
pub fn read_dump(alloc: Global, bytes: Vec<u8>) -> Result<Dump, Fault>
    ensures dump { IfOk result (λ dump. IsDump (documents dump) bytes.items) }
    ensures bytes { IfOk result (λ dump. bytes_of dump ≡ bytes.items) }
    ensures fault { IfErr result (IsUnread bytes.items) }
{
    if bytes.len() as u64 > LONGEST_INPUT {
        return Err(frame_fault(alloc, FaultKind::DumpTooLong, 0, 0));
    }
    let starts = starts_in(alloc, &bytes)?;
    Ok(Dump {
        bytes,
        starts,
        reads: Cell::new(0),
        value_reads: Cell::new(0),
    })
}

/// The offsets of the documents in a dump within the limit.
fn starts_in(alloc: Global, bytes: &[u8]) -> Result<Vec<u32>, Fault>
    requires { length bytes.now ≤ longest_input }
    ensures dump { IfOk result (λ starts. (all : AreAt bytes.now starts.items)
        × IsDump (documents_starting_at bytes.now starts.items all) bytes.now) }
    ensures within_limit { IfOk result (λ starts. length starts.items ≤ length bytes.now) }
    ensures fault { IfErr result (IsUnread bytes.now) }
{
    let mut starts = Vec::new(alloc);
    let mut at = 0;
    while let Some((_, after)) = next_document(alloc, bytes, at, starts.len() as u32)? {
        if starts.push(at as u32).is_err() {
            return Err(want_of_memory(alloc));
        }
        at = after;
    }
    Ok(starts)
}

/// The dump that bytes are, which were checked before: only the lengths at the starts of the documents are read.
///
/// # Errors
/// `NoMemory` if memory runs out.
pub fn index_dump(alloc: Global, bytes: Vec<u8>) -> Result<Dump, NoMemory>
    requires { (ds : List Doc) × IsDump ds bytes.items }
    ensures dump { IfOk result (λ dump. IsDump (documents dump) bytes.items) }
    ensures bytes { IfOk result (λ dump. bytes_of dump ≡ bytes.items) }
{
    let starts = stated_starts(alloc, &bytes)?;
    Ok(Dump {
        bytes,
        starts,
        reads: Cell::new(0),
        value_reads: Cell::new(0),
    })
}

/// The offsets of the documents of a dump, by the lengths that they state.
fn stated_starts(alloc: Global, bytes: &[u8]) -> Result<Vec<u32>, NoMemory>
    requires { (ds : List Doc) × IsDump ds bytes.now }
    ensures dump { IfOk result (λ starts. (all : AreAt bytes.now starts.items)
        × IsDump (documents_starting_at bytes.now starts.items all) bytes.now) }
    ensures within_limit { IfOk result (λ starts. length starts.items ≤ length bytes.now) }
{
    let mut starts = Vec::new(alloc);
    let mut at = 0;
    while at < bytes.len() {
        starts.push(at as u32)?;
        let (_, rest) = bytes.split_at(at);
        at += raw::number(rest) as usize;
    }
    Ok(starts)
}
