//! Why bytes are not a document, and where.

ghost use Rattle.std.specs.Prelude.{◌≡◌, [], IfOk, string_bytes};
ghost use Rattle.bd_bson_check.specs.Fault.{Fault as Where, longer, fault_words, IsWantOfMemory};
ghost use Rattle.bd_bson_check.specs.inside.Fault.{ReportsStop, IsOf};
ghost use Rattle.bd_bson_check.specs.FirstFault.{label};

use std::alloc::{AllocError, Global};
use std::fmt::{self, Display, Formatter, Write};
use thiserror::Error;

/// Which check failed first.
#[derive(Clone, Copy, Debug, Drop, PartialEq, Eq)]
pub enum FaultKind {
    /// Fewer than the four bytes of a document's length remain.
    ShortLength = 1,
    /// A document's length is below 5, above 16,793,600 or beyond the end of what contains it.
    BadLength = 2,
    /// A document's last byte is not zero.
    NoTerminator = 3,
    /// A type byte that BSON 1.1 does not have.
    UnknownType = 4,
    /// A double.
    Double = 5,
    /// A decimal128.
    Decimal128 = 6,
    /// A name without a zero after it.
    NameUnended = 7,
    /// A name or a text that is not UTF-8.
    BadUtf8 = 8,
    /// A string's length is below 1 or beyond the end of what contains it.
    BadStringLength = 9,
    /// A string's last byte is not zero.
    StringUnended = 10,
    /// A boolean other than 00 and 01.
    BadBoolean = 11,
    /// A length of binary data that does not fit.
    BadBinaryLength = 12,
    /// A length of code with scope that does not fit.
    BadScopeLength = 13,
    /// A document or an array at level 201.
    TooDeep = 14,
    /// Fewer bytes than the value takes remain.
    ValueShort = 15,
    /// A dump above 4,294,967,295 bytes.
    DumpTooLong = 16,
    /// Memory ran out.
    NoMemory = 17,
}

impl std::error::Error for FaultKind {}

impl Display for FaultKind {
    /// Writes the message.
    fn fmt<W: Write>(&self, out: &mut Formatter<W>) -> fmt::Result {
        out.write_str(self.words())
    }
}

/// The messages, by number, from 1 on.
const WORDS: [&str; 17] = [
    "length cut short",
    "bad length",
    "no terminator",
    "unknown type",
    "double",
    "decimal128",
    "name not ended",
    "not UTF-8",
    "bad string length",
    "string not ended",
    "bad boolean",
    "bad binary length",
    "bad scope length",
    "too deep",
    "value cut short",
    "dump too long",
    "no memory",
];

impl FaultKind {
    /// The message.
    #[tactic(auto, unfolding(crate::specs::Fault::fault_words))]
    pub fn words(self) -> &'static str
        ensures { result.now ≡ fault_words self }
    {
        WORDS[self as usize - 1]
    }
}

/// The first check that fails in a dump, and where.
///
/// Its text has all but the path.
#[derive(Debug, Drop, Error)]
#[error("document {document}, byte {offset}: {kind}")]
pub struct Fault {
    /// Which check failed.
    pub kind: FaultKind,
    /// The number of the document, counted from 0.
    pub document: u32,
    /// The byte, counted from the start of the dump.
    pub offset: u64,
    /// The names from the document down to the item. An element of an array is named by its index, from 0.
    pub path: Vec<String>,
}

/// The first check that fails, with its path from the item outwards.
#[derive(Debug, Drop)]
pub struct Finding {
    pub kind: FaultKind,
    pub offset: u64,
    /// From the item up.
    pub path: Vec<String>,
}

/// Why reading an item stopped.
#[derive(Debug, Drop)]
pub enum Stop {
    NoMemory,
    Found(Finding),
}

/// The bytes after an item, or why reading it stopped.
pub type Skipped<'a> = Result<&'a [u8], Stop>;

/// A fault at an offset, with no path yet.
pub fn fault_at(alloc: Global, kind: FaultKind, offset: u64) -> Stop
    ensures { ReportsStop result (record { kind = kind; offset = offset; path = [] }) }
{
    let path = Vec::new(alloc);
    Stop::Found(Finding { kind, offset, path })
}

/// The name of an element on a path: in an array its index, in a document its name.
fn label_of(alloc: Global, index: Option<usize>, name: &str) -> Result<String, AllocError>
    ensures { IfOk result (λ s. string_bytes s ≡ label index name.now) }
{
    match index {
        None => String::from_str(alloc, name),
        Some(i) => i.to_string(alloc),
    }
}

/// The stop, one level up.
pub fn within(alloc: Global, index: Option<usize>, name: &str, stop: Stop) -> Stop
    ensures { (f : Where) →
        ReportsStop stop f → ReportsStop result (longer (label index name.now) f) }
{
    let Stop::Found(mut found) = stop else {
        return Stop::NoMemory;
    };
    let Ok(label) = label_of(alloc, index, name) else {
        return Stop::NoMemory;
    };
    match found.path.push(label) {
        Ok(()) => Stop::Found(found),
        Err(_) => Stop::NoMemory,
    }
}

/// The fault of the document of that number.
pub fn fault_of(alloc: Global, stop: Stop, document: u32) -> Fault
    ensures { IsOf stop document result }
{
    match stop {
        Stop::NoMemory => want_of_memory(alloc),
        Stop::Found(found) => {
            let mut path = found.path;
            path.reverse();
            Fault {
                kind: found.kind,
                document,
                offset: found.offset,
                path,
            }
        }
    }
}

/// The fault of running out of memory, which has no offset.
pub fn want_of_memory(alloc: Global) -> Fault
    ensures { IsWantOfMemory result }
{
    frame_fault(alloc, FaultKind::NoMemory, 0, 0)
}

/// A fault of a document as a whole.
pub fn frame_fault(alloc: Global, kind: FaultKind, at: usize, number: u32) -> Fault
    ensures { (result.kind ≡ kind)
        × (result.document ≡ number) × (result.offset ≡ at) × (result.path.items ≡ []) }
{
    Fault {
        kind,
        document: number,
        offset: at as u64,
        path: Vec::new(alloc),
    }
}
