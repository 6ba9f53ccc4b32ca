//! Why a text is not a document, and where.
ghost use Rattle.std.specs.Prelude.{◌≡◌};
ghost use Rattle.bd_extjson_fault.specs.JsonFault.{json_fault_number, json_fault_words};

use std::fmt::{self, Display, Formatter, Write};
use thiserror::Error;

/// Which rule a text breaks: JSON (RFC 8259), then Extended JSON v2.
#[derive(Clone, Copy, Debug, Drop, PartialEq, Eq)]
pub enum JsonFaultKind {
    /// It is not JSON, or it is not UTF-8.
    Syntax = 1,
    /// It is a value that is not a document.
    NotADocument = 2,
    /// Brackets nest deeper than 203 levels, or documents and arrays deeper than 200.
    TooDeep = 3,
    /// An object begins with a wrapper's name and is not exactly that wrapper.
    BadWrapper = 4,
    /// A double, a decimal128, a UUID, a text as date, or another form that is not supported.
    NotInProfile = 5,
    /// A whole number that does not fit its type.
    NumberRange = 6,
    /// A zero in a name, or in a text of a regular expression.
    NulInName = 7,
    /// Text after the document.
    TrailingText = 8,
    /// Memory ran out.
    NoMemory = 9,
}

impl std::error::Error for JsonFaultKind {}

impl Display for JsonFaultKind {
    /// Writes the message.
    fn fmt<W: Write>(&self, out: &mut Formatter<W>) -> fmt::Result {
        out.write_str(self.words())
    }
}

/// The messages, by number, from 1 on.
const WORDS: [&str; 9] = [
    "not JSON",
    "not a document",
    "too deep",
    "bad wrapper",
    "not in the profile",
    "number out of range",
    "zero in a name",
    "text after the document",
    "no memory",
];

impl JsonFaultKind {
    /// The message.
    #[tactic(auto, unfolding(crate::specs::JsonFault::json_fault_words))]
    pub fn words(self) -> &'static str
        ensures { result.now ≡ json_fault_words self }
    {
        WORDS[self as usize - 1]
    }

    /// The number of the fault in a reply, 1 to 8; 9 for out of memory.
    pub fn number(self) -> u32
        ensures { result ≡ json_fault_number self }
    {
        self as u32
    }
}

/// Why a text is not a document, and where.
#[derive(Clone, Copy, Debug, Drop, PartialEq, Eq, Error)]
#[error("byte {at}: {kind}")]
pub struct JsonFault {
    /// Which rule it breaks.
    pub kind: JsonFaultKind,
    /// The byte of the text, from 0. It is 0 for `NotADocument` and for `NoMemory`, which have no offset.
    pub at: u64,
}
