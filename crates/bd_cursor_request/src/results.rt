//! The results of a session's calls, and why one is refused.

ghost use Rattle.std.specs.Prelude.{◌≡◌};
ghost use Rattle.bd_cursor_request.specs.Refused.{refused_number, refused_words};
ghost use Rattle.bd_cursor_request.specs.declared.results.Refused.TheVariants.{NoMemory};

use crate::token::Token;
use bd_query_filter::FilterFault;
use std::alloc::{AllocError, AllocFailed};
use std::error::Error;
use std::fmt::{self, Display, Formatter, Write};

/// One batch of a cursor.
#[derive(Debug, Drop)]
pub struct Batch {
    /// The numbers of the documents, in the order of the answer.
    pub places: Vec<u32>,
    /// Where the answer resumes after them; None if no document was returned since the start.
    pub token: Option<Token>,
    /// Whether nothing remains. Then the cursor is closed.
    pub end: bool,
}

/// The counts of a new index.
#[derive(Clone, Copy, Debug)]
pub struct Made {
    /// How many entries it has.
    pub entries: u64,
    /// Whether some document has two keys.
    pub multikey: bool,
}

/// Why a request, a token or a call of a session is refused.
#[derive(Debug, Drop)]
pub enum Refused {
    /// A sort that is not `{}` and not one to four pairs of distinct paths, each with 1 or -1.
    BadSort,
    /// There is no index on the path.
    NoIndex,
    /// There is an index on the path already.
    IndexThere,
    /// There are sixteen indexes already.
    TooManyIndexes,
    /// There are sixty-four cursors already, or no cursor number is left.
    TooManyCursors,
    /// No cursor has the number.
    NoCursor,
    /// A text that is no token.
    BadToken,
    /// A token of another dump or request.
    ForeignToken,
    /// A token whose document number is after the last document.
    TokenPlace,
    /// A number above 2,147,483,647.
    Range,
    /// Memory ran out.
    NoMemory,
    /// A document that is no filter.
    BadFilter(FilterFault),
}

impl Error for Refused {}

impl Display for Refused {
    /// Writes the message.
    fn fmt<W: Write>(&self, out: &mut Formatter<W>) -> fmt::Result {
        out.write_str(self.words())
    }
}

/// The messages by number, from 1 on. A filter has the message of its fault.
const WORDS: [&str; 11] = [
    "not a sort",
    "no such index",
    "index is there",
    "too many indexes",
    "too many cursors",
    "no such cursor",
    "not a token",
    "token of another dump or request",
    "token place past the dump",
    "number out of range",
    "no memory",
];

impl Refused {
    /// The message; for a filter which rule it breaks.
    #[tactic(auto, unfolding(crate::specs::Refused::refused_words))]
    pub fn words(&self) -> &'static str
        ensures { result.now ≡ refused_words self.now }
    {
        match self {
            Refused::BadFilter(fault) => fault.kind.words(),
            refused => WORDS[refused.number() as usize - 1],
        }
    }

    /// Its number in a reply, 1 to 12.
    pub fn number(&self) -> u32
        ensures { result ≡ refused_number self.now }
    {
        match self {
            Refused::BadSort => 1,
            Refused::NoIndex => 2,
            Refused::IndexThere => 3,
            Refused::TooManyIndexes => 4,
            Refused::TooManyCursors => 5,
            Refused::NoCursor => 6,
            Refused::BadToken => 7,
            Refused::ForeignToken => 8,
            Refused::TokenPlace => 9,
            Refused::Range => 10,
            Refused::NoMemory => 11,
            Refused::BadFilter(_) => 12,
        }
    }
}

impl From<AllocError> for Refused {
    ghost from_gives = { λ _ refused. refused ≡ NoMemory };

    fn from(_error: AllocError) -> Refused {
        Refused::NoMemory
    }
}

impl<T: Drop> From<AllocFailed<T>> for Refused {
    ghost from_gives = { λ _ refused. refused ≡ NoMemory };

    fn from(_error: AllocFailed<T>) -> Refused {
        Refused::NoMemory
    }
}
