//! Why a document is not a filter, and where.

ghost use Rattle.std.specs.Prelude.{◌≡◌, []};
ghost use Rattle.bd_query_filter.specs.Fault.{Refusal, deeper, filter_fault_number, filter_fault_words};
ghost use Rattle.bd_query_filter.specs.inside.Fault.{ReportsMisfit};
ghost use Rattle.bd_query_filter.specs.declared.fault.Stop.TheVariants.{NoMemory};

use std::alloc::{AllocError, AllocFailed, Global};
use std::fmt::{self, Display, Formatter, Write};
use thiserror::Error;

/// Which rule a pair or a member breaks.
#[derive(Clone, Copy, Debug, Drop, PartialEq, Eq)]
pub enum FilterFaultKind {
    /// A name with a dollar sign that is not an operator, or an operator that is not allowed there.
    UnknownOperator = 1,
    /// An operator or an operand of the manual that is not supported.
    NotInProfile = 2,
    /// An operand of another kind than the operator needs.
    BadOperand = 3,
    /// A name without a dollar sign among operators.
    MixedOperators = 4,
    /// A name that is not a path.
    Path = 5,
    /// A filter at level 51.
    TooDeep = 6,
    /// Memory ran out.
    NoMemory = 7,
}

impl std::error::Error for FilterFaultKind {}

impl Display for FilterFaultKind {
    /// Writes the message.
    fn fmt<W: Write>(&self, out: &mut Formatter<W>) -> fmt::Result {
        out.write_str(self.words())
    }
}

/// The messages, by number, from 1 on.
const WORDS: [&str; 7] = [
    "unknown operator",
    "not in the profile",
    "bad operand",
    "operators and fields mixed",
    "bad path",
    "too deep",
    "no memory",
];

impl FilterFaultKind {
    /// The message.
    #[tactic(auto, unfolding(crate::specs::Fault::filter_fault_words))]
    pub fn words(self) -> &'static str
        ensures { result.now ≡ filter_fault_words self }
    {
        WORDS[self as usize - 1]
    }

    /// The number of the fault in a reply, 1 to 6; 7 for out of memory.
    pub fn number(self) -> u32
        ensures { result ≡ filter_fault_number self }
    {
        self as u32
    }
}

/// The first pair or member of a document that is not part of a filter.
///
/// Its text has all but the path.
#[derive(Debug, Drop, Error)]
#[error("{kind}")]
pub struct FilterFault {
    /// Which rule it breaks.
    pub kind: FilterFaultKind,
    /// The names from the top of the document down to it. A member of an array is named by its index, from 0. It is empty if
    /// memory ran out.
    pub place: Vec<String>,
}

/// Why reading a filter stopped.
#[derive(Drop)]
pub enum Stop {
    NoMemory,
    /// Its path begins at the part that was read.
    Fault(FilterFault),
}

/// A fault of the part itself.
pub(crate) fn stop_at(alloc: Global, kind: FilterFaultKind) -> Stop
    ensures { ReportsMisfit result (record { kind = kind; place = [] }) }
{
    let place = Vec::new(alloc);
    Stop::Fault(FilterFault { kind, place })
}

/// The stop, one name up.
pub(crate) fn under(alloc: Global, name: &str, stop: Stop) -> Stop
    ensures { (r : Refusal) → ReportsMisfit stop r → ReportsMisfit result (deeper name.now r) }
{
    let Stop::Fault(mut fault) = stop else {
        return Stop::NoMemory;
    };
    let Ok(name) = String::from_str(alloc, name) else {
        return Stop::NoMemory;
    };
    match fault.place.insert(0, name) {
        Ok(()) => Stop::Fault(fault),
        Err(_) => Stop::NoMemory,
    }
}

impl From<AllocError> for Stop {
    ghost from_gives = { λ _ stop. stop ≡ NoMemory };

    fn from(_error: AllocError) -> Stop {
        Stop::NoMemory
    }
}

impl<T: Drop> From<AllocFailed<T>> for Stop {
    ghost from_gives = { λ _ stop. stop ≡ NoMemory };

    fn from(_error: AllocFailed<T>) -> Stop {
        Stop::NoMemory
    }
}
