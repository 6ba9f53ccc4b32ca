//! Why a text means no number of a type.

/// The fault of a text.
#[derive(Clone, Copy, Debug, PartialEq, Eq)]
pub enum TextFault {
    /// The text is not spelled as a number.
    BadText,
    /// The type has no such number.
    OutOfRange,
}
