//! The two formats of Extended JSON v2.

/// How numbers and dates are written. All other values have one text.
#[derive(Debug, Clone, Copy, Drop, PartialEq)]
pub enum JsonFormat {
    /// Each with its type: what is read back as the same value.
    Canonical,
    /// Whole numbers and finite doubles as numbers of JSON, and a date of the years 1970 to 9999 as a date and a time.
    Relaxed,
}
