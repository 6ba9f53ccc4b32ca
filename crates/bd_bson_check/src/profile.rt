//! Which types of values a check reads.

/// Which of the 21 types of BSON 1.1 a check reads.
#[derive(Clone, Copy, Debug, Drop, PartialEq, Eq)]
pub enum Profile {
    /// The 19 types of `Kind`. A double and a decimal128 are faults, and their bytes are not read.
    Named,
    /// All 21 types. A double is any eight bytes, a decimal128 any sixteen.
    All,
}
