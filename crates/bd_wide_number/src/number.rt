//! The numbers of BSON.

/// A number by its bytes.
#[derive(Clone, Copy)]
pub enum Number {
    /// An int32 or an int64.
    Whole(i64),
    /// The bits of a double.
    Double(u64),
    /// The lower half and the upper half of the bits of a decimal128.
    Decimal128(u64, u64),
}
