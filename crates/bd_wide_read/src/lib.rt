//! The doubles, decimal128, dates and UUIDs that texts mean.
//!
//! Which double a text means: `specs/DoubleText.antt`, over the numbers of RFC 8259 (`specs/JsonNumber.antt`). Which decimal128:
//! `specs/DecimalText.antt`.
//!
//! An example, which `bd_wide_pack_tests` proves and runs as `examples::read`:
//!
//! ```
//! assert!(rt; read_double(b"1.5") == Ok(0x3ff8_0000_0000_0000));
//! assert!(rt; read_double(b"1e999") == Err(TextFault::OutOfRange));
//! assert!(rt; read_decimal128(b"1.5") == Ok((15, 0x303e_0000_0000_0000)));
//! assert!(rt; read_decimal128(b"abc") == Err(TextFault::BadText));
//! ```
//!
//! - `double`: `read_double` for the text of a `$numberDouble`, `read_number` for a bare number.
//! - `decimal128`: `read_decimal128`, without rounding.
//! - `date`: `read_date`, for a date and a time of RFC 3339: `specs/DateText.antt`. `uuid_text`: `read_uuid`.
//! - `json_number`: what a number of RFC 8259 is, and what follows it.
//! - `fault`: why a text means no number of a type.
//! - `laws`: the texts that `bd_wide_text` writes are read as what they were written for.
#![tactic(auto)]

mod date;
mod decimal128;
mod double;
mod fault;
mod json_number;
mod laws;
mod uuid_text;

pub use date::read_date;
pub use decimal128::read_decimal128;
pub use double::{read_double, read_number};
pub use fault::TextFault;
pub use json_number::{after_number, is_number};
pub use laws::{decimal128_text_is_read, double_text_is_read};
pub use uuid_text::read_uuid;
