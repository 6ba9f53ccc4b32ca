//! The texts of doubles and of decimal128 in Extended JSON v2.
//!
//! Which texts these are: `specs/Double.antt` and `specs/Decimal128.antt`; how digits are laid out: `specs/Layout.antt`.
//!
//! An example, which `bd_wide_tests` proves and runs as `examples::double_text`:
//!
//! ```
//! let mut text = Vec::new(alloc);
//! write_double(0x3ff8_0000_0000_0000, &mut text)?;
//! assert!(rt; text.as_slice() == b"1.5".as_slice());
//! ```
//!
//! - `double`: `write_double`, and `put_double`, which writes into a buffer, by the digits that `ryu` finds
//!   (`specs/inside/LaidOutAnew.antt`).
//! - `plain`: doubles whose text has no power of ten.
//! - `limited`: more than 17 digits from `ryu`, of which no case is known, are limited to 17 (`specs/inside/Limited.antt`).
//! - `decimal128`: `write_decimal128`.
//! - `layout`: what both use, and `put`, which writes bytes into a buffer.
//! - `laws`: the text of a double is read back as the double.
#![tactic(auto)]

mod decimal128;
mod double;
mod laws;
mod layout;
mod limited;
mod plain;

pub use decimal128::write_decimal128;
pub use double::{DOUBLE, put_double, write_double};
pub use laws::double_text_reads_back;
pub use layout::put;
