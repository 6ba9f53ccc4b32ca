//! The numbers of BSON, their values, and the codes of those that a double equals.
//!
//! The value of each number, and the order of values: `specs/Value.antt`; its code: `specs/Code.antt`.
//!
//! An example, which `bd_wide_tests` proves and runs as `examples::code`:
//!
//! ```
//! assert!(rt; code_of(Number::Double(0x3fe0_0000_0000_0000)) == Some(0x3fe0_0000_0000_0000));
//! assert!(rt; code_of(Number::Whole(1)) == Some(0x3ff0_0000_0000_0000));
//! assert!(rt; code_of(Number::Whole(0x7fff_ffff_ffff_ffff)) == None);
//! ```
//!
//! - `number`: the numbers of BSON.
//! - `decimal128`: the parts of a decimal128.
//! - `odd`: numbers as an odd number times a power of two (`specs/inside/Odd.antt`).
//! - `code`: `code_of` for any number, `code_of_double` for a double.
#![tactic(auto)]

mod code;
mod decimal128;
mod number;
mod odd;

pub use code::{code_of, code_of_double};
pub use decimal128::{biased_exponent, coefficient, five_bits};
pub use number::Number;
