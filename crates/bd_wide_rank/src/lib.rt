//! Numbers of all types in one order, exact by value, and the codes of numbers among those of a dump.
//!
//! What a number is worth: `specs/Worth.antt`; its code among other numbers: `specs/Rank.antt`; the numbers of a table:
//! `specs/Table.antt`.
//!
//! An example, which `bd_wide_query_tests` proves and runs as `examples::prices`:
//!
//! ```
//! // The decimal128 29.95, and the double next to it, which is less.
//! let exact = Number::Decimal128(2995, 0x303c_0000_0000_0000);
//! let near = Number::Double(0x403d_f333_3333_3333);
//! let mut numbers = Numbers::new(alloc);
//! for number in [exact, near, Number::Whole(30), exact] {
//!     numbers.push(number)?;
//! }
//! let table = numbers.into_table().expect(&rt, "few numbers");
//! assert!(rt; table.code(near) == 1);
//! assert!(rt; table.code(exact) == 3);
//! assert!(rt; table.code(Number::Whole(30)) == 5);
//! assert!(rt; table.code(Number::Whole(29)) == 0);
//! ```
//!
//! - `compare`: `compare_numbers`, the order of any two numbers.
//! - `size`: sizes as a number times powers of two and five.
//! - `limbs`: large numbers.
//! - `numbers`: `Numbers`, the numbers of a dump on the way to a table.
//! - `table`: `Table`, the distinct numbers of a dump, and the code of any number among them.
//! - `doubles`, `others`: the two rows of a table: doubles by their keys, and numbers that no double equals.
//! - `hints`, `order`: guesses at the places of the numbers of a row in it, by a hash and in turn; `guesses`: in the other row.
//! - `key`: keys of doubles (`specs/Key.antt`).
//! - `position`, `between`: where numbers are beside the doubles.
//! - `positioned`, `guess`: the position of a number, from a guess.
//! - `laws`: codes are in the order of the numbers.
#![tactic(auto)]

mod between;
mod compare;
mod doubles;
mod guess;
mod guesses;
mod hints;
mod key;
mod laws;
mod limbs;
mod numbers;
mod order;
mod others;
mod position;
mod positioned;
mod size;
mod table;

pub use compare::{compare_numbers, worths_are_in_order};
pub use laws::codes_keep_order;
pub use numbers::{Numbers, TooMany};
pub use table::Table;
