//! The arguments of the command line, and the command that they mean.
//!
//! Which arguments are accepted, and what they mean: `specs/CommandLine.antt`, for `bsonwide` `specs/WideLine.antt`; the options of
//! `find`: `specs/FindOptions.antt`.
//!
//! An example, which `bd_cli_tests` proves and runs as `examples::command_line`:
//!
//! ```
//! let words = [
//!     String::from_str(alloc, "dump")?,
//!     String::from_str(alloc, "-")?,
//! ];
//! let order = parse_words(alloc, &words);
//! assert!(rt; matches!(order, Ok(Order::Dump { .. })));
//! ```
//!
//! - `order`: `Order`, the command, and `WordsFault`, why there is none.
//! - `command_line`: `parse_words`, by `clap`.
//! - `wide_line`: `parse_wide_words` and `WideOrder`, the same for `bsonwide`; `Form`, what its `find` prints, and `LayoutOptions`, how its
//!   texts are laid out: `specs/LayoutOptions.antt`.
//! - `file_commands`: what both command lines share: `specs/FileCommands.antt`.
#![tactic(auto)]

mod command_line;
mod file_commands;
mod order;
mod wide_line;

pub use command_line::{USAGE, parse_words};
pub use order::{FindOptions, Order, WordsFault};
pub use wide_line::{Form, LayoutOptions, WideOrder, parse_wide_words};
