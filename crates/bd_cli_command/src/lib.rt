//! The commands of `serve`, each an Extended JSON document.
//!
//! The first name of a document is the command, and its value and the further fields are its arguments. Filters, sorts, paths and
//! tokens are not checked here.
//!
//! An example, which `bd_cli_service_tests` proves and runs as `examples::a_page`:
//!
//! ```
//! let document = read_doc(alloc, b"{\"getMore\":1,\"batch\":100}")?;
//! assert!(rt;
//!     matches!(
//!         read_command(alloc, &document),
//!         Ok(Command::GetMore { id: 1, batch: 100 })
//!     )
//! );
//! ```
//!
//! - `command`: `Command`, to match on, and `CommandFault`, why a document is no command: `specs/Command.antt`.
//! - `command_of`: `read_command`, the command that a document means, or its first fault: `specs/CommandOf.antt`.
//! - `field`: the names of commands, their fields, and which values a field may have: `specs/Field.antt`.
//! - `laws`: which documents are no commands.
#![tactic(auto)]

mod command;
mod command_of;
mod field;
mod laws;

pub use command::{Command, CommandFault, FindCommand, Hint};
pub use command_of::read_command;
pub use laws::faulty_documents_alone_are_no_commands;
