//! The commands of a session.

ghost use Rattle.std.specs.Prelude.{◌≡◌};
ghost use Rattle.bd_cli_command.specs.Command.{command_fault_number, command_fault_words};
ghost use Rattle.bd_cli_command.specs.declared.command.CommandFault.TheVariants.{NoMemory};

use bd_value::Document;
use std::alloc::AllocError;
use std::error::Error;
use std::fmt::{self, Display, Formatter, Write};

/// A command of `serve`.
#[derive(Drop)]
pub enum Command {
    /// `createIndex`: an index on a path.
    CreateIndex {
        path: String,
        /// Whether documents in which the path is missing are left out.
        sparse: bool,
    },
    /// `dropIndex`: drops the index on a path.
    DropIndex {
        path: String,
    },
    /// `find`: a cursor over the documents found.
    Find(FindCommand),
    /// `resume`: a cursor over what remains after a token.
    Resume {
        token: String,
        /// The search that the token belongs to.
        find: FindCommand,
    },
    /// `getMore`: the next documents of a cursor.
    GetMore {
        id: u64,
        /// How many are returned at most.
        batch: u64,
    },
    /// `killCursor`: the end of a cursor.
    KillCursor {
        id: u64,
    },
    /// `explain`: how documents would be found, and how many.
    Explain(FindCommand),
}

/// A search: which documents, and how they are found.
#[derive(Drop)]
pub struct FindCommand {
    /// The filter; `{}` without one.
    pub filter: Document,
    /// The sort; `{}` without one.
    pub sort: Document,
    /// How many documents are skipped; 0 by default.
    pub skip: u64,
    /// How many are returned at most, 0 for no limit; 0 by default.
    pub limit: u64,
    /// The field `use`; `Auto` by default.
    pub hint: Hint,
}

/// How documents are to be found.
#[derive(Drop)]
pub enum Hint {
    /// `"auto"`: by an index that serves, if any.
    Auto,
    /// `"scan"`: each document is examined.
    Scan,
    /// `{"index":path}`: by the index on that path.
    Index(String),
}

/// The first fault of a document that is no command.
#[derive(Clone, Copy, Debug, Drop, PartialEq, Eq)]
pub enum CommandFault {
    /// The first name is no command, or there is none.
    UnknownCommand = 1,
    /// A required field is missing.
    MissingField = 2,
    /// A field that the command does not have.
    UnknownField = 3,
    /// A field that occurred already, the first one included.
    RepeatedField = 4,
    /// A value of another kind, a number below 0, or a `use` of another form.
    BadField = 5,
    /// Memory ran out.
    NoMemory = 6,
}

impl Error for CommandFault {}

impl Display for CommandFault {
    /// Writes the message.
    fn fmt<W: Write>(&self, out: &mut Formatter<W>) -> fmt::Result {
        out.write_str(self.words())
    }
}

/// The messages by number, from 1 on.
const WORDS: [&str; 6] = [
    "unknown command",
    "missing field",
    "unknown field",
    "repeated field",
    "bad field",
    "no memory",
];

impl CommandFault {
    /// The message.
    #[tactic(auto, unfolding(crate::specs::Command::command_fault_words))]
    pub fn words(self) -> &'static str
        ensures { result.now ≡ command_fault_words self }
    {
        WORDS[self as usize - 1]
    }

    /// The number in a reply, 1 to 5; 6 for out of memory.
    pub fn number(self) -> u32
        ensures { result ≡ command_fault_number self }
    {
        self as u32
    }
}

impl From<AllocError> for CommandFault {
    ghost from_gives = { λ _ fault. fault ≡ NoMemory };

    fn from(_error: AllocError) -> CommandFault {
        CommandFault::NoMemory
    }
}
