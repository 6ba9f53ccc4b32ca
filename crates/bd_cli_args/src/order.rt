//! The commands of the command line.
ghost use Rattle.std.specs.Prelude.{◌≡◌};
ghost use Rattle.bd_cli_args.specs.declared.order.WordsFault.TheVariants.{NoMemory};

use std::alloc::AllocError;
use std::marker::Model;
use thiserror::Error;

/// A command with its file and options.
#[derive(Debug, Drop)]
pub enum Order {
    /// The documents of `file` as text; `-` is standard input.
    Dump { file: String },
    /// The documents of `file` that have a fault; `-` is standard input.
    Check { file: String },
    /// The lines of text of `file` as documents; `-` is standard input.
    Pack { file: String },
    /// The documents of `file` that the options select; `-` is standard input.
    Find { file: String, options: FindOptions },
    /// A session over the dump `file`. `file` is never `-` in accepted arguments: the commands come from standard input.
    Serve { file: String },
}

impl Order {
    ghost use Rattle.std.specs.Prelude.{◌≡◌};
    ghost use Rattle.bd_cli_args.specs.CommandLine.{file_in, is_serve, meant};

    /// The file of the command.
    pub fn file(&self) -> &str
        ensures { result.now ≡ file_in (meant self.now) }
    {
        let (Order::Dump { file }
        | Order::Check { file }
        | Order::Pack { file }
        | Order::Find { file, .. }
        | Order::Serve { file }) = self;
        file
    }

    /// Whether the command is a session, whose commands come from standard input.
    pub fn is_serve(&self) -> bool
        ensures { result ≡ is_serve (meant self.now) }
    {
        matches!(self, Order::Serve { .. })
    }
}

/// Which documents `find` returns, and in which order. The numbers are 0 to 2,147,483,647 in accepted arguments.
#[derive(Debug, Drop)]
pub struct FindOptions {
    /// The query that the documents match, as Extended JSON; without one all documents match.
    pub query: Option<String>,
    /// The sort of the answer, as Extended JSON; without one the answer is in the order of `file`.
    pub sort: Option<String>,
    /// How many documents are skipped at the start of the answer.
    pub skip: u32,
    /// How many documents are returned at most; 0 is no limit.
    pub limit: u32,
    /// How many documents a batch has; without it the whole answer is one batch.
    pub batch: Option<u32>,
    /// The path of an index for the search; without one the documents are examined in turn.
    pub index: Option<String>,
    /// The text of a token, after which the answer resumes; without one it begins at its start.
    pub after: Option<String>,
}

impl Model for FindOptions {
    ghost use Rattle.std.specs.Prelude.{option_map, string_bytes};
    ghost use Rattle.bd_cli_args.specs.FindOptions as options;

    ghost Value = { options.FindOptions };

    ghost view = { λ o. record {
      query = option_map string_bytes o.query;
      sort = option_map string_bytes o.sort;
      skip = o.skip;
      limit = o.limit;
      batch = o.batch;
      index = option_map string_bytes o.index;
      after = option_map string_bytes o.after;
    } };
}

/// Why arguments are not accepted.
#[derive(Debug, Clone, Copy, Drop, PartialEq, Error)]
pub enum WordsFault {
    /// The arguments request help.
    #[error("help is asked for")]
    Help = 1,
    /// The arguments are invalid.
    #[error("the line is not taken")]
    Usage = 2,
    /// Memory ran out.
    #[error("no memory")]
    NoMemory = 3,
}

impl From<AllocError> for WordsFault {
    ghost from_gives = { λ _ f. f ≡ NoMemory };

    fn from(_error: AllocError) -> WordsFault {
        WordsFault::NoMemory
    }
}
