//! The session call that a command means.

ghost use Rattle.std.specs.Prelude.{◌≡◌, ◌≢◌, IfErr, IfOk, Ok, OnOk};
ghost use Rattle.bd_bson_dump.specs.Collection.{bytes_of, documents};
ghost use Rattle.bd_bson_dump.specs.declared.collection.Dump.{Dump};
ghost use Rattle.bd_path.specs.{Path.path_of, PathNames.names_of, PathNames.path_text};
ghost use Rattle.bd_cli_command.specs.Command.{command_tree, find_tree, hint_tree};
ghost use Rattle.bd_cursor.specs.Access.{way_of};
ghost use Rattle.bd_cli_service.specs.Reply.{path_refusal, session_refusal};
ghost use Rattle.bd_cursor_request.specs.Refused.{error_as};
ghost use Rattle.bd_cursor_request.specs.Request.{named_index, request_view, token_part};
ghost use Rattle.bd_cli_service.specs.ServiceView.{MayRunOut, RefusesPart, session_call};
ghost use Rattle.bd_cli_service.specs.declared.call.CallFault.TheVariants.{NoMemory as no_memory};
ghost use Rattle.bd_cli_service.specs.Talk.{call_of, hint_path, request_for, way_by};

use crate::reply::LineRefusal;
use bd_cli_command::{Command, FindCommand, Hint};
use bd_cursor::Choice;
use bd_cursor_request::{Refused, Request, Token};
use bd_path::{Path, PathFault};
use std::alloc::Global;

/// A call of a session, with its texts and documents read.
#[derive(Drop)]
pub enum Call {
    CreateIndex {
        path: Path,
        /// Whether documents without the field have no entry.
        sparse: bool,
    },
    DropIndex(Path),
    Find(Request, Choice),
    Resume(Request, Choice, Token),
    GetMore {
        id: u64,
        /// How many documents are returned at most.
        batch: u64,
    },
    KillCursor(u64),
    Explain(Request, Choice),
}

/// Why a line is no call.
#[derive(Drop)]
pub enum CallFault {
    /// Memory ran out.
    NoMemory,
    /// It is refused.
    Refused(LineRefusal),
}

/// The call that a command means. For `resume` the token is checked first, then the filter, the sort, the numbers, and the path of
/// an index.
pub fn call_of(alloc: Global, command: Command) -> Result<Call, CallFault>
    ensures call { (dump : Dump) →
        IfOk result (λ c. call_of (bytes_of dump) (documents dump) (command_tree command)
        ≡ Ok (session_call dump c)) }
    ensures fault { (dump : Dump) → IfErr result
        (RefusesPart (call_of (bytes_of dump) (documents dump) (command_tree command))) }
    ensures known { IfErr result (λ fault. fault ≡ no_memory → MayRunOut (command_tree command)) }
{
    match command {
        Command::CreateIndex { path, sparse } => {
            let path = read_path(alloc, path.as_str())?;
            Ok(Call::CreateIndex { path, sparse })
        }
        Command::DropIndex { path } => Ok(Call::DropIndex(read_path(alloc, path.as_str())?)),
        Command::Find(find) => {
            let (request, choice) = read_search(alloc, find)?;
            Ok(Call::Find(request, choice))
        }
        Command::Resume { token, find } => {
            let token = read_token(token.as_str())?;
            let (request, choice) = read_search(alloc, find)?;
            Ok(Call::Resume(request, choice, token))
        }
        Command::GetMore { id, batch } => Ok(Call::GetMore { id, batch }),
        Command::KillCursor { id } => Ok(Call::KillCursor(id)),
        Command::Explain(find) => {
            let (request, choice) = read_search(alloc, find)?;
            Ok(Call::Explain(request, choice))
        }
    }
}

/// The request of a search, and how documents are found.
pub fn read_search(alloc: Global, find: FindCommand) -> Result<(Request, Choice), CallFault>
    ensures search { IfOk result
        (λ found. request_for (find_tree find) ≡ Ok (request_view found.0)) }
    ensures way { IfOk result (λ found. way_of found.1 ≡ way_by (hint_tree find.hint)) }
    ensures fault { IfErr result (RefusesPart (request_for (find_tree find))) }
{
    let request = match Request::new(alloc, find.filter, find.sort, find.skip, find.limit) {
        Ok(request) => request,
        Err(Refused::NoMemory) => return Err(CallFault::NoMemory),
        Err(refused) => return Err(CallFault::Refused(LineRefusal::Session(refused))),
    };
    let choice = read_choice(alloc, find.hint)?;
    Ok((request, choice))
}

/// How documents are to be found.
fn read_choice(alloc: Global, hint: Hint) -> Result<Choice, CallFault>
    ensures choice { IfOk result (λ choice. way_of choice ≡ way_by (hint_tree hint)) }
    ensures names_index { OnOk result (named_index (hint_path (hint_tree hint)) ≡ Ok tt) }
    ensures fault { IfErr result
        (RefusesPart (error_as path_refusal (named_index (hint_path (hint_tree hint))))) }
{
    match hint {
        Hint::Auto => Ok(Choice::Auto),
        Hint::Scan => Ok(Choice::Scan),
        Hint::Index(text) => Ok(Choice::Index(read_path(alloc, text.as_str())?)),
    }
}

/// The path of an index.
fn read_path(alloc: Global, text: &str) -> Result<Path, CallFault>
    ensures path { IfOk result (λ path. path_of text.now ≡ Ok (names_of path)) }
    ensures text { IfOk result (λ path. path_text path ≡ text.now) }
    ensures fault { IfErr result (RefusesPart (error_as path_refusal (path_of text.now))) }
{
    match Path::parse(alloc, text) {
        Ok(path) => Ok(path),
        Err(PathFault::NoMemory) => Err(CallFault::NoMemory),
        Err(fault) => Err(CallFault::Refused(LineRefusal::Path(fault))),
    }
}

/// The token in a text. It takes no memory.
pub fn read_token(text: &str) -> Result<Token, CallFault>
    ensures token { IfOk result (λ t. token_part text.now ≡ Ok t) }
    ensures fault { IfErr result (RefusesPart (error_as session_refusal (token_part text.now))) }
    ensures known { IfErr result (λ fault. fault ≢ no_memory) }
{
    match Token::parse(text) {
        Ok(token) => Ok(token),
        Err(refused) => Err(CallFault::Refused(LineRefusal::Session(refused))),
    }
}
