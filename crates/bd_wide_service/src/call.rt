//! The call in a line: its command by value, with the codes of the numbers of a dump.

ghost use Rattle.std.specs.Prelude.{◌≡◌, Err, IfErr, IfOk, List, Ok, ℕ};
ghost use Rattle.bd_value.specs.View.{pairs};
ghost use Rattle.bd_bson_dump.specs.declared.collection.Dump.{Dump};
ghost use Rattle.bd_cursor.specs.Access.{way_of};
ghost use Rattle.bd_cursor_request.specs.Request.{request_view};
ghost use Rattle.bd_cli_command.specs.Command.{command_tree, find_tree, hint_tree};
ghost use Rattle.bd_cli_service.specs.ServiceView.{session_call};
ghost use Rattle.bd_cli_service.specs.Talk.{way_by};
ghost use Rattle.bd_cli_service.specs.declared.call.CallFault.TheVariants as parts;
ghost use Rattle.bd_wide_rank.specs.Table.{worths};
ghost use Rattle.bd_wide_service.specs.Call.{ByValue, IsCall, IsCallIn, IsCommandIn, IsNoCall, IsNoCommandIn, IsNoSearch, filter_in};
ghost use Rattle.bd_wide_service.specs.declared.call.WideCallFault.TheVariants.{NoMemory as no_memory, Refused as refused};
ghost use Rattle.bd_wide_service.specs.inside.Call.{IsOver, RefusesWide, SearchesBy};
ghost use Rattle.bd_wide_substitute.specs.Both.{IsRead};

use bd_cli_command::{Command, FindCommand, Hint};
use bd_cli_service::{Call, CallFault, LineRefusal, call_of, command_in, read_search, read_token};
use bd_cursor::Choice;
use bd_cursor_request::Request;
use bd_extjson_fault::{JsonFault, JsonFaultKind};
use bd_value::{Document, NoMemory, Reading, Tree, document_fits, to_document};
use bd_wide_copy::Longs;
use bd_wide_find::beside_nan;
use bd_wide_number::Number;
use bd_wide_query::{WideQuery, code_query, first_split, read_query};
use bd_wide_rank::Table;
use std::alloc::{AllocError, Global};

/// Why a line is no call.
#[derive(Drop)]
pub(crate) enum WideCallFault {
    /// Memory ran out.
    NoMemory,
    /// It is refused.
    Refused(LineRefusal),
    /// The `$type` at this place of its filter is of some of the types of numbers.
    Types(Vec<String>),
}

impl From<AllocError> for WideCallFault {
    ghost from_gives = { λ _ fault. fault ≡ no_memory };

    fn from(_error: AllocError) -> WideCallFault {
        WideCallFault::NoMemory
    }
}

impl From<CallFault> for WideCallFault {
    ghost from_gives = { λ part fault. fault
        ≡ elim part [ parts.NoMemory ↦ no_memory | parts.Refused why ↦ refused why ] };

    fn from(part: CallFault) -> WideCallFault {
        match part {
            CallFault::NoMemory => WideCallFault::NoMemory,
            CallFault::Refused(refusal) => WideCallFault::Refused(refusal),
        }
    }
}

/// The call in a line, for a session over the copy of a dump with the codes of a table.
pub(crate) fn call_in(alloc: Global, line: &[u8], table: &Table) -> Result<Call, WideCallFault>
    ensures call { (bytes : List ℕ) (v : ByValue bytes) (copy : Dump) →
        IsOver v (worths table.now) copy →
        IfOk result (λ c. IsCallIn v line.now (Ok (session_call copy c))) }
    ensures fault { (bytes : List ℕ) (v : ByValue bytes) (copy : Dump) →
        IsOver v (worths table.now) copy →
        IfErr result (RefusesWide (λ why. IsCallIn v line.now (Err why))) }
{
    let commands = read_commands(alloc, line)?;
    let filter = filter_of(alloc, commands.wholes);
    coded_call(alloc, commands.texts, &filter, &commands.numbers, table)
}

/// A command with its doubles and decimal128.
#[derive(Drop)]
struct Commands {
    /// The command with a whole number for each.
    wholes: Command,
    /// The one with an empty text for each.
    texts: Command,
    numbers: Vec<Number>,
}

/// The command in a line.
fn read_commands(alloc: Global, line: &[u8]) -> Result<Commands, WideCallFault>
    ensures commands { IfOk result (λ c. IsCommandIn line.now
        (command_tree c.wholes) (command_tree c.texts) c.numbers.items) }
    ensures fault { IfErr result (RefusesWide (IsNoCommandIn line.now)) }
{
    let query = read_line(alloc, line)?;
    let texts = command_in(alloc, &query.texts)?;
    let wholes = command_in(alloc, &query.wholes)?;
    Ok(Commands {
        wholes,
        texts,
        numbers: query.numbers,
    })
}

/// The document in a line.
fn read_line(alloc: Global, line: &[u8]) -> Result<WideQuery, WideCallFault>
    ensures document { IfOk result (λ q.
        IsRead line.now (pairs q.wholes) (pairs q.texts) q.numbers.items) }
    ensures fault { IfErr result (RefusesWide (IsNoCommandIn line.now)) }
{
    match read_query(alloc, line) {
        Ok(query) => Ok(query),
        Err(fault) => match fault.kind {
            JsonFaultKind::NoMemory => Err(WideCallFault::NoMemory),
            _ => Err(WideCallFault::Refused(LineRefusal::Json(fault))),
        },
    }
}

/// The filter of a command; `{}` if it has none.
fn filter_of(alloc: Global, command: Command) -> Document
    ensures { pairs result ≡ filter_in (command_tree command) }
{
    match command {
        Command::Find(find) | Command::Explain(find) => find.filter,
        Command::Resume {
            token: _token,
            find,
        } => find.filter,
        _other => Document::new(alloc),
    }
}

/// The call that a command means, for a session over the copy. `wholes` is the filter with a whole number for each of the `numbers`.
fn coded_call(
    alloc: Global,
    command: Command,
    wholes: &Document,
    numbers: &[Number],
    table: &Table,
) -> Result<Call, WideCallFault>
    ensures call { (bytes : List ℕ) (v : ByValue bytes) (copy : Dump) →
        IsOver v (worths table.now) copy →
        IfOk result (λ c. IsCall v numbers.now (pairs wholes.now) (command_tree command)
        (session_call copy c)) }
    ensures fault { (bytes : List ℕ) (v : ByValue bytes) (copy : Dump) →
        IsOver v (worths table.now) copy → IfErr result
        (RefusesWide (IsNoCall v numbers.now (pairs wholes.now) (command_tree command))) }
{
    match command {
        Command::Find(find) => {
            let (request, choice) = coded_search(alloc, find, wholes, numbers, table)?;
            Ok(Call::Find(request, choice))
        }
        Command::Resume { token, find } => {
            let token = read_token(token.as_str())?;
            let (request, choice) = coded_search(alloc, find, wholes, numbers, table)?;
            Ok(Call::Resume(request, choice, token))
        }
        Command::Explain(find) => {
            let (request, choice) = coded_search(alloc, find, wholes, numbers, table)?;
            Ok(Call::Explain(request, choice))
        }
        command => Ok(call_of(alloc, command)?),
    }
}

/// The request of a search with codes, and how documents are found. The refusals of the search with empty texts come first.
fn coded_search(
    alloc: Global,
    find: FindCommand,
    wholes: &Document,
    numbers: &[Number],
    table: &Table,
) -> Result<(Request, Choice), WideCallFault>
    ensures search { IfOk result (λ found. SearchesBy (worths table.now) numbers.now
        (pairs wholes.now) (find_tree find) (request_view found.0)) }
    ensures way { IfOk result (λ found. way_of found.1 ≡ way_by (hint_tree find.hint)) }
    ensures fault { IfErr result (RefusesWide
        (IsNoSearch (worths table.now) numbers.now (pairs wholes.now) (find_tree find))) }
{
    read_search(alloc, copy_of(alloc, &find)?)?;
    let FindCommand {
        filter: texts,
        sort,
        skip,
        limit,
        hint,
    } = find;
    let Some(filter) = code_query(alloc, wholes, &texts, numbers, table, Longs::none())? else {
        return Err(WideCallFault::Refused(LineRefusal::Json(NOT_A_DOCUMENT)));
    };
    document_fits(&filter);
    let coded = FindCommand {
        filter,
        sort,
        skip,
        limit,
        hint,
    };
    let (request, choice) = read_search(alloc, coded)?;
    let request = beside_nan(alloc, request, table)?;
    if let Some(split) = first_split(alloc, Longs::none(), &texts)? {
        return Err(WideCallFault::Types(split.path));
    }
    Ok((request, choice))
}

/// The fault of a filter that is no document with codes.
const NOT_A_DOCUMENT: JsonFault = JsonFault {
    kind: JsonFaultKind::NotADocument,
    at: 0,
};

/// A copy of a search.
fn copy_of(alloc: Global, find: &FindCommand) -> Result<FindCommand, NoMemory>
    ensures { IfOk result (λ copy. find_tree copy ≡ find_tree find.now) }
{
    let filter = to_document::<Tree<'_>>(alloc, Tree::Doc(&find.filter).parts())?;
    let sort = to_document::<Tree<'_>>(alloc, Tree::Doc(&find.sort).parts())?;
    let hint = copy_of_hint(alloc, &find.hint)?;
    Ok(FindCommand {
        filter,
        sort,
        skip: find.skip,
        limit: find.limit,
        hint,
    })
}

/// A copy of how documents are to be found.
fn copy_of_hint(alloc: Global, hint: &Hint) -> Result<Hint, NoMemory>
    ensures { IfOk result (λ copy. hint_tree copy ≡ hint_tree hint.now) }
{
    match hint {
        Hint::Auto => Ok(Hint::Auto),
        Hint::Scan => Ok(Hint::Scan),
        Hint::Index(path) => Ok(Hint::Index(String::from_str(alloc, path)?)),
    }
}
