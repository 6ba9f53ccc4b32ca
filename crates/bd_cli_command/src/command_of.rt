//! Reads a document as a command, or finds its first fault.

ghost use Rattle.std.specs.Prelude.{◌≡◌, ◌<◌, ◌⊎◌, [], codes, false, take, IfErr, IfOk, IsErrOf, Some, Ok, Err, is_some, length, slice_get, string_bytes};
ghost use Rattle.std.specs.Result.{result_err};
ghost use Rattle.bd_value.specs.Tree.{first_of, Doc, Pair};
ghost use Rattle.bd_value.specs.View.{pairs};
ghost use Rattle.bd_cli_command.specs.Command.{any_way, command_tree, find_tree, hint_tree};
ghost use Rattle.bd_cli_command.specs.CommandOf.{IsCommandDocument, command_in, command_of, field_value, find_in};
ghost use Rattle.bd_cli_command.specs.CommandOf.{first_command, missing_fault, pair_fault, pairs_fault};
ghost use Rattle.bd_cli_command.specs.Field.{count_field, document_field, hint_field, text_field, truth_field};
ghost use Rattle.bd_cli_command.specs.declared.command.CommandFault.TheVariants.{NoMemory};

use crate::command::{Command, CommandFault, FindCommand, Hint};
use crate::field::{CommandName, HintForm, count_in, document_in, hint_in, text_in, truth_in};
use bd_value::{Document, NoMemory, Reading, Tree, to_document};
use std::alloc::Global;

/// The command that a document means.
///
/// Its first name is the command. The further fields come in any order.
///
/// # Errors
///
/// The first fault, in this order: the first name, its value, the further fields in their order, and then what is missing. Each
/// further field is checked for `RepeatedField`, `UnknownField` and `BadField`, in this order. `NoMemory` if memory runs out
/// for a document that is a command.
pub fn read_command(alloc: Global, document: &Document) -> Result<Command, CommandFault>
    ensures command { IfOk result (λ c. command_of (pairs document.now) ≡ Ok (command_tree c)) }
    ensures fault { IfErr result (λ f. (f ≡ NoMemory) ⊎ (command_of (pairs document.now) ≡ Err f)) }
    // Out of memory hides no fault.
    ensures out_of_memory { IsErrOf result CommandFault.NoMemory →
        IsCommandDocument (pairs document.now) }
{
    let Some(name) = first_command(document) else {
        return Err(CommandFault::UnknownCommand);
    };
    check_fields(name, document)?;
    Ok(take_command(alloc, name, document)?)
}

/// The command with the first name.
fn first_command(document: &Document) -> Option<CommandName>
    ensures { result ≡ first_command (pairs document.now) }
{
    if document.is_empty() {
        return None;
    }
    let (name, _) = document.pair(0);
    CommandName::from_name(name)
}

/// Fails with the first fault of the fields of a command.
fn check_fields(command: CommandName, document: &Document) -> Result<(), CommandFault>
    ensures { result_err result ≡ pairs_fault command [] (pairs document.now) }
{
    for i in 0..document.len() {
        check_field(command, document, i)?;
    }
    check_required(command, document)
}

/// Fails with the fault of the field at an index.
fn check_field(command: CommandName, document: &Document, i: usize) -> Result<(), CommandFault>
    requires { i < length (pairs document.now) }
    ensures { let d = pairs document.now in
        (p : Pair) → slice_get d i ≡ Some p → result_err result ≡ pair_fault command (take i d) p }
{
    let (name, value) = document.pair(i);
    if is_before_field(document, i, name) {
        return Err(CommandFault::RepeatedField);
    }
    match command.field_kind(name) {
        None => Err(CommandFault::UnknownField),
        Some(kind) if kind.fits(value) => Ok(()),
        Some(_) => Err(CommandFault::BadField),
    }
}

/// Whether a field occurs before an index.
fn is_before_field(document: &Document, end: usize, field: &str) -> bool
    requires { end < length (pairs document.now) }
    ensures { result ≡ is_some (first_of field.now (take end (pairs document.now))) }
{
    for i in 0..end {
        let (name, _) = document.pair(i);
        if name == field {
            return true;
        }
    }
    false
}

/// Fails if a required field is missing.
fn check_required(command: CommandName, document: &Document) -> Result<(), CommandFault>
    ensures { result_err result ≡ missing_fault command (pairs document.now) }
{
    match command {
        CommandName::GetMore if document.first("batch").is_none() => {
            Err(CommandFault::MissingField)
        }
        _ => Ok(()),
    }
}

/// The command of fields that have no fault.
fn take_command(alloc: Global, name: CommandName, document: &Document) -> Result<Command, NoMemory>
    ensures { IfOk result (λ c. command_tree c ≡ command_in name (pairs document.now)) }
{
    Ok(match name {
        CommandName::CreateIndex => Command::CreateIndex {
            path: text_at(alloc, document, "createIndex")?,
            sparse: truth_at(document, "sparse"),
        },
        CommandName::DropIndex => Command::DropIndex {
            path: text_at(alloc, document, "dropIndex")?,
        },
        CommandName::Find => Command::Find(take_find(alloc, "find", document)?),
        CommandName::Resume => Command::Resume {
            token: text_at(alloc, document, "resume")?,
            find: take_find(alloc, "filter", document)?,
        },
        CommandName::GetMore => Command::GetMore {
            id: count_at(document, "getMore"),
            batch: count_at(document, "batch"),
        },
        CommandName::KillCursor => Command::KillCursor {
            id: count_at(document, "killCursor"),
        },
        CommandName::Explain => Command::Explain(take_find(alloc, "explain", document)?),
    })
}

/// The search, with the filter in the named field.
fn take_find(alloc: Global, filter: &str, document: &Document) -> Result<FindCommand, NoMemory>
    ensures { IfOk result (λ f. find_tree f ≡ find_in filter.now (pairs document.now)) }
{
    Ok(FindCommand {
        filter: document_at(alloc, document, filter)?,
        sort: document_at(alloc, document, "sort")?,
        skip: count_at(document, "skip"),
        limit: count_at(document, "limit"),
        hint: hint_at(alloc, document)?,
    })
}

/// The text of a field; empty if it is missing.
fn text_at(alloc: Global, document: &Document, field: &str) -> Result<String, NoMemory>
    ensures { IfOk result (λ s.
        string_bytes s ≡ field_value text_field [] field.now (pairs document.now)) }
{
    match document.first(field).and_then(text_in) {
        Some(text) => String::from_str(alloc, text),
        None => Ok(String::new(alloc)),
    }
}

/// The boolean of a field; false if it is missing.
fn truth_at(document: &Document, field: &str) -> bool
    ensures { result ≡ field_value truth_field false field.now (pairs document.now) }
{
    document.first(field).and_then(truth_in).unwrap_or(false)
}

/// A copy of the document of a field; `{}` if it is missing.
fn document_at(alloc: Global, document: &Document, field: &str) -> Result<Document, NoMemory>
    ensures { IfOk result (λ d.
        pairs d ≡ field_value document_field [] field.now (pairs document.now)) }
{
    match document.first(field).and_then(document_in) {
        Some(inner) => to_document::<Tree<'_>>(alloc, Tree::Doc(inner).parts()),
        None => Ok(Document::new(alloc)),
    }
}

/// The number of a field; 0 if it is missing.
fn count_at(document: &Document, field: &str) -> u64
    ensures { result ≡ field_value count_field 0 field.now (pairs document.now) }
{
    document.first(field).and_then(count_in).unwrap_or(0)
}

/// The field `use`; `Auto` if it is missing.
fn hint_at(alloc: Global, document: &Document) -> Result<Hint, NoMemory>
    ensures { IfOk result (λ h.
        hint_tree h ≡ field_value hint_field any_way (codes "use") (pairs document.now)) }
{
    Ok(match document.first("use").and_then(hint_in) {
        Some(HintForm::Scan) => Hint::Scan,
        Some(HintForm::Index(path)) => Hint::Index(String::from_str(alloc, path)?),
        _ => Hint::Auto,
    })
}
