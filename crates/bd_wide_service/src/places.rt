//! The field `places` of `getMore`.

ghost use Rattle.std.specs.Prelude.{◌≡◌, ◌++◌, IfOk, OnErr, OnOk, Ok, List, map, ℕ};
ghost use Rattle.bd_value.specs.Tree.{doc, fields_of};
ghost use Rattle.bd_value.specs.View.{pairs, tree_of};
ghost use Rattle.bd_bson_dump.specs.Collection.{documents};
ghost use Rattle.bd_cursor_model.specs.Session.{next_call, reply, state_after};
ghost use Rattle.bd_cursor.specs.SessionView.{dump_of, given_batch, state_of};
ghost use Rattle.bd_cli_command.specs.Command.{gets_more};
ghost use Rattle.bd_cli_command.specs.Field.{truth_field};
ghost use Rattle.bd_cursor_request.specs.Results.{text_or_null};
ghost use Rattle.bd_cursor_request.specs.Token.{token_text};
ghost use Rattle.std.specs.Prelude.{option_map};
ghost use Rattle.bd_extjson_text.specs.Text.{text};
ghost use Rattle.bd_wide_service.specs.Places.{place_value, placed_by, placed_in, placed_line, places_reply, places_text, without_places};
ghost use Rattle.bd_wide_service.specs.ServiceView.{MovesAtMost};
ghost use Rattle.bd_wide_service.specs.inside.Places.{numbers_text, placed_view};

use bd_bson_dump::Dump;
use bd_cli_command::{Command, CommandFault, read_command};
use bd_cli_service::{Call, Reply, perform, write_reply};
use bd_cursor::Session;
use bd_cursor_request::{Batch, Token};
use bd_extjson::read_doc;
use bd_extjson_fault::JsonFaultKind;
use bd_extjson_text::write_doc;
use bd_value::{Document, NoMemory, Scalar, Value, try_copy};
use std::alloc::{AllocError, Global};

/// What a line requests by its field `places`.
#[derive(Drop)]
pub(crate) enum PlacedLine {
    /// It has no such field, or is no document.
    Absent,
    /// What this document requests, which has no such field.
    Documents(Document),
    /// The numbers of documents.
    Numbers {
        /// The number of a cursor.
        id: u64,
        /// How many are returned at most.
        batch: u64,
    },
    /// It is no command.
    Faulty(CommandFault),
}

/// What a line requests by its field `places`.
pub(crate) fn placed_line(alloc: Global, line: &[u8]) -> Result<PlacedLine, NoMemory>
    ensures { IfOk result (λ p. placed_view p ≡ placed_line line.now) }
{
    match read_doc(alloc, line) {
        Ok(document) => placed_in(alloc, &document),
        Err(fault) => match fault.kind {
            JsonFaultKind::NoMemory => Err(AllocError),
            _ => Ok(PlacedLine::Absent),
        },
    }
}

/// What a document requests by the field.
fn placed_in(alloc: Global, document: &Document) -> Result<PlacedLine, NoMemory>
    ensures { IfOk result (λ p. placed_view p ≡ placed_in (pairs document.now)) }
{
    let Some(value) = document.first("places") else {
        return Ok(PlacedLine::Absent);
    };
    let value = truth_in(value);
    let rest = without_places(alloc, document)?;
    let repeated = rest.len() + 1 < document.len();
    match read_command(alloc, &rest) {
        Ok(Command::GetMore { id, batch }) => Ok(batch_by(id, batch, rest, repeated, value)),
        Ok(_) => Ok(PlacedLine::Faulty(CommandFault::UnknownField)),
        Err(CommandFault::NoMemory) => Err(AllocError),
        Err(fault) => Ok(PlacedLine::Faulty(fault)),
    }
}

/// A boolean.
fn truth_in(value: &Value) -> Option<bool>
    ensures { result ≡ truth_field (tree_of value.now) }
{
    match value.scalar() {
        Some(Scalar::Bool(truth)) => Some(truth),
        _ => None,
    }
}

/// What a `getMore` requests, by its pairs without the field.
fn batch_by(id: u64, batch: u64, rest: Document, repeated: bool, value: Option<bool>) -> PlacedLine
    ensures { placed_view result ≡ placed_by (pairs rest) repeated value (Ok (gets_more id batch)) }
{
    if repeated {
        return PlacedLine::Faulty(CommandFault::RepeatedField);
    }
    match value {
        Some(true) => PlacedLine::Numbers { id, batch },
        Some(false) => PlacedLine::Documents(rest),
        None => PlacedLine::Faulty(CommandFault::BadField),
    }
}

/// A copy of the pairs with another name than `places`.
fn without_places(alloc: Global, document: &Document) -> Result<Document, NoMemory>
    ensures { IfOk result (λ rest. pairs rest ≡ without_places (pairs document.now)) }
{
    let mut rest = Document::new(alloc);
    for i in 0..document.len() {
        let (name, value) = document.pair(i);
        if name != "places" {
            rest.push(String::from_str(alloc, name)?, try_copy(alloc, value)?)?;
        }
    }
    Ok(rest)
}

/// Appends the text of a reply to `getMore`, with the numbers of the documents of a batch. On `NoMemory`, `out` is unchanged.
pub(crate) fn write_numbers(
    alloc: Global,
    dump: &Dump,
    reply: &Reply,
    out: &mut Vec<u8>,
) -> Result<(), NoMemory>
    ensures ok { OnOk result (out.new.items
        ≡ out.old.items ++ numbers_text (documents dump.now) reply.now) }
    ensures err { OnErr result (out.new.items ≡ out.old.items) }
{
    match reply {
        Reply::Gave(batch) => write_doc(&places_reply(alloc, batch)?, out),
        reply => write_reply(alloc, dump, reply, out),
    }
}

/// The reply with the numbers of the documents of a batch.
fn places_reply(alloc: Global, batch: &Batch) -> Result<Document, NoMemory>
    ensures { IfOk result (λ d. pairs d ≡ places_reply (given_batch batch.now)) }
{
    let places = place_values(alloc, &batch.places)?;
    let token = token_value(alloc, batch.token)?;
    let mut reply = Document::new(alloc);
    reply.push(String::from_str(alloc, "ok")?, Value::Bool(true))?;
    reply.push(String::from_str(alloc, "places")?, Value::Array(places))?;
    reply.push(String::from_str(alloc, "end")?, Value::Bool(batch.end))?;
    reply.push(String::from_str(alloc, "token")?, token)?;
    Ok(reply)
}

/// The numbers of documents as values.
fn place_values(alloc: Global, places: &[u32]) -> Result<Vec<Value>, NoMemory>
    ensures { IfOk result (λ values. map tree_of values.items ≡ map place_value places.now) }
{
    let mut values = Vec::new(alloc);
    for place in places {
        values.push(place_value(*place))?;
    }
    Ok(values)
}

/// The number of a document as a value.
fn place_value(place: u32) -> Value
    ensures { tree_of result ≡ place_value place }
{
    if place < 2_147_483_648 {
        Value::Int32(place as i32)
    } else {
        Value::Int64(i64::from(place))
    }
}

/// The text of a token, or null if there is none.
fn token_value(alloc: Global, token: Option<Token>) -> Result<Value, NoMemory>
    ensures { IfOk result (λ v. tree_of v ≡ text_or_null (option_map token_text token)) }
{
    match token {
        Some(token) => Ok(Value::Text(token.text(alloc)?)),
        None => Ok(Value::Null),
    }
}

/// The text of a document.
pub(crate) fn line_of(alloc: Global, document: &Document) -> Result<Vec<u8>, NoMemory>
    ensures { IfOk result (λ line. line.items ≡ text (doc (fields_of (pairs document.now)))) }
{
    let mut line = Vec::new(alloc);
    write_doc(document, &mut line)?;
    Ok(line)
}

/// Gets the next batch of a cursor, and appends the reply with the numbers of its documents.
pub(crate) fn reply_numbers(
    alloc: Global,
    session: &mut Session,
    id: u64,
    batch: u64,
    text: &mut Vec<u8>,
) -> Result<(), NoMemory>
    ensures ok { OnOk result ((text.new.items ≡ text.old.items
        ++ places_text (reply (state_of session.old) (next_call id batch)))
        × (state_of session.new ≡ state_after (state_of session.old) (next_call id batch))) }
    ensures err { OnErr result ((text.new.items ≡ text.old.items)
        × MovesAtMost (state_of session.old) (state_of session.new)) }
    ensures dump { dump_of session.new ≡ dump_of session.old }
{
    let reply = perform(session, Call::GetMore { id, batch })?;
    write_numbers(alloc, session.dump(), &reply, text)
}
