//! The reply with a batch, by what prints its documents.

ghost use Rattle.std.specs.Prelude.{◌≡◌, ◌<◌, ◌++◌, ◌∷◌, [], IfOk, List, OnErr, OnOk, if◌then◌else◌, length, nat_lt, option_map, string_bytes, ℕ};
ghost use Rattle.std.specs.Io.{StartsWith};
ghost use Rattle.std.specs.List.{filter, join_with_byte};
ghost use Rattle.bd_bson_dump.specs.Collection.{documents};
ghost use Rattle.bd_cursor_request.specs.Token.{token_text};
ghost use Rattle.bd_cli_service.specs.Reply.{AreTextsAt, given_text};

use crate::member::{Field, text_or_null, write_member};
use bd_bson_dump::Dump;
use bd_cli_print::PlacePrinter;
use bd_cursor_request::{Batch, Token};
use bd_value::NoMemory;
use std::alloc::Global;

/// Appends the text of the reply with a batch, with its documents as a printer prints them. A place after the last document of the
/// dump has none.
///
/// On `NoMemory`, `out` is unchanged.
pub fn write_batch<P: PlacePrinter>(
    alloc: Global,
    printer: &P,
    dump: &Dump,
    batch: &Batch,
    out: &mut Vec<u8>,
) -> Result<(), NoMemory>
    requires printable { (place : ℕ) → place < length (documents dump.now) →
        P.can_print printer.now dump.now place }
    ensures ok { OnOk result ((texts : List (List ℕ)) × AreTextsAt (P.is_text printer.now dump.now)
        (filter (λ p. nat_lt p (length (documents dump.now))) batch.now.places.items) texts
        × (out.new.items ≡ out.old.items
        ++ given_text texts batch.now.end (option_map token_text batch.now.token))) }
    ensures err { OnErr result (out.new.items ≡ out.old.items) }
{
    let before = out.len();
    let answer = append_batch(alloc, printer, dump, batch, out);
    if answer.is_err() {
        out.truncate(before);
    }
    answer
}

/// The same, but after an error a part may remain.
#[tactic(auto, using(bd_value::proofs::PrefixLemmas::prefixes))]
pub(crate) fn append_batch<P: PlacePrinter>(
    alloc: Global,
    printer: &P,
    dump: &Dump,
    batch: &Batch,
    out: &mut Vec<u8>,
) -> Result<(), NoMemory>
    requires printable { (place : ℕ) → place < length (documents dump.now) →
        P.can_print printer.now dump.now place }
    ensures ok { OnOk result ((texts : List (List ℕ)) × AreTextsAt (P.is_text printer.now dump.now)
        (filter (λ p. nat_lt p (length (documents dump.now))) batch.now.places.items) texts
        × (out.new.items ≡ out.old.items
        ++ given_text texts batch.now.end (option_map token_text batch.now.token))) }
    ensures err { OnErr result (StartsWith out.new.items out.old.items) }
{
    let token = token_text(alloc, batch.token)?;
    out.extend_from_slice(b"{\"ok\":true,\"documents\":[")?;
    write_documents(printer, dump, &batch.places, out)?;
    out.push(b']')?;
    write_member("end", Field::Truth(batch.end), out)?;
    write_member("token", text_or_null(token.as_deref()), out)?;
    out.push(b'}')?;
    Ok(())
}

/// The text of a token, if any.
fn token_text(alloc: Global, token: Option<Token>) -> Result<Option<String>, NoMemory>
    ensures { IfOk result (λ text. option_map string_bytes text ≡ option_map token_text token) }
{
    match token {
        Some(token) => Ok(Some(token.text(alloc)?)),
        None => Ok(None),
    }
}

/// Appends the texts of the documents at these places, joined by commas. A place after the last document has none.
#[tactic(auto, using(bd_value::proofs::PrefixLemmas::prefixes))]
fn write_documents<P: PlacePrinter>(
    printer: &P,
    dump: &Dump,
    places: &[u32],
    out: &mut Vec<u8>,
) -> Result<(), NoMemory>
    requires printable { (place : ℕ) → place < length (documents dump.now) →
        P.can_print printer.now dump.now place }
    ensures ok { OnOk result ((texts : List (List ℕ)) × AreTextsAt (P.is_text printer.now dump.now)
        (filter (λ p. nat_lt p (length (documents dump.now))) places.now) texts
        × (out.new.items ≡ out.old.items ++ join_with_byte 44 texts)) }
    ensures err { OnErr result (StartsWith out.new.items out.old.items) }
{
    let mut later = false;
    for place in places {
        if *place < dump.len() {
            write_document(printer, dump, *place, later, out)?;
            later = true;
        }
    }
    Ok(())
}

/// Appends the text of a document, after a comma unless it is the first.
#[tactic(auto, using(bd_value::proofs::PrefixLemmas::prefixes))]
fn write_document<P: PlacePrinter>(
    printer: &P,
    dump: &Dump,
    place: u32,
    later: bool,
    out: &mut Vec<u8>,
) -> Result<(), NoMemory>
    requires { P.can_print printer.now dump.now place }
    ensures ok { OnOk result ((text : List ℕ) × P.is_text printer.now dump.now place text
        × (out.new.items ≡ out.old.items ++ ((if later then 44 ∷ [] else []) ++ text))) }
    ensures err { OnErr result (StartsWith out.new.items out.old.items) }
{
    if later {
        out.push(b',')?;
    }
    let before = out.len();
    let end = printer.append(dump, place, out, before)?;
    out.truncate(end);
    Ok(())
}
