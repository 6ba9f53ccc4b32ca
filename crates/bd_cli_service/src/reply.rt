//! The reply to a line, and its text.

ghost use Rattle.std.specs.Prelude.{◌≡◌, ◌++◌, [], IfOk, OnErr, OnOk, option_map, string_bytes};
ghost use Rattle.std.specs.Io.{StartsWith};
ghost use Rattle.bd_bson_dump.specs.Collection.{documents};
ghost use Rattle.bd_query_filter.specs.Fault.{refusal_of};
ghost use Rattle.bd_cursor_request.specs.Token.{token_text};
ghost use Rattle.bd_cursor_request.specs.Results.{made_counts, text_or_null};
ghost use Rattle.bd_cursor.specs.Explanation.{plan_name, explain_doc};
ghost use Rattle.bd_cli_service.specs.Reply.{explains, filter_refusal, given_reply, json_fault_byte, json_refusal, line_reply, makes, refuses};
ghost use Rattle.bd_cli_service.specs.Reply.{reply_text, reported_refusal};
ghost use Rattle.bd_cli_service.specs.inside.Reply.{reply_value};

use crate::batch::append_batch;
use crate::member::{Field, text_or_null, write_members};
use bd_bson_dump::Dump;
use bd_cli_command::CommandFault;
use bd_cli_print::NamedPrinter;
use bd_cursor::{Explain, Plan};
use bd_cursor_request::{Batch, Made, Refused};
use bd_extjson_fault::{JsonFault, JsonFaultKind};
use bd_path::PathFault;
use bd_query_filter::FilterFault;
use bd_value::NoMemory;
use std::alloc::Global;

/// The reply to a line.
#[derive(Drop)]
pub enum Reply {
    /// The request is done: an index is dropped, or a cursor killed.
    Done,
    /// A cursor was opened, and this is its number.
    Opened(u64),
    /// The next documents of a cursor.
    Gave(Batch),
    /// An index was created.
    Made(Made),
    /// How documents are found.
    Explained(Explain),
    /// There is no result.
    Refused(LineRefusal),
}

/// Why a line has no result, by the layer that refuses it.
#[derive(Drop)]
pub enum LineRefusal {
    /// It is not a document.
    Json(JsonFault),
    /// The document is not a command.
    Command(CommandFault),
    /// The text for an index is not a path.
    Path(PathFault),
    /// A request, a token or a call of the session is refused. A document that is not a filter is reported with its own fault.
    Session(Refused),
}

/// Appends the text of a reply of a session over a dump: canonical Extended JSON v2, without white space.
///
/// On `NoMemory`, `out` is unchanged.
pub fn write_reply(
    alloc: Global,
    dump: &Dump,
    reply: &Reply,
    out: &mut Vec<u8>,
) -> Result<(), NoMemory>
    ensures ok { OnOk result (out.new.items
        ≡ out.old.items ++ reply_text (line_reply (documents dump.now) reply.now)) }
    ensures err { OnErr result (out.new.items ≡ out.old.items) }
{
    let before = out.len();
    let answer = append_reply(alloc, dump, reply, out);
    if answer.is_err() {
        out.truncate(before);
    }
    answer
}

/// The same, but after an error a part may remain.
fn append_reply(
    alloc: Global,
    dump: &Dump,
    reply: &Reply,
    out: &mut Vec<u8>,
) -> Result<(), NoMemory>
    ensures ok { OnOk result (out.new.items
        ≡ out.old.items ++ reply_text (line_reply (documents dump.now) reply.now)) }
    ensures err { OnErr result (StartsWith out.new.items out.old.items) }
{
    match reply {
        Reply::Done => write_members(true, &[], out),
        Reply::Opened(id) => write_members(true, &[("cursor", Field::Count(*id))], out),
        Reply::Gave(batch) => append_batch(alloc, &NamedPrinter, dump, batch, out),
        Reply::Made(made) => append_made(*made, out),
        Reply::Explained(explanation) => append_explanation(explanation, out),
        Reply::Refused(refusal) => append_refusal(refusal, out),
    }
}

/// Appends the reply with the counts of a new index.
#[tactic(auto, using(bd_value::proofs::PrefixLemmas::prefixes))]
fn append_made(made: Made, out: &mut Vec<u8>) -> Result<(), NoMemory>
    ensures ok { OnOk result (out.new.items
        ≡ out.old.items ++ reply_text (makes (made_counts made))) }
    ensures err { OnErr result (StartsWith out.new.items out.old.items) }
{
    let members = [
        ("entries", Field::Count(made.entries)),
        ("multikey", Field::Truth(made.multikey)),
    ];
    write_members(true, &members, out)
}

/// Appends the reply that says how documents are found.
#[tactic(auto, using(bd_value::proofs::PrefixLemmas::prefixes))]
fn append_explanation(explanation: &Explain, out: &mut Vec<u8>) -> Result<(), NoMemory>
    ensures ok { OnOk result (out.new.items
        ≡ out.old.items ++ reply_text (explains (explain_doc explanation.now))) }
    ensures err { OnErr result (StartsWith out.new.items out.old.items) }
{
    let members = [
        ("plan", Field::Text(plan_name(explanation.plan))),
        ("index", text_or_null(explanation.index.as_deref())),
        ("entries", Field::Count(explanation.entries)),
        ("documents", Field::Count(explanation.documents)),
        ("matches", Field::Count(explanation.matches)),
    ];
    write_members(true, &members, out)
}

fn plan_name(plan: Plan) -> &'static str
    ensures { result.now ≡ plan_name plan }
{
    match plan {
        Plan::Scan => "scan",
        Plan::Index => "index",
        Plan::Walk => "walk",
    }
}

/// Appends the reply of a line that has no result.
fn append_refusal(refusal: &LineRefusal, out: &mut Vec<u8>) -> Result<(), NoMemory>
    ensures ok { OnOk result (out.new.items
        ≡ out.old.items ++ reply_text (refuses (reported_refusal refusal.now))) }
    ensures err { OnErr result (StartsWith out.new.items out.old.items) }
{
    match refusal {
        LineRefusal::Json(fault) => append_json_fault(*fault, out),
        LineRefusal::Command(fault) => append_reason("command", fault.number(), fault.words(), out),
        LineRefusal::Path(fault) => append_reason("path", fault.number(), fault.words(), out),
        LineRefusal::Session(Refused::BadFilter(fault)) => append_filter_fault(fault, out),
        LineRefusal::Session(refused) => {
            append_reason("session", refused.number(), refused.words(), out)
        }
    }
}

/// Appends the reply of a refusal that has no position: the layer that refuses, the number and the message of the reason.
///
/// On `NoMemory`, `out` is unchanged.
pub fn write_refusal(
    layer: &'static str,
    number: u32,
    words: &'static str,
    out: &mut Vec<u8>,
) -> Result<(), NoMemory>
    ensures ok { OnOk result (out.new.items ≡ out.old.items ++ reply_text
        (refuses (record { layer = layer.now; number = number; words = words.now; place = [] }))) }
    ensures err { OnErr result (out.new.items ≡ out.old.items) }
{
    let before = out.len();
    let answer = append_reason(layer, number, words, out);
    if answer.is_err() {
        out.truncate(before);
    }
    answer
}

/// The same, but after an error a part may remain.
#[tactic(auto, using(bd_value::proofs::PrefixLemmas::prefixes))]
fn append_reason(
    layer: &'static str,
    number: u32,
    words: &'static str,
    out: &mut Vec<u8>,
) -> Result<(), NoMemory>
    ensures ok { OnOk result (out.new.items ≡ out.old.items ++ reply_text
        (refuses (record { layer = layer.now; number = number; words = words.now; place = [] }))) }
    ensures err { OnErr result (StartsWith out.new.items out.old.items) }
{
    let members = [
        ("layer", Field::Text(layer)),
        ("number", Field::Number(number)),
        ("text", Field::Text(words)),
    ];
    write_members(false, &members, out)
}

/// Appends the reply for a text that is not a document.
#[tactic(auto, using(bd_value::proofs::PrefixLemmas::prefixes))]
fn append_json_fault(fault: JsonFault, out: &mut Vec<u8>) -> Result<(), NoMemory>
    ensures ok { OnOk result (out.new.items
        ≡ out.old.items ++ reply_text (refuses (json_refusal fault))) }
    ensures err { OnErr result (StartsWith out.new.items out.old.items) }
{
    let members = [
        ("layer", Field::Text("json")),
        ("number", Field::Number(fault.kind.number())),
        ("text", Field::Text(fault.kind.words())),
        ("at", json_byte(fault)),
    ];
    write_members(false, &members, out)
}

/// The byte of a fault in a text; a text as a whole has none.
fn json_byte(fault: JsonFault) -> Field<'static>
    ensures { reply_value result ≡ json_fault_byte fault.kind fault.at }
{
    match fault.kind {
        JsonFaultKind::NotADocument => Field::Null,
        _ => Field::Count(fault.at),
    }
}

/// Appends the reply for a document that is not a filter.
#[tactic(auto, using(bd_value::proofs::PrefixLemmas::prefixes))]
fn append_filter_fault(fault: &FilterFault, out: &mut Vec<u8>) -> Result<(), NoMemory>
    ensures ok { OnOk result (out.new.items
        ≡ out.old.items ++ reply_text (refuses (filter_refusal (refusal_of fault.now)))) }
    ensures err { OnErr result (StartsWith out.new.items out.old.items) }
{
    let members = [
        ("layer", Field::Text("filter")),
        ("number", Field::Number(fault.kind.number())),
        ("text", Field::Text(fault.kind.words())),
        ("place", Field::Names(&fault.place)),
    ];
    write_members(false, &members, out)
}
