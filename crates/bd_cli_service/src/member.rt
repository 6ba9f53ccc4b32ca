//! The values of a reply, and its pairs.

ghost use Rattle.std.specs.Prelude.{◌≡◌, ◌++◌, ◌∷◌, [], OnErr, OnOk, codes, decimal, map, option_map};
ghost use Rattle.std.specs.Io.{StartsWith};
ghost use Rattle.bd_value.specs.Tree.{boolean, doc, fields_of, leaf};
ghost use Rattle.bd_extjson_text.specs.Text.{member, quoted, text};
ghost use Rattle.bd_cursor_request.specs.Results.{text_or_null};
ghost use Rattle.bd_cli_service.specs.inside.Reply.{member_pair, reply_value};

use bd_extjson_text::{write_number, write_path, write_string};
use bd_value::NoMemory;

/// A value of a reply.
#[derive(Clone, Copy)]
pub(crate) enum Field<'a> {
    Null,
    Truth(bool),
    /// An Int32.
    Number(u32),
    /// An Int64.
    Count(u64),
    Text(&'a str),
    /// The text of these names, joined by dots.
    Names(&'a [String]),
}

/// A text, or null if there is none.
pub(crate) fn text_or_null<'a>(text: Option<&'a str>) -> Field<'a>
    ensures { reply_value result ≡ text_or_null (option_map (λ t. t.now) text.entry) }
{
    match text {
        Some(text) => Field::Text(text),
        None => Field::Null,
    }
}

/// Appends a document: whether there is a result, and these pairs.
#[tactic(auto, using(bd_value::proofs::PrefixLemmas::prefixes))]
pub(crate) fn write_members(
    ok: bool,
    members: &[(&str, Field<'_>)],
    out: &mut Vec<u8>,
) -> Result<(), NoMemory>
    ensures ok { OnOk result (out.new.items ≡ out.old.items
        ++ text (doc (fields_of ((codes "ok", leaf (boolean ok)) ∷ map member_pair members.now)))) }
    ensures err { OnErr result (StartsWith out.new.items out.old.items) }
{
    out.extend_from_slice(b"{\"ok\":")?;
    write_truth(ok, out)?;
    for (name, value) in members {
        write_member(name, *value, out)?;
    }
    out.push(b'}')?;
    Ok(())
}

/// Appends a comma and a pair.
#[tactic(auto, using(bd_value::proofs::PrefixLemmas::prefixes))]
pub(crate) fn write_member(name: &str, value: Field<'_>, out: &mut Vec<u8>) -> Result<(), NoMemory>
    ensures ok { OnOk result (out.new.items
        ≡ out.old.items ++ 44 ∷ member name.now (text (reply_value value.entry))) }
    ensures err { OnErr result (StartsWith out.new.items out.old.items) }
{
    out.push(b',')?;
    write_string(name, out)?;
    out.push(b':')?;
    write_field(value, out)
}

/// Appends a value.
#[tactic(auto, using(bd_value::proofs::PrefixLemmas::prefixes), unfolding(bd_extjson_text::specs::Text::scalar_text))]
fn write_field(value: Field<'_>, out: &mut Vec<u8>) -> Result<(), NoMemory>
    ensures ok { OnOk result (out.new.items ≡ out.old.items ++ text (reply_value value.entry)) }
    ensures err { OnErr result (StartsWith out.new.items out.old.items) }
{
    match value {
        Field::Null => out.extend_from_slice(b"null"),
        Field::Truth(truth) => write_truth(truth, out),
        Field::Number(number) => write_wrapped(b"{\"$numberInt\":", u64::from(number), out),
        Field::Count(count) => write_wrapped(b"{\"$numberLong\":", count, out),
        Field::Text(text) => write_string(text, out),
        Field::Names(names) => write_path(names, out),
    }
}

/// Appends `true` or `false`.
#[tactic(auto, using(bd_value::proofs::PrefixLemmas::prefixes), unfolding(bd_extjson_text::specs::Text::scalar_text))]
fn write_truth(truth: bool, out: &mut Vec<u8>) -> Result<(), NoMemory>
    ensures ok { OnOk result (out.new.items ≡ out.old.items ++ text (leaf (boolean truth))) }
    ensures err { OnErr result (StartsWith out.new.items out.old.items) }
{
    if truth {
        out.extend_from_slice(b"true")
    } else {
        out.extend_from_slice(b"false")
    }
}

/// Appends `lead` and the number as a string.
#[tactic(auto, using(bd_value::proofs::PrefixLemmas::prefixes))]
fn write_wrapped(lead: &[u8], number: u64, out: &mut Vec<u8>) -> Result<(), NoMemory>
    ensures ok { OnOk result (out.new.items
        ≡ out.old.items ++ (lead.now ++ (quoted (decimal number) ++ 125 ∷ []))) }
    ensures err { OnErr result (StartsWith out.new.items out.old.items) }
{
    out.extend_from_slice(lead)?;
    out.push(b'"')?;
    write_number(number, out)?;
    out.extend_from_slice(b"\"}")?;
    Ok(())
}
