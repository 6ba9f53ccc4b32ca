//! What to write where a text is not Extended JSON.

ghost use Rattle.std.specs.Prelude.{◌≡◌, ◌==◌, ◌||◌, nat_lt, drop, map, option_map};
ghost use Rattle.std.specs.Char.{is_ascii_alphanumeric};
ghost use Rattle.bd_wide_advice.specs.Advice.{after_new as after_new_of, begins_colon as begins_colon_of, begins_name as begins_name_of, form_advice as form_advice_of, advice_in as advice_in_of, advice_of, name_advice as name_advice_of, shell_advice as shell_advice_of, is_of_name as is_of_name_of, word_advice as word_advice_of, wrapper_advice as wrapper_advice_of};
ghost use Rattle.bd_extjson_fault.specs.JsonSyntax.{beyond_all, beyond_white};

use bd_extjson_fault::{JsonFault, JsonFaultKind};

/// A word, and what to write in place of the value that it begins.
type Row = (&'static str, &'static str);

/// What a value begins with as mongosh writes it, at which a text stops being JSON.
const WORDS: [Row; 19] = [
    ("ObjectId(", "write {\"$oid\":\"..\"}"),
    ("ISODate(", "write {\"$date\":\"2026-10-01T00:00:00Z\"}"),
    ("Date(", "write {\"$date\":\"2026-10-01T00:00:00Z\"}"),
    ("UUID(", "write {\"$uuid\":\"..\"}"),
    ("NumberInt(", "write {\"$numberInt\":\"..\"}"),
    ("Int32(", "write {\"$numberInt\":\"..\"}"),
    ("NumberLong(", "write {\"$numberLong\":\"..\"}"),
    ("Long(", "write {\"$numberLong\":\"..\"}"),
    ("NumberDecimal(", "write {\"$numberDecimal\":\"..\"}"),
    ("Decimal128(", "write {\"$numberDecimal\":\"..\"}"),
    ("Double(", "write {\"$numberDouble\":\"..\"}"),
    ("NaN", "write {\"$numberDouble\":\"NaN\"}"),
    ("Infinity", "write {\"$numberDouble\":\"Infinity\"}"),
    ("Timestamp(", "write {\"$timestamp\":{\"t\":..,\"i\":..}}"),
    (
        "BinData(",
        "write {\"$binary\":{\"base64\":\"..\",\"subType\":\"..\"}}",
    ),
    ("MinKey", "write {\"$minKey\":1}"),
    ("MaxKey", "write {\"$maxKey\":1}"),
    ("/", "regular expressions are not supported"),
    ("'", "write names and strings in double quotation marks"),
];

/// The names of wrappers, after the brace.
const WRAPPERS: [Row; 9] = [
    (
        "\"$oid\"",
        "write {\"$oid\":\"..\"} with 24 hexadecimal digits",
    ),
    ("\"$date\"", "write {\"$date\":\"2026-10-01T00:00:00Z\"}"),
    (
        "\"$uuid\"",
        "write {\"$uuid\":\"00112233-4455-6677-8899-aabbccddeeff\"}",
    ),
    ("\"$numberInt\"", "write {\"$numberInt\":\"..\"}"),
    ("\"$numberLong\"", "write {\"$numberLong\":\"..\"}"),
    ("\"$numberDecimal\"", "write {\"$numberDecimal\":\"..\"}"),
    ("\"$numberDouble\"", "write {\"$numberDouble\":\"..\"}"),
    (
        "\"$timestamp\"",
        "write {\"$timestamp\":{\"t\":..,\"i\":..}}",
    ),
    (
        "\"$binary\"",
        "write {\"$binary\":{\"base64\":\"..\",\"subType\":\"..\"}}",
    ),
];

/// For a name without quotation marks.
const NAMES: &str = "write names in double quotation marks";

/// What to write where a text has a fault, by the bytes at its offset: a form of Extended JSON v2. None if that is not known.
pub fn advice_at(text: &[u8], fault: JsonFault) -> Option<&'static str>
    ensures { option_map (λ a. a.now) result ≡ advice_of fault.kind (drop fault.at text.now) }
{
    match fault.kind {
        JsonFaultKind::Syntax => word_advice(bytes_from(text, fault.at)),
        JsonFaultKind::BadWrapper => wrapper_advice(bytes_from(text, fault.at)),
        _ => None,
    }
}

/// The bytes of a text from an offset on.
fn bytes_from(text: &[u8], at: u64) -> &[u8]
    ensures { result.now ≡ drop at text.now }
{
    text.split_at((at as usize).min(text.len())).1
}

/// What to write in place of the bytes at which a text stops being JSON.
fn word_advice(bytes: &[u8]) -> Option<&'static str>
    ensures { option_map (λ a. a.now) result ≡ word_advice_of bytes.now }
{
    match shell_advice(after_new(bytes)) {
        Some(advice) => Some(advice),
        None => name_advice(bytes),
    }
}

/// What to write in place of a word of mongosh.
fn shell_advice(bytes: &[u8]) -> Option<&'static str>
    ensures { option_map (λ a. a.now) result ≡ shell_advice_of bytes.now }
{
    advice_in(&WORDS, bytes)
}

/// What to write in place of a name without quotation marks.
#[tactic(auto, unfolding(crate::specs::Advice::name_advice))]
fn name_advice(bytes: &[u8]) -> Option<&'static str>
    ensures { option_map (λ a. a.now) result ≡ name_advice_of bytes.now }
{
    if begins_name(bytes) {
        return Some(NAMES);
    }
    None
}

/// What to write in place of a wrapper.
fn wrapper_advice(bytes: &[u8]) -> Option<&'static str>
    ensures { option_map (λ a. a.now) result ≡ wrapper_advice_of bytes.now }
{
    match bytes {
        [b'{', inside @ ..] => form_advice(skip_white(inside)),
        _ => None,
    }
}

/// What to write in place of a wrapper, after its brace.
fn form_advice(inside: &[u8]) -> Option<&'static str>
    ensures { option_map (λ a. a.now) result ≡ form_advice_of inside.now }
{
    advice_in(&WRAPPERS, inside)
}

/// What a table has for the first of its words that bytes begin with.
fn advice_in(rows: &[Row], bytes: &[u8]) -> Option<&'static str>
    ensures { option_map (λ a. a.now) result
        ≡ advice_in_of (map (λ row. (row.0.now, row.1.now)) rows.now) bytes.now }
{
    let mut rest = rows;
    while let [row, more @ ..] = rest {
        if bytes.starts_with(row.0.as_bytes()) {
            return Some(row.1);
        }
        rest = more;
    }
    None
}

/// What follows `new`, whose first byte could begin `null`; else the bytes.
fn after_new(bytes: &[u8]) -> &[u8]
    ensures { result.now ≡ after_new_of bytes.now }
{
    match bytes.strip_prefix(b"ew ".as_slice()) {
        Some(rest) => rest,
        None => bytes,
    }
}

/// Whether bytes begin with a name without quotation marks, and a colon.
fn begins_name(bytes: &[u8]) -> bool
    ensures { result ≡ begins_name_of bytes.now }
{
    match bytes {
        [first, rest @ ..] => is_of_name(*first) && begins_colon(skip_white(skip_name(rest))),
        [] => false,
    }
}

/// Whether the next byte is a colon.
fn begins_colon(bytes: &[u8]) -> bool
    ensures { result ≡ begins_colon_of bytes.now }
{
    matches!(bytes, [b':', ..])
}

/// What follows the bytes of a name at the start.
#[tactic(auto, unfolding(bd_extjson_fault::specs::JsonSyntax::beyond_all))]
fn skip_name(bytes: &[u8]) -> &[u8]
    ensures { result.now ≡ beyond_all is_of_name_of bytes.now }
{
    let mut rest = bytes;
    while let [c, more @ ..] = rest {
        if !is_of_name(*c) {
            return rest;
        }
        rest = more;
    }
    rest
}

/// What follows the white space at the start.
#[tactic(auto, unfolding(bd_extjson_fault::specs::JsonSyntax::beyond_all))]
fn skip_white(bytes: &[u8]) -> &[u8]
    ensures { result.now ≡ beyond_white bytes.now }
{
    let mut rest = bytes;
    while let [b' ' | b'\t' | b'\n' | b'\r', more @ ..] = rest {
        rest = more;
    }
    rest
}

/// Whether a byte can be part of a name without quotation marks.
fn is_of_name(c: u8) -> bool
    ensures { result ≡ is_of_name_of c }
{
    c.is_ascii_alphanumeric() || (c == b'$' || c == b'.' || c == b'_' || c > 127)
}
