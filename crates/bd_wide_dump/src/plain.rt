//! The plain text of a value, as a field of CSV has it.

ghost use Rattle.std.specs.Prelude.{◌≡◌, ◌<◌, ◌≤◌, ◌+◌, ◌∷◌, true, length, drop, IfOk, if◌then◌else◌};
ghost use Rattle.bd_value.specs.Limits.{longest_document};
ghost use Rattle.bd_value.specs.Tree as trees;
ghost use Rattle.bd_value.specs.Tree.{Tree, leaf};
ghost use Rattle.bd_value.specs.View.{scalar_kind};
ghost use Rattle.bd_bson_view.specs.Raw.{value_tree};
ghost use Rattle.bd_bson_view.specs.Sizes.{long_of};
ghost use Rattle.bd_bson_view.specs.declared.raw_parts.ElementType.TheVariants.{Kept};
ghost use Rattle.bd_extjson_text.specs.Buffer.{Appends};
ghost use Rattle.bd_extjson_text.specs.Text.{hex_text, scalar_text};
ghost use Rattle.bd_wide_text.specs.Decimal128.{decimal128_text};
ghost use Rattle.bd_wide_dump.specs.Plain.{IsInstantText, IsPlainDate, IsPlainText, is_uuid, uuid_text};
ghost use Rattle.bd_wide_dump.specs.RelaxedDate.{is_dated};
ghost use Rattle.bd_wide_dump.specs.inside.Begins.{AppendsBy, HasValue};
ghost use Rattle.bd_wide_dump.specs.inside.Finds.{IsAt, is_plain};

use crate::follow::Found;
use crate::format::JsonFormat;
use crate::line::append_value;
use crate::number::{append_digits, long};
use crate::relaxed::{DAY, append_plain_instant, is_dated};
use bd_bson_view::{ElementType, RawValue};
use bd_extjson_text::{End, VALUE, append_few, append_node};
use bd_value::{Kind, Reading, Scalar};
use bd_wide_text::write_decimal128;
use jiff_core::civil::Date;

/// Appends the plain text of a value. There is space for a short one. On `NoMemory` the bytes before it may be lost, and so in
/// the functions below.
pub(crate) fn append_plain(bytes: &[u8], found: Found, out: &mut Vec<u8>, end: usize) -> End
    requires short { length bytes.now ≤ longest_document }
    requires value { (tree : Tree) × IsAt bytes.now tree found }
    requires buffer { end + VALUE ≤ length out.old.items }
    ensures { (tree : Tree) → IsAt bytes.now tree found → IfOk result (λ to.
        AppendsBy (IsPlainText tree) out.old.items end to out.new.items) }
{
    let (_, value) = bytes.split_at(found.start);
    match found.typed {
        ElementType::Double => append_digits(long(value), out, end),
        ElementType::Decimal128 => append_decimal(value, out, end),
        ElementType::Kept(kind) => append_kept(kind, bytes, found.start, out, end),
    }
}

/// Appends a decimal128 without a wrapper.
fn append_decimal(value: &[u8], out: &mut Vec<u8>, end: usize) -> End
    requires value { 16 ≤ length value.now }
    requires buffer { end ≤ length out.old.items }
    ensures { IfOk result (λ to. AppendsBy
        (λ text. text ≡ decimal128_text (long_of value.now) (long_of (drop 8 value.now)))
        out.old.items end to out.new.items) }
{
    let (_, high) = value.split_at(8);
    out.truncate(end);
    write_decimal128(long(value), long(high), out)?;
    Ok(out.len())
}

/// Appends the plain text of a value of that kind at an offset.
fn append_kept(kind: Kind, bytes: &[u8], start: usize, out: &mut Vec<u8>, end: usize) -> End
    requires short { length bytes.now ≤ longest_document }
    requires inside { start ≤ length bytes.now }
    requires value { (tree : Tree) × HasValue (Kept kind) (drop start bytes.now) tree }
    requires buffer { end + VALUE ≤ length out.old.items }
    ensures { (tree : Tree) → HasValue (Kept kind) (drop start bytes.now) tree →
        IfOk result (λ to. AppendsBy (IsPlainText tree) out.old.items end to out.new.items) }
{
    if is_plain(kind) {
        return append_scalar(RawValue::there(kind, bytes, start), out, end);
    }
    let typed = ElementType::Kept(kind);
    append_value(JsonFormat::Relaxed, typed, bytes, start, out, end)
}

/// Whether values of this kind have a plain text of their own, and are no numbers.
fn is_plain(kind: Kind) -> bool
    ensures { result ≡ is_plain kind }
{
    matches!(
        kind,
        Kind::Null | Kind::Text | Kind::ObjectId | Kind::Date | Kind::Binary
    )
}

/// Appends the plain text of a scalar of such a kind.
fn append_scalar(node: RawValue<'_>, out: &mut Vec<u8>, end: usize) -> End
    requires scalar { (s : trees.Scalar) × (value_tree node ≡ leaf s)
        × (is_plain (scalar_kind s) ≡ true) }
    requires buffer { end + VALUE ≤ length out.old.items }
    ensures { (s : trees.Scalar) → value_tree node.entry ≡ leaf s → IfOk result (λ to.
        AppendsBy (IsPlainText (leaf s)) out.old.items end to out.new.items) }
{
    match node.leaf() {
        Some(Scalar::Null) => append_few(b"", out, end),
        Some(Scalar::Text(text)) => append_few(text.as_bytes(), out, end),
        Some(Scalar::ObjectId(id)) => append_hex(&id, out, end),
        Some(Scalar::Date(milliseconds)) => append_date(milliseconds, node, out, end),
        Some(Scalar::Binary { subtype, payload }) => {
            append_binary(subtype, payload, node, out, end)
        }
        _ => unreachable!(),
    }
}

/// Appends a date, the value of the node.
fn append_date(milliseconds: i64, node: RawValue<'_>, out: &mut Vec<u8>, end: usize) -> End
    requires date { value_tree node ≡ leaf (trees.date milliseconds) }
    requires buffer { end + VALUE ≤ length out.old.items }
    ensures { IfOk result (λ to. AppendsBy (IsPlainDate (is_dated milliseconds) milliseconds)
        out.old.items end to out.new.items) }
{
    if is_dated(milliseconds) {
        return append_instant(milliseconds.unsigned_abs(), out, end);
    }
    append_node(node, out, end)
}

/// Appends a time of the years 1970 to 9999.
fn append_instant(milliseconds: u64, out: &mut Vec<u8>, end: usize) -> End
    requires { (milliseconds < 253_402_300_800_000) × (end ≤ length out.old.items) }
    ensures { IfOk result (λ to.
        AppendsBy (IsInstantText milliseconds) out.old.items end to out.new.items) }
{
    let Ok(day) = Date::from_unix_epoch_day((milliseconds / DAY) as i64) else {
        unreachable!()
    };
    append_plain_instant(day, (milliseconds % DAY) as u32, out, end)
}

/// Appends binary data, the value of the node.
fn append_binary(
    subtype: u8,
    payload: &[u8],
    node: RawValue<'_>,
    out: &mut Vec<u8>,
    end: usize,
) -> End
    requires binary { value_tree node ≡ leaf (trees.binary subtype payload.now) }
    requires buffer { end + VALUE ≤ length out.old.items }
    ensures { IfOk result (λ to. AppendsBy (λ text. text ≡ (if is_uuid subtype payload.now
        then uuid_text payload.now else scalar_text (trees.binary subtype payload.now)))
        out.old.items end to out.new.items) }
{
    if subtype == 4 && payload.len() == 16 {
        return append_uuid(payload, out, end);
    }
    append_node(node, out, end)
}

/// Appends sixteen bytes as a UUID.
fn append_uuid(id: &[u8], out: &mut Vec<u8>, end: usize) -> End
    requires { (length id.now ≡ 16) × (end ≤ length out.old.items) }
    ensures { IfOk result (λ to.
        AppendsBy (λ text. text ≡ uuid_text id.now) out.old.items end to out.new.items) }
{
    let at = append_hex(&id[..4], out, end)?;
    let at = append_group(&id[4..6], out, at)?;
    let at = append_group(&id[6..8], out, at)?;
    let at = append_group(&id[8..10], out, at)?;
    append_group(&id[10..], out, at)
}

/// Appends a hyphen and the digits of at most sixteen bytes.
fn append_group(bytes: &[u8], out: &mut Vec<u8>, end: usize) -> End
    requires { (length bytes.now ≤ 16) × (end ≤ length out.old.items) }
    ensures { Appends out.old.items end result out.new.items (45 ∷ hex_text bytes.now) }
{
    let at = append_few(b"-", out, end)?;
    append_hex(bytes, out, at)
}

/// Appends the digits of at most sixteen bytes, two each.
#[tactic(auto, unfolding(bd_extjson_text::specs::Text::hex_text))]
fn append_hex(bytes: &[u8], out: &mut Vec<u8>, end: usize) -> End
    requires { (length bytes.now ≤ 16) × (end ≤ length out.old.items) }
    ensures { Appends out.old.items end result out.new.items (hex_text bytes.now) }
{
    let mut digits = [0; 32];
    let size = 2 * bytes.len();
    let Ok(()) = hex::encode_to_slice(bytes, &mut digits[..size]) else {
        unreachable!();
    };
    append_few(&digits[..size], out, end)
}
