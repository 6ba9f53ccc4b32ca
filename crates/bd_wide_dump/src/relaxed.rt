//! The scalars of the nineteen kinds in both formats: whole numbers and dates differ.

ghost use Rattle.std.specs.Prelude.{◌≡◌, ◌<◌, ◌≤◌, ◌+◌, ◌++◌, ℕ, List, length, take, IfOk, OnErr};
ghost use Rattle.std.specs.Fmt.{signed_decimal};
ghost use Rattle.bd_value.specs.Tree as trees;
ghost use Rattle.bd_value.specs.Tree.{leaf};
ghost use Rattle.bd_bson_view.specs.Raw.{value_tree};
ghost use Rattle.bd_extjson_text.specs.Buffer.{Appends};
ghost use Rattle.bd_wide_dump.specs.RelaxedDate.{IsDatedText, dated_text, day_text, fraction_text, instant_text, is_dated, seconds_text, time_text, two};
ghost use Rattle.bd_wide_dump.specs.WideText.{IsKindText};
ghost use Rattle.bd_wide_dump.specs.declared.format.JsonFormat.TheVariants.{Relaxed};
ghost use Rattle.bd_wide_dump.specs.inside.Begins.{AppendsBy};

use crate::format::JsonFormat;
use bd_bson_view::RawValue;
use bd_extjson_text::{End, VALUE, append_few, append_node};
use bd_value::{Kind, Reading, Scalar};
use itoa::Buffer;
use jiff_core::civil::Date;

/// Appends the text of a scalar of the nineteen kinds. There is space for a short one. On `NoMemory` the first `end` bytes are
/// unchanged, and so in the functions below.
#[inline(always)]
pub(crate) fn append_kind(
    format: JsonFormat,
    node: RawValue<'_>,
    out: &mut Vec<u8>,
    end: usize,
) -> End
    requires scalar { (s : trees.Scalar) × (value_tree node ≡ leaf s) }
    requires buffer { end + VALUE ≤ length out.old.items }
    ensures text { (s : trees.Scalar) → value_tree node.entry ≡ leaf s → IfOk result (λ e.
        AppendsBy (λ text. IsKindText format s text) out.old.items end e out.new.items) }
    ensures err { OnErr result (take end out.new.items ≡ take end out.old.items) }
{
    match format {
        JsonFormat::Canonical => append_node(node, out, end),
        JsonFormat::Relaxed => append_relaxed(node, out, end),
    }
}

/// The same in relaxed form.
#[inline(never)]
pub(crate) fn append_relaxed(node: RawValue<'_>, out: &mut Vec<u8>, end: usize) -> End
    requires scalar { (s : trees.Scalar) × (value_tree node ≡ leaf s) }
    requires buffer { end + VALUE ≤ length out.old.items }
    ensures text { (s : trees.Scalar) → value_tree node.entry ≡ leaf s → IfOk result (λ e.
        AppendsBy (λ text. IsKindText Relaxed s text) out.old.items end e out.new.items) }
    ensures err { OnErr result (take end out.new.items ≡ take end out.old.items) }
{
    match node.kind() {
        Kind::Int32 => {
            let Some(Scalar::Int32(n)) = node.leaf() else {
                unreachable!()
            };
            append_whole(i64::from(n), out, end)
        }
        Kind::Int64 => {
            let Some(Scalar::Int64(n)) = node.leaf() else {
                unreachable!()
            };
            append_whole(n, out, end)
        }
        Kind::Date => {
            let Some(Scalar::Date(milliseconds)) = node.leaf() else {
                unreachable!()
            };
            if is_dated(milliseconds) {
                return append_dated(milliseconds.unsigned_abs(), out, end);
            }
            append_node(node, out, end)
        }
        _ => append_node(node, out, end),
    }
}

/// Appends a whole number in decimal.
fn append_whole(n: i64, out: &mut Vec<u8>, end: usize) -> End
    requires { end ≤ length out.old.items }
    ensures { Appends out.old.items end result out.new.items (signed_decimal n) }
{
    let mut buffer = Buffer::new();
    append_few(buffer.format(n).as_bytes(), out, end)
}

/// The milliseconds from the beginning of 1970 to the end of 9999.
const LAST: i64 = 253_402_300_800_000;

/// The milliseconds of a day.
pub(crate) const DAY: u64 = 86_400_000;

/// Whether a time is in the years 1970 to 9999.
pub(crate) fn is_dated(milliseconds: i64) -> bool
    ensures { result ≡ is_dated milliseconds }
{
    0 <= milliseconds && milliseconds < LAST
}

/// Appends a time of the years 1970 to 9999 as a date and a time.
fn append_dated(milliseconds: u64, out: &mut Vec<u8>, end: usize) -> End
    requires { (milliseconds < 253_402_300_800_000) × (end ≤ length out.old.items) }
    ensures text { IfOk result (λ e.
        AppendsBy (λ text. IsDatedText milliseconds text) out.old.items end e out.new.items) }
    ensures err { OnErr result (take end out.new.items ≡ take end out.old.items) }
{
    let Ok(day) = Date::from_unix_epoch_day((milliseconds / DAY) as i64) else {
        unreachable!()
    };
    append_instant(day, (milliseconds % DAY) as u32, out, end)
}

/// Appends a day of the years 0 to 9999, and the time of the day, in the wrapper of a date.
fn append_instant(day: Date, milliseconds: u32, out: &mut Vec<u8>, end: usize) -> End
    requires { (milliseconds < 86_400_000) × (end ≤ length out.old.items) }
    ensures { Appends out.old.items end result out.new.items (dated_text day milliseconds) }
{
    let at = append_few(b"{\"$date\":\"", out, end)?;
    let at = append_plain_instant(day, milliseconds, out, at)?;
    append_few(b"\"}", out, at)
}

/// The same without the wrapper.
pub(crate) fn append_plain_instant(
    day: Date,
    milliseconds: u32,
    out: &mut Vec<u8>,
    end: usize,
) -> End
    requires { (milliseconds < 86_400_000) × (end ≤ length out.old.items) }
    ensures { Appends out.old.items end result out.new.items (instant_text day milliseconds) }
{
    let at = append_day(day, out, end)?;
    let at = append_time(milliseconds, out, at)?;
    append_few(b"Z", out, at)
}

/// Two decimal digits.
#[inline(always)]
fn two(n: u32) -> [u8; 2]
    requires { n < 100 }
    ensures { result ≡ two n }
{
    [48 + (n / 10) as u8, 48 + (n % 10) as u8]
}

/// Appends a day of the years 0 to 9999.
fn append_day(day: Date, out: &mut Vec<u8>, end: usize) -> End
    requires { end ≤ length out.old.items }
    ensures { Appends out.old.items end result out.new.items (day_text day) }
{
    let year = u32::from(day.year.unsigned_abs());
    let [thousands, hundreds] = two(year / 100);
    let [tens, ones] = two(year % 100);
    let [month, month_ones] = two(u32::from(day.month));
    let [date, date_ones] = two(u32::from(day.day));
    let text = [
        thousands, hundreds, tens, ones, b'-', month, month_ones, b'-', date, date_ones,
    ];
    append_few(&text, out, end)
}

/// Appends the time of a day.
fn append_time(milliseconds: u32, out: &mut Vec<u8>, end: usize) -> End
    requires { (milliseconds < 86_400_000) × (end ≤ length out.old.items) }
    ensures { Appends out.old.items end result out.new.items (time_text milliseconds) }
{
    let at = append_seconds(milliseconds, out, end)?;
    append_fraction(milliseconds % 1000, out, at)
}

/// Appends the time of a day without the fraction of its second.
fn append_seconds(milliseconds: u32, out: &mut Vec<u8>, end: usize) -> End
    requires { (milliseconds < 86_400_000) × (end ≤ length out.old.items) }
    ensures { Appends out.old.items end result out.new.items (seconds_text milliseconds) }
{
    let [hour, hour_ones] = two(milliseconds / 3_600_000);
    let [minute, minute_ones] = two(milliseconds / 60_000 % 60);
    let [second, second_ones] = two(milliseconds / 1000 % 60);
    let text = [
        b'T',
        hour,
        hour_ones,
        b':',
        minute,
        minute_ones,
        b':',
        second,
        second_ones,
    ];
    append_few(&text, out, end)
}

/// Appends the thousandths of a second, without the zeros at the end.
fn append_fraction(thousandths: u32, out: &mut Vec<u8>, end: usize) -> End
    requires { (thousandths < 1000) × (end ≤ length out.old.items) }
    ensures { Appends out.old.items end result out.new.items (fraction_text thousandths) }
{
    if thousandths == 0 {
        return append_few(b"", out, end);
    }
    let tenths = 48 + (thousandths / 100) as u8;
    if thousandths % 100 == 0 {
        return append_few(&[b'.', tenths], out, end);
    }
    if thousandths % 10 == 0 {
        let [tens, ones] = two(thousandths / 10);
        return append_few(&[b'.', tens, ones], out, end);
    }
    let [tens, ones] = two(thousandths % 100);
    append_few(&[b'.', tenths, tens, ones], out, end)
}
