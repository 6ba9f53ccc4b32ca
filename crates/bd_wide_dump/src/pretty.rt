//! A text of JSON on many lines.

ghost use Rattle.std.specs.Prelude.{◌≡◌, ◌<◌, ◌≤◌, ◌+◌, ◌*◌, ◌++◌, ℕ, IfOk, length, take};
ghost use Rattle.bd_value.specs.Limits.{longest_document};
ghost use Rattle.bd_extjson_text.specs.Buffer.{Appends};
ghost use Rattle.bd_wide_dump.specs.Pretty.{closes, gap, laid_out, line_end, next_place, open_after, opens};
ghost use Rattle.bd_wide_dump.specs.declared.pretty.Position.TheVariants.{Outside};
ghost use Rattle.bd_wide_dump.specs.inside.Tokens.{IsToken, Reaches};

use bd_extjson_text::{End, VALUE, append_few, append_separator, plain_length};

/// Where a byte of a text of JSON is: RFC 8259, section 7.
#[derive(Debug, Clone, Copy, Drop, PartialEq)]
pub(crate) enum Position {
    /// In no string.
    Outside,
    /// In a string.
    Inside,
    /// In a string, after a reverse solidus.
    Escape,
}

/// How many bytes are copied together, so that the copy is of a known length.
pub(crate) const BLOCK: usize = 32;

/// A line end, and tabs.
const LINE_END: [u8; 32] = *b"\n\t\t\t\t\t\t\t\t\t\t\t\t\t\t\t\t\t\t\t\t\t\t\t\t\t\t\t\t\t\t\t";

/// Appends a text of JSON on many lines, where that many brackets are open, with a tab for each bracket that is open, after the
/// first `end` bytes of a buffer, and returns where it ends. There is no line end after it.
///
/// On `NoMemory` those `end` bytes are unchanged.
pub(crate) fn append_pretty(base: usize, text: &[u8], buffer: &mut Vec<u8>, end: usize) -> End
    requires level { base ≤ longest_document }
    requires buffer { end ≤ length buffer.old.items }
    ensures { Appends buffer.old.items end result buffer.new.items
        (laid_out Outside base 0 text.now) }
{
    let mut at = append_few(b"", buffer, end)?;
    let mut level = base;
    let mut before = 0;
    let mut rest = text;
    while let [byte, ..] = rest {
        let size = token_length(rest);
        at = append_gap(level, before, *byte, buffer, at)?;
        at = append_prefix(rest, size, buffer, at)?;
        level = open_after(level, *byte);
        before = *byte;
        let (_, others) = rest.split_at(size);
        rest = others;
    }
    Ok(at)
}

/// How many bytes there are up to the end of a string, if the text begins with one; else one.
#[inline(always)]
fn token_length(text: &[u8]) -> usize
    requires { 0 < length text.now }
    ensures within { (0 < result) × (result ≤ length text.now) }
    ensures token { IsToken text.now result }
{
    match text {
        [b'"', others @ ..] => 1 + string_length(others),
        _ => 1,
    }
}

/// How many bytes there are up to the end of a string, after its first quotation mark. All, if it has no end.
#[inline(always)]
fn string_length(text: &[u8]) -> usize
    ensures within { result ≤ length text.now }
    ensures string { Reaches text.now result Outside }
{
    let mut position = Position::Inside;
    let mut passed = next_stop(position, text, 0);
    while passed < text.len() {
        position = next_place(position, text[passed]);
        passed = next_stop(position, text, passed + 1);
        if let Position::Outside = position {
            return passed;
        }
    }
    passed
}

/// The offset of the next byte of a string that may be no byte as it is.
#[inline(always)]
fn next_stop(position: Position, text: &[u8], passed: usize) -> usize
    requires { passed ≤ length text.now }
    ensures within { (passed ≤ result) × (result ≤ length text.now) }
    ensures reaches { Reaches text.now passed position → Reaches text.now result position }
{
    match position {
        Position::Inside => {
            let (_, rest) = text.split_at(passed);
            passed + plain_length(rest)
        }
        _ => passed,
    }
}

/// Appends the first bytes of a text, and makes space for a value: `VALUE` bytes.
#[inline(always)]
fn append_prefix(text: &[u8], size: usize, out: &mut Vec<u8>, end: usize) -> End
    requires size { size ≤ length text.now }
    requires buffer { end + BLOCK ≤ length out.old.items }
    ensures text { Appends out.old.items end result out.new.items (take size text.now) }
    ensures capacity { IfOk result (λ e. e + VALUE ≤ length out.new.items) }
{
    if size <= BLOCK && BLOCK <= text.len() {
        put_block(text, out.as_mut_slice(), end);
        return append_separator(false, b',', out, end + size);
    }
    append_few(&text[..size], out, end)
}

/// Writes the first `BLOCK` bytes of a text after the text in the buffer.
#[inline(always)]
fn put_block(text: &[u8], buffer: &mut [u8], end: usize)
    requires { (BLOCK ≤ length text.now) × (end + BLOCK ≤ length buffer.old) }
    ensures { (k : ℕ) → k ≤ BLOCK →
        take (end + k) buffer.new ≡ take end buffer.old ++ take k text.now }
{
    buffer[end..end + BLOCK].copy_from_slice(&text[..BLOCK]);
}

/// Appends what is between two bytes outside of strings.
#[inline(always)]
fn append_gap(level: usize, before: u8, after: u8, out: &mut Vec<u8>, end: usize) -> End
    requires { end + VALUE ≤ length out.old.items }
    ensures text { Appends out.old.items end result out.new.items (gap level before after) }
    ensures capacity { IfOk result (λ e. e + BLOCK ≤ length out.new.items) }
{
    if opens(before) {
        if closes(after) {
            return Ok(end);
        }
        return append_line_end(level, out, end);
    }
    if closes(after) {
        return append_line_end(level.saturating_sub(1), out, end);
    }
    match before {
        b',' => append_line_end(level, out, end),
        b':' => append_separator(true, b' ', out, end),
        _ => Ok(end),
    }
}

/// Appends a line end and that many tabs.
#[inline(always)]
pub(crate) fn append_line_end(tabs: usize, out: &mut Vec<u8>, end: usize) -> End
    requires { end + 2 * BLOCK ≤ length out.old.items }
    ensures text { Appends out.old.items end result out.new.items (line_end tabs) }
    ensures capacity { IfOk result (λ e. e + BLOCK ≤ length out.new.items) }
{
    if tabs < BLOCK {
        return Ok(put_line_end(tabs, out, end));
    }
    append_tabs(tabs, out, end)
}

/// Writes a line end and that many tabs after the text.
#[inline(always)]
pub(crate) fn put_line_end(tabs: usize, out: &mut Vec<u8>, end: usize) -> usize
    requires { (tabs < BLOCK) × (end + BLOCK ≤ length out.old.items) }
    ensures text { take result out.new.items ≡ take end out.old.items ++ line_end tabs }
    ensures end { result ≡ end + (tabs + 1) }
    ensures size { length out.new.items ≡ length out.old.items }
{
    put_block(&LINE_END, out.as_mut_slice(), end);
    end + (tabs + 1)
}

/// The same for many tabs.
#[inline(never)]
fn append_tabs(tabs: usize, out: &mut Vec<u8>, end: usize) -> End
    requires { end ≤ length out.old.items }
    ensures text { Appends out.old.items end result out.new.items (line_end tabs) }
    ensures capacity { IfOk result (λ e. e + VALUE ≤ length out.new.items) }
{
    let mut at = append_few(b"\n", out, end)?;
    let mut rest_count = tabs;
    while rest_count > 0 {
        at = append_few(b"\t", out, at)?;
        rest_count -= 1;
    }
    Ok(at)
}

/// Whether a byte begins an array or an object.
#[inline(always)]
fn opens(byte: u8) -> bool
    ensures { result ≡ opens byte }
{
    byte == b'[' || byte == b'{'
}

/// Whether a byte ends one.
#[inline(always)]
fn closes(byte: u8) -> bool
    ensures { result ≡ closes byte }
{
    byte == b']' || byte == b'}'
}

/// Where the next byte is.
#[inline(always)]
fn next_place(position: Position, byte: u8) -> Position
    ensures { result ≡ next_place position byte }
{
    match position {
        Position::Outside if byte == b'"' => Position::Inside,
        Position::Outside => Position::Outside,
        Position::Inside if byte == b'"' => Position::Outside,
        Position::Inside if byte == b'\\' => Position::Escape,
        Position::Inside | Position::Escape => Position::Inside,
    }
}

/// How many brackets are level after a byte outside of strings.
#[inline(always)]
fn open_after(level: usize, byte: u8) -> usize
    requires { level < 18446744073709551615 }
    ensures { result ≡ open_after Outside level byte }
{
    if opens(byte) {
        return level + 1;
    }
    if closes(byte) {
        return level.saturating_sub(1);
    }
    level
}
