//! A document with other numbers, from left to right.

ghost use Rattle.std.specs.Prelude.{◌≡◌, ◌≤◌, ◌<◌, ◌+◌, ◌-◌, ◌++◌, List, ℕ, length, take, drop, OnOk, OnErr, IfSome, Some};
ghost use Rattle.std.specs.Io.{StartsWith};
ghost use Rattle.bd_bson_view.specs.Spelling.{number};
ghost use Rattle.bd_wide.specs.Rewritten.{least, Adds, IsPart, AreElements, IsBody, IsScoped, IsNested, IsRewritten, part_of, scope_at as scope_at_of};
ghost use Rattle.bd_wide.specs.inside.Rewritten.{holder_least};
ghost use Rattle.bd_wide.specs.declared.element.Part.TheVariants as parts;
ghost use Rattle.bd_bson_view.specs.declared.raw_parts.ElementType as element_type;
ghost use Rattle.bd_bson_view.specs.declared.raw_parts.Holder.TheVariants as holders;

use crate::bytes::{append_number, seal};
use crate::element::{Part, first_element, looked_into};
use bd_bson_view::{ElementType, Holder, raw_parts as raw};
use bd_value::{MOST_LEVELS, NoMemory};

/// What is written for numbers.
pub trait NumberWriter {
    /// What may be written for an element with a number, by its type, its head and its value.
    ghost is_written: { Self → element_type.ElementType → List ℕ → List ℕ → List ℕ → Type 0 };

    /// Appends what is written for an element with a number.
    fn element(
        &self,
        typed: ElementType,
        head: &[u8],
        value: &[u8],
        out: &mut Vec<u8>,
    ) -> Result<(), NoMemory>
        requires head { 2 ≤ length head.now }
        requires value { least typed ≤ length value.now }
        ensures ok { OnOk result (Adds
            (is_written self.now typed head.now value.now) out.old.items out.new.items) }
        ensures prefix { OnErr result (StartsWith out.new.items out.old.items) };
}

/// Appends what is written for the document that all of the bytes are.
///
/// # Errors
/// On `NoMemory`, `out` is unchanged.
pub fn write_rewritten<W: NumberWriter>(
    writer: &W,
    bytes: &[u8],
    out: &mut Vec<u8>,
) -> Result<(), NoMemory>
    ensures ok { OnOk result (Adds (IsRewritten (W.is_written writer.now)
        bytes.now) out.old.items out.new.items) }
    ensures err { OnErr result (out.new.items ≡ out.old.items) }
{
    let before = out.len();
    let written = whole(writer, bytes, out);
    if written.is_err() {
        out.truncate(before);
    }
    written
}

#[tactic(auto, using(bd_value::proofs::PrefixLemmas::prefixes), unfolding(crate::specs::Rewritten::IsRewritten))]
fn whole<W: NumberWriter>(writer: &W, bytes: &[u8], out: &mut Vec<u8>) -> Result<(), NoMemory>
    ensures ok { OnOk result (Adds (IsRewritten (W.is_written writer.now)
        bytes.now) out.old.items out.new.items) }
    ensures prefix { OnErr result (StartsWith out.new.items out.old.items) }
{
    if bytes.len() < 5 {
        out.extend_from_slice(bytes)?;
        return Ok(());
    }
    nested(writer, MOST_LEVELS as u32, Holder::Document, bytes, out)
}

/// Appends elements, with `depth_left` levels left below them.
#[cycle(rewriting)]
#[tactic(auto, using(bd_value::proofs::PrefixLemmas::prefixes))]
fn elements<W: NumberWriter>(
    writer: &W,
    depth_left: u32,
    bytes: &[u8],
    out: &mut Vec<u8>,
) -> Result<(), NoMemory>
    ensures ok { OnOk result (Adds (AreElements (W.is_written writer.now)
        (IsNested (W.is_written writer.now) depth_left) (length bytes.now) bytes.now)
        out.old.items out.new.items) }
    ensures prefix { OnErr result (StartsWith out.new.items out.old.items) }
{
    let mut run = bytes;
    let mut rest = bytes;
    while let Some((typed, k, n)) = first_element(rest) {
        let (head, more) = rest.split_at(k);
        let (value, after) = more.split_at(n);
        if let Some(part) = looked_into(typed) {
            put_run(run, rest, out)?;
            element(writer, depth_left, part, typed, head, value, out)?;
            run = after;
        }
        rest = after;
    }
    out.extend_from_slice(run)
}

/// Appends the bytes of a run up to where the rest begins.
#[tactic(auto, using(bd_value::proofs::PrefixLemmas::prefixes, crate::proofs::RunLemmas::nothing_before))]
fn put_run(run: &[u8], rest: &[u8], out: &mut Vec<u8>) -> Result<(), NoMemory>
    requires { length rest.now ≤ length run.now }
    ensures ok { OnOk result (out.new.items ≡ out.old.items ++
        take (length run.now - length rest.now) run.now) }
    ensures prefix { OnErr result (StartsWith out.new.items out.old.items) }
{
    let count = run.len() - rest.len();
    if count == 0 {
        return Ok(());
    }
    let (same, _) = run.split_at(count);
    out.extend_from_slice(same)
}

/// Appends an element that is examined, with `depth_left` levels left below it.
#[cycle(rewriting)]
#[tactic(auto, using(bd_value::proofs::PrefixLemmas::prefixes))]
fn element<W: NumberWriter>(
    writer: &W,
    depth_left: u32,
    part: Part,
    typed: ElementType,
    head: &[u8],
    value: &[u8],
    out: &mut Vec<u8>,
) -> Result<(), NoMemory>
    requires part { part_of typed ≡ Some part }
    requires head { 2 ≤ length head.now }
    requires value { least typed ≤ length value.now }
    ensures ok { OnOk result (Adds (IsPart (W.is_written writer.now)
        (IsNested (W.is_written writer.now) depth_left) (Some part) typed
        head.now value.now) out.old.items out.new.items) }
    ensures prefix { OnErr result (StartsWith out.new.items out.old.items) }
{
    let holder = match part {
        Part::Number => return writer.element(typed, head, value, out),
        Part::Values(holder) => holder,
    };
    out.extend_from_slice(head)?;
    nested(writer, depth_left, holder, value, out)
}

/// Appends a document, an array or code with scope, with `depth_left` levels left for it.
#[cycle(rewriting)]
#[tactic(auto, using(bd_value::proofs::PrefixLemmas::prefixes), unfolding(crate::specs::Rewritten::IsNested, crate::specs::inside::Rewritten::holder_least))]
fn nested<W: NumberWriter>(
    writer: &W,
    depth_left: u32,
    holder: Holder,
    value: &[u8],
    out: &mut Vec<u8>,
) -> Result<(), NoMemory>
    requires { holder_least holder ≤ length value.now }
    ensures ok { OnOk result (Adds (IsNested (W.is_written writer.now)
        depth_left holder value.now) out.old.items out.new.items) }
    ensures prefix { OnErr result (StartsWith out.new.items out.old.items) }
{
    if depth_left == 0 {
        out.extend_from_slice(value)?;
        return Ok(());
    }
    match holder {
        Holder::Document => body(writer, depth_left - 1, value, out),
        Holder::Array => body(writer, depth_left - 1, value, out),
        Holder::CodeScope => scoped(writer, depth_left - 1, value, out),
    }
}

/// Appends a document or an array, with `depth_left` levels left below it.
#[cycle(rewriting)]
#[tactic(auto, using(bd_value::proofs::PrefixLemmas::prefixes), unfolding(crate::specs::Rewritten::IsBody))]
fn body<W: NumberWriter>(
    writer: &W,
    depth_left: u32,
    value: &[u8],
    out: &mut Vec<u8>,
) -> Result<(), NoMemory>
    requires { 5 ≤ length value.now }
    ensures ok { OnOk result (Adds (IsBody (W.is_written writer.now)
        (IsNested (W.is_written writer.now) depth_left) value.now) out.old.items out.new.items) }
    ensures prefix { OnErr result (StartsWith out.new.items out.old.items) }
{
    let (inner, last) = inner_and_last(value);
    let at = out.len();
    append_number(0, out)?;
    elements(writer, depth_left, inner, out)?;
    out.extend_from_slice(last)?;
    seal(at, out);
    Ok(())
}

/// The elements of a document or an array, and its last byte.
fn inner_and_last(value: &[u8]) -> (&[u8], &[u8])
    requires { 5 ≤ length value.now }
    ensures inner { result.0.now ≡ take (length value.now - 5) (drop 4 value.now) }
    ensures last { result.1.now ≡ drop (length value.now - 1) value.now }
{
    let (_, more) = value.split_at(4);
    let (inner, _) = more.split_at(value.len() - 5);
    let (_, last) = value.split_at(value.len() - 1);
    (inner, last)
}

/// Appends code with scope, with `depth_left` levels left for its scope.
#[cycle(rewriting)]
#[tactic(auto, using(bd_value::proofs::PrefixLemmas::prefixes), unfolding(crate::specs::Rewritten::IsScoped))]
fn scoped<W: NumberWriter>(
    writer: &W,
    depth_left: u32,
    value: &[u8],
    out: &mut Vec<u8>,
) -> Result<(), NoMemory>
    requires { 14 ≤ length value.now }
    ensures ok { OnOk result
        (Adds (IsScoped (IsNested (W.is_written writer.now)
        depth_left holders.Document) value.now) out.old.items out.new.items) }
    ensures prefix { OnErr result (StartsWith out.new.items out.old.items) }
{
    match scope_at(value) {
        Some(at) => with_scope(writer, depth_left, at, value, out),
        None => {
            out.extend_from_slice(value)?;
            Ok(())
        }
    }
}

/// Appends code with scope whose scope begins at an offset, with `depth_left` levels left for the scope.
#[cycle(rewriting)]
#[tactic(auto, using(bd_value::proofs::PrefixLemmas::prefixes))]
fn with_scope<W: NumberWriter>(
    writer: &W,
    depth_left: u32,
    at: usize,
    value: &[u8],
    out: &mut Vec<u8>,
) -> Result<(), NoMemory>
    requires offset { scope_at_of value.now ≡ Some at }
    requires inside { (8 ≤ at) × (at + 5 ≤ length value.now) }
    ensures ok { OnOk result
        (Adds (IsScoped (IsNested (W.is_written writer.now)
        depth_left holders.Document) value.now) out.old.items out.new.items) }
    ensures prefix { OnErr result (StartsWith out.new.items out.old.items) }
{
    let (_, scope) = value.split_at(at);
    let start = out.len();
    write_code(at, value, out)?;
    nested(writer, depth_left, Holder::Document, scope, out)?;
    seal(start, out);
    Ok(())
}

/// Appends four bytes for a count that is not known yet, and the code.
#[tactic(auto, using(bd_value::proofs::PrefixLemmas::prefixes))]
fn write_code(at: usize, value: &[u8], out: &mut Vec<u8>) -> Result<(), NoMemory>
    requires { (8 ≤ at) × (at ≤ length value.now) }
    ensures ok { OnOk result (out.new.items
        ≡ (out.old.items ++ number 0) ++ take (at - 4) (drop 4 value.now)) }
    ensures prefix { OnErr result (StartsWith out.new.items out.old.items) }
{
    let (_, more) = value.split_at(4);
    let (code, _) = more.split_at(at - 4);
    append_number(0, out)?;
    out.extend_from_slice(code)
}

/// The offset of the scope in code with scope; None if the scope does not end where the code with scope does.
#[tactic(auto, unfolding(crate::specs::Rewritten::scope_at))]
pub fn scope_at(value: &[u8]) -> Option<usize>
    requires { 14 ≤ length value.now }
    ensures gives { result ≡ scope_at_of value.now }
    ensures inside { IfSome result (λ at. (8 ≤ at) × (at + 5 ≤ length value.now)) }
{
    let (_, more) = value.split_at(4);
    let count = raw::number(more) as usize;
    let at = 8 + count;
    if count == 0 || value.len() < at + 5 {
        return None;
    }
    let (_, scope) = value.split_at(at);
    if raw::number(scope) as usize != value.len() - at {
        return None;
    }
    Some(at)
}
