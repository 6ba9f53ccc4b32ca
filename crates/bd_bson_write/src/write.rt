//! A document written as bytes: from a tree, or in pieces by a caller without one. Each piece is appended whole, or the
//! output is unchanged.

ghost use Rattle.std.specs.Prelude.{◌≡◌, ◌≤◌, ◌<◌, ◌↔◌, ◌+◌, ◌++◌, ◌∷◌, [], length, take, drop, vec_len, true, false, IfOk, IfErr, IsErrOf, OnErr, OnOk, Err};
ghost use Rattle.bd_value.specs.Limits.{longest_document, most_levels};
ghost use Rattle.bd_value.specs.Tree.{depth as depth_in, HasNoParts, Doc, doc, fields_of};
ghost use Rattle.bd_value.specs.Fits.{zero_in, zero_in_parts};
ghost use Rattle.bd_value.specs.View.{pairs};
ghost use Rattle.bd_bson_view.specs.Spelling.{IsDocument, IsValue, framed, number, string};
ghost use Rattle.bd_bson_write.specs.TreeBytes.{SpellsPlainly, bytes_of, OverrunsLimit};

use crate::counting::remaining_after;
use crate::writing::{WriteFault, append_number, put_value, seal};
use bd_value::{
    Document, Kind, LONGEST_DOCUMENT, MOST_LEVELS, NoMemory, Reading, Scalar, Tree, depth, has_zero,
};
use std::alloc::Global;

/// The bytes of a document: BSON 1.1, `document`. The names of an array's elements are their indexes from 0.
///
/// # Errors
/// Tried in this order:
/// - `WriteFault::TooDeep`: it nests deeper than 200 levels;
/// - `WriteFault::NulInName`: a name, or a text of a regular expression, contains a zero, which would end it;
/// - `WriteFault::TooLong`: it has more than 16,793,600 bytes;
/// - `WriteFault::NoMemory`: memory ran out. The bytes are counted first, so memory is asked for them once.
pub fn write_document(alloc: Global, document: &Document) -> Result<Vec<u8>, WriteFault>
    ensures written { IfOk result (λ v. SpellsPlainly (pairs document.now) v.items) }
    ensures spelled { IfOk result (λ v. IsDocument (pairs document.now) v.items) }
    ensures too_deep { IsErrOf result WriteFault.TooDeep
        ↔ (most_levels < depth_in (doc (fields_of (pairs document.now)))) }
    ensures zero { IsErrOf result WriteFault.NulInName
        ↔ ((depth_in (doc (fields_of (pairs document.now))) ≤ most_levels)
        × (zero_in (doc (fields_of (pairs document.now))) ≡ true)) }
    ensures too_long { IsErrOf result WriteFault.TooLong
        ↔ ((depth_in (doc (fields_of (pairs document.now))) ≤ most_levels)
        × (zero_in (doc (fields_of (pairs document.now))) ≡ false)
        × (longest_document < length (bytes_of (doc (fields_of (pairs document.now)))))) }
{
    if depth(document) > MOST_LEVELS as u64 {
        return Err(WriteFault::TooDeep);
    }
    if contains_zero(Tree::Doc(document)) {
        return Err(WriteFault::NulInName);
    }
    let Some(remaining) = remaining_after(Tree::Doc(document), LONGEST_DOCUMENT) else {
        return Err(WriteFault::TooLong);
    };
    let mut bytes = Vec::with_capacity(alloc, LONGEST_DOCUMENT - remaining)?;
    put_value(Tree::Doc(document), &mut bytes)?;
    Ok(bytes)
}

/// Begins a document or an array and returns its offset: append its elements, then call `end_body` with that offset.
///
/// # Errors
/// `NoMemory`: memory ran out, and `out` is unchanged.
pub fn begin_body(out: &mut Vec<u8>) -> Result<usize, NoMemory>
    ensures offset { IfOk result (λ at. at ≡ length out.old.items) }
    ensures begun { OnOk result (out.new.items ≡ out.old.items ++ number 0) }
    ensures err { OnErr result (out.new.items ≡ out.old.items) }
{
    let at = out.len();
    append_number(0, out)?;
    Ok(at)
}

/// Appends the bytes of a value. The names of an array's elements are their indexes from 0.
///
/// # Errors
/// `WriteFault::TooLong` only if there are more than 16,793,600 bytes, with those before it: a scalar without a text or data
/// is appended beyond that, and `end_body` refuses then. `WriteFault::NoMemory`. In both cases `out` is unchanged.
pub fn append_value<N: Reading>(node: N, out: &mut Vec<u8>) -> Result<(), WriteFault>
    requires { zero_in (N.tree node) ≡ false }
    ensures ok { OnOk result (out.new.items ≡ out.old.items ++ bytes_of (N.tree node)) }
    ensures spells { OnOk result (IsValue (N.tree node) (bytes_of (N.tree node))) }
    ensures fault { IfErr result
        (OverrunsLimit (length out.old.items + length (bytes_of (N.tree node)))) }
    ensures err { OnErr result (out.new.items ≡ out.old.items) }
{
    let before = out.len();
    let value = put_value(node, out);
    if value.is_err() {
        out.truncate(before);
    }
    value
}

/// Ends the document or the array that began at that offset, as `begin_body` returned it, and puts its length there: BSON
/// 1.1, `document`.
///
/// # Errors
/// `WriteFault::TooLong` if there are more than 16,793,600 bytes, with those before it; `WriteFault::NoMemory`. In both cases
/// `out` is unchanged, the four bytes of the length too.
pub fn end_body(at: usize, out: &mut Vec<u8>) -> Result<(), WriteFault>
    requires { at + 4 ≤ vec_len out.old }
    ensures ok { OnOk result (out.new.items
        ≡ take at out.old.items ++ framed (drop (at + 4) out.old.items)) }
    ensures within { OnOk result (length out.new.items ≤ longest_document) }
    ensures fault { IfErr result (OverrunsLimit (length out.old.items + 1)) }
    ensures err { OnErr result (out.new.items ≡ out.old.items) }
{
    let before = out.len();
    out.extend_from_slice(b"\0")?;
    let sealed = seal(at, out);
    if sealed.is_err() {
        out.truncate(before);
    }
    sealed
}

/// Whether a name, or a text of a regular expression, contains a zero.
#[cycle(zeros)]
fn contains_zero<N: Reading>(node: N) -> bool
    ensures { result ≡ zero_in (N.tree node) }
{
    match node.kind() {
        Kind::Doc => zero_in_some::<N>(node.parts(), true),
        Kind::Array => zero_in_some::<N>(node.parts(), false),
        _ => zero_in_leaf(node),
    }
}

/// The same for a value that is neither a document nor an array.
#[cycle(zeros)]
fn zero_in_leaf<N: Reading>(node: N) -> bool
    requires { HasNoParts (N.tree node) }
    ensures { result ≡ zero_in (N.tree node) }
{
    let Some(scalar_leaf) = node.leaf() else {
        unreachable!()
    };
    match node.scope() {
        Some(scope) => contains_zero(scope),
        None => match scalar_leaf {
            Scalar::Regex { pattern, options } => has_zero(pattern) || has_zero(options),
            _ => false,
        },
    }
}

/// The same for pairs, or for elements, whose names do not count.
#[cycle(zeros)]
fn zero_in_some<N: Reading>(parts: N::Rest, named: bool) -> bool
    ensures { result ≡ zero_in_parts named (N.remaining parts) }
{
    let mut rest = parts;
    while let Some(next) = N::next(&rest) {
        if named && has_zero(next.0) || contains_zero(next.1) {
            return true;
        }
        rest = next.2;
    }
    false
}
