//! Values, documents and lines as canonical Extended JSON.
ghost use Rattle.std.specs.Prelude.{◌≡◌, ◌≢◌, ◌<◌, ◌≤◌, ◌+◌, ◌++◌, ◌∷◌, [], IfOk, OnOk, OnErr, length, take};
ghost use Rattle.bd_value.specs.View.{kind_of, tree_of, pairs};
ghost use Rattle.bd_value.specs.Tree.{values_of, doc, array, fields_of, items_of};
ghost use Rattle.bd_value.specs.declared.node.Kind.TheVariants as kinds;
ghost use Rattle.bd_extjson_text.specs.Buffer.{Appends};
ghost use Rattle.bd_extjson_text.specs.inside.Text.{HasShortText};
ghost use Rattle.bd_extjson_text.specs.Text.{text};

use crate::buffer::{End, VALUE, grow_buffer, put_byte_in, settle};
use crate::json_string::{append_name, append_separator, append_string};
use crate::scalar::{append_few, append_led, append_scalar, put_short};
use bd_value::{Document, Kind, NoMemory, Reading, Scalar, Tree, Value};
use std::alloc::Global;

/// Appends the text of a node: Extended JSON v2, canonical form, without white space.
///
/// `NoMemory`: memory ran out, and `out` is unchanged.
pub fn write_node<N: Reading>(node: N, out: &mut Vec<u8>) -> Result<(), NoMemory>
    ensures ok { OnOk result (out.new.items ≡ out.old.items ++ text (N.tree node)) }
    ensures err { OnErr result (out.new.items ≡ out.old.items) }
{
    let before = out.len();
    grow_buffer(out, before, VALUE)?;
    let end = append_node(node, out, before);
    settle(end, before, out)
}

/// Appends the text of a value: Extended JSON v2, canonical form, without white space.
///
/// `NoMemory`: memory ran out, and `out` is unchanged.
pub fn write_value(value: &Value, out: &mut Vec<u8>) -> Result<(), NoMemory>
    ensures ok { OnOk result (out.new.items ≡ out.old.items ++ text (tree_of value.now)) }
    ensures err { OnErr result (out.new.items ≡ out.old.items) }
{
    write_node(Tree::Value(value), out)
}

/// Appends the text of a document: Extended JSON v2, canonical form, without white space.
///
/// `NoMemory`: memory ran out, and `out` is unchanged.
pub fn write_doc(document: &Document, out: &mut Vec<u8>) -> Result<(), NoMemory>
    ensures ok { OnOk result (out.new.items
        ≡ out.old.items ++ text (doc (fields_of (pairs document.now)))) }
    ensures err { OnErr result (out.new.items ≡ out.old.items) }
{
    write_node(Tree::Doc(document), out)
}

/// A buffer for one line after the other, each over the one before. It is allocated once, and grows if a line is longer.
#[derive(Debug, Drop)]
pub struct TextBuffer {
    buffer: Vec<u8>,
}

impl TextBuffer {
    /// An empty buffer.
    pub fn new(alloc: Global) -> TextBuffer {
        TextBuffer {
            buffer: Vec::new(alloc),
        }
    }

    /// The line of a node: its text, Extended JSON v2, canonical form, without white space, and a newline.
    ///
    /// `NoMemory` if the line does not fit and memory runs out.
    #[inline(always)]
    pub fn line<N: Reading>(&mut self, node: N) -> Result<&[u8], NoMemory>
        ensures { IfOk result (λ line. line.now ≡ text (N.tree node) ++ 10 ∷ []) }
    {
        grow_buffer(&mut self.buffer, 0, VALUE)?;
        let end = append_node(node, &mut self.buffer, 0)?;
        let end = append_few(b"\n", &mut self.buffer, end)?;
        Ok(&self.buffer[..end])
    }
}

/// Appends the text of a node after the first `end` bytes. There is space for a short one. On `NoMemory` those bytes stay.
#[cycle(text)]
#[inline(always)]
pub fn append_node<N: Reading>(node: N, out: &mut Vec<u8>, end: usize) -> End
    requires { end + VALUE ≤ length out.old.items }
    ensures { Appends out.old.items end result out.new.items (text (N.tree node)) }
{
    match node.kind() {
        Kind::Doc
        | Kind::Array
        | Kind::CodeScope
        | Kind::Symbol
        | Kind::Code
        | Kind::Binary
        | Kind::Regex
        | Kind::DbPointer => append_long(node, out, end),
        Kind::Text => {
            let Some(Scalar::Text(text)) = node.leaf() else {
                unreachable!()
            };
            append_string(text, out, end)
        }
        _ => Ok(put_short(node, out.as_mut_slice(), end)),
    }
}

/// The same of what holds values, text or bytes, and is no string. It is a function of its own, so that no node is kept in
/// memory for the others.
#[cycle(text)]
#[inline(always)]
fn append_long<N: Reading>(node: N, out: &mut Vec<u8>, end: usize) -> End
    requires long { HasShortText (N.tree node) → ⊥ }
    requires other { kind_of (N.tree node) ≢ kinds.Text }
    requires buffer { end + VALUE ≤ length out.old.items }
    ensures { Appends out.old.items end result out.new.items (text (N.tree node)) }
{
    match node.kind() {
        Kind::Doc => append_fields::<N>(node.parts(), out, end),
        Kind::Array => append_items::<N>(node.parts(), out, end),
        Kind::CodeScope => append_scope(node, out, end),
        _ => append_scalar(node, out, end),
    }
}

/// Appends the text of code with scope.
#[cycle(text)]
#[inline(never)]
fn append_scope<N: Reading>(node: N, out: &mut Vec<u8>, end: usize) -> End
    requires kind { kind_of (N.tree node) ≡ kinds.CodeScope }
    requires buffer { end ≤ length out.old.items }
    ensures { Appends out.old.items end result out.new.items (text (N.tree node)) }
{
    let Some(Scalar::CodeScope(code)) = node.leaf() else {
        unreachable!()
    };
    let Some(scope) = node.scope() else {
        unreachable!()
    };
    let at = append_led(b"{\"$code\":", code, out, end)?;
    let at = append_few(b",\"$scope\":", out, at)?;
    let at = append_node(scope, out, at)?;
    append_few(b"}", out, at)
}

/// Appends the text of the document of these pairs. There is space for its first brace.
#[cycle(text)]
#[inline(never)]
fn append_fields<N: Reading>(fields: N::Rest, out: &mut Vec<u8>, end: usize) -> End
    requires { end < length out.old.items }
    ensures { Appends out.old.items end result out.new.items
        (text (doc (fields_of (N.remaining fields)))) }
{
    let mut at = put_byte_in(b'{', out, end);
    let mut later = false;
    let mut rest = fields;
    while let Some((name, node, after)) = N::next(&rest) {
        at = append_name(later, name, out, at)?;
        at = append_node(node, out, at)?;
        later = true;
        rest = after;
    }
    append_few(b"}", out, at)
}

/// Appends the text of the array of these elements. There is space for its first bracket.
#[cycle(text)]
#[inline(never)]
fn append_items<N: Reading>(items: N::Rest, out: &mut Vec<u8>, end: usize) -> End
    requires { end < length out.old.items }
    ensures { Appends out.old.items end result out.new.items
        (text (array (items_of (values_of (N.remaining items))))) }
{
    let mut at = put_byte_in(b'[', out, end);
    let mut later = false;
    let mut rest = items;
    while let Some((_, node, after)) = N::next(&rest) {
        at = append_separator(later, b',', out, at)?;
        at = append_node(node, out, at)?;
        later = true;
        rest = after;
    }
    append_few(b"]", out, at)
}
