//! The bytes of a document, counted before any is written.

ghost use Rattle.std.specs.Prelude.{◌++◌, ◌∷◌, length};
ghost use Rattle.bd_value.specs.View.{view_of};
ghost use Rattle.bd_value.specs.Tree.{fields_of, items_of, values_of, HasNoParts};
ghost use Rattle.bd_bson_view.specs.Spelling.{data_of, element, framed, number, string};
ghost use Rattle.bd_bson_write.specs.TreeBytes.{bytes_of, fields_bytes, items_bytes, leaf_bytes};
ghost use Rattle.bd_bson_write.specs.inside.Counting.{IsRemainder};

use bd_value::{Kind, Reading, Scalar};

/// How many bytes of the limit remain after those of a value; None if these are more.
#[cycle(counting)]
pub(crate) fn remaining_after<N: Reading>(node: N, limit: usize) -> Option<usize>
    ensures { IsRemainder limit (length (bytes_of (N.tree node))) result }
{
    match node.kind() {
        Kind::Doc => after_fields::<N>(node.parts(), limit),
        Kind::Array => after_items::<N>(node.parts(), limit),
        _ => after_leaf(node, limit),
    }
}

/// The same for the document of these pairs.
#[cycle(counting)]
fn after_fields<N: Reading>(fields: N::Rest, limit: usize) -> Option<usize>
    ensures { IsRemainder limit
        (length (framed (fields_bytes (fields_of (N.remaining fields))))) result }
{
    let mut remaining = after_bytes(5, limit)?;
    let mut rest = fields;
    while let Some(next) = N::next(&rest) {
        remaining = after_element(next.0, next.1, remaining)?;
        rest = next.2;
    }
    Some(remaining)
}

/// The same for the array of these elements, whose names are their indexes from 0.
#[cycle(counting)]
fn after_items<N: Reading>(items: N::Rest, limit: usize) -> Option<usize>
    ensures { IsRemainder limit
        (length (framed (items_bytes 0 (items_of (values_of (N.remaining items)))))) result }
{
    let mut remaining = after_bytes(5, limit)?;
    let mut index: usize = 0;
    let mut rest = items;
    while let Some(next) = N::next(&rest) {
        let mut digits = itoa::Buffer::new();
        remaining = after_element(digits.format(index), next.1, remaining)?;
        index += 1;
        rest = next.2;
    }
    Some(remaining)
}

/// The same for an element: its type, its name and its value.
#[cycle(counting)]
fn after_element<N: Reading>(name: &str, node: N, limit: usize) -> Option<usize>
    ensures { IsRemainder limit
        (length (element (N.tree node) name.now (bytes_of (N.tree node)))) result }
{
    remaining_after(node, after_bytes(name.len() + 2, limit)?)
}

/// The same for a value that is neither a document nor an array. Code with scope begins with the count of its bytes.
#[cycle(counting)]
fn after_leaf<N: Reading>(node: N, limit: usize) -> Option<usize>
    requires { HasNoParts (N.tree node) }
    ensures { IsRemainder limit (length (bytes_of (N.tree node))) result }
{
    let Some(scalar_leaf) = node.leaf() else {
        unreachable!()
    };
    let Some(scope) = node.scope() else {
        return after_scalar(scalar_leaf, limit);
    };
    remaining_after(scope, after_scalar(scalar_leaf, after_bytes(4, limit)?)?)
}

/// The same for a scalar, or for the code of code with scope.
fn after_scalar(scalar: Scalar<'_>, limit: usize) -> Option<usize>
    ensures { IsRemainder limit (length (leaf_bytes (view_of scalar.entry))) result }
{
    match scalar {
        Scalar::MinKey | Scalar::Undefined | Scalar::Null | Scalar::MaxKey => Some(limit),
        Scalar::Int32(_) => after_bytes(4, limit),
        Scalar::Int64(_) => after_bytes(8, limit),
        Scalar::Date(_) => after_bytes(8, limit),
        Scalar::Timestamp { .. } => after_bytes(8, limit),
        Scalar::Bool(_) => after_bytes(1, limit),
        Scalar::ObjectId(_) => after_bytes(12, limit),
        Scalar::Text(text) | Scalar::Symbol(text) | Scalar::Code(text) | Scalar::CodeScope(text) =>
            { after_text(text, limit) }
        Scalar::DbPointer { space, .. } => after_bytes(12, after_text(space, limit)?),
        Scalar::Regex { pattern, options } => {
            after_bytes(options.len() + 1, after_bytes(pattern.len() + 1, limit)?)
        }
        Scalar::Binary { subtype, payload } => after_binary(subtype, payload, limit),
    }
}

/// The same for a `string`: its length, the text, a zero.
fn after_text(text: &str, limit: usize) -> Option<usize>
    ensures { IsRemainder limit (length (string text.now)) result }
{
    after_bytes(text.len() + 5, limit)
}

/// The same for `binary`: the count of its data, the subtype, the data. In subtype 02 these begin with a count of their own.
fn after_binary(subtype: u8, payload: &[u8], limit: usize) -> Option<usize>
    ensures { IsRemainder limit (length
        (number (length (data_of subtype payload.now)) ++ subtype ∷ data_of subtype payload.now))
        result }
{
    if subtype == 2 {
        after_bytes(payload.len() + 9, limit)
    } else {
        after_bytes(payload.len() + 5, limit)
    }
}

/// How many bytes of the limit remain after this number of them; None if it is more.
fn after_bytes(size: usize, limit: usize) -> Option<usize>
    ensures { IsRemainder limit size result }
{
    limit.checked_sub(size)
}
