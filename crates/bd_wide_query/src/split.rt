//! Where a `$type` of a query splits the types of numbers, and into which classes.

ghost use Rattle.std.specs.Prelude.{◌≡◌, ◌≤◌, IfOk, length, option_map};
ghost use Rattle.std.specs.Option.{option_or};
ghost use Rattle.bd_value.specs.Tree.{fields_of, items_of, values_of};
ghost use Rattle.bd_value.specs.View.{node_parts, node_tree, pairs};
ghost use Rattle.bd_wide_query.specs.Types.{has_longs};
ghost use Rattle.bd_wide_query.specs.Split.{are_classes as are_classes_of, below as below_of, first_split as first_split_of, operand_classes as operand_classes_of};
ghost use Rattle.bd_wide_query.specs.Split.{split_in as split_in_of, split_in_items as split_in_items_of, split_of, split_view, third_class as third_class_of};

use crate::types::{NumberType, names_type};
use bd_value::{Document, Kind, NoMemory, Reading, Tree, TreeParts};
use bd_wide_copy::Longs;
use std::alloc::Global;

/// A `$type` of a query that splits the types of numbers into two classes.
#[derive(Drop)]
pub struct Split {
    /// The names from the top of the query down to it. A member of an array is named by its index, from 0.
    pub path: Vec<String>,
    /// The classes, by the types of the one without int32.
    pub classes: Longs,
}

/// The first `$type` of a query that needs a third class: it splits the types of numbers otherwise than the first one that splits them.
/// It fails only if memory runs out.
pub fn third_class(alloc: Global, query: &Document) -> Result<Option<Split>, NoMemory>
    ensures { IfOk result (λ s.
        option_map split_view s ≡ third_class_of (fields_of (pairs query.now))) }
{
    let Some(first) = first_split(alloc, Longs::none(), query)? else {
        return Ok(None);
    };
    first_split(alloc, first.classes, query)
}

/// The first `$type` of a query that splits the types of numbers otherwise than into these classes. It fails only if memory runs out.
pub fn first_split(
    alloc: Global,
    classes: Longs,
    query: &Document,
) -> Result<Option<Split>, NoMemory>
    ensures { IfOk result (λ s.
        option_map split_view s ≡ first_split_of classes (fields_of (pairs query.now))) }
{
    split_in_pairs(alloc, classes, Tree::Doc(query).parts())
}

/// The same in the pairs of a document.
#[cycle(split)]
fn split_in_pairs(
    alloc: Global,
    classes: Longs,
    parts: TreeParts<'_>,
) -> Result<Option<Split>, NoMemory>
    ensures { IfOk result (λ s.
        option_map split_view s ≡ first_split_of classes (fields_of (node_parts parts.entry))) }
{
    let mut rest = parts;
    while let Some((name, value, after)) = Tree::next(&rest) {
        if let Some(split) = split_at(alloc, classes, name, value)? {
            return Ok(Some(below(alloc, name, split)?));
        }
        rest = after;
    }
    Ok(None)
}

/// The same in the elements of an array, at most as many as the number.
#[cycle(split)]
fn split_in_items(
    alloc: Global,
    classes: Longs,
    parts: TreeParts<'_>,
    most: usize,
) -> Result<Option<Split>, NoMemory>
    requires { length (node_parts parts) ≤ most }
    ensures { IfOk result (λ s. option_map split_view s
        ≡ split_in_items_of classes 0 (items_of (values_of (node_parts parts.entry)))) }
{
    let mut rest = parts;
    let mut index = 0usize;
    while let Some((_, value, after)) = Tree::next(&rest) {
        if let Some(split) = split_in(alloc, classes, value)? {
            let name = index.to_string(alloc)?;
            return Ok(Some(below(alloc, &name, split)?));
        }
        index += 1;
        rest = after;
    }
    Ok(None)
}

/// The same in a value.
#[cycle(split)]
fn split_in(alloc: Global, classes: Longs, value: Tree<'_>) -> Result<Option<Split>, NoMemory>
    ensures { IfOk result (λ s.
        option_map split_view s ≡ split_in_of classes (node_tree value.entry)) }
{
    match value.kind() {
        Kind::Doc => split_in_pairs(alloc, classes, value.parts()),
        Kind::Array => split_in_items(alloc, classes, value.parts(), value.len()),
        Kind::CodeScope => match value.scope() {
            Some(scope) => match split_in_pairs(alloc, classes, scope.parts())? {
                Some(split) => Ok(Some(below(alloc, "$scope", split)?)),
                None => Ok(None),
            },
            None => unreachable!(),
        },
        _ => Ok(None),
    }
}

/// The value of a name, if that is such a `$type`; else the first one in the value.
#[cycle(split)]
fn split_at(
    alloc: Global,
    classes: Longs,
    name: &str,
    value: Tree<'_>,
) -> Result<Option<Split>, NoMemory>
    ensures { IfOk result (λ s. option_map split_view s ≡ option_or
        (split_of classes name.now (node_tree value.entry))
        (split_in_of classes (node_tree value.entry))) }
{
    if name == "$type" {
        let split = operand_classes(value);
        if is_split(split) && !are_classes(split, classes) {
            let path = Vec::new(alloc);
            return Ok(Some(Split {
                path,
                classes: split,
            }));
        }
    }
    split_in(alloc, classes, value)
}

/// The same with a name put before its path.
fn below(alloc: Global, name: &str, split: Split) -> Result<Split, NoMemory>
    ensures { IfOk result (λ s. split_view s ≡ below_of name.now (split_view split)) }
{
    let mut split = split;
    split.path.insert(0, String::from_str(alloc, name)?)?;
    Ok(split)
}

/// The classes of an operand of `$type`, which names all types of a class or none.
fn operand_classes(operand: Tree<'_>) -> Longs
    ensures { result ≡ operand_classes_of (node_tree operand.entry) }
{
    let int = names_type(NumberType::Int, operand);
    Longs {
        double: names_type(NumberType::Double, operand) != int,
        int64: names_type(NumberType::Long, operand) != int,
        decimal128: names_type(NumberType::Decimal, operand) != int,
    }
}

/// Whether there are two classes.
fn is_split(classes: Longs) -> bool
    ensures { result ≡ has_longs classes }
{
    classes.double || classes.int64 || classes.decimal128
}

/// Whether these classes are those.
fn are_classes(these: Longs, those: Longs) -> bool
    ensures { result ≡ are_classes_of these those }
{
    (these.double == those.double && these.int64 == those.int64)
        && these.decimal128 == those.decimal128
}
