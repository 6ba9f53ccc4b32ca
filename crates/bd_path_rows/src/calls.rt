//! The calls, by their names.
//!
//! | `call` | Arguments | Answer |
//! |---|---|---|
//! | `value` | `value` | the value |
//! | `components` | `path` | the components of the path: each index as a number, and each other name |
//! | `equals` | `path`, `document`, `value` | whether an end of the path equals the value; a missing one counts as null |
//! | `missing` | `path`, `document` | whether an end is missing |
//! | `keys`, `sparse` | `path`, `document` | the keys, and those of a sparse index |
//! | `all`, `all sparse` | `path`, `document` | the same with equal ones |
//! | `least`, `greatest` | `path`, `document` | the key in a sort upward, and downward |
//! | `order` | `groups` | true if the values of each group are equal, and less than those of each later one |
//! | `classes` | `groups` | the same for their classes |
//! | `sort` | `groups`, `by` | the same for documents, by the paths of `by`, each 1 for upward or -1 |
ghost use Rattle.std.specs.Prelude.{is_none, unwrap_or};
ghost use Rattle.bd_value.specs.Order.{equal};
ghost use Rattle.bd_value.specs.Tree.{leaf, null};

use crate::fault::RowFault;
use crate::order::{By, ascending, sort_of};
use bd_path::{
    Dir, EndTest, Key, Path, all_key_nodes, any_end, key_value, keys, sort_key, sparse_keys,
};
use bd_value::{Kind, Reading, Scalar, Tree, Value, compare_nodes};
use std::alloc::Global;

/// The value of the field.
pub(crate) fn field<N: Reading>(row: N, name: &str) -> Result<N, RowFault> {
    row.first(name).ok_or(RowFault("a field is missing"))
}

/// All elements of an array.
pub(crate) fn items<N: Reading>(alloc: Global, array: N) -> Result<Vec<N>, RowFault> {
    let Kind::Array = array.kind() else {
        return Err(RowFault("no array"));
    };
    let mut items = Vec::new(alloc);
    for i in 0..array.len() {
        items.push(array.element(i))?;
    }
    Ok(items)
}

/// Whether an end equals a value. A missing one counts as null.
#[derive(Drop)]
struct Equals<N>(N);

impl<M: Reading> EndTest for Equals<M> {
    ghost passes = { λ s end. equal (unwrap_or end (leaf null)) (M.tree s.0) };

    fn test<N: Reading>(&self, end: Option<N>) -> bool {
        match end {
            Some(node) => compare_nodes(node, self.0).is_eq(),
            None => compare_nodes(Tree::Value(&Value::Null), self.0).is_eq(),
        }
    }
}

/// Whether an end is missing.
#[derive(Drop)]
struct IsMissing;

impl EndTest for IsMissing {
    ghost passes = { λ _ end. is_none end };

    fn test<N: Reading>(&self, end: Option<N>) -> bool {
        end.is_none()
    }
}

/// The components of a path.
fn components(alloc: Global, path: &Path) -> Result<Value, RowFault> {
    let mut names = Vec::new(alloc);
    for component in path.components() {
        names.push(match component.index {
            Some(index) => Value::Int64(i64::try_from(index).unwrap_or(i64::MAX)),
            None => Value::Text(String::from_str(alloc, component.name.as_str())?),
        })?;
    }
    Ok(Value::Array(names))
}

fn key_values<N: Reading>(alloc: Global, keys: &[Key<N>]) -> Result<Value, RowFault> {
    let mut values = Vec::new(alloc);
    for key in keys {
        values.push(key_value(alloc, *key)?)?;
    }
    Ok(Value::Array(values))
}

/// The answer of a call that has a path.
fn path_call<N: Reading>(
    alloc: Global,
    name: &str,
    row: N,
    path: &Path,
) -> Result<Value, RowFault> {
    if name == "components" {
        return components(alloc, path);
    }
    let document = field(row, "document")?;
    match name {
        "equals" => Ok(Value::Bool(any_end(document, path, &Equals(field(row, "value")?)))),
        "missing" => Ok(Value::Bool(any_end(document, path, &IsMissing))),
        "keys" => Ok(Value::Array(keys(alloc, document, path)?)),
        "sparse" => key_values(alloc, &sparse_keys(alloc, document, path)?),
        "all" => key_values(alloc, &all_key_nodes(alloc, document, path, false)?),
        "all sparse" => key_values(alloc, &all_key_nodes(alloc, document, path, true)?),
        "least" => Ok(sort_key(alloc, document, path, Dir::Up)?),
        "greatest" => Ok(sort_key(alloc, document, path, Dir::Down)?),
        _ => Err(RowFault("no such call")),
    }
}

/// The text in the field.
fn text_in<N: Reading>(alloc: Global, row: N, name: &str) -> Result<String, RowFault> {
    match field(row, name)?.leaf() {
        Some(Scalar::Text(text)) => Ok(String::from_str(alloc, text)?),
        _ => Err(RowFault("no text")),
    }
}

/// The answer of the call of a row. Of two values, each is read in both forms of the row.
pub(crate) fn call<M: Reading, N: Reading>(
    alloc: Global,
    row: M,
    other: N,
) -> Result<Value, RowFault> {
    let name = text_in(alloc, row, "call")?;
    match name.as_str() {
        "value" => Ok(key_value(alloc, Key::Node(field(row, "value")?))?),
        "order" => ascending(alloc, row, other, &By::Value),
        "classes" => ascending(alloc, row, other, &By::Class),
        "sort" => ascending(alloc, row, other, &sort_of(alloc, row)?),
        name => {
            let path = Path::parse(alloc, text_in(alloc, row, "path")?.as_str())?;
            path_call(alloc, name, row, &path)
        }
    }
}
