//! The calls that order values.
use crate::calls::{field, items};
use crate::fault::RowFault;
use bd_path::{Dir, Path, compare_sort};
use bd_value::{Kind, Reading, Scalar, Value, class_of_node, compare_nodes};
use std::alloc::Global;
use std::cmp::Ordering;

/// How values are ordered.
#[derive(Drop)]
pub(crate) enum By {
    Value,
    Class,
    Sort(Vec<(Path, Dir)>),
}

impl By {
    fn compare<M: Reading, N: Reading>(&self, a: M, b: N) -> Ordering {
        match self {
            By::Value => compare_nodes(a, b),
            By::Class => class_of_node(a).cmp(&class_of_node(b)),
            By::Sort(sort) => compare_sort(a, b, sort),
        }
    }
}

/// The direction of a number.
fn direction<N: Reading>(value: N) -> Result<Dir, RowFault> {
    match value.leaf() {
        Some(Scalar::Int32(1)) => Ok(Dir::Up),
        Some(Scalar::Int32(-1)) => Ok(Dir::Down),
        _ => Err(RowFault("no direction")),
    }
}

/// The paths and the directions of the field `by`.
pub(crate) fn sort_of<N: Reading>(alloc: Global, row: N) -> Result<By, RowFault> {
    let document = field(row, "by")?;
    let Kind::Doc = document.kind() else {
        return Err(RowFault("no sort"));
    };
    let mut sort = Vec::new(alloc);
    for i in 0..document.len() {
        let (name, value) = document.field(i);
        sort.push((Path::parse(alloc, name)?, direction(value)?))?;
    }
    Ok(By::Sort(sort))
}

/// The values of the field `groups`, each with the number of its group.
fn grouped<N: Reading>(alloc: Global, row: N) -> Result<Vec<(N, i32)>, RowFault> {
    let mut values = Vec::new(alloc);
    let mut number = 0_i32;
    for group in items(alloc, field(row, "groups")?)? {
        for value in items(alloc, group)? {
            values.push((value, number))?;
        }
        number = number.wrapping_add(1);
    }
    Ok(values)
}

/// The groups of two values that do not compare as their groups do.
fn misplaced<M: Reading, N: Reading>(
    values: &[(M, i32)],
    others: &[(N, i32)],
    by: &By,
) -> Option<(i32, i32)> {
    for value in values {
        for other in others {
            if by.compare(value.0, other.0) != value.1.cmp(&other.1) {
                return Some((value.1, other.1));
            }
        }
    }
    None
}

/// Whether each value of a row compares with each of the same values in another row as their groups do, and as equal if they
/// are in one group. If not, the answer is two groups whose values do not.
pub(crate) fn ascending<M: Reading, N: Reading>(
    alloc: Global,
    row: M,
    other: N,
    by: &By,
) -> Result<Value, RowFault> {
    let values = grouped(alloc, row)?;
    let others = grouped(alloc, other)?;
    match misplaced(&values, &others, by) {
        None => Ok(Value::Bool(true)),
        Some((first, second)) => {
            let groups = [Value::Int32(first), Value::Int32(second)];
            Ok(Value::Array(Vec::from_array(alloc, groups)?))
        }
    }
}
