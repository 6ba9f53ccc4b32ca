//! Operators that take values: how their operands are read.

ghost use Rattle.std.specs.Prelude.{◌≡◌, ◌||◌, ◌++◌, decimal, map, option_map};
ghost use Rattle.bd_value.specs.View.{kind_of, tree_of};
ghost use Rattle.bd_value.specs.Tree.{values_of, items_of};
ghost use Rattle.bd_query_filter.specs.Fault.{Refusal, deeper};
ghost use Rattle.bd_query_filter.specs.inside.Fault.{ReadsPart, ReportsMisfit};
ghost use Rattle.bd_query_filter.specs.Filter.{compares, operator_tree};
ghost use Rattle.bd_query_filter.specs.FilterMatch.{relates};
ghost use Rattle.bd_query_filter.specs.FilterOf.{all_kinds, has_operators, is_bound, is_regex, member_value, member_values, members_of, operand_kinds};
ghost use Rattle.bd_query_filter.specs.FilterOf.{or_bad_operand, plain_operator, size_value, truth_value, type_kinds, unless_omitted};
ghost use Rattle.bd_query_filter.specs.NameKind.{kinds_named, kinds_numbered};

use crate::fault::{FilterFaultKind, Stop, stop_at, under};
use crate::filter::{Members, Operator};
use crate::filter_of::{PlainOperator, begins_with_dollar};
use bd_value::{Kind, Reading, Scalar, Value, to_value};
use std::alloc::Global;
use std::cmp::Ordering;

/// The operator of a name and its operand.
pub(crate) fn plain_operator<N: Reading>(
    alloc: Global,
    plain: PlainOperator,
    operand: N,
) -> Result<Operator, Stop>
    ensures { ReadsPart operator_tree result (plain_operator plain (N.tree operand)) }
{
    Ok(match plain {
        PlainOperator::Equal => Operator::Equal(to_value(alloc, operand)?),
        PlainOperator::NotEqual => Operator::NotEqual(plain_value(alloc, operand)?),
        PlainOperator::Order(relation) => comparing(relation, ordered_value(alloc, operand)?),
        PlainOperator::In => Operator::In(Members::new(alloc, members_of(alloc, operand)?)?),
        PlainOperator::NotIn => Operator::NotIn(Members::new(alloc, members_of(alloc, operand)?)?),
        PlainOperator::All => Operator::All(members_of(alloc, operand)?),
        PlainOperator::Size => Operator::Size(size_value(alloc, operand)?),
        PlainOperator::Exists => Operator::Exists(truth_value(alloc, operand)?),
        PlainOperator::Type => Operator::Type(kinds_of(alloc, operand)?),
    })
}

/// The operator that compares values with an operand by a relation.
fn comparing(relation: Relation, operand: Value) -> Operator
    ensures { operator_tree result ≡ compares relation (tree_of operand) }
{
    match relation {
        Relation::Above => Operator::Greater(operand),
        Relation::AtLeast => Operator::GreaterOrEqual(operand),
        Relation::Below => Operator::Less(operand),
        Relation::AtMost => Operator::LessOrEqual(operand),
    }
}

/// A value that is not a regular expression, in memory.
pub(crate) fn plain_value<N: Reading>(alloc: Global, operand: N) -> Result<Value, Stop>
    ensures { ReadsPart tree_of result
        (unless_omitted (is_regex (N.tree operand)) (N.tree operand)) }
{
    if operand.kind() == Kind::Regex {
        return Err(stop_at(alloc, FilterFaultKind::NotInProfile));
    }
    Ok(to_value(alloc, operand)?)
}

/// A value that is above some and below others, and not a regular expression.
pub(crate) fn ordered_value<N: Reading>(alloc: Global, operand: N) -> Result<Value, Stop>
    ensures { ReadsPart tree_of result (unless_omitted (is_regex (N.tree operand)
        || is_bound (N.tree operand)) (N.tree operand)) }
{
    match operand.kind() {
        Kind::Regex | Kind::MinKey | Kind::MaxKey => {
            Err(stop_at(alloc, FilterFaultKind::NotInProfile))
        }
        _ => Ok(to_value(alloc, operand)?),
    }
}

/// Whether it is a document whose first name is an operator.
pub(crate) fn has_operators<N: Reading>(operand: N) -> bool
    ensures { result ≡ has_operators (N.tree operand) }
{
    if operand.kind() != Kind::Doc {
        return false;
    }
    let parts = operand.parts();
    match N::next(&parts) {
        Some((name, _, _)) => begins_with_dollar(name),
        None => false,
    }
}

/// A member of the array of `$in`, `$nin` and `$all`.
fn member_value<N: Reading>(alloc: Global, member: N) -> Result<Value, Stop>
    ensures { ReadsPart tree_of result (member_value (N.tree member)) }
{
    if member.kind() == Kind::Regex || has_operators(member) {
        return Err(stop_at(alloc, FilterFaultKind::NotInProfile));
    }
    Ok(to_value(alloc, member)?)
}

/// The members of an array, in memory.
pub(crate) fn members_of<N: Reading>(alloc: Global, operand: N) -> Result<Vec<Value>, Stop>
    ensures { ReadsPart (λ vs. map tree_of vs.items) result (members_of (N.tree operand)) }
{
    let Kind::Array = operand.kind() else {
        return Err(stop_at(alloc, FilterFaultKind::BadOperand));
    };
    let mut members = Vec::new(alloc);
    let mut remaining = operand.parts();
    while let Some(next) = N::next(&remaining) {
        match member_value(alloc, next.1) {
            Ok(value) => members.push(value)?,
            Err(stop) => return Err(under_index(alloc, members.len(), stop)),
        }
        remaining = next.2;
    }
    Ok(members)
}

/// The stop of the member at an index, one level up from the array.
pub(crate) fn under_index(alloc: Global, index: usize, stop: Stop) -> Stop
    ensures { (r : Refusal) →
        ReportsMisfit stop r → ReportsMisfit result (deeper (decimal index) r) }
{
    match index.to_string(alloc) {
        Ok(name) => under(alloc, &name, stop),
        Err(_) => Stop::NoMemory,
    }
}

/// The number of a size.
pub(crate) fn size_value<N: Reading>(alloc: Global, operand: N) -> Result<u64, Stop>
    ensures { ReadsPart (λ n. n) result (or_bad_operand (size_value (N.tree operand))) }
{
    match operand.leaf() {
        Some(Scalar::Int32(number)) if number >= 0 => Ok(number as u64),
        Some(Scalar::Int64(number)) if number >= 0 => Ok(number as u64),
        _ => Err(stop_at(alloc, FilterFaultKind::BadOperand)),
    }
}

/// A boolean, or whether a number is not zero.
pub(crate) fn truth_value<N: Reading>(alloc: Global, operand: N) -> Result<bool, Stop>
    ensures { ReadsPart (λ b. b) result (or_bad_operand (truth_value (N.tree operand))) }
{
    match operand.leaf() {
        Some(Scalar::Bool(truth)) => Ok(truth),
        Some(Scalar::Int32(number)) => Ok(number != 0),
        Some(Scalar::Int64(number)) => Ok(number != 0),
        _ => Err(stop_at(alloc, FilterFaultKind::BadOperand)),
    }
}

/// The kinds of a type, or of some types in an array.
pub(crate) fn kinds_of<N: Reading>(alloc: Global, operand: N) -> Result<Vec<Kind>, Stop>
    ensures { ReadsPart (λ ks. ks.items) result (or_bad_operand (operand_kinds (N.tree operand))) }
{
    let mut kinds = Vec::new(alloc);
    let Kind::Array = operand.kind() else {
        add_type(alloc, operand, &mut kinds)?;
        return Ok(kinds);
    };
    if operand.len() == 0 {
        return Err(stop_at(alloc, FilterFaultKind::BadOperand));
    }
    add_members::<N>(alloc, operand.parts(), &mut kinds)?;
    Ok(kinds)
}

/// Appends the kinds of some types.
fn add_members<N: Reading>(
    alloc: Global,
    members: N::Rest,
    kinds: &mut Vec<Kind>,
) -> Result<(), Stop>
    ensures { ReadsPart (λ _. kinds.new.items) result
        (or_bad_operand (option_map (λ more. kinds.old.items ++ more)
        (all_kinds (items_of (values_of (N.remaining members)))))) }
{
    let mut remaining = members;
    while let Some(next) = N::next(&remaining) {
        add_type(alloc, next.1, kinds)?;
        remaining = next.2;
    }
    Ok(())
}

/// Appends the kinds of a type.
fn add_type<N: Reading>(alloc: Global, operand: N, kinds: &mut Vec<Kind>) -> Result<(), Stop>
    ensures { ReadsPart (λ _. kinds.new.items) result (or_bad_operand (option_map (λ more.
        kinds.old.items ++ more) (type_kinds (N.tree operand)))) }
{
    match kinds_of_type(operand) {
        Some(more) => Ok(kinds.extend_from_slice(more)?),
        None => Err(stop_at(alloc, FilterFaultKind::BadOperand)),
    }
}

/// The kinds of a type, by its name or its number.
fn kinds_of_type<N: Reading>(operand: N) -> Option<&'static [Kind]>
    ensures { option_map (λ kinds. kinds.now) result ≡ type_kinds (N.tree operand) }
{
    match operand.leaf() {
        Some(Scalar::Text(name)) => kinds_named(name),
        Some(Scalar::Int32(number)) => kinds_numbered(number as i64),
        Some(Scalar::Int64(number)) => kinds_numbered(number),
        _ => None,
    }
}

/// The types of `$type`, by number and name, and the kinds that each has: MongoDB manual, "$type". Doubles and decimals are
/// not supported.
const TYPES: [(i64, &str, &[Kind]); 21] = [
    (1, "double", &[]),
    (2, "string", &[Kind::Text]),
    (3, "object", &[Kind::Doc]),
    (4, "array", &[Kind::Array]),
    (5, "binData", &[Kind::Binary]),
    (6, "undefined", &[Kind::Undefined]),
    (7, "objectId", &[Kind::ObjectId]),
    (8, "bool", &[Kind::Bool]),
    (9, "date", &[Kind::Date]),
    (10, "null", &[Kind::Null]),
    (11, "regex", &[Kind::Regex]),
    (12, "dbPointer", &[Kind::DbPointer]),
    (13, "javascript", &[Kind::Code]),
    (14, "symbol", &[Kind::Symbol]),
    (15, "javascriptWithScope", &[Kind::CodeScope]),
    (16, "int", &[Kind::Int32]),
    (17, "timestamp", &[Kind::Timestamp]),
    (18, "long", &[Kind::Int64]),
    (19, "decimal", &[]),
    (-1, "minKey", &[Kind::MinKey]),
    (127, "maxKey", &[Kind::MaxKey]),
];

/// The kinds of a type by its name; `number` means the two whole numbers.
#[tactic(auto, unfolding(crate::specs::NameKind::kinds_named))]
fn kinds_named(name: &str) -> Option<&'static [Kind]>
    ensures { option_map (λ kinds. kinds.now) result ≡ kinds_named name.now }
{
    if name == "number" {
        return Some(&[Kind::Int32, Kind::Int64]);
    }
    TYPES.iter().find(|row| row.1 == name).map(|row| row.2)
}

/// The kinds of a type by its number.
#[tactic(auto, unfolding(crate::specs::NameKind::kinds_numbered))]
fn kinds_numbered(number: i64) -> Option<&'static [Kind]>
    ensures { option_map (λ kinds. kinds.now) result ≡ kinds_numbered number }
{
    TYPES.iter().find(|row| row.0 == number).map(|row| row.2)
}

/// The order of a value to an operand of its class.
#[derive(Clone, Copy, Debug, PartialEq, Eq)]
pub enum Relation {
    /// `$gt`
    Above,
    /// `$gte`
    AtLeast,
    /// `$lt`
    Below,
    /// `$lte`
    AtMost,
}

/// Whether a value in this order to an operand satisfies the relation.
pub fn relates(relation: Relation, order: Ordering) -> bool
    ensures { result ≡ relates relation order }
{
    match relation {
        Relation::Above => order.is_gt(),
        Relation::AtLeast => order.is_ge(),
        Relation::Below => order.is_lt(),
        Relation::AtMost => order.is_le(),
    }
}
