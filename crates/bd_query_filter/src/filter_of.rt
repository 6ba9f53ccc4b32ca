//! Documents read as filters.

ghost use Rattle.std.specs.Prelude.{◌≡◌, ◌⊎◌, map, IfOk, IfErr, Ok, Err};
ghost use Rattle.bd_value.specs.View.{pairs};
ghost use Rattle.bd_path.specs.Path.{path_of};
ghost use Rattle.bd_value.specs.Tree.{Doc, fields_of, items_of, values_of};
ghost use Rattle.bd_query_filter.specs.Fault.{IsOutOfMemory, refusal_of};
ghost use Rattle.bd_query_filter.specs.inside.Fault.{ReadsPart};
ghost use Rattle.bd_query_filter.specs.Filter as filters;
ghost use Rattle.bd_query_filter.specs.Filter.{filter_tree, operator_tree};
ghost use Rattle.bd_query_filter.specs.FilterBad.{IsBadAt};
ghost use Rattle.bd_query_filter.specs.FilterOf.{element_operator, filter_of, filters_of, has_value_form, member_filter, member_filters, not_operator};
ghost use Rattle.bd_query_filter.specs.FilterOf.{operand_filters, operator_of, operators_of, pair_filter, path_operators};
ghost use Rattle.bd_query_filter.specs.NameKind.{begins_with_dollar, is_omitted, known_operator, name_kind_of};

use crate::fault::{FilterFault, FilterFaultKind, Stop, stop_at, under};
use crate::filter::{Filter, Operator};
use crate::operand::{Relation, has_operators, plain_operator, plain_value, under_index};
use bd_path::{Path, PathFault};
use bd_value::{Document, Kind, MOST_FILTER_LEVELS, Reading, Tree};
use std::alloc::Global;

/// Parses a filter from a document.
///
/// MongoDB manual, "Query and Projection Operators". Each member of `$and`, `$or` and `$nor` and each body of `$not` and
/// `$elemMatch` is one more level, and there are at most fifty.
///
/// # Errors
///
/// The first pair or member that is not part of a filter, in stored order, and which rule it breaks; `NoMemory` if memory
/// runs out.
pub fn parse(alloc: Global, document: &Document) -> Result<Filter, FilterFault>
    ensures filter { IfOk result (λ f. filter_of (pairs document.now) ≡ Ok (filter_tree f)) }
    ensures fault { IfErr result (λ f. IsOutOfMemory f
        ⊎ (filter_of (pairs document.now) ≡ Err (refusal_of f))) }
    ensures bad { IfErr result (λ f. IsOutOfMemory f
        ⊎ IsBadAt (pairs document.now) (refusal_of f)) }
{
    match read_filters::<Tree<'_>>(alloc, MOST_FILTER_LEVELS - 1, Tree::Doc(document).parts()) {
        Ok(filters) => Ok(Filter::And(filters)),
        Err(Stop::Fault(fault)) => Err(fault),
        Err(Stop::NoMemory) => Err(FilterFault {
            kind: FilterFaultKind::NoMemory,
            place: Vec::new(alloc),
        }),
    }
}

/// The filters of the pairs of a document.
#[cycle(parse)]
fn read_filters<N: Reading>(
    alloc: Global,
    depth_left: u32,
    pairs: N::Rest,
) -> Result<Vec<Filter>, Stop>
    ensures { ReadsPart (λ fs.
        map filter_tree fs.items) result (filters_of depth_left (fields_of (N.remaining pairs))) }
{
    let mut filters = Vec::new(alloc);
    let mut remaining = pairs;
    while let Some(next) = N::next(&remaining) {
        match read_pair(alloc, depth_left, next.0, next.1) {
            Ok(filter) => filters.push(filter)?,
            Err(stop) => return Err(under(alloc, next.0, stop)),
        }
        remaining = next.2;
    }
    Ok(filters)
}

#[cycle(parse)]
fn read_pair<N: Reading>(
    alloc: Global,
    depth_left: u32,
    name: &str,
    value: N,
) -> Result<Filter, Stop>
    ensures { ReadsPart filter_tree result (pair_filter (name_kind_of name.now) (path_of name.now)
        (operand_filters depth_left (N.tree value)) (path_operators depth_left (N.tree value))) }
{
    match NameKind::from_name(name) {
        NameKind::Logical(logical) => {
            let filters = read_operand(alloc, depth_left, value)?;
            Ok(match logical {
                LogicalOperator::And => Filter::And(filters),
                LogicalOperator::Or => Filter::Or(filters),
                LogicalOperator::Nor => Filter::Nor(filters),
            })
        }
        NameKind::Field => match Path::parse(alloc, name) {
            Ok(path) => {
                let operators = read_value(alloc, depth_left, value)?;
                Ok(Filter::Field { path, operators })
            }
            Err(PathFault::NoMemory) => Err(Stop::NoMemory),
            Err(_) => Err(stop_at(alloc, FilterFaultKind::Path)),
        },
        NameKind::Omitted => Err(stop_at(alloc, FilterFaultKind::NotInProfile)),
        _ => Err(stop_at(alloc, FilterFaultKind::UnknownOperator)),
    }
}

/// The filters of the operand of `$and`, `$or` and `$nor`.
#[cycle(parse)]
fn read_operand<N: Reading>(alloc: Global, depth_left: u32, operand: N) -> Result<Vec<Filter>, Stop>
    ensures { ReadsPart (λ fs.
        map filter_tree fs.items) result (operand_filters depth_left (N.tree operand)) }
{
    let Kind::Array = operand.kind() else {
        return Err(stop_at(alloc, FilterFaultKind::BadOperand));
    };
    if operand.len() == 0 {
        return Err(stop_at(alloc, FilterFaultKind::BadOperand));
    }
    read_members::<N>(alloc, depth_left, operand.parts())
}

#[cycle(parse)]
fn read_members<N: Reading>(
    alloc: Global,
    depth_left: u32,
    members: N::Rest,
) -> Result<Vec<Filter>, Stop>
    ensures { ReadsPart (λ fs. map filter_tree fs.items) result
        (member_filters depth_left 0 (items_of (values_of (N.remaining members)))) }
{
    let mut filters = Vec::new(alloc);
    let mut remaining = members;
    while let Some(next) = N::next(&remaining) {
        match read_member(alloc, depth_left, next.1) {
            Ok(filter) => filters.push(filter)?,
            Err(stop) => return Err(under_index(alloc, filters.len(), stop)),
        }
        remaining = next.2;
    }
    Ok(filters)
}

#[cycle(parse)]
fn read_member<N: Reading>(alloc: Global, depth_left: u32, member: N) -> Result<Filter, Stop>
    ensures { ReadsPart filter_tree result (member_filter depth_left (N.tree member)) }
{
    let Kind::Doc = member.kind() else {
        return Err(stop_at(alloc, FilterFaultKind::BadOperand));
    };
    if depth_left == 0 {
        return Err(stop_at(alloc, FilterFaultKind::TooDeep));
    }
    let filters = read_filters::<N>(alloc, depth_left - 1, member.parts())?;
    Ok(Filter::And(filters))
}

/// The operators of the value of a path.
#[cycle(parse)]
fn read_value<N: Reading>(alloc: Global, depth_left: u32, value: N) -> Result<Vec<Operator>, Stop>
    ensures { ReadsPart (λ os.
        map operator_tree os.items) result (path_operators depth_left (N.tree value)) }
{
    if has_operators(value) {
        return read_operators::<N>(alloc, depth_left, value.parts());
    }
    let operand = plain_value(alloc, value)?;
    let mut operators = Vec::new(alloc);
    operators.push(Operator::Equal(operand))?;
    Ok(operators)
}

#[cycle(parse)]
fn read_operators<N: Reading>(
    alloc: Global,
    depth_left: u32,
    pairs: N::Rest,
) -> Result<Vec<Operator>, Stop>
    ensures { ReadsPart (λ os. map operator_tree os.items) result
        (operators_of depth_left (fields_of (N.remaining pairs))) }
{
    let mut operators = Vec::new(alloc);
    let mut remaining = pairs;
    while let Some(next) = N::next(&remaining) {
        match read_operator(alloc, depth_left, next.0, next.1) {
            Ok(operator) => operators.push(operator)?,
            Err(stop) => return Err(under(alloc, next.0, stop)),
        }
        remaining = next.2;
    }
    Ok(operators)
}

#[cycle(parse)]
fn read_operator<N: Reading>(
    alloc: Global,
    depth_left: u32,
    name: &str,
    operand: N,
) -> Result<Operator, Stop>
    ensures { ReadsPart operator_tree result
        (operator_of (name_kind_of name.now) (N.tree operand)
        (not_operator depth_left (N.tree operand)) (element_operator depth_left (N.tree operand))) }
{
    match NameKind::from_name(name) {
        NameKind::Plain(plain) => plain_operator(alloc, plain, operand),
        NameKind::Not => read_not(alloc, depth_left, operand),
        NameKind::ElemMatch => read_elem_match(alloc, depth_left, operand),
        NameKind::Omitted => Err(stop_at(alloc, FilterFaultKind::NotInProfile)),
        NameKind::Field => Err(stop_at(alloc, FilterFaultKind::MixedOperators)),
        _ => Err(stop_at(alloc, FilterFaultKind::UnknownOperator)),
    }
}

#[cycle(parse)]
fn read_not<N: Reading>(alloc: Global, depth_left: u32, operand: N) -> Result<Operator, Stop>
    ensures { ReadsPart operator_tree result (not_operator depth_left (N.tree operand)) }
{
    if has_operators(operand) {
        if depth_left == 0 {
            return Err(stop_at(alloc, FilterFaultKind::TooDeep));
        }
        let operators = read_operators::<N>(alloc, depth_left - 1, operand.parts())?;
        return Ok(Operator::Not(operators));
    }
    match operand.kind() {
        Kind::Regex => Err(stop_at(alloc, FilterFaultKind::NotInProfile)),
        _ => Err(stop_at(alloc, FilterFaultKind::BadOperand)),
    }
}

#[cycle(parse)]
fn read_elem_match<N: Reading>(alloc: Global, depth_left: u32, operand: N) -> Result<Operator, Stop>
    ensures { ReadsPart operator_tree result (element_operator depth_left (N.tree operand)) }
{
    let Kind::Doc = operand.kind() else {
        return Err(stop_at(alloc, FilterFaultKind::BadOperand));
    };
    if depth_left == 0 {
        return Err(stop_at(alloc, FilterFaultKind::TooDeep));
    }
    let parts = operand.parts();
    if is_value_form::<N>(&parts) {
        let operators = read_operators::<N>(alloc, depth_left - 1, parts)?;
        return Ok(Operator::ElemMatch(operators));
    }
    let filters = read_filters::<N>(alloc, depth_left - 1, parts)?;
    Ok(Operator::ElemMatchDocument(filters))
}

/// Whether the body of `$elemMatch` is operators for an element, and not a filter.
fn is_value_form<N: Reading>(pairs: &N::Rest) -> bool
    ensures { result ≡ has_value_form (fields_of (N.remaining pairs.now)) }
{
    let Some((name, _, _)) = N::next(pairs) else {
        return false;
    };
    !matches!(
        NameKind::from_name(name),
        NameKind::Logical(_) | NameKind::Field
    )
}

/// The meaning of a name in a filter.
#[derive(Clone, Copy)]
pub enum NameKind {
    /// An operator whose operand is an array of filters.
    Logical(LogicalOperator),
    /// An operator whose operand is values.
    Plain(PlainOperator),
    /// `$not`
    Not,
    /// `$elemMatch`
    ElemMatch,
    /// An operator of the manual that is not supported.
    Omitted,
    /// Another name that begins with a dollar sign.
    Unknown,
    /// A path.
    Field,
}

/// MongoDB manual, "Logical Query Operators", without `$not`.
#[derive(Clone, Copy)]
pub enum LogicalOperator {
    And,
    Or,
    Nor,
}

/// The operators whose operand is values.
#[derive(Clone, Copy)]
pub enum PlainOperator {
    Equal,
    NotEqual,
    Order(Relation),
    In,
    NotIn,
    All,
    Size,
    Exists,
    Type,
}

/// The operators that are supported.
const OPERATORS: [(&str, NameKind); 17] = [
    ("$and", NameKind::Logical(LogicalOperator::And)),
    ("$or", NameKind::Logical(LogicalOperator::Or)),
    ("$nor", NameKind::Logical(LogicalOperator::Nor)),
    ("$eq", NameKind::Plain(PlainOperator::Equal)),
    ("$ne", NameKind::Plain(PlainOperator::NotEqual)),
    (
        "$gt",
        NameKind::Plain(PlainOperator::Order(Relation::Above)),
    ),
    (
        "$gte",
        NameKind::Plain(PlainOperator::Order(Relation::AtLeast)),
    ),
    (
        "$lt",
        NameKind::Plain(PlainOperator::Order(Relation::Below)),
    ),
    (
        "$lte",
        NameKind::Plain(PlainOperator::Order(Relation::AtMost)),
    ),
    ("$in", NameKind::Plain(PlainOperator::In)),
    ("$nin", NameKind::Plain(PlainOperator::NotIn)),
    ("$all", NameKind::Plain(PlainOperator::All)),
    ("$size", NameKind::Plain(PlainOperator::Size)),
    ("$exists", NameKind::Plain(PlainOperator::Exists)),
    ("$type", NameKind::Plain(PlainOperator::Type)),
    ("$not", NameKind::Not),
    ("$elemMatch", NameKind::ElemMatch),
];

impl NameKind {
    /// The meaning of a name.
    #[tactic(auto, unfolding(crate::specs::NameKind::name_kind_of))]
    pub(crate) fn from_name(name: &str) -> NameKind
        ensures { result ≡ name_kind_of name.now }
    {
        if !begins_with_dollar(name) {
            return NameKind::Field;
        }
        match known_operator(name) {
            Some(name_kind) => name_kind,
            None if is_omitted(name) => NameKind::Omitted,
            None => NameKind::Unknown,
        }
    }
}

/// The meaning of the name of a supported operator.
fn known_operator(name: &str) -> Option<NameKind>
    ensures { result ≡ known_operator name.now }
{
    OPERATORS.iter().find(|row| row.0 == name).map(|row| row.1)
}

/// Whether a name begins as an operator does.
pub(crate) fn begins_with_dollar(name: &str) -> bool
    ensures { result ≡ begins_with_dollar name.now }
{
    match name.as_bytes().first() {
        Some(byte) => *byte == b'$',
        None => false,
    }
}

/// The operators of the manual that are not supported, and the names of a DBRef.
const OMITTED: [&str; 19] = [
    "$regex",
    "$options",
    "$mod",
    "$expr",
    "$where",
    "$text",
    "$jsonSchema",
    "$comment",
    "$geoWithin",
    "$geoIntersects",
    "$near",
    "$nearSphere",
    "$bitsAllSet",
    "$bitsAnySet",
    "$bitsAllClear",
    "$bitsAnyClear",
    "$ref",
    "$id",
    "$db",
];

/// Whether it is the name of an operator of the manual that is not supported, or a name of a DBRef.
#[tactic(auto, unfolding(crate::specs::NameKind::is_omitted))]
fn is_omitted(name: &str) -> bool
    ensures { result ≡ is_omitted name.now }
{
    OMITTED.contains(&name)
}
