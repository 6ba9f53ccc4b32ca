//! Filters beside NaN, which is neither below nor above another number.

ghost use Rattle.std.specs.Prelude.{◌≡◌, ◌⊎◌, ℤ, IfOk, List, MatchOption, OnOk, Some, [], false, map};
ghost use Rattle.std.specs.List.{filter};
ghost use Rattle.bd_value.specs.View.{tree_of};
ghost use Rattle.bd_query_filter.specs.Filter as filters;
ghost use Rattle.bd_query_filter.specs.Filter.{filter_tree, filters_from, operator_tree, operators_from, trees_in};
ghost use Rattle.bd_wide_number.specs.Value as wide;
ghost use Rattle.bd_wide_rank.specs.{Rank.code, Rank.is_among, Table.worths, Worth.value_worth};
ghost use Rattle.bd_wide_order.specs.Renumber.{renumber_filter};
ghost use Rattle.bd_wide_order.specs.Ranks.{table_codes};
ghost use Rattle.bd_wide_query.specs.Nan.{beside_nan, comparison_beside_nan, compared_number, filter_beside_nan, filters_beside_nan};
ghost use Rattle.bd_wide_query.specs.Nan.{is_beside_nan, operator_beside_nan, operators_beside_nan, related_numbers, relates_beside_nan};

use bd_query_filter::{Filter, Members, Operator, Relation, relates};
use bd_value::{NoMemory, Value};
use bd_wide_number::Number;
use bd_wide_rank::Table;
use std::alloc::Global;
use std::cmp::Ordering;

/// The bits of a NaN.
const NOT_A_NUMBER: u64 = 0x7FF8_0000_0000_0000;

/// The filter of a query with codes, for documents with the codes of the numbers of a table: `$in` of their codes in place of each
/// comparison with a number where NaN is not in order. If neither the table nor a comparison has NaN, the filter stays as it is.
///
/// # Errors
/// `NoMemory` if memory runs out.
pub fn exclude_nan(alloc: Global, filter: Filter, table: &Table) -> Result<Filter, NoMemory>
    ensures { let codes = table_codes (worths table.now) in
        (f : filters.Filter) → filter_tree filter ≡ renumber_filter codes f →
        IfOk result (λ g. filter_tree g ≡ renumber_filter codes (beside_nan (worths table.now) f)) }
{
    let nan = table.code(Number::Double(NOT_A_NUMBER));
    let codes = codes_with_nan(alloc, table, nan)?;
    let mut filter = filter;
    exclude_in_filter(alloc, &mut filter, &codes, nan)?;
    Ok(filter)
}

/// The codes of the numbers of a table, if NaN is one of them; otherwise none.
fn codes_with_nan(alloc: Global, table: &Table, nan: i32) -> Result<Vec<i32>, NoMemory>
    requires { nan ≡ code (worths table.now) (value_worth wide.nan) }
    ensures { IfOk result (λ codes.
        (codes.items ≡ map (code (worths table.now)) (worths table.now))
        ⊎ ((codes.items ≡ []) × (is_among (worths table.now) (value_worth wide.nan) ≡ false))) }
{
    if nan > 0 {
        table.codes(alloc)
    } else {
        Ok(Vec::new(alloc))
    }
}

/// The filter, in place.
#[cycle(excluding)]
fn exclude_in_filter(
    alloc: Global,
    filter: &mut Filter,
    codes: &[i32],
    nan: i32,
) -> Result<(), NoMemory>
    ensures { OnOk result (filter_tree filter.new
        ≡ filter_beside_nan codes.now nan (filter_tree filter.old)) }
{
    match filter {
        Filter::And(filters) => exclude_in_filters(alloc, filters, codes, nan),
        Filter::Or(filters) => exclude_in_filters(alloc, filters, codes, nan),
        Filter::Nor(filters) => exclude_in_filters(alloc, filters, codes, nan),
        Filter::Field { operators, .. } => exclude_in_operators(alloc, operators, codes, nan),
    }
}

/// Each of the filters, in place.
#[cycle(excluding)]
fn exclude_in_filters(
    alloc: Global,
    filters: &mut Vec<Filter>,
    codes: &[i32],
    nan: i32,
) -> Result<(), NoMemory>
    ensures { OnOk result (filters_from (map filter_tree filters.new.items)
        ≡ filters_beside_nan codes.now nan (filters_from (map filter_tree filters.old.items))) }
{
    for i in 0..filters.len() {
        exclude_in_filter(alloc, &mut filters[i], codes, nan)?;
    }
    Ok(())
}

/// The operator, in place.
#[cycle(excluding)]
fn exclude_in_operator(
    alloc: Global,
    operator: &mut Operator,
    codes: &[i32],
    nan: i32,
) -> Result<(), NoMemory>
    ensures { OnOk result (operator_tree operator.new
        ≡ operator_beside_nan codes.now nan (operator_tree operator.old)) }
{
    match operator {
        Operator::Not(operators) => exclude_in_operators(alloc, operators, codes, nan),
        Operator::ElemMatch(operators) => exclude_in_operators(alloc, operators, codes, nan),
        Operator::ElemMatchDocument(filters) => exclude_in_filters(alloc, filters, codes, nan),
        _ => exclude_in_comparison(alloc, operator, codes, nan),
    }
}

/// Each of the operators, in place.
#[cycle(excluding)]
fn exclude_in_operators(
    alloc: Global,
    operators: &mut Vec<Operator>,
    codes: &[i32],
    nan: i32,
) -> Result<(), NoMemory>
    ensures { OnOk result (operators_from (map operator_tree operators.new.items)
        ≡ operators_beside_nan codes.now nan
        (operators_from (map operator_tree operators.old.items))) }
{
    for i in 0..operators.len() {
        exclude_in_operator(alloc, &mut operators[i], codes, nan)?;
    }
    Ok(())
}

/// An operator that has no other in it, in place.
fn exclude_in_comparison(
    alloc: Global,
    operator: &mut Operator,
    codes: &[i32],
    nan: i32,
) -> Result<(), NoMemory>
    ensures { OnOk result (operator_tree operator.new
        ≡ comparison_beside_nan codes.now nan (operator_tree operator.old)) }
{
    if let Some((relation, number)) = comparison(operator) {
        if is_beside_nan(codes, nan, relation, number) {
            let values = related_values(alloc, codes, nan, relation, number)?;
            *operator = Operator::In(Members::new(alloc, values)?);
        }
    }
    Ok(())
}

/// The relation and the number, if the operator compares with a number.
fn comparison(operator: &Operator) -> Option<(Relation, i64)>
    ensures { result ≡ compared_number (operator_tree operator.now) }
{
    match operator {
        Operator::Greater(operand) => with_number(Relation::Above, operand),
        Operator::GreaterOrEqual(operand) => with_number(Relation::AtLeast, operand),
        Operator::Less(operand) => with_number(Relation::Below, operand),
        Operator::LessOrEqual(operand) => with_number(Relation::AtMost, operand),
        _ => None,
    }
}

/// The relation and the number that the operand is, if it is one.
fn with_number(relation: Relation, operand: &Value) -> Option<(Relation, i64)>
    ensures { result ≡ compared_number (filters.compares relation (tree_of operand.now)) }
{
    match operand {
        Value::Int32(number) => Some((relation, *number as i64)),
        Value::Int64(number) => Some((relation, *number)),
        _ => None,
    }
}

/// Whether order alone does not decide.
fn is_beside_nan(codes: &[i32], nan: i32, relation: Relation, number: i64) -> bool
    ensures { result ≡ is_beside_nan codes.now nan relation number }
{
    number == nan as i64 || (codes.contains(&nan) && relates(relation, Ordering::Less))
}

/// Those of the codes that are so related to a number, as values.
fn related_values(
    alloc: Global,
    codes: &[i32],
    nan: i32,
    relation: Relation,
    number: i64,
) -> Result<Vec<Value>, NoMemory>
    ensures { IfOk result (λ values. values.items ≡ map (λ m. Value.Int64 m)
        (filter (λ m. relates_beside_nan nan relation m number) codes.now)) }
{
    Ok(
        codes
            .iter()
            .filter(|code| relates_beside_nan(nan as i64, relation, **code as i64, number))
            .map(|code| Value::Int64(*code as i64))
            .collect(alloc)?,
    )
}

/// Whether the first number is so related to the second.
fn relates_beside_nan(nan: i64, relation: Relation, first: i64, second: i64) -> bool
    ensures { result ≡ relates_beside_nan nan relation first second }
{
    relates(relation, first.cmp(&second)) && (first == nan) == (second == nan)
}
