//! The numbers of a document, in order.

ghost use Rattle.std.specs.Prelude.{◌≡◌, ◌≤◌, ◌++◌, Some, length, OnErr, OnOk};
ghost use Rattle.bd_wide.specs.Rewritten.{least, part_of};
ghost use Rattle.bd_wide_copy.specs.Numbers.{AddsNumbers, AreNumbersOf};
ghost use Rattle.bd_wide_copy.specs.inside.Collected.{Extends, body_of, holder_least, inside as inside_of, level_numbers, part_numbers};

use bd_bson_view::{ElementType, Holder};
use bd_value::{MOST_LEVELS, NoMemory};
use bd_wide::{Part, first_element, looked_into, number_in, scope_at};
use bd_wide_number::Number;

/// Adds the numbers of a document, from left to right: int32, int64, double and decimal128, at any level.
///
/// # Errors
/// On `NoMemory`, `numbers` is unchanged.
pub fn collect_numbers(document: &[u8], numbers: &mut Vec<Number>) -> Result<(), NoMemory>
    ensures ok { OnOk result (AddsNumbers
        (AreNumbersOf document.now) numbers.old.items numbers.new.items) }
    ensures err { OnErr result (numbers.new.items ≡ numbers.old.items) }
{
    if document.len() < 5 {
        return Ok(());
    }
    let before = numbers.len();
    let added = elements(
        MOST_LEVELS as u32,
        inside(Holder::Document, document),
        numbers,
    );
    if added.is_err() {
        numbers.truncate(before);
    }
    added
}

/// Adds the numbers of elements that nest at most that many levels.
#[cycle(collecting)]
fn elements(levels: u32, bytes: &[u8], numbers: &mut Vec<Number>) -> Result<(), NoMemory>
    ensures ok { OnOk result (numbers.new.items
        ≡ numbers.old.items ++ level_numbers levels bytes.now) }
    ensures prefix { OnErr result (Extends numbers.old.items numbers.new.items) }
{
    if levels == 0 {
        return Ok(());
    }
    let mut rest = bytes;
    while let Some((typed, k, n)) = first_element(rest) {
        let (_, more) = rest.split_at(k);
        let (value, after) = more.split_at(n);
        if let Some(part) = looked_into(typed) {
            value_numbers(levels - 1, part, typed, value, numbers)?;
        }
        rest = after;
    }
    Ok(())
}

/// Adds the numbers of a value of which this part is examined: the number itself, or those inside it.
#[cycle(collecting)]
fn value_numbers(
    levels: u32,
    part: Part,
    typed: ElementType,
    value: &[u8],
    numbers: &mut Vec<Number>,
) -> Result<(), NoMemory>
    requires part { part_of typed ≡ Some part }
    requires value { least typed ≤ length value.now }
    ensures ok { OnOk result (numbers.new.items
        ≡ numbers.old.items ++ part_numbers (level_numbers levels) (Some part) typed value.now) }
    ensures prefix { OnErr result (Extends numbers.old.items numbers.new.items) }
{
    match part {
        Part::Number => {
            if let Some(number) = number_in(typed, value) {
                numbers.push(number)?;
            }
            Ok(())
        }
        Part::Values(holder) => elements(levels, inside(holder, value), numbers),
    }
}

/// The bytes of the elements in a value that contains values.
#[tactic(auto, unfolding(crate::specs::inside::Collected::inside, crate::specs::inside::Collected::holder_least))]
fn inside(holder: Holder, value: &[u8]) -> &[u8]
    requires { holder_least holder ≤ length value.now }
    ensures { result.now ≡ inside_of holder value.now }
{
    match holder {
        Holder::Document | Holder::Array => body(value),
        Holder::CodeScope => match scope_at(value) {
            Some(at) => {
                let (_, scope) = value.split_at(at);
                body(scope)
            }
            None => &[],
        },
    }
}

/// The bytes of the elements of a document or an array.
fn body(value: &[u8]) -> &[u8]
    requires { 5 ≤ length value.now }
    ensures { result.now ≡ body_of value.now }
{
    let (_, more) = value.split_at(4);
    let (elements, _) = more.split_at(value.len() - 5);
    elements
}
