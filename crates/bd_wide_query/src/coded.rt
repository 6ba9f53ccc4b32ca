//! The document of a query with the code of each number that it compares with.

ghost use Rattle.std.specs.Prelude.{◌≡◌, ◌↔◌, [], IsTrue, pos, IfNone, IfOk, IfSome, List, MatchOption, drop, ℤ, true, false};
ghost use Rattle.bd_value.specs.declared.node.Kind.TheVariants as kinds;
ghost use Rattle.bd_value.specs.Fits.{Fits};
ghost use Rattle.bd_value.specs.Tree as trees;
ghost use Rattle.bd_value.specs.Tree.{code_scope, doc, fields_of, items_of, leaf, values_of};
ghost use Rattle.bd_value.specs.View.{kind_of, node_parts, node_tree, pairs, tree_of};
ghost use Rattle.bd_bson_view.specs.Spelling.{is_holder};
ghost use Rattle.bd_wide_number.specs.declared.number.Number.TheVariants.{Decimal128, Double, Whole};
ghost use Rattle.bd_wide_rank.specs.{Rank.code, Table.worths, Worth.worth_of};
ghost use Rattle.bd_wide_copy.specs.declared.longs.Longs.{Longs};
ghost use Rattle.bd_wide_order.specs.Renumber.{renumber};
ghost use Rattle.bd_wide_query.specs.Coded.{coded_query};
ghost use Rattle.bd_wide_query.specs.Tagged.{tag, tagged_number, next_number};
ghost use Rattle.bd_wide_query.specs.inside.Coding.{codes_of_tags, GivesItems, GivesPairs, GivesValue, HasSameTags, IsBeside};
ghost use Rattle.bd_wide_query.specs.inside.Role.{at_role, kept_at};

use crate::role::{Pairs, Role};
use crate::types::class_in;
use bd_value::{Document, Kind, NoMemory, Node, Reading, Scalar, Tree, TreeParts, Value, to_value};
use bd_wide_copy::Longs;
use bd_wide_number::Number;
use bd_wide_rank::Table;
use std::alloc::Global;

/// The document of a query with the code of each number that it compares with, and the class of each type of numbers in a `$type`; the
/// operands of `$size` and `$exists` stay. None if a double or a decimal128 is where nothing is compared with it, as in
/// `{"a":{"$size":2.0}}`.
///
/// In `wholes` the int32 0 is in place of each double and decimal128, in `texts` the empty text; these are the `numbers`, in order.
pub fn code_query(
    alloc: Global,
    wholes: &Document,
    texts: &Document,
    numbers: &[Number],
    table: &Table,
    longs: Longs,
) -> Result<Option<Document>, NoMemory>
    ensures { let coded = coded_query (worths table.now) longs numbers.now
        (pairs wholes.now) (pairs texts.now) in
        IfOk result (λ o. MatchOption o (Fits (doc (fields_of coded)) → ⊥) (λ d. pairs d ≡ coded)) }
{
    let mut rest = Rest { numbers };
    let whole = Tree::Doc(wholes).parts();
    let text = Tree::Doc(texts).parts();
    code_pairs(alloc, Pairs::Filter, whole, text, table, longs, &mut rest)
}

/// The doubles and decimal128 of a query that are not coded yet.
#[derive(Drop)]
struct Rest<'a> {
    numbers: &'a [Number],
}

impl Rest<'_> {
    /// Takes the next number, or 0 if none is left.
    fn take(&mut self) -> Number
        ensures next { result ≡ next_number self.old.numbers.now }
        ensures rest { self.new.numbers.now ≡ drop 1 self.old.numbers.now }
    {
        match self.numbers.split_first() {
            Some((number, after)) => {
                self.numbers = after;
                *number
            }
            None => Number::Whole(0),
        }
    }
}

/// The pairs of a document, with codes.
#[cycle(coding)]
fn code_pairs(
    alloc: Global,
    kind: Pairs,
    wholes: TreeParts<'_>,
    texts: TreeParts<'_>,
    table: &Table,
    longs: Longs,
    rest: &mut Rest<'_>,
) -> Result<Option<Document>, NoMemory>
    ensures { IfOk result (GivesPairs (worths table.now) longs kind rest.old.numbers.now
        (fields_of (node_parts wholes.entry)) (fields_of (node_parts texts.entry))
        rest.new.numbers.now) }
{
    let mut coded = Document::new(alloc);
    let mut whole_rest = wholes;
    let mut text_rest = texts;
    while let Some((name, whole, after)) = Tree::next(&whole_rest) {
        let (text, text_after) = beside(whole, text_rest);
        let Some(value) = code_value(alloc, kind.value(name), whole, text, table, longs, rest)?
        else {
            return Ok(None);
        };
        coded.push(String::from_str(alloc, name)?, value)?;
        whole_rest = after;
        text_rest = text_after;
    }
    Ok(Some(coded))
}

/// The elements of an array, with codes.
#[cycle(coding)]
fn code_items(
    alloc: Global,
    role: Role,
    wholes: TreeParts<'_>,
    texts: TreeParts<'_>,
    table: &Table,
    longs: Longs,
    rest: &mut Rest<'_>,
) -> Result<Option<Vec<Value>>, NoMemory>
    ensures { IfOk result (GivesItems (worths table.now) longs role rest.old.numbers.now
        (items_of (values_of (node_parts wholes.entry)))
        (items_of (values_of (node_parts texts.entry)))
        rest.new.numbers.now) }
{
    let mut coded = Vec::new(alloc);
    let mut whole_rest = wholes;
    let mut text_rest = texts;
    while let Some((_, whole, after)) = Tree::next(&whole_rest) {
        let (text, text_after) = beside(whole, text_rest);
        let Some(value) = code_value(alloc, role, whole, text, table, longs, rest)? else {
            return Ok(None);
        };
        coded.push(value)?;
        whole_rest = after;
        text_rest = text_after;
    }
    Ok(Some(coded))
}

/// The first of the parts of the second document, and those after it; the value of the first document if none are left.
fn beside<'a>(whole: Tree<'a>, texts: TreeParts<'a>) -> (Tree<'a>, TreeParts<'a>)
    ensures { IsBeside (node_tree whole.entry) (node_parts texts.entry)
        (node_tree result.0) (node_parts result.1) }
{
    match Tree::next(&texts) {
        Some((_, text, after)) => (text, after),
        None => (whole, texts),
    }
}

/// A value, with codes.
#[cycle(coding)]
fn code_value(
    alloc: Global,
    role: Role,
    whole: Tree<'_>,
    text: Tree<'_>,
    table: &Table,
    longs: Longs,
    rest: &mut Rest<'_>,
) -> Result<Option<Value>, NoMemory>
    ensures { IfOk result (GivesValue (worths table.now) longs role rest.old.numbers.now
        (node_tree whole.entry) (node_tree text.entry) rest.new.numbers.now) }
{
    match whole.kind() {
        Kind::Doc => code_document(alloc, role, whole, alike(whole, text), table, longs, rest),
        Kind::Array => code_array(alloc, role, whole, alike(whole, text), table, longs, rest),
        Kind::CodeScope => code_scoped(alloc, role, whole, alike(whole, text), table, longs, rest),
        _ => code_scalar(alloc, role, whole, text, table, longs, rest),
    }
}

/// The value of the second document if it is of the same kind; otherwise that of the first document.
fn alike<'a>(whole: Tree<'a>, text: Tree<'a>) -> Tree<'a>
    requires { is_holder (kind_of (node_tree whole)) ≡ true }
    ensures kind { kind_of (node_tree result) ≡ kind_of (node_tree whole.entry) }
    ensures tags { HasSameTags (node_tree whole.entry) (node_tree text.entry) (node_tree result) }
{
    if text.kind() == whole.kind() {
        text
    } else {
        whole
    }
}

/// A document, with codes.
#[cycle(coding)]
fn code_document(
    alloc: Global,
    role: Role,
    whole: Tree<'_>,
    text: Tree<'_>,
    table: &Table,
    longs: Longs,
    rest: &mut Rest<'_>,
) -> Result<Option<Value>, NoMemory>
    requires whole { kind_of (node_tree whole) ≡ kinds.Doc }
    requires text { kind_of (node_tree text) ≡ kinds.Doc }
    ensures { IfOk result (GivesValue (worths table.now) longs role rest.old.numbers.now
        (node_tree whole.entry) (node_tree text.entry) rest.new.numbers.now) }
{
    let (wholes, texts) = (whole.parts(), text.parts());
    let kind = role.pairs(&wholes);
    let Some(document) = code_pairs(alloc, kind, wholes, texts, table, longs, rest)? else {
        return Ok(None);
    };
    Ok(Some(Value::Doc(document)))
}

/// An array, with codes.
#[cycle(coding)]
fn code_array(
    alloc: Global,
    role: Role,
    whole: Tree<'_>,
    text: Tree<'_>,
    table: &Table,
    longs: Longs,
    rest: &mut Rest<'_>,
) -> Result<Option<Value>, NoMemory>
    requires whole { kind_of (node_tree whole) ≡ kinds.Array }
    requires text { kind_of (node_tree text) ≡ kinds.Array }
    ensures { IfOk result (GivesValue (worths table.now) longs role rest.old.numbers.now
        (node_tree whole.entry) (node_tree text.entry) rest.new.numbers.now) }
{
    let (wholes, texts) = (whole.parts(), text.parts());
    let Some(items) = code_items(alloc, role.item(), wholes, texts, table, longs, rest)? else {
        return Ok(None);
    };
    Ok(Some(Value::Array(items)))
}

/// Code with scope, with codes.
#[cycle(coding)]
fn code_scoped(
    alloc: Global,
    role: Role,
    whole: Tree<'_>,
    text: Tree<'_>,
    table: &Table,
    longs: Longs,
    rest: &mut Rest<'_>,
) -> Result<Option<Value>, NoMemory>
    requires whole { kind_of (node_tree whole) ≡ kinds.CodeScope }
    requires text { kind_of (node_tree text) ≡ kinds.CodeScope }
    ensures { IfOk result (GivesValue (worths table.now) longs role rest.old.numbers.now
        (node_tree whole.entry) (node_tree text.entry) rest.new.numbers.now) }
{
    let (code, wholes) = code_and_scope(whole);
    let (_, texts) = code_and_scope(text);
    let Some(document) = code_pairs(alloc, role.scope(), wholes, texts, table, longs, rest)? else {
        return Ok(None);
    };
    let code = String::from_str(alloc, code)?;
    Ok(Some(Value::CodeScope(code, document)))
}

/// The code of code with scope, and the pairs of its scope.
fn code_and_scope<'a>(value: Tree<'a>) -> (&'a str, TreeParts<'a>)
    requires { kind_of (node_tree value) ≡ kinds.CodeScope }
    ensures { node_tree value.entry
        ≡ code_scope result.0.now (fields_of (node_parts result.1)) }
{
    let Some(Scalar::CodeScope(code)) = value.scalar() else {
        unreachable!()
    };
    let Some(scope) = value.scope() else {
        unreachable!()
    };
    (code, scope.parts())
}

/// Any other scalar, or a number, with codes.
fn code_scalar(
    alloc: Global,
    role: Role,
    whole: Tree<'_>,
    text: Tree<'_>,
    table: &Table,
    longs: Longs,
    rest: &mut Rest<'_>,
) -> Result<Option<Value>, NoMemory>
    requires { is_holder (kind_of (node_tree whole)) ≡ false }
    ensures { IfOk result (GivesValue (worths table.now) longs role rest.old.numbers.now
        (node_tree whole.entry) (node_tree text.entry) rest.new.numbers.now) }
{
    if is_number(whole, text) {
        return code_number(alloc, role, rest.take(), table, longs);
    }
    match compared_number(role, whole) {
        Some(number) => Ok(Some(code_of(number, table))),
        None => Ok(Some(kept_value(alloc, role, whole, longs)?)),
    }
}

/// A scalar that is not compared with: the class of a type of numbers in a `$type`; any other stays.
fn kept_value(alloc: Global, role: Role, whole: Tree<'_>, longs: Longs) -> Result<Value, NoMemory>
    requires { is_holder (kind_of (node_tree whole)) ≡ false }
    ensures { IfOk result (λ v. tree_of v ≡ kept_at longs role (node_tree whole.entry)) }
{
    if role.is_types() {
        if let Some(name) = class_in(longs, whole) {
            return Ok(Value::Text(String::from_str(alloc, name)?));
        }
    }
    to_value(alloc, whole)
}

/// Whether the two values are the int32 0 and the empty text.
fn is_number(whole: Tree<'_>, text: Tree<'_>) -> bool
    ensures { IsTrue result ↔ (node_tree whole.entry ≡ leaf (trees.int32 (pos 0)))
        × (node_tree text.entry ≡ leaf (trees.text [])) }
{
    is_zero(whole) && is_empty_text(text)
}

/// Whether a value is the int32 0.
fn is_zero(value: Tree<'_>) -> bool
    ensures { IsTrue result ↔ (node_tree value.entry ≡ leaf (trees.int32 (pos 0))) }
{
    matches!(value.scalar(), Some(Scalar::Int32(0)))
}

/// Whether a value is the empty text.
fn is_empty_text(value: Tree<'_>) -> bool
    ensures { IsTrue result ↔ (node_tree value.entry ≡ leaf (trees.text [])) }
{
    match value.scalar() {
        Some(Scalar::Text(contents)) => contents.is_empty(),
        _ => false,
    }
}

/// The number that an int32 or an int64 is, if it is compared with.
fn compared_number(role: Role, whole: Tree<'_>) -> Option<Number>
    requires { is_holder (kind_of (node_tree whole)) ≡ false }
    ensures some { IfSome result (λ n. (table : List ℤ) (longs : Longs) →
        at_role longs (codes_of_tags table) role (node_tree whole.entry)
        ≡ leaf (trees.int64 (code table (worth_of n)))) }
    ensures none { IfNone result ((table : List ℤ) (longs : Longs) →
        at_role longs (codes_of_tags table) role (node_tree whole.entry)
        ≡ kept_at longs role (node_tree whole.entry)) }
{
    if role.is_compared() {
        whole_number(whole)
    } else {
        None
    }
}

/// The number that an int32 or an int64 is.
#[tactic(auto, using(crate::proofs::NumberLemmas::int32_coded, crate::proofs::NumberLemmas::int64_coded))]
fn whole_number(whole: Tree<'_>) -> Option<Number>
    requires { is_holder (kind_of (node_tree whole)) ≡ false }
    ensures some { IfSome result (λ n. (table : List ℤ) →
        renumber (codes_of_tags table) (node_tree whole.entry)
        ≡ leaf (trees.int64 (code table (worth_of n)))) }
    ensures none { IfNone result ((table : List ℤ) →
        renumber (codes_of_tags table) (node_tree whole.entry) ≡ node_tree whole.entry) }
{
    match whole.scalar() {
        Some(Scalar::Int32(z)) => Some(Number::Whole(z as i64)),
        Some(Scalar::Int64(z)) => Some(Number::Whole(z)),
        _ => None,
    }
}

/// A number of a list: its code where it is compared with; None if it is not whole elsewhere.
fn code_number(
    alloc: Global,
    role: Role,
    number: Number,
    table: &Table,
    longs: Longs,
) -> Result<Option<Value>, NoMemory>
    ensures { IfOk result (λ o. MatchOption o
        (Fits (at_role longs (codes_of_tags (worths table.now)) role
        (leaf (trees.int64 (tag number)))) → ⊥)
        (λ v. tree_of v ≡ at_role longs (codes_of_tags (worths table.now)) role
        (leaf (trees.int64 (tag number))))) }
{
    if role.is_compared() {
        tags_stay(number);
        return Ok(Some(code_of(number, table)));
    }
    match number {
        Number::Whole(z) => {
            let whole = Value::Int64(z);
            Ok(Some(kept_value(alloc, role, Tree::Value(&whole), longs)?))
        }
        _ => Ok(None),
    }
}

/// The code of a number.
fn code_of(number: Number, table: &Table) -> Value
    ensures { tree_of result ≡ leaf (trees.int64 (code (worths table.now) (worth_of number))) }
{
    Value::Int64(table.code(number) as i64)
}

/// A tag means its number.
fn tags_stay(number: Number)
    ensures { tagged_number (tag number) ≡ number }
{
    match number {
        Number::Whole(z) => whole_stays(z),
        Number::Double(bits) => double_stays(bits),
        Number::Decimal128(low, high) => decimal128_stays(low, high),
    }
}

/// A whole number is its own tag.
#[tactic(auto, using(crate::proofs::NumberLemmas::whole_tagged))]
fn whole_stays(z: i64)
    ensures { tagged_number z ≡ Whole z }
{}

/// The tag of a double means it.
#[tactic(auto, using(crate::proofs::NumberLemmas::double_tagged))]
fn double_stays(bits: u64)
    ensures { tagged_number (tag (Double bits)) ≡ Double bits }
{}

/// The tag of a decimal128 means it.
#[tactic(auto, using(crate::proofs::NumberLemmas::decimal_tagged))]
fn decimal128_stays(low: u64, high: u64)
    ensures { tagged_number (tag (Decimal128 low high)) ≡ Decimal128 low high }
{}
