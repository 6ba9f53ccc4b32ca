//! What a value of a query is: whether it is compared with.

ghost use Rattle.std.specs.Prelude.{◌≡◌, option_map};
ghost use Rattle.bd_value.specs.Tree.{fields_of};
ghost use Rattle.bd_value.specs.View.{node_parts};
ghost use Rattle.bd_query_filter.specs.FilterOf.{first_is_operator, has_value_form};
ghost use Rattle.bd_query_filter.specs.NameKind.{begins_with_dollar, known_operator, name_kind_of};
ghost use Rattle.bd_wide_query.specs.inside.Role.{is_compared, is_types, item_role, meaning_of, pairs_in, scope_pairs, value_role};

use bd_value::{Reading, Tree, TreeParts};

/// The role of a value.
#[derive(Clone, Copy)]
pub(crate) enum Role {
    /// The operand of `$and`, `$or` or `$nor`.
    Filters,
    /// A member of that operand.
    Filter,
    /// The value of a path: operators, or a value to equal.
    Value,
    /// The operand of `$not`.
    Inverse,
    /// The operand of `$elemMatch`.
    Element,
    /// A value that is compared with, or a part of one.
    Compared,
    /// The operand of `$type`, or a member of it.
    Types,
    /// Any other value.
    Other,
}

/// What the pairs of a document are.
#[derive(Clone, Copy)]
pub(crate) enum Pairs {
    /// Paths, and `$and`, `$or` and `$nor`.
    Filter,
    /// Operators.
    Operators,
    /// Parts of a value that is compared with.
    Compared,
    /// Any other pairs.
    Other,
}

/// The meaning of a name, as far as it matters for the role of its value.
#[derive(Clone, Copy)]
pub(crate) enum Meaning {
    /// `$and`, `$or` and `$nor`.
    Logical,
    /// An operator that compares with its operand.
    Compares,
    /// `$not`.
    Not,
    /// `$elemMatch`.
    ElemMatch,
    /// `$type`.
    Types,
    /// Another name that begins with a dollar sign, as `$size`.
    Other,
    /// A path.
    Field,
}

/// The operators that are supported.
const OPERATORS: [(&str, Meaning); 17] = [
    ("$and", Meaning::Logical),
    ("$or", Meaning::Logical),
    ("$nor", Meaning::Logical),
    ("$eq", Meaning::Compares),
    ("$ne", Meaning::Compares),
    ("$gt", Meaning::Compares),
    ("$gte", Meaning::Compares),
    ("$lt", Meaning::Compares),
    ("$lte", Meaning::Compares),
    ("$in", Meaning::Compares),
    ("$nin", Meaning::Compares),
    ("$all", Meaning::Compares),
    ("$size", Meaning::Other),
    ("$exists", Meaning::Other),
    ("$type", Meaning::Types),
    ("$not", Meaning::Not),
    ("$elemMatch", Meaning::ElemMatch),
];

/// The meaning of a name.
fn meaning_of_name(name: &str) -> Meaning
    ensures { result ≡ meaning_of (name_kind_of name.now) }
{
    if begins_with_dollar(name) {
        operator(name).unwrap_or(Meaning::Other)
    } else {
        Meaning::Field
    }
}

/// The meaning of the name of an operator that is supported.
fn operator(name: &str) -> Option<Meaning>
    ensures { result ≡ option_map meaning_of (known_operator name.now) }
{
    OPERATORS.iter().find(|row| row.0 == name).map(|row| row.1)
}

/// Whether a name begins as an operator does.
fn begins_with_dollar(name: &str) -> bool
    ensures { result ≡ begins_with_dollar name.now }
{
    match name.as_bytes().first() {
        Some(byte) => *byte == b'$',
        None => false,
    }
}

/// Whether the first of the pairs is an operator.
fn first_is_operator(parts: &TreeParts<'_>) -> bool
    ensures { result ≡ first_is_operator (fields_of (node_parts parts.now)) }
{
    match Tree::next(parts) {
        Some((name, _, _)) => begins_with_dollar(name),
        None => false,
    }
}

/// Whether the pairs, the operand of `$elemMatch`, are operators, and not a filter.
fn has_value_form(parts: &TreeParts<'_>) -> bool
    ensures { result ≡ has_value_form (fields_of (node_parts parts.now)) }
{
    match Tree::next(parts) {
        Some((name, _, _)) => !matches!(meaning_of_name(name), Meaning::Logical | Meaning::Field),
        None => false,
    }
}

impl Role {
    /// Whether a number here is compared with.
    pub(crate) fn is_compared(self) -> bool
        ensures { result ≡ is_compared self }
    {
        matches!(self, Role::Value | Role::Compared)
    }

    /// Whether types are here.
    pub(crate) fn is_types(self) -> bool
        ensures { result ≡ is_types self }
    {
        matches!(self, Role::Types)
    }

    /// The role of the elements of an array that is here.
    pub(crate) fn item(self) -> Role
        ensures { result ≡ item_role self }
    {
        match self {
            Role::Filters => Role::Filter,
            Role::Value | Role::Compared => Role::Compared,
            Role::Types => Role::Types,
            _ => Role::Other,
        }
    }

    /// What the pairs of a document are that is here.
    pub(crate) fn pairs(self, parts: &TreeParts<'_>) -> Pairs
        ensures { result ≡ pairs_in self (fields_of (node_parts parts.now)) }
    {
        match self {
            Role::Filter => Pairs::Filter,
            Role::Value if first_is_operator(parts) => Pairs::Operators,
            Role::Value | Role::Compared => Pairs::Compared,
            Role::Inverse => Pairs::Operators,
            Role::Element if has_value_form(parts) => Pairs::Operators,
            Role::Element => Pairs::Filter,
            Role::Filters | Role::Types | Role::Other => Pairs::Other,
        }
    }

    /// What the pairs of the scope of code are that is here.
    pub(crate) fn scope(self) -> Pairs
        ensures { result ≡ scope_pairs self }
    {
        if self.is_compared() {
            Pairs::Compared
        } else {
            Pairs::Other
        }
    }
}

impl Pairs {
    /// The role of the value of a pair, by its name.
    pub(crate) fn value(self, name: &str) -> Role
        ensures { result ≡ value_role self (name_kind_of name.now) }
    {
        match (self, meaning_of_name(name)) {
            (Pairs::Filter, Meaning::Logical) => Role::Filters,
            (Pairs::Filter, _) => Role::Value,
            (Pairs::Operators, Meaning::Compares) => Role::Compared,
            (Pairs::Operators, Meaning::Not) => Role::Inverse,
            (Pairs::Operators, Meaning::ElemMatch) => Role::Element,
            (Pairs::Operators, Meaning::Types) => Role::Types,
            (Pairs::Compared, _) => Role::Compared,
            _ => Role::Other,
        }
    }
}
