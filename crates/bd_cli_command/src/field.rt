//! The names of commands, their fields, and which values a field may have.

ghost use Rattle.std.specs.Prelude.{◌≡◌, option_map};
ghost use Rattle.bd_value.specs.View.{pairs, tree_of};
ghost use Rattle.bd_cli_command.specs.inside.Command.{hint_read};
ghost use Rattle.bd_cli_command.specs.Field.{command_fields, command_names, count_field, document_field, entry_of, find_fields, fits_field};
ghost use Rattle.bd_cli_command.specs.Field.{hint_field, index_field, text_field, truth_field};

use bd_value::{Document, Scalar, Value};

/// The name of a command.
#[derive(Clone, Copy, Debug, PartialEq, Eq)]
pub enum CommandName {
    CreateIndex,
    DropIndex,
    Find,
    Resume,
    GetMore,
    KillCursor,
    Explain,
}

impl CommandName {
    /// The command of that name.
    pub(crate) fn from_name(name: &str) -> Option<CommandName>
        ensures { result ≡ entry_of name.now command_names }
    {
        match name {
            "createIndex" => Some(CommandName::CreateIndex),
            "dropIndex" => Some(CommandName::DropIndex),
            "find" => Some(CommandName::Find),
            "resume" => Some(CommandName::Resume),
            "getMore" => Some(CommandName::GetMore),
            "killCursor" => Some(CommandName::KillCursor),
            "explain" => Some(CommandName::Explain),
            _ => None,
        }
    }

    /// Which values a field may have, the first one included; None if the command has no such field.
    pub(crate) fn field_kind(self, field: &str) -> Option<FieldKind>
        ensures { result ≡ entry_of field.now (command_fields self) }
    {
        match (self, field) {
            (CommandName::CreateIndex, "createIndex") => Some(FieldKind::Text),
            (CommandName::CreateIndex, "sparse") => Some(FieldKind::Truth),
            (CommandName::DropIndex, "dropIndex") => Some(FieldKind::Text),
            (CommandName::Find, "find") => Some(FieldKind::Document),
            (CommandName::Resume, "resume") => Some(FieldKind::Text),
            (CommandName::Resume, "filter") => Some(FieldKind::Document),
            (CommandName::GetMore, "getMore" | "batch") => Some(FieldKind::Count),
            (CommandName::KillCursor, "killCursor") => Some(FieldKind::Count),
            (CommandName::Explain, "explain") => Some(FieldKind::Document),
            (CommandName::Find, _) => find_field_kind(field),
            (CommandName::Resume, _) => find_field_kind(field),
            (CommandName::Explain, _) => find_field_kind(field),
            _ => None,
        }
    }
}

/// Which values a field may have that all searching commands share.
fn find_field_kind(field: &str) -> Option<FieldKind>
    ensures { result ≡ entry_of field.now find_fields }
{
    match field {
        "sort" => Some(FieldKind::Document),
        "skip" | "limit" => Some(FieldKind::Count),
        "use" => Some(FieldKind::Hint),
        _ => None,
    }
}

/// Which values a field may have.
#[derive(Clone, Copy, Debug, PartialEq, Eq)]
pub enum FieldKind {
    /// A text.
    Text,
    /// A boolean.
    Truth,
    /// A document.
    Document,
    /// A whole number, 0 or greater.
    Count,
    /// One of the forms of `use`.
    Hint,
}

impl FieldKind {
    /// Whether a value is of this kind.
    pub(crate) fn fits(self, value: &Value) -> bool
        ensures { result ≡ fits_field self (tree_of value.now) }
    {
        match self {
            FieldKind::Text => text_in(value).is_some(),
            FieldKind::Truth => truth_in(value).is_some(),
            FieldKind::Document => document_in(value).is_some(),
            FieldKind::Count => count_in(value).is_some(),
            FieldKind::Hint => hint_in(value).is_some(),
        }
    }
}

/// A form of `use`.
#[derive(Clone, Copy)]
pub enum HintForm<'a> {
    Auto,
    Scan,
    Index(&'a str),
}

/// A text.
pub(crate) fn text_in(value: &Value) -> Option<&str>
    ensures { option_map (λ s. s.now) result ≡ text_field (tree_of value.now) }
{
    match value.scalar() {
        Some(Scalar::Text(text)) => Some(text),
        _ => None,
    }
}

/// A boolean.
pub(crate) fn truth_in(value: &Value) -> Option<bool>
    ensures { result ≡ truth_field (tree_of value.now) }
{
    match value.scalar() {
        Some(Scalar::Bool(truth)) => Some(truth),
        _ => None,
    }
}

/// A document.
pub(crate) fn document_in(value: &Value) -> Option<&Document>
    ensures { option_map (λ d. pairs d.now) result ≡ document_field (tree_of value.now) }
{
    match value {
        Value::Doc(document) => Some(document),
        _ => None,
    }
}

/// A whole number, 0 or greater.
pub(crate) fn count_in(value: &Value) -> Option<u64>
    ensures { result ≡ count_field (tree_of value.now) }
{
    match value.scalar() {
        Some(Scalar::Int32(number)) if number >= 0 => Some(number as u64),
        Some(Scalar::Int64(number)) if number >= 0 => Some(number as u64),
        _ => None,
    }
}

/// A form of `use`.
pub(crate) fn hint_in(value: &Value) -> Option<HintForm<'_>>
    ensures { option_map hint_read result ≡ hint_field (tree_of value.now) }
{
    if let Some(document) = document_in(value) {
        return Some(HintForm::Index(index_in(document)?));
    }
    match text_in(value) {
        Some("auto") => Some(HintForm::Auto),
        Some("scan") => Some(HintForm::Scan),
        _ => None,
    }
}

/// The path of `{"index":path}`.
fn index_in(document: &Document) -> Option<&str>
    ensures { option_map (λ s. s.now) result ≡ index_field (pairs document.now) }
{
    if document.len() != 1 {
        return None;
    }
    let (name, value) = document.pair(0);
    match name {
        "index" => text_in(value),
        _ => None,
    }
}
