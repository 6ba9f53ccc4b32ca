//! Where a path leads in the bytes of a document.

ghost use Rattle.std.specs.Prelude.{◌≡◌, ◌≤◌, ◌+◌, Some, length, drop, string_bytes};
ghost use Rattle.bd_value.specs.Limits.{longest_document};
ghost use Rattle.bd_value.specs.Tree.{Tree};
ghost use Rattle.bd_path.specs.Path.{component_names};
ghost use Rattle.bd_wide_dump.specs.Csv.{field_at, follow, item_at, step_to};
ghost use Rattle.bd_wide_dump.specs.Values.{values_in};
ghost use Rattle.bd_wide_dump.specs.inside.Begins.{HasElements};
ghost use Rattle.bd_wide_dump.specs.inside.Finds.{Finds, IsAt};

use crate::element::element_at;
use crate::fields::array_type;
use bd_bson_view::ElementType;
use bd_path::Component;

/// A value: its type, and the offset of its bytes.
#[derive(Clone, Copy)]
pub(crate) struct Found {
    pub(crate) typed: ElementType,
    pub(crate) start: usize,
}

/// Where names lead from a value. None if there is no such value.
pub(crate) fn follow(names: &[Component], bytes: &[u8], from: Found) -> Option<Found>
    requires short { length bytes.now ≤ longest_document }
    requires value { (tree : Tree) × IsAt bytes.now tree from }
    ensures { (tree : Tree) → IsAt bytes.now tree from →
        Finds bytes.now (follow (Some tree) (component_names names.now)) result }
{
    let mut found = from;
    let mut rest = names;
    while let [name, others @ ..] = rest {
        found = step(name, bytes, found)?;
        rest = others;
    }
    Some(found)
}

/// Where a name leads from a value.
fn step(name: &Component, bytes: &[u8], from: Found) -> Option<Found>
    requires short { length bytes.now ≤ longest_document }
    requires value { (tree : Tree) × IsAt bytes.now tree from }
    ensures { (tree : Tree) → IsAt bytes.now tree from →
        Finds bytes.now (step_to tree (string_bytes name.now.name)) result }
{
    if array_type(from.typed)? {
        return find_item(name.index?, bytes, from.start + 4);
    }
    find_field(name.name.as_str(), bytes, from.start + 4)
}

/// The first field of that name among the elements at an offset.
fn find_field(name: &str, bytes: &[u8], start: usize) -> Option<Found>
    requires short { length bytes.now ≤ longest_document }
    requires elements { HasElements (drop start bytes.now) }
    ensures { (e : HasElements (drop start bytes.now)) →
        Finds bytes.now (field_at name.now e.fields) result }
{
    let mut next = start;
    while let Some(element) = element_at(bytes, next) {
        if element.name == name {
            return Some(Found {
                typed: element.typed,
                start: element.start,
            });
        }
        next = element.next;
    }
    None
}

/// The element at that index among those at an offset.
fn find_item(index: usize, bytes: &[u8], start: usize) -> Option<Found>
    requires short { length bytes.now ≤ longest_document }
    requires elements { HasElements (drop start bytes.now) }
    ensures { (e : HasElements (drop start bytes.now)) →
        Finds bytes.now (item_at (values_in e.fields) index) result }
{
    let mut rest_count = index;
    let mut next = start;
    while let Some(element) = element_at(bytes, next) {
        if rest_count == 0 {
            return Some(Found {
                typed: element.typed,
                start: element.start,
            });
        }
        rest_count -= 1;
        next = element.next;
    }
    None
}
