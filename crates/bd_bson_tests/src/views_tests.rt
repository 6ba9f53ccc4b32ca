//! Each call of a view on every kind, and of its copies in memory.
use crate::samples::{Element, elements, every_kind, is_printed, view};
use bd_bson_view::{Elements, RawDoc, RawValue, type_byte};
use bd_value::{Document, Kind, NoMemory, Node, Reading, Scalar, Tree, to_document, to_value};
use std::alloc::Global;
use std::test::Fail;

/// Whether a field is the element: its name, and each call of its value.
fn is_element<'a, N: Node<'a>>(alloc: Global, name: &str, node: N, element: &Element<'_>) -> bool {
    let (want, bytes, printed) = *element;
    let kind = node.kind();
    let holder = kind == Kind::Doc || kind == Kind::Array;
    let contents = [
        node.scalar().is_none(),
        node.leaf().is_none(),
        node.len() > 0,
    ];
    let finds = [node.scope().is_some(), node.first("x").is_some()];
    name == want
        && bytes.first() == Some(&type_byte(kind))
        && contents == [holder; 3]
        && finds == [kind == Kind::CodeScope, kind == Kind::Doc]
        && is_printed(alloc, node, printed)
}

/// Whether the copy of a node is printed like this.
fn is_copied<N: Reading>(alloc: Global, node: N, printed: &str) -> bool {
    to_value(alloc, node).is_ok_and(|copy| is_printed(alloc, Tree::Value(&copy), printed))
}

/// Whether each call of a node that finds a field gives this one.
fn has_element<'a, N: Node<'a>>(alloc: Global, node: N, i: usize, element: &Element<'_>) -> bool {
    if node.kind() != Kind::Doc || i >= node.len() {
        return false;
    }
    let (pair_name, pair) = node.pair(i);
    let (field_name, field) = node.field(i);
    let Some(first) = node.first(element.0) else {
        return false;
    };
    is_element(alloc, pair_name, pair, element)
        && is_element(alloc, field_name, field, element)
        && is_element(alloc, element.0, first, element)
        && is_copied(alloc, first, element.2)
}

/// The parts of a node after this element, if it is the next of them.
fn part_after<'a, N: Node<'a>>(
    alloc: Global,
    rest: N::Rest,
    element: &Element<'_>,
) -> Option<N::Rest> {
    let (name, value, after) = N::next(&rest)?;
    is_element(alloc, name, value, element).then_some(after)
}

/// Whether the node is the document of every kind, by each call that returns a field.
fn has_every_kind<'a, N: Node<'a>>(alloc: Global, node: N) -> bool {
    if node.kind() != Kind::Doc || node.len() != 19 || node.first("none").is_some() {
        return false;
    }
    let mut rest = node.parts();
    for (i, element) in elements().iter().enumerate() {
        if !has_element(alloc, node, i, element) {
            return false;
        }
        let Some(after) = part_after::<N>(alloc, rest, element) else {
            return false;
        };
        rest = after;
    }
    N::next(&rest).is_none()
}

/// The elements of the array in the document of every kind. A name in it is not a field.
static ITEMS: [(&str, &str); 3] = [
    ("z", r#"{"$numberInt":"7"}"#),
    ("", "null"),
    ("yy", r#"{"$minKey":1}"#),
];

fn items() -> &'static [(&'static str, &'static str)] {
    &ITEMS
}

/// Whether the node has the array and the code with scope of every kind, is not a scalar, and has no scope itself.
fn has_parts<'a, N: Node<'a>>(alloc: Global, node: N) -> bool {
    let (Some(array), Some(code)) = (node.first("a"), node.first("w")) else {
        return false;
    };
    let Some(scope) = code.scope() else {
        return false;
    };
    node.scalar().is_none()
        && node.scope().is_none()
        && is_printed(alloc, scope, r#"{"k":false}"#)
        && matches!(code.scalar(), Some(Scalar::CodeScope("y")))
        && has_items(alloc, array)
}

/// Whether the node is that array.
fn has_items<'a, N: Node<'a>>(alloc: Global, array: N) -> bool {
    if array.kind() != Kind::Array || array.len() != 3 || array.first("z").is_some() {
        return false;
    }
    for (i, (_, printed)) in items().iter().enumerate() {
        if i >= array.len() || !is_printed(alloc, array.element(i), printed) {
            return false;
        }
    }
    true
}

/// Whether each call of a view and of its elements that finds one by its index returns this one.
fn sees_at(alloc: Global, document: RawDoc<'_>, i: usize, element: &Element<'_>) -> bool {
    let all = document.elements();
    if i >= document.len() || i >= all.count() {
        return false;
    }
    let (pair_name, pair) = document.pair(i);
    let (nth_name, nth) = all.nth(i);
    is_element(alloc, pair_name, pair, element) && is_element(alloc, nth_name, nth, element)
}

/// Whether each call of a view and of its elements that finds one by its name returns this one.
fn sees_by_name(alloc: Global, document: RawDoc<'_>, element: &Element<'_>) -> bool {
    let Some(first) = document.first(element.0) else {
        return false;
    };
    let Some(found) = document.elements().find(element.0) else {
        return false;
    };
    is_element(alloc, element.0, first, element)
        && is_element(alloc, element.0, found, element)
        && is_viewed(alloc, found, element.2)
}

/// Whether a view's value has elements exactly if it is not a scalar, and its copy is printed like it.
fn is_viewed(alloc: Global, value: RawValue<'_>, printed: &str) -> bool {
    let copy = value.to_value(alloc);
    value.elements().is_some() == value.scalar().is_none()
        && copy.is_ok_and(|copy| is_printed(alloc, Tree::Value(&copy), printed))
}

/// The elements of a view after this one, if it is the next of `count`.
fn element_after<'a>(
    alloc: Global,
    rest: Elements<'a>,
    count: usize,
    element: &Element<'_>,
) -> Option<Elements<'a>> {
    let (name, value, after) = rest.next()?;
    (rest.count() == count && is_element(alloc, name, value, element)).then_some(after)
}

/// Whether the view has every kind, by each call of the view and of its elements.
fn sees_every_kind(alloc: Global, document: RawDoc<'_>) -> bool {
    if document.is_empty() || document.len() != 19 || document.first("none").is_some() {
        return false;
    }
    let mut rest = document.elements();
    for (i, element) in elements().iter().enumerate() {
        if !sees_at(alloc, document, i, element) || !sees_by_name(alloc, document, element) {
            return false;
        }
        let Some(after) = element_after(alloc, rest, 19_usize.saturating_sub(i), element) else {
            return false;
        };
        rest = after;
    }
    rest.next().is_none() && document.elements().find("none").is_none()
}

/// Whether a document in memory has every kind, by each of its methods.
fn has_every_kind_of_scalar(alloc: Global, document: &Document) -> bool {
    for (i, element) in elements().iter().enumerate() {
        if document.len() != 19 || i >= document.len() {
            return false;
        }
        let (name, value) = document.pair(i);
        let Some(first) = document.first(name) else {
            return false;
        };
        if !is_element(alloc, name, Tree::Value(value), element)
            || !is_element(alloc, name, Tree::Value(first), element)
        {
            return false;
        }
    }
    true
}

/// Whether a document in memory has every kind, by each of its calls and of a node.
fn is_whole(alloc: Global, document: &Document) -> bool {
    let node = Tree::Doc(document);
    has_every_kind_of_scalar(alloc, document)
        && has_every_kind(alloc, node)
        && has_parts(alloc, node)
}

/// Whether the view has that array, with the names in its bytes.
fn sees_items(alloc: Global, document: RawDoc<'_>) -> bool {
    let Some(array) = document.first("a") else {
        return false;
    };
    let Some(mut rest) = array.elements() else {
        return false;
    };
    for (want, printed) in items() {
        let Some((name, value, after)) = rest.next() else {
            return false;
        };
        if name != *want || !is_printed(alloc, value, printed) {
            return false;
        }
        rest = after;
    }
    rest.next().is_none()
}

#[test]
fn reads_views_and_copies_alike(rt: HostRuntime) -> Result<(), Fail> {
    let alloc = rt.alloc();
    let bytes = every_kind(alloc)?;
    let document = view(&rt, alloc, &bytes);
    assert!(rt; sees_every_kind(alloc, document));
    assert!(rt; sees_items(alloc, document));
    assert!(rt; has_every_kind(alloc, document.value()));
    assert!(rt; has_parts(alloc, document.value()));
    let copy = document.to_document(alloc)?;
    assert!(rt; is_whole(alloc, &copy));
    let again = to_document::<Tree<'_>>(alloc, Tree::Doc(&copy).parts())?;
    assert!(rt; is_whole(alloc, &again));
    Ok(())
}

/// Whether the copies of a view without elements have none.
fn has_empty_copies(alloc: Global, empty: RawDoc<'_>) -> Result<bool, NoMemory> {
    let copy = empty.to_document(alloc)?;
    let again = to_value(alloc, Tree::Doc(&copy))?;
    Ok(copy.is_empty() && again.kind() == Kind::Doc && Tree::Value(&again).len() == 0)
}

/// Whether of two elements of one name the first is found.
fn finds_first(alloc: Global, twice: RawDoc<'_>) -> bool {
    let one = r#"{"$numberInt":"1"}"#;
    let (Some(first), Some(found)) = (twice.first("a"), twice.elements().find("a")) else {
        return false;
    };
    twice.len() == 2 && is_printed(alloc, first, one) && is_printed(alloc, found, one)
}

/// Whether there is an array of an array of two and a number.
fn sees_nested(alloc: Global, document: RawDoc<'_>) -> bool {
    let Some(array) = document.first("a") else {
        return false;
    };
    array.len() == 2 && is_printed(alloc, array, "[[null,null],{\"$numberInt\":\"1\"}]")
}

#[test]
fn sees_small_documents(rt: HostRuntime) -> Result<(), Fail> {
    let alloc = rt.alloc();
    let empty = view(&rt, alloc, b"\x05\0\0\0\0");
    assert!(rt; empty.is_empty() && empty.len() == 0 && empty.first("").is_none());
    assert!(rt; empty.elements().next().is_none());
    assert!(rt; has_empty_copies(alloc, empty)?);
    let bytes = b"\x13\0\0\0\x10a\0\x01\0\0\0\x10a\0\x02\0\0\0\0";
    assert!(rt; finds_first(alloc, view(&rt, alloc, bytes)));
    let bytes =
        b"\x22\0\0\0\x04a\0\x1a\0\0\0\x040\0\x0b\0\0\0\x0a0\0\x0a1\0\0\x101\0\x01\0\0\0\0\0";
    assert!(rt; sees_nested(alloc, view(&rt, alloc, bytes)));
    Ok(())
}
