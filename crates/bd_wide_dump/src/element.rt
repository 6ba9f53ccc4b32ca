//! The next element of a document, whose bytes are known to spell one.

ghost use Rattle.std.specs.Prelude.{◌≡◌, ◌<◌, ◌≤◌, ◌+◌, length, drop, IfSome, IfNone};
ghost use Rattle.bd_value.specs.Limits.{longest_document};
ghost use Rattle.bd_value.specs.Tree.{no_fields};
ghost use Rattle.bd_wide_dump.specs.inside.Begins.{HasElements, HasSize, IsElement, wide_size};

use bd_bson_view::{ElementType, element_type, raw_parts as parts};

/// An element: the offset of its value, and that of the next element.
#[derive(Clone, Copy)]
pub(crate) struct Element<'a> {
    pub(crate) typed: ElementType,
    pub(crate) name: &'a str,
    pub(crate) start: usize,
    pub(crate) next: usize,
}

/// The element at that offset; None at the end.
#[inline(always)]
pub(crate) fn element_at(bytes: &[u8], at: usize) -> Option<Element<'_>>
    requires short { length bytes.now ≤ longest_document }
    requires elements { HasElements (drop at bytes.now) }
    ensures some { (e : HasElements (drop at bytes.now)) → IfSome result (λ x.
        IsElement bytes.now at e.fields x.typed x.name.now x.start x.next) }
    ensures none { (e : HasElements (drop at bytes.now)) → IfNone result (e.fields ≡ no_fields) }
{
    let byte = bytes[at];
    if byte == 0 {
        return None;
    }
    let (_, tail) = bytes.split_at(at + 1);
    let (name, here) = parts::name(tail);
    // Beside the size, so that both take one jump.
    let Some(typed) = element_type(byte) else {
        unreachable!()
    };
    let start = at + name.len() + 2;
    let next = start + size(typed, here);
    Some(Element {
        typed,
        name,
        start,
        next,
    })
}

/// How many bytes the value at the start takes.
#[inline(always)]
fn size(typed: ElementType, bytes: &[u8]) -> usize
    requires { HasSize typed bytes.now }
    ensures { result ≡ wide_size typed bytes.now }
{
    match typed {
        ElementType::Double => 8,
        ElementType::Decimal128 => 16,
        ElementType::Kept(kind) => parts::size(kind, bytes),
    }
}
