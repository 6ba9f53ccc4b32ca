//! A component of a path.

ghost use Rattle.std.specs.Prelude.{◌≡◌, IfOk, string_bytes};
ghost use Rattle.std.specs.Str.{all_ascii_digits};
ghost use Rattle.bd_path.specs.Reach.{is_index, bounded_index};

use bd_value::NoMemory;
use std::alloc::Global;

/// A name, and the array index in it.
#[derive(Drop)]
pub struct Component {
    pub name: String,
    /// None if the name is not an index; the greatest number if it is beyond the end of every array.
    pub index: Option<usize>,

    ghost known: { index ≡ bounded_index (string_bytes name) },
}

impl Component {
    /// The component of this name. It fails only if memory runs out.
    pub(crate) fn new(alloc: Global, name: &str) -> Result<Self, NoMemory>
        ensures { IfOk result (λ c. string_bytes c.name ≡ name.now) }
    {
        let index = index_of(name);
        let name = String::from_str(alloc, name)?;
        Ok(Component { name, index })
    }
}

/// Whether a name is `0`, or digits of which the first is not 0.
fn is_index(name: &[u8]) -> bool
    ensures { result ≡ is_index name.now }
{
    match name {
        [] => false,
        [digit] => digit.is_ascii_digit(),
        [b'0', ..] => false,
        _ => are_digits(name),
    }
}

fn are_digits(bytes: &[u8]) -> bool
    ensures { result ≡ all_ascii_digits bytes.now }
{
    for byte in bytes {
        if !byte.is_ascii_digit() {
            return false;
        }
    }
    true
}

/// The array index in a name; the greatest number for one beyond the end of every array.
fn index_of(name: &str) -> Option<usize>
    ensures { result ≡ bounded_index name.now }
{
    if !is_index(name.as_bytes()) {
        return None;
    }
    Some(name.parse::<usize>().unwrap_or(usize::MAX))
}
