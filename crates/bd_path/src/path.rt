//! Paths, and why a text is not a path.

ghost use Rattle.std.specs.Prelude.{◌≡◌, ◌<◌, ◌≤◌, ◌⊎◌, [], length, map, slice_get, string_bytes, Some, Ok, Err, IfOk, IfErr, MatchResult};
ghost use Rattle.std.specs.{List.list_any, Str.bytes_eq};
ghost use Rattle.bd_value.specs.Limits.{most_names};
ghost use Rattle.bd_path.specs.Path.{component_names, components_of, path_fault_number, path_fault_words, path_of};
ghost use Rattle.bd_path.specs.declared.path.PathFault.{PathFault};
ghost use Rattle.bd_path.specs.declared.path.PathFault.TheVariants as faults;

use crate::component::Component;
use bd_value::{MOST_NAMES, NoMemory};
use std::alloc::{AllocError, AllocFailed, Global};
use std::error::Error;
use std::fmt::{self, Display, Formatter, Write};

/// A path: one to a hundred names, none empty, with a full stop between them.
#[derive(Drop)]
pub struct Path {
    text: String,
    components: Vec<Component>,

    ghost split_path: { component_names components.items ≡ components_of (string_bytes text) },
    ghost within_limit: { length components.items ≤ most_names },
}

impl Path {
    ghost use Rattle.bd_path.specs.PathNames.{names_of, path_text};

    /// Parses a path from a text. It fails if there are more than 100 components, else if one is empty, or if memory runs out.
    pub fn parse(alloc: Global, text: &str) -> Result<Path, PathFault>
        ensures path { IfOk result (λ p. path_of text.now ≡ Ok (names_of p)) }
        ensures text { IfOk result (λ p. path_text p ≡ text.now) }
        ensures fault { IfErr result (λ fault. (fault ≡ faults.NoMemory)
            ⊎ (path_of text.now ≡ Err fault)) }
        // A text that is no path is refused as such, since it takes no memory.
        ensures refused { (fault : PathFault) → path_of text.now ≡ Err fault → result ≡ Err fault }
    {
        Path::check(text)?;
        let names = split_path(alloc, text)?;
        let components = named(alloc, &names)?;
        let text = String::from_str(alloc, text)?;
        Ok(Path { text, components })
    }

    /// Why a text is not a path: there are more than 100 components, else one is empty. It takes no memory.
    pub fn check(text: &str) -> Result<(), PathFault>
        ensures { MatchResult result (λ _. path_of text.now ≡ Ok (components_of text.now))
            (λ fault. path_of text.now ≡ Err fault) }
    {
        if count_names(text) > MOST_NAMES {
            return Err(PathFault::TooLong);
        }
        if has_empty(text) {
            return Err(PathFault::EmptyComponent);
        }
        Ok(())
    }

    /// A copy of the path; no text is parsed again. It fails only if memory runs out.
    pub fn try_copy(&self, alloc: Global) -> Result<Path, NoMemory>
        ensures names { IfOk result (λ p. names_of p ≡ names_of self.now) }
        ensures text { IfOk result (λ p. path_text p ≡ path_text self.now) }
    {
        let components = copied(alloc, &self.components)?;
        let text = String::from_str(alloc, self.text.as_str())?;
        Ok(Path { text, components })
    }

    /// How many components it has: 1 to 100. It takes no memory.
    pub fn len(&self) -> u32
        ensures { result ≡ length (names_of self.now) }
    {
        self.components.len() as u32
    }

    /// The component at an index, counted from 0. It takes no memory.
    pub fn component(&self, i: u32) -> &str
        requires { i < length (names_of self.now) }
        ensures { slice_get (names_of self.now) i ≡ Some result.now }
    {
        self.components[i as usize].name.as_str()
    }

    /// All of them. It takes no memory.
    pub fn components(&self) -> &[Component]
        ensures { component_names result.now ≡ names_of self.now }
    {
        &self.components
    }

    /// The text that it was parsed from. It takes no memory.
    pub fn as_str(&self) -> &str
        ensures { result.now ≡ path_text self.now }
    {
        self.text.as_str()
    }
}

/// The names between the full stops of a text. It fails only if memory runs out.
fn split_path(alloc: Global, text: &str) -> Result<Vec<&str>, NoMemory>
    ensures { IfOk result (λ v. map (λ name. name.now) v.items ≡ components_of text.now) }
{
    text.split('.').collect(alloc)
}

/// How many names there are between the full stops of a text.
fn count_names(text: &str) -> usize
    ensures { result ≡ length (components_of text.now) }
{
    text.split('.').count()
}

/// Whether one of them is empty.
fn has_empty(text: &str) -> bool
    ensures { result ≡ list_any (bytes_eq []) (components_of text.now) }
{
    text.split('.').any(|name| name.is_empty())
}

/// The components of these names. It fails only if memory runs out.
fn named(alloc: Global, names: &[&str]) -> Result<Vec<Component>, NoMemory>
    ensures { IfOk result (λ v. component_names v.items ≡ map (λ name. name.now) names.now) }
{
    let mut components = Vec::new(alloc);
    for name in names {
        components.push(Component::new(alloc, name)?)?;
    }
    Ok(components)
}

/// A copy of the components. It fails only if memory runs out.
fn copied(alloc: Global, components: &[Component]) -> Result<Vec<Component>, NoMemory>
    ensures { IfOk result (λ v. component_names v.items ≡ component_names components.now) }
{
    let mut copies = Vec::new(alloc);
    for component in components {
        let name = String::from_str(alloc, component.name.as_str())?;
        let index = component.index;
        copies.push(Component { name, index })?;
    }
    Ok(copies)
}

/// Why a text is not a path.
#[derive(Clone, Copy, Debug, Drop, PartialEq, Eq)]
pub enum PathFault {
    /// A full stop is first, last or after another, or the text is empty.
    EmptyComponent = 1,
    /// There are more than 100 components, whether one is empty or not.
    TooLong = 2,
    /// Memory ran out.
    NoMemory = 3,
}

impl Error for PathFault {}

impl Display for PathFault {
    /// Writes the message.
    fn fmt<W: Write>(&self, out: &mut Formatter<W>) -> fmt::Result {
        out.write_str(self.words())
    }
}

/// The messages, by number, from 1 on.
const FAULT_WORDS: [&str; 3] = ["empty component", "too many components", "no memory"];

impl PathFault {
    /// The message.
    #[tactic(auto, unfolding(crate::specs::Path::path_fault_words))]
    pub fn words(self) -> &'static str
        ensures { result.now ≡ path_fault_words self }
    {
        FAULT_WORDS[self as usize - 1]
    }

    /// The number of the fault in a reply, 1 or 2; 3 for out of memory.
    pub fn number(self) -> u32
        ensures { result ≡ path_fault_number self }
    {
        self as u32
    }
}

impl From<AllocError> for PathFault {
    ghost from_gives = { λ _ fault. fault ≡ faults.NoMemory };

    fn from(_error: AllocError) -> PathFault {
        PathFault::NoMemory
    }
}

impl<T: Drop> From<AllocFailed<T>> for PathFault {
    ghost from_gives = { λ _ fault. fault ≡ faults.NoMemory };

    fn from(_error: AllocFailed<T>) -> PathFault {
        PathFault::NoMemory
    }
}
