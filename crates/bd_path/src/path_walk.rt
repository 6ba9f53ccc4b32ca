//! The path walk, for any collector of its stops.

ghost use Rattle.std.specs.Prelude.{◌≡◌, ◌≤◌, ◌<◌, ◌⊎◌, ◌∷◌, [], List, ℕ, suc, Bool, true, false, IsTrue, IsFalse, Option, Some, option_map, is_some, IfSome, IfNone};
ghost use Rattle.std.specs.Prelude.{drop, length, slice_get, string_bytes};
ghost use Rattle.std.specs.List.{list_any};
ghost use Rattle.bd_value.specs.View.{kind_of};
ghost use Rattle.bd_value.specs.Limits.{most_names};
ghost use Rattle.bd_value.specs.Tree.{elements_in};
ghost use Rattle.bd_value.specs.Tree as trees;
ghost use Rattle.bd_value.specs.declared.node.Kind.TheVariants as kinds;
ghost use Rattle.bd_path.specs.Path.{component_names};
ghost use Rattle.bd_path.specs.PathNames.{names_of};
ghost use Rattle.bd_path.specs.Reach.{document_collecting, index_of, is_document, reach};
ghost use Rattle.bd_path.specs.PathWalk.{CollectsNone, IsVisited, Leads, LedTo, Stops, Takes};
ghost use Rattle.bd_path.specs.inside.PathWalk.{IsOpen, IsStopOf, KeepsKnown, TakesOrEnds};
ghost use Rattle.bd_path.specs.PathWalk.{is_open, is_visited, stopping, stops};
ghost use Rattle.bd_path.specs.inside.PathWalk.{is_passed, later_stops, stop_tree};
ghost use Rattle.bd_path.specs.declared.path_walk.Step.TheVariants as steps;
ghost use Rattle.bd_path.specs.declared.path_walk.Stop as stop_type;
ghost use Rattle.bd_path.specs.declared.path_walk.Visits.TheVariants.{From};

use crate::component::Component;
use crate::path::Path;
use bd_value::{Kind, Reading};

/// A test of an end of a path.
pub trait EndTest {
    /// The test, of the tree of an end, or of None if the path reaches no value there.
    ghost passes: { Self → Option trees.Tree → Bool };

    /// Whether an end passes. None means a missing field.
    fn test<N: Reading>(&self, end: Option<N>) -> bool
        ensures { result ≡ passes self.now (option_map N.tree end) };
}

/// Whether some end of a path passes a test. It takes no memory, and stops at the first end that passes.
///
/// The ends of a document are those of its first field of the component's name, or a missing one; those of an array are the
/// ends of each document in it, and those of the element whose index the component is.
pub fn any_end<N: Reading, T: EndTest>(node: N, path: &Path, test: &T) -> bool
    ensures { result ≡ list_any (T.passes test.now) (reach (N.tree node) (names_of path.now)) }
{
    let collector = EndCollector { test };
    !path_walk(&collector, &mut (), node, path)
}

/// Searches an end that passes, and ends the path walk at the first.
#[derive(Drop)]
struct EndCollector<'a, T> {
    test: &'a T,
}

impl<N: Reading, T: EndTest> Collector<N> for EndCollector<'_, T> {
    type Found = ();

    ghost amounts = { λ _ _ _ _. Unit {0} };

    ghost is_new = { λ s _ stop. is_passed (T.passes s.test.now) stop };

    ghost ends = { λ s stop. is_passed (T.passes s.test.now) stop };

    fn take(&self, _found: &mut (), stop: Stop<N>) -> bool
        ensures { (bytes : List ℕ) → IsStopOf N.source bytes stop →
            TakesOrEnds (λ _ _ _. Unit {0}) (λ _. is_passed (T.passes self.now.test.now))
            (is_passed (T.passes self.now.test.now)) result bytes _found.old _found.new
            (stop_tree N.tree stop ∷ []) }
    {
        match stop {
            Stop::Value(node) => !self.test.test(Some(node)),
            Stop::Missing => !self.test.test(None::<N>),
            Stop::NoBranch => true,
        }
    }
}

/// What a path walk collects.
pub(crate) trait Collector<N: Reading> {
    /// What was found.
    type Found;

    /// What was found accounts for these stops, whose values are in these bytes.
    ghost amounts: { Self → Self.Found → List ℕ → Stops → Type 0 };
    /// Whether a stop would change what was found.
    ghost is_new: { Self → Self.Found → stop_type.Stop trees.Tree → Bool };
    /// Whether the path walk may end at a stop.
    ghost ends: { Self → stop_type.Stop trees.Tree → Bool };

    /// Processes a stop, and returns whether the path walk continues.
    fn take(&self, found: &mut Self::Found, stop: Stop<N>) -> bool
        ensures { (bytes : List ℕ) →
            IsStopOf N.source bytes stop → TakesOrEnds (amounts self.now) (is_new self.now)
            (ends self.now) result bytes found.old found.new (stop_tree N.tree stop ∷ []) };
}

/// Walks down a path, and returns whether it reached the end.
pub(crate) fn path_walk<N: Reading, G: Collector<N>>(
    collector: &G,
    found: &mut G::Found,
    node: N,
    path: &Path,
) -> bool
    requires { KeepsKnown (G.amounts collector.now) (G.is_new collector.now) }
    ensures { TakesOrEnds (G.amounts collector.now) (G.is_new collector.now) (G.ends collector.now)
        result (N.source node) found.old found.new (stops (N.tree node) (names_of path.now)) }
{
    let components = path.components();
    path_walk_from(collector, found, node, components, 0, &Visits::Nowhere)
}

/// Walks down the rest of a path, from a component on.
///
/// An array may lead to a value from two positions of the path, and a path that repeats an index in many more ways. So a
/// value is visited once from each position: a second visit finds nothing new.
#[cycle(path_walk)]
fn path_walk_from<N: Reading, G: Collector<N>>(
    collector: &G,
    found: &mut G::Found,
    node: N,
    path: &[Component],
    k: usize,
    visits: &Visits,
) -> bool
    requires within_limit { length path.now ≤ most_names }
    requires at { k ≤ length path.now }
    requires known { KeepsKnown (G.amounts collector.now) (G.is_new collector.now) }
    requires visited { CollectsNone (G.is_new collector.now found.old) stopping
        (N.tree node) (component_names path.now) visits.now }
    ensures { TakesOrEnds (G.amounts collector.now)
        (G.is_new collector.now) (G.ends collector.now) result (N.source node) found.old found.new
        (stops (N.tree node) (drop k (component_names path.now))) }
{
    if visits.has(k) {
        return true;
    }
    if k == path.len() {
        return collector.take(found, Stop::Value(node));
    }
    match node.kind() {
        Kind::Doc => {
            let name = name_at(path, k);
            let Some(value) = node.first(name) else {
                return collector.take(found, Stop::Missing);
            };
            let inside = visits.at_field(path, name);
            path_walk_from(collector, found, value, path, k + 1, &inside)
        }
        Kind::Array => match path_walk_documents(collector, found, node, path, k, visits) {
            None => false,
            Some(has_document) => path_walk_index(
                collector,
                found,
                node,
                path,
                k,
                visits,
                has_document,
            ),
        },
        _ => collector.take(found, Stop::Missing),
    }
}

/// The same in the documents of an array. It returns whether there is one; None if the path walk ended.
#[cycle(path_walk)]
fn path_walk_documents<N: Reading, G: Collector<N>>(
    collector: &G,
    found: &mut G::Found,
    node: N,
    path: &[Component],
    k: usize,
    visits: &Visits,
) -> Option<bool>
    requires within_limit { length path.now ≤ most_names }
    requires at { k < length path.now }
    requires kind { kind_of (N.tree node) ≡ kinds.Array }
    requires known { KeepsKnown (G.amounts collector.now) (G.is_new collector.now) }
    requires visited { CollectsNone (G.is_new collector.now found.old) stopping
        (N.tree node) (component_names path.now) visits.now }
    ensures taken { TakesOrEnds (G.amounts collector.now) (G.is_new collector.now)
        (G.ends collector.now) (is_some result) (N.source node) found.old found.new
        (document_collecting stopping (N.tree node) (drop k (component_names path.now))) }
    ensures has { IfSome result (λ has_document.
        has_document ≡ list_any is_document (elements_in (N.tree node))) }
{
    let mut has_document = false;
    let mut remaining = node.parts();
    for i in 0..usize::MAX {
        let Some(next) = N::next(&remaining) else {
            return Some(has_document);
        };
        if is_document(next.1) {
            let inside = visits.at_document(path, i);
            if !path_walk_from(collector, found, next.1, path, k, &inside) {
                return None;
            }
            has_document = true;
        }
        remaining = next.2;
    }
    // Nothing remains: an array has no more elements than can be counted.
    let _count = node.len();
    Some(has_document)
}

/// The same in the element of an array whose index the component is, after its documents. An array with neither is a stop.
#[cycle(path_walk)]
fn path_walk_index<N: Reading, G: Collector<N>>(
    collector: &G,
    found: &mut G::Found,
    node: N,
    path: &[Component],
    k: usize,
    visits: &Visits,
    has_document: bool,
) -> bool
    requires within_limit { length path.now ≤ most_names }
    requires at { k < length path.now }
    requires kind { kind_of (N.tree node) ≡ kinds.Array }
    requires known { KeepsKnown (G.amounts collector.now) (G.is_new collector.now) }
    requires visited { CollectsNone (G.is_new collector.now found.old) stopping
        (N.tree node) (component_names path.now) visits.now }
    requires documents { list_any (G.is_new collector.now found.old)
        (document_collecting stopping (N.tree node) (drop k (component_names path.now))) ≡ false }
    ensures { TakesOrEnds (G.amounts collector.now)
        (G.is_new collector.now) (G.ends collector.now) result (N.source node) found.old found.new
        (later_stops has_document (N.tree node) (drop k (component_names path.now))) }
{
    match indexed_element(node, &path[k]) {
        Some(indexed) => {
            let inside = visits.at_index(path, k, indexed.0, is_document(indexed.1));
            path_walk_from(collector, found, indexed.1, path, k + 1, &inside)
        }
        None => has_document || collector.take(found, Stop::NoBranch),
    }
}

/// The element of an array whose index a component is, with the index.
fn indexed_element<N: Reading>(node: N, component: &Component) -> Option<(usize, N)>
    requires { kind_of (N.tree node) ≡ kinds.Array }
    ensures index { IfSome result (λ x. (x.0 < usize.MAX)
        × (index_of (string_bytes component.now.name) ≡ Some x.0)) }
    ensures element { IfSome result (λ x.
        slice_get (elements_in (N.tree node)) x.0 ≡ Some (N.tree x.1)) }
    ensures same_source { IfSome result (λ x. N.source x.1 ≡ N.source node) }
    ensures none { IfNone result (IfSome (index_of (string_bytes component.now.name)) (λ i.
        length (elements_in (N.tree node)) ≤ i)) }
{
    match component.index {
        Some(i) if i < node.len() => Some((i, node.element(i))),
        _ => None,
    }
}

/// Whether a value is a document.
pub fn is_document<N: Reading>(node: N) -> bool
    ensures { result ≡ is_document (N.tree node) }
{
    matches!(node.kind(), Kind::Doc)
}

/// The name of the component at a position.
#[inline(always)]
pub(crate) fn name_at(path: &[Component], k: usize) -> &str
    requires { k < length path.now }
    ensures { slice_get (component_names path.now) k ≡ Some result.now }
{
    path[k].name.as_str()
}

/// Where a path walk stops.
#[derive(Clone, Copy)]
pub enum Stop<N> {
    /// A value, at the end of the path.
    Value(N),
    /// A field that is missing.
    Missing,
    /// An array below which the path does not continue.
    NoBranch,
}

/// The positions of a path from which a value was visited before. On most paths a value is visited once, and no set is
/// created.
///
/// They follow from those of the enclosing value, so they exist only on the way down. By them a path walk of one position at
/// a time visits each value once from each position.
#[derive(Drop)]
pub enum Visits {
    Nowhere,
    From(Positions),
}

impl Visits {
    /// Whether the value was visited from a position.
    pub fn has(&self, k: usize) -> bool
        requires { k ≤ most_names }
        ensures { result ≡ is_visited self.now k }
    {
        match self {
            Visits::Nowhere => false,
            Visits::From(positions) => positions.has(k),
        }
    }

    /// The visits of the first field of a name, from those of the document.
    pub fn at_field(&self, path: &[Component], name: &str) -> Visits
        requires { length path.now ≤ most_names }
        ensures { (j : ℕ) → IsVisited result j →
            LedTo (steps.Field name.entry) (component_names path.now) self.now j }
    {
        match self {
            Visits::Nowhere => Visits::Nowhere,
            Visits::From(positions) => Visits::From(positions.after(path, Step::Field(name))),
        }
    }

    /// The visits of a document in an array, from those of the array.
    pub fn at_document(&self, path: &[Component], index: usize) -> Visits
        requires { length path.now ≤ most_names }
        ensures { (j : ℕ) →
            IsVisited result j → LedTo (steps.Element index) (component_names path.now) self.now j
            ⊎ (j < length path.now) × IsVisited self.now j }
    {
        match self {
            Visits::Nowhere => Visits::Nowhere,
            Visits::From(positions) => Visits::From(positions.at_element(path, index, true)),
        }
    }

    /// The visits of the element of an array at an index, from those of the array, whose documents were visited from position
    /// `k` too.
    pub fn at_index(&self, path: &[Component], k: usize, index: usize, is_document: bool) -> Visits
        requires within_limit { length path.now ≤ most_names }
        requires at { k < length path.now }
        ensures { (j : ℕ) →
            IsVisited result j → LedTo (steps.Element index) (component_names path.now) self.now j
            ⊎ (is_document ≡ true) × ((j ≡ k) ⊎ (j < length path.now) × IsVisited self.now j) }
    {
        let mut inside = match self {
            Visits::Nowhere if !is_document => return Visits::Nowhere,
            Visits::Nowhere => Positions::none(),
            Visits::From(positions) => positions.at_element(path, index, is_document),
        };
        if is_document {
            inside.open_at(k);
        }
        Visits::From(inside)
    }
}

/// The positions of the longest path: that of each component, and the end.
const MOST: usize = 101;

/// A step down from a value.
#[derive(Clone, Copy)]
pub enum Step<'a> {
    /// Into the first field of a name.
    Field(&'a str),
    /// Into the element at an index.
    Element(usize),
}

impl Step<'_> {
    /// Whether a component leads along the step.
    fn is_of(self, component: &Component) -> bool
        ensures yes { IsTrue result → Takes self.entry (string_bytes component.now.name) }
        ensures no { IsFalse result → Takes self.entry (string_bytes component.now.name) → ⊥ }
    {
        match self {
            Step::Field(name) => component.name.as_str() == name,
            Step::Element(index) => component.index == Some(index),
        }
    }
}

/// Positions of a path: 0 is the first, before each component, and the last is its end.
#[derive(Drop)]
pub struct Positions {
    are_open: [bool; MOST],
}

impl Positions {
    /// No positions.
    pub fn none() -> Positions
        ensures { (k : ℕ) → is_open result k ≡ false }
    {
        Positions {
            are_open: [false; MOST],
        }
    }

    /// Adds one position.
    pub fn open_at(&mut self, k: usize)
        requires { k ≤ most_names }
        ensures here { IsOpen self.new k }
        ensures stays_open { (j : ℕ) → IsOpen self.old j → IsOpen self.new j }
        ensures only { (j : ℕ) → IsOpen self.new j → (j ≡ k) ⊎ IsOpen self.old j }
    {
        self.are_open[k] = true;
    }

    /// Whether a position is in the set.
    pub fn has(&self, k: usize) -> bool
        requires { k ≤ most_names }
        ensures { result ≡ is_open self.now k }
    {
        self.are_open[k]
    }

    /// Whether a position is in the set and its component leads along the step.
    fn leads(&self, path: &[Component], k: usize, step: Step) -> bool
        requires within_limit { length path.now ≤ most_names }
        requires at { k < length path.now }
        ensures yes { IsTrue result →
            Leads step.entry (component_names path.now) (From self.now) k }
        ensures no { IsFalse result →
            Leads step.entry (component_names path.now) (From self.now) k → ⊥ }
    {
        self.has(k) && step.is_of(&path[k])
    }

    /// The positions after a step.
    fn after(&self, path: &[Component], step: Step) -> Positions
        requires { length path.now ≤ most_names }
        ensures all { (k : ℕ) →
            Leads step.entry (component_names path.now) (From self.now) k → IsOpen result (suc k) }
        ensures only { (k : ℕ) →
            IsOpen result k → LedTo step.entry (component_names path.now) (From self.now) k }
    {
        let mut next = Positions::none();
        for k in 0..path.len() {
            if self.leads(path, k, step) {
                next.open_at(k + 1);
            }
        }
        next
    }

    /// Adds the positions of others that are before an end.
    fn open_before(&mut self, others: &Positions, end: usize)
        requires { end ≤ most_names }
        ensures stays_open { (j : ℕ) → IsOpen self.old j → IsOpen self.new j }
        ensures all { (j : ℕ) → j < end → IsOpen others.now j → IsOpen self.new j }
        ensures only { (j : ℕ) →
            IsOpen self.new j → IsOpen self.old j ⊎ (j < end) × IsOpen others.now j }
    {
        for k in 0..end {
            if others.has(k) {
                self.open_at(k);
            }
        }
    }

    /// The positions at an element of an array. A document in an array is visited from the same positions too.
    pub fn at_element(&self, path: &[Component], index: usize, is_document: bool) -> Positions
        requires { length path.now ≤ most_names }
        ensures stays { is_document ≡ true →
            (k : ℕ) → k < length path.now → IsOpen self.now k → IsOpen result k }
        ensures all { (k : ℕ) →
            Leads (steps.Element index) (component_names path.now) (From self.now) k →
            IsOpen result (suc k) }
        ensures only { (k : ℕ) → IsOpen result k →
            LedTo (steps.Element index) (component_names path.now) (From self.now) k
            ⊎ (is_document ≡ true) × (k < length path.now) × IsOpen self.now k }
    {
        let mut next = self.after(path, Step::Element(index));
        if is_document {
            next.open_before(self, path.len());
        }
        next
    }
}
