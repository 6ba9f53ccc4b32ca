//! The documents that have an entry inside bounds: the search for keys of entries, and spans of their positions.

ghost use Rattle.std.specs.Prelude.{◌≡◌, ◌++◌, ◌<◌, ◌≤◌, ◌||◌, ℕ, true, false, not, map, length, slice_index_or, slice_range, IfOk, OnOk};
ghost use Rattle.std.specs.List.{All};
ghost use Rattle.std.specs.List.Sorted.{IsPartitionPoint};
ghost use Rattle.bd_bson_view.specs.Raw.{value_source, value_tree};
ghost use Rattle.bd_bson_dump.specs.Collection.{bytes_of, documents};
ghost use Rattle.bd_index_bounds.specs.Bounds.{intersection, is_among, union};
ghost use Rattle.bd_index_bounds.specs.BoundsView.{keys_between, keys_within, is_before};
ghost use Rattle.bd_index.specs.Entries.{KeyAt};
ghost use Rattle.bd_index.specs.inside.Entries.{IsRun};
ghost use Rattle.bd_index.specs.IndexView.{IsIndexOf, index_is_sparse, index_names};
ghost use Rattle.bd_index.specs.Places.{AreWithin, lent_bounds};
ghost use Rattle.bd_index.specs.inside.Places.{AreInOrder, CoverKeys, is_covered, is_in_span, pieces};

use crate::index::Index;
use bd_bson_dump::Dump;
use bd_bson_view::RawValue;
use bd_index_bounds::{Bounds, Cutoff};
use bd_value::{NoMemory, compare_nodes};
use std::alloc::Global;

/// Documents with an entry inside bounds.
#[derive(Debug, Drop)]
pub struct Places {
    /// The numbers of the documents, ascending.
    pub places: Vec<u32>,
    /// How many entries are inside.
    pub entries: u64,
}

impl Index {
    /// The documents with an entry inside the bounds, and how many entries are inside; without bounds those with an entry. Each
    /// range of the bounds is found by binary search. It fails only if memory runs out.
    pub fn places(
        &self,
        alloc: Global,
        dump: &Dump,
        bounds: Option<&Bounds<'_>>,
    ) -> Result<Places, NoMemory>
        requires { IsIndexOf dump.now self.now }
        ensures { IfOk result (λ x. AreWithin (index_is_sparse self.now) (index_names self.now)
            (documents dump.now) (lent_bounds bounds.entry) x.places.items x.entries) }
    {
        let spans = self.spans(alloc, dump, bounds)?;
        let mut places = self.places_in(alloc, &spans)?;
        let entries = places.len() as u64;
        places.sort_unstable();
        places.dedup();
        Ok(Places { places, entries })
    }

    /// The places of the entries in spans.
    fn places_in(&self, alloc: Global, spans: &[Span]) -> Result<Vec<u32>, NoMemory>
        requires { AreInOrder 0 (length self.now.entries.items) spans.now }
        ensures { IfOk result (λ v.
            v.items ≡ pieces (map (λ e. e.place) self.now.entries.items) spans.now) }
    {
        let mut places = Vec::new(alloc);
        for span in spans {
            self.add_places(&mut places, *span)?;
        }
        Ok(places)
    }

    /// Appends the places of the entries in a span.
    fn add_places(&self, places: &mut Vec<u32>, span: Span) -> Result<(), NoMemory>
        requires order { span.from ≤ span.to }
        requires bound { span.to ≤ length self.now.entries.items }
        ensures { OnOk result (places.new.items ≡ places.old.items
            ++ slice_range (map (λ e. e.place) self.now.entries.items) span.from span.to) }
    {
        for entry in &self.entries[span.from..span.to] {
            places.push(entry.place)?;
        }
        Ok(())
    }

    /// The positions of the entries inside bounds; without bounds of all entries. It fails only if memory runs out.
    fn spans(
        &self,
        alloc: Global,
        dump: &Dump,
        bounds: Option<&Bounds<'_>>,
    ) -> Result<Vec<Span>, NoMemory>
        requires { IsIndexOf dump.now self.now }
        ensures { IfOk result (λ v. (h : IsIndexOf dump.now self.now) →
            CoverKeys h.keeps.entries (is_among (lent_bounds bounds.entry)) v.items) }
    {
        match bounds {
            Some(bounds) => self.spans_within(alloc, dump, bounds),
            None => {
                let to = self.entries.len();
                Ok(vec![in alloc; Span { from: 0, to }]?)
            }
        }
    }

    /// A range takes two searches. If two bounds have an `$in` each, no member of one is combined with each of the other.
    #[cycle(spanning)]
    fn spans_within(
        &self,
        alloc: Global,
        dump: &Dump,
        bounds: &Bounds<'_>,
    ) -> Result<Vec<Span>, NoMemory>
        requires { IsIndexOf dump.now self.now }
        ensures { IfOk result (λ v. (h : IsIndexOf dump.now self.now) →
            CoverKeys h.keeps.entries (keys_within bounds.now) v.items) }
    {
        match bounds {
            Bounds::Range { from, to } => {
                Ok(vec![in alloc; self.span_between(dump, *from, *to)]?)
            }
            Bounds::And(parts) => self.spans_of_all(alloc, dump, parts),
            Bounds::Or(parts) => self.spans_of_any(alloc, dump, parts),
        }
    }

    /// The positions inside at least one of the bounds.
    #[cycle(spanning)]
    fn spans_of_any(
        &self,
        alloc: Global,
        dump: &Dump,
        parts: &[Bounds<'_>],
    ) -> Result<Vec<Span>, NoMemory>
        requires { IsIndexOf dump.now self.now }
        ensures { IfOk result (λ v. (h : IsIndexOf dump.now self.now) →
            CoverKeys h.keeps.entries (union (map keys_within parts.now)) v.items) }
    {
        let mut all = Vec::new(alloc);
        for part in parts {
            let spans = self.spans_within(alloc, dump, part)?;
            all.extend_from_slice(&spans)?;
        }
        let ordered = in_order(alloc, all, self.entries.len())?;
        Ok(ordered)
    }

    /// The positions inside each of the bounds: those in no gap of any.
    #[cycle(spanning)]
    fn spans_of_all(
        &self,
        alloc: Global,
        dump: &Dump,
        parts: &[Bounds<'_>],
    ) -> Result<Vec<Span>, NoMemory>
        requires { IsIndexOf dump.now self.now }
        ensures { IfOk result (λ v. (h : IsIndexOf dump.now self.now) →
            CoverKeys h.keeps.entries (intersection (map keys_within parts.now)) v.items) }
    {
        let count = self.entries.len();
        let mut gaps = Vec::new(alloc);
        for part in parts {
            let spans = self.spans_within(alloc, dump, part)?;
            append_gaps(&mut gaps, &spans, count)?;
        }
        let spans = between_gaps(alloc, gaps, count)?;
        Ok(spans)
    }

    /// The positions of the entries between two cutoffs.
    fn span_between(&self, dump: &Dump, from: Cutoff<'_>, to: Cutoff<'_>) -> Span
        requires { IsIndexOf dump.now self.now }
        ensures order { result.from ≤ result.to }
        ensures bound { result.to ≤ length self.now.entries.items }
        ensures keys { (h : IsIndexOf dump.now self.now) (k : ℕ) (d : KeyAt) →
            k < length h.keeps.entries → is_in_span k result
            ≡ keys_between from.entry to.entry (slice_index_or h.keeps.entries k d).0 }
    {
        let from = self.count_before(dump, from);
        let to = self.count_before(dump, to).max(from);
        Span { from, to }
    }

    /// How many entries are before a cutoff, by binary search.
    fn count_before(&self, dump: &Dump, cutoff: Cutoff<'_>) -> usize
        requires { IsIndexOf dump.now self.now }
        ensures bound { result ≤ length self.now.entries.items }
        ensures parted { (h : IsIndexOf dump.now self.now) →
            IsPartitionPoint (λ e. is_before cutoff.entry e.0 ≡ true) (λ e.
            is_before cutoff.entry e.0 ≡ false) h.keeps.entries result }
    {
        let mut low = 0;
        let mut high = self.entries.len();
        while low < high {
            let middle = low + (high - low) / 2;
            if cutoff.has_before(self.key(dump, middle)) {
                low = middle + 1;
            } else {
                high = middle;
            }
        }
        low
    }

    /// The key of an entry.
    fn key<'a>(&self, dump: &'a Dump, i: usize) -> RawValue<'a>
        requires indexed { IsIndexOf dump.now self.now }
        requires inside { i < length self.now.entries.items }
        ensures key { (h : IsIndexOf dump.now self.now) (d : KeyAt) →
            value_tree result ≡ (slice_index_or h.keeps.entries i d).0 }
        ensures same_source { value_source result ≡ bytes_of dump.now }
    {
        dump.value_at(self.entries[i].key)
    }

    /// Where the entries begin whose keys equal that of the last entry before the end. It compares each of them once.
    pub(crate) fn run_start(&self, dump: &Dump, end: usize) -> usize
        requires indexed { IsIndexOf dump.now self.now }
        requires some { 0 < end }
        requires inside { end ≤ length self.now.entries.items }
        ensures { (h : IsIndexOf dump.now self.now) → IsRun h.keeps.entries result end }
    {
        let last = self.key(dump, end - 1);
        let mut start = end - 1;
        while start > 0 && compare_nodes(self.key(dump, start - 1), last).is_eq() {
            start -= 1;
        }
        start
    }
}

/// The positions from one to before another.
#[derive(Clone, Copy)]
pub(crate) struct Span {
    pub from: usize,
    pub to: usize,
}

/// The positions in at least one of the spans, as spans in order that do not overlap. It fails only if memory runs out.
fn in_order(alloc: Global, mut spans: Vec<Span>, count: usize) -> Result<Vec<Span>, NoMemory>
    requires { All (λ s. s.to ≤ count) spans.items }
    ensures order { IfOk result (λ v. AreInOrder 0 count v.items) }
    ensures same { IfOk result (λ v. (k : ℕ) → is_covered v.items k ≡ is_covered spans.items k) }
{
    spans.sort_unstable_by_key(|span| span.from);
    let mut ordered = Vec::new(alloc);
    let mut end = 0;
    for span in &spans {
        let from = span.from.max(end);
        if from < span.to {
            ordered.push(Span { from, to: span.to })?;
            end = span.to;
        }
    }
    Ok(ordered)
}

/// Appends the positions below a count that are in none of the spans, which are in order. It fails only if memory runs out.
fn append_gaps(gaps: &mut Vec<Span>, spans: &[Span], count: usize) -> Result<(), NoMemory>
    requires order { AreInOrder 0 count spans.now }
    requires below { All (λ s. s.to ≤ count) gaps.old.items }
    ensures below { OnOk result (All (λ s. s.to ≤ count) gaps.new.items) }
    ensures added { OnOk result ((k : ℕ) → k < count → is_covered gaps.new.items k
        ≡ (is_covered gaps.old.items k || not (is_covered spans.now k))) }
{
    let mut from = 0;
    for span in spans {
        let to = span.from;
        gaps.push(Span { from, to })?;
        from = span.to;
    }
    gaps.push(Span { from, to: count })?;
    Ok(())
}

/// The positions below a count that are in no gap, as spans in order. It fails only if memory runs out.
fn between_gaps(alloc: Global, gaps: Vec<Span>, count: usize) -> Result<Vec<Span>, NoMemory>
    requires { All (λ s. s.to ≤ count) gaps.items }
    ensures order { IfOk result (λ v. AreInOrder 0 count v.items) }
    ensures others { IfOk result (λ v. (k : ℕ) →
        k < count → is_covered v.items k ≡ not (is_covered gaps.items k)) }
{
    let outside = in_order(alloc, gaps, count)?;
    let mut spans = Vec::new(alloc);
    append_gaps(&mut spans, &outside, count)?;
    let ordered = in_order(alloc, spans, count)?;
    Ok(ordered)
}
