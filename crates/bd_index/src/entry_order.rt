//! The entries of an index in the order of a direction.

ghost use Rattle.std.specs.Prelude.{◌≡◌, ◌<◌, ◌≤◌, length};
ghost use Rattle.bd_index.specs.IndexView.{IsIndexOf, IsIndexOf-prop};

use crate::index::Index;
use bd_bson_dump::Dump;

/// The entries of an index that are ahead: upward all of them in turn; downward those with the greatest key first, equal keys
/// in turn.
#[derive(Clone, Copy)]
pub(crate) struct EntryOrder<'a> {
    pub dump: &'a Dump,
    pub index: &'a Index,
    /// The next entry of a run.
    pub next: usize,
    /// The end of that run.
    pub end: usize,
    /// The entries before this one come after the run, downward.
    pub below: usize,
    ghost indexed: { IsIndexOf dump.now index.now } by { IsIndexOf-prop dump.now index.now },
    ghost run: { next ≤ end },
    ghost inside: { end ≤ length index.now.entries.items },
    ghost under: { below ≤ length index.now.entries.items },
}

impl<'a> EntryOrder<'a> {
    ghost use Rattle.std.specs.Prelude.{IfNone, IfSome, [], ◌∷◌};
    ghost use Rattle.bd_index.specs.Walk.{entries_ahead, places_ahead};
    ghost use Rattle.bd_index.specs.Entries.{downward};

    /// All entries in turn.
    pub(crate) fn upward(dump: &'a Dump, index: &'a Index) -> EntryOrder<'a>
        requires { IsIndexOf dump.now index.now }
        ensures { (h : IsIndexOf dump.now index.now) → entries_ahead result ≡ h.keeps.entries }
    {
        EntryOrder {
            dump,
            index,
            next: 0,
            end: index.entries.len(),
            below: 0,
        }
    }

    /// All entries, those with the greatest key first.
    pub(crate) fn downward(dump: &'a Dump, index: &'a Index) -> EntryOrder<'a>
        requires { IsIndexOf dump.now index.now }
        ensures { (h : IsIndexOf dump.now index.now) →
            entries_ahead result ≡ downward h.keeps.entries }
    {
        EntryOrder {
            dump,
            index,
            next: 0,
            end: 0,
            below: index.entries.len(),
        }
    }

    /// The place of the next entry, and the entries after it.
    pub(crate) fn split_first(self) -> Option<(u32, EntryOrder<'a>)>
        ensures none { IfNone result (places_ahead self.entry ≡ []) }
        ensures some { IfSome result (λ r. places_ahead self.entry ≡ r.0 ∷ places_ahead r.1) }
    {
        let order = self.at_entry()?;
        let place = order.index.entries[order.next].place;
        let after = EntryOrder {
            dump: order.dump,
            index: order.index,
            next: order.next + 1,
            end: order.end,
            below: order.below,
        };
        Some((place, after))
    }

    /// The same entries with the next one in the run; None if no entry is ahead.
    fn at_entry(self) -> Option<EntryOrder<'a>>
        ensures none { IfNone result (entries_ahead self.entry ≡ []) }
        ensures some { IfSome result (λ o. o.next < o.end) }
        ensures ahead { IfSome result (λ o. entries_ahead o ≡ entries_ahead self.entry) }
    {
        if self.next < self.end {
            return Some(self);
        }
        if self.below == 0 {
            return None;
        }
        Some(self.at_next_run())
    }

    /// The same entries after the end of a run, with those of the greatest key as the new run.
    fn at_next_run(self) -> EntryOrder<'a>
        requires done { self.end ≤ self.next }
        requires more { 0 < self.below }
        ensures ahead { entries_ahead result ≡ entries_ahead self.entry }
        ensures some { result.next < result.end }
    {
        let start = self.index.run_start(self.dump, self.below);
        EntryOrder {
            dump: self.dump,
            index: self.index,
            next: start,
            end: self.below,
            below: start,
        }
    }
}
