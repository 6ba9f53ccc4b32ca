//! Guesses at the indexes of numbers in a row, for one who looks them up in the order in which they were added.

use std::alloc::Global;
use std::cell::Cell;

/// The keys of numbers in the order in which they were added, and then the index of each in the row. Nothing rests on them: a number that
/// no guess finds is searched.
#[derive(Drop)]
pub(crate) struct Order {
    /// Keys, and once there is a row, indexes in it.
    entries: Vec<u64>,
    /// The keys of a part, sorted.
    part: Vec<Added>,
    /// Whether all keys are here.
    is_kept: bool,
    /// Which number is looked up next.
    next: Cell<usize>,
}

/// A key, and how many were added before it.
#[derive(Clone, Copy, Drop)]
struct Added {
    key: u64,
    at: usize,
}

/// If each key is there more often than this, the order is not kept: a small row is found fast without.
const MOST_REPEATS: usize = 4;

/// Fewer keys are always kept.
const LEAST: usize = 4096;

/// The keys are sorted in this number of parts, which takes less memory.
const PARTS: usize = 8;

/// How many numbers are read at once.
const AHEAD: usize = 16;

impl Order {
    /// No numbers.
    pub(crate) fn new(alloc: Global) -> Order {
        Order {
            entries: Vec::new(alloc),
            part: Vec::new(alloc),
            is_kept: true,
            next: Cell::new(0),
        }
    }

    /// Whether there is a guess for each number that was added.
    pub(crate) fn is_kept(&self) -> bool {
        self.is_kept
    }

    /// Adds a number with a key. If memory runs out, the order is lost.
    pub(crate) fn add(&mut self, key: u64) {
        if self.is_kept && self.entries.push(key).is_err() {
            self.give_up();
        }
    }

    /// Drops the order.
    pub(crate) fn give_up(&mut self) {
        self.is_kept = false;
        free(&mut self.entries);
    }

    /// Drops the order if there are few distinct numbers in it.
    pub(crate) fn drop_if_few(&mut self, distinct: usize) {
        if self.entries.len() > LEAST && self.entries.len() / MOST_REPEATS > distinct {
            self.give_up();
        }
    }

    /// Notes the indexes of the numbers in a row with these keys, in order: of several with one key the first. If memory runs out, the
    /// order is lost.
    pub(crate) fn note_all(&mut self, keys: &[u64]) {
        let count = (self.entries.len() / PARTS).saturating_add(LEAST);
        for part in 0..PARTS {
            self.note_part(keys, part.saturating_mul(count), count);
        }
        free(&mut self.part);
    }

    /// The same for `count` of the numbers, from `start` on.
    fn note_part(&mut self, keys: &[u64], start: usize, count: usize) {
        self.part.clear();
        let end = start.saturating_add(count).min(self.entries.len());
        for at in start..end {
            let key = match self.entries.get(at) {
                Some(key) => *key,
                None => return,
            };
            if self.part.push(Added { key, at }).is_err() {
                self.give_up();
                return;
            }
        }
        self.part.sort_unstable_by_key(|added| added.key);
        let mut index = 0;
        for added in &self.part {
            index = index_from(keys, index, added.key);
            if let Some(entry) = self.entries.get_mut(added.at) {
                *entry = index as u64;
            }
        }
    }

    /// A guess at the index of the number that is looked up next.
    pub(crate) fn guess(&self) -> Option<usize> {
        Some(*self.entries.get(self.next.get())? as usize)
    }

    /// Notes that the guess was right.
    pub(crate) fn advance(&self) {
        self.next.set(self.next.get().wrapping_add(1));
    }

    /// Now and then the guesses for the next numbers, which are to be read at once.
    pub(crate) fn ahead(&self) -> &[u64] {
        let next = self.next.get();
        if next % AHEAD != 0 {
            return &[];
        }
        let end = next.saturating_add(AHEAD).min(self.entries.len());
        match self.entries.get(next..end) {
            Some(entries) => entries,
            None => &[],
        }
    }
}

/// The index of the first key, from an index on, that is not less than another one.
fn index_from(keys: &[u64], start: usize, key: u64) -> usize {
    for index in start..keys.len() {
        if keys[index] >= key {
            return index;
        }
    }
    keys.len()
}

/// Drops all items, and their memory.
fn free<T: Drop>(items: &mut Vec<T>) {
    items.clear();
    items.shrink_to_fit();
}
